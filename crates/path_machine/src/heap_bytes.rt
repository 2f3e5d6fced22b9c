//! The bytes of the heap.

ghost use Rattle.std.specs.Prelude.{◌≡◌};
ghost use Rattle.path_model.specs.Runs.{size_in_heap};

/// An object's size in the heap, in bytes: the next multiple of 16.
pub fn rounded(size: u32) -> u64
    ensures { result ≡ size_in_heap size }
{
    (size as u64 + 15) / 16 * 16
}
