//! Where the bytes of a source come from.

ghost use Rattle.std.specs.Prelude.{ℕ, ◌≡◌, ◌<◌, ◌≤◌, List, Option, length, IfOk, OnErr};
ghost use Rattle.cxxabi_streams.specs.Streams.{Rose, Reads};

use thiserror::Error;

/// The source could not be read. Nothing was taken from it.
#[derive(Debug, Drop, Error)]
#[error("the source could not be read")]
pub struct SourceFailed;

/// A source of bytes, read in pieces.
pub trait Source {
    /// The bytes that are left, where the source tells them.
    ghost remaining: { Self → Option (List ℕ) };

    /// How many faults it has met.
    ghost fault_count: { Self → ℕ };

    /// The number of faults met so far. It stands still at the last number of its type.
    fn faults(&self) -> u64
        ensures { result ≡ fault_count self.now };

    /// Reads the next bytes into the front of a slice that is not empty, and says how many; 0 is the end.
    /// A failed read takes nothing.
    fn read(&mut self, into: &mut [u8]) -> Result<usize, SourceFailed>
        requires { 0 < length into.old }
        ensures within { IfOk result (λ n. n ≤ length into.old) }
        ensures reads { IfOk result (λ n. Reads (remaining self.old) (remaining self.new) n into.new) }
        ensures failed { OnErr result (Rose (fault_count self.old) (fault_count self.new)) }
        ensures kept { OnErr result (remaining self.new ≡ remaining self.old) }
        ensures counts { fault_count self.old ≤ fault_count self.new };
}
