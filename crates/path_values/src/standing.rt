//! Where a part stands in its complete object, in numbers.

ghost use Rattle.std.specs.Prelude.{◌≡◌, ◌<◌, ◌+◌, ◌%◌, ◌^◌, ℕ};
ghost use Rattle.cxx_hierarchy.specs.Classes.{Classes};
ghost use Rattle.cxx_subobject.specs.Locations.{ObjectPart};
ghost use Rattle.path_model.specs.Values.{Objects};
ghost use Rattle.path_values.specs.Views.{IsPartAt};
ghost use Rattle.path_values.specs.invariants.Standing.{IsBehind, IsStanding};

use cxx_hierarchy::ClassId;
use path_heap::Heap;

/// The number and the class of a part's complete object, and within it the numbers of the part and of the view, if there is
/// one.
#[derive(Clone, Copy)]
pub(crate) struct Standing {
    pub(crate) whole: u64,
    pub(crate) class: ClassId,
    pub(crate) part: u32,
    pub(crate) view: Option<u32>,
}

/// How many numbers have 32 bits.
const TURN: u64 = 4294967296;

/// How far a number stands behind another of the same heap object, which is less than 2 ^ 32.
pub fn behind(whole: u64, n: u64) -> u32
    ensures { (k : ℕ) → k < 2 ^ 32 → n ≡ whole + k → result ≡ k }
{
    (n.wrapping_sub(whole) % TURN) as u32
}

/// The same of a number that may be there.
fn view_behind(whole: u64, view: Option<u64>) -> Option<u32>
    ensures { IsBehind whole view result }
{
    match view {
        Some(n) => Some(behind(whole, n)),
        None => None,
    }
}

/// The number over all objects that stands this far behind another.
pub(crate) fn number_behind(whole: u64, n: u32) -> u64
    ensures { result ≡ (whole + n) % 2 ^ 64 }
{
    whole.wrapping_add(n as u64)
}

/// Where a part stands.
pub(crate) fn standing_of(heap: &Heap, n: u64) -> Standing
    ensures { (h : Classes) (s : Objects) (p : ObjectPart) → IsPartAt h heap.now s n p → IsStanding h s p result }
{
    let whole = heap.whole(n);
    Standing {
        whole,
        class: heap.owner_class(n),
        part: behind(whole, n),
        view: view_behind(whole, heap.view(n)),
    }
}
