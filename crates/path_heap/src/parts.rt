//! Parts as the events name them.

ghost use Rattle.std.specs.Prelude.{◌≡◌, ◌-◌, ◌%◌, ◌^◌, Some, List, ℕ, slice_get};
ghost use Rattle.cxx_hierarchy.specs.declared.records.ClassId.{ClassId};
ghost use Rattle.cxx_hierarchy.specs.Classes.{Classes};
ghost use Rattle.cxx_hierarchy.specs.Hierarchies.{IsHierarchy};
ghost use Rattle.path_plan.specs.Whole.{whole_part};
ghost use Rattle.path_heap.specs.Points.{Points, StandsForPart};
ghost use Rattle.path_heap.specs.Running.{outer_at};

use crate::state::NumberedPart;
use cxx_hierarchy::ClassId;

/// How many numbers have 16 bits.
const TURN: u64 = 65536;

/// How far a part stands behind its complete object. It is less than 2 ^ 16, since no object has more parts and leaves.
pub(crate) fn back_of(number: u64, whole: u64) -> u16
    ensures { result ≡ (number - whole) % 2 ^ 16 }
{
    (number.saturating_sub(whole) % TURN) as u16
}

/// The number of a part that may stand so far behind its complete object.
pub(crate) fn outer_at(whole: u64, back: Option<u16>) -> Option<u64>
    ensures { result ≡ outer_at whole back }
{
    match back {
        None => None,
        Some(back) => Some(whole.wrapping_add(back as u64)),
    }
}

/// The number of the complete object that a number stands so far behind.
pub(crate) fn whole_behind(n: u64, back: u16) -> u64
    ensures { result ≡ n - back }
{
    n.saturating_sub(back as u64)
}

/// The whole of a heap object of a class, by its number.
pub fn whole_at(number: u64, class: ClassId) -> NumberedPart
    ensures { (h : Classes) (classes : List ClassId) (k : ℕ) → IsHierarchy h → slice_get classes k ≡ Some class → Points h classes number (whole_part k class) → StandsForPart h classes result (whole_part k class) }
{
    NumberedPart {
        number,
        class,
        whole: number,
        owner: class,
    }
}
