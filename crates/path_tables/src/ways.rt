//! How far a path of direct bases leads, in numbers, where it is one.

ghost use Rattle.std.specs.Prelude.{◌≡◌, ◌<◌, not, ◌&&◌, nat_eq, false, MatchOption, length};
ghost use Rattle.cxx_hierarchy.specs.declared.records.ClassId.{ClassId};
ghost use Rattle.cxx_hierarchy.specs.VirtualBases.{IsDirectBase};
ghost use Rattle.cxx_subobject.specs.Subobjects.{Leads, tail_of};
ghost use Rattle.cxx_subobject.specs.Parts.{IsWithinLimits};
ghost use Rattle.path_numbers.specs.Numbers.{AreClassNumbers, base_number, path_number};
ghost use Rattle.path_tables.specs.invariants.Places.{IsBaseAt, IsPathAt};

use cxx_hierarchy::{Base, ClassId, Hierarchy};
use path_numbers::Numbers;

/// Whether a direct base is one that is not virtual, of this class.
fn is_own_base(base: &Base<ClassId>, b: ClassId) -> bool
    ensures { result ≡ (not base.now.is_virtual && nat_eq base.now.class.0 b.0) }
{
    !base.is_virtual && base.class.0 == b.0
}

/// How far a direct base that is not virtual stands behind a part of class c; None where b is none.
fn base_at(h: &Hierarchy, numbers: &Numbers, c: ClassId, b: ClassId) -> Option<u32>
    requires { AreClassNumbers h.now numbers.now }
    ensures { IsBaseAt h.now c b result }
{
    h.keeps();
    if c.0 >= h.len() {
        return None;
    }
    let bases = h.class(c).bases.as_slice();
    for (i, base) in bases.iter().enumerate() {
        if is_own_base(base, b) {
            return Some(numbers.base_offset(c, i));
        }
    }
    None
}

/// How far a path of direct bases that are not virtual leads from a part of class c; None where it is no such path.
pub(crate) fn path_at(h: &Hierarchy, numbers: &Numbers, c: ClassId, path: &[ClassId]) -> Option<u32>
    requires limits { (d : ClassId) → d.0 < length h.now → IsWithinLimits h.now d }
    requires numbers { AreClassNumbers h.now numbers.now }
    ensures { IsPathAt h.now c path.now result }
{
    h.keeps();
    match path {
        [] => Some(0),
        [b, below @ ..] => {
            let first = base_at(h, numbers, c, *b)?;
            let rest = path_at(h, numbers, *b, below)?;
            Some(first + rest)
        }
    }
}

/// The classes of a path below its first.
pub(crate) fn below_first(path: &[ClassId]) -> &[ClassId]
    ensures { result.now ≡ tail_of path.now }
{
    match path {
        [_, below @ ..] => below,
        [] => path,
    }
}
