//! Nearly empty classes.

ghost use Rattle.std.specs.Prelude.{◌≡◌, ◌<◌, ◌≤◌, ◌↔◌, IsTrue, Contains, count_by, length};
ghost use Rattle.cxx_hierarchy.specs.declared.records.ClassId.{ClassId};
ghost use Rattle.cxx_hierarchy.specs.declared.records.Base.{Base};
ghost use Rattle.abi_primary.specs.Kinds.{TellDynamic};
ghost use Rattle.abi_primary.specs.NearlyEmpty.{is_nearly, is_pointer_base, IsLight, IsNearlyEmpty};

use crate::flags::flag_of;
use crate::kinds::is_empty;
use cxx_hierarchy::{Base, ClassId, Hierarchy};

/// Whether the list says of a class that it is nearly empty.
pub(crate) fn is_nearly(nearly: &[bool], c: ClassId) -> bool
    ensures { result ≡ is_nearly nearly.now c }
{
    flag_of(nearly, c)
}

/// Whether at most one base is not virtual and nearly empty.
fn has_one_pointer(nearly: &[bool], bases: &[Base<ClassId>]) -> bool
    ensures { IsTrue result ↔ (count_by (is_pointer_base nearly.now) bases.now ≤ 1) }
{
    bases
        .iter()
        .filter(|base| !base.is_virtual && is_nearly(nearly, base.class))
        .count()
        <= 1
}

/// Whether each base is virtual, empty or nearly empty.
fn are_light(h: &Hierarchy, nearly: &[bool], bases: &[Base<ClassId>]) -> bool
    requires { (base : Base ClassId) → Contains bases.now base → base.class.0 < length h.now }
    ensures { IsTrue result ↔ ((base : Base ClassId) → Contains bases.now base → IsLight h.now nearly.now base) }
{
    for base in bases {
        if !base.is_virtual && !is_nearly(nearly, base.class) && !is_empty(h, base.class) {
            return false;
        }
    }
    true
}

/// Whether a class is nearly empty: it has a virtual pointer and nothing else, so that another class may share its
/// pointer (Itanium C++ ABI 1.1). `dynamic` says which classes are dynamic, `nearly` which classes before it are nearly
/// empty, and `shifted` whether an empty base of it that lies in no virtual base lies elsewhere than at its start. It
/// takes no memory.
pub fn is_nearly_empty(
    h: &Hierarchy,
    c: ClassId,
    dynamic: &[bool],
    nearly: &[bool],
    shifted: bool,
) -> bool
    requires known { c.0 < length h.now }
    requires dynamic { TellDynamic h.now dynamic.now }
    requires before { c.0 ≤ length nearly.now }
    ensures { IsTrue result ↔ IsNearlyEmpty h.now nearly.now shifted c }
{
    h.keeps();
    let class = h.class(c);
    if shifted {
        return false;
    }
    if class.members.len() > 0 {
        return false;
    }
    if !flag_of(dynamic, c) {
        return false;
    }
    let bases = class.bases.as_slice();
    if !has_one_pointer(nearly, bases) {
        return false;
    }
    are_light(h, nearly, bases)
}
