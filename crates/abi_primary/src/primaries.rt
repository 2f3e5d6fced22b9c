//! The primary base of a class (Itanium C++ ABI 2.4, II.1).

ghost use Rattle.std.specs.Prelude.{◌≡◌, ◌<◌, ◌≤◌, IfOk, MatchOption, length, position, take};
ghost use Rattle.std.specs.List.{list_any};
ghost use Rattle.cxx_hierarchy.specs.Classes.{bases_of};
ghost use Rattle.cxx_subobject.specs.Subobjects.{class_of};
ghost use Rattle.abi_primary.specs.Kinds.{TellDynamic};
ghost use Rattle.abi_primary.specs.VirtualLists.{ListsVirtual};
ghost use Rattle.abi_primary.specs.PrimaryBase.{IsFirstDynamic, HasNoDynamicBase, is_virtual_primary, has_primary_in, has_primary, is_nearly_root, is_nearly_base, is_taken_root, is_free_base, as_primary, virtual_primary, IsPrimary};

use crate::Primary;
use crate::flags::{dynamic_flags, flag_of};
use crate::listing::list_if_virtual;
use crate::nearly_empty::is_nearly;
use cxx_hierarchy::{ClassId, Hierarchy};
use cxx_subobject::{Root, Subobject};
use foundation::NoMemory;
use std::alloc::Global;

/// The class of the first base of a class that is not virtual and dynamic.
fn first_dynamic(h: &Hierarchy, c: ClassId, dynamic: &[bool]) -> Option<ClassId>
    requires known { c.0 < length h.now }
    requires dynamic { TellDynamic h.now dynamic.now }
    ensures { MatchOption result (HasNoDynamicBase h.now (bases_of h.now c)) (λ b. IsFirstDynamic h.now (bases_of h.now c) b) }
{
    h.keeps();
    let class = h.class(c);
    for base in class.bases.as_slice() {
        if !base.is_virtual {
            if flag_of(dynamic, base.class) {
                return Some(base.class);
            }
        }
    }
    None
}

/// The class of a subobject.
fn class_of(s: &Subobject) -> Option<ClassId>
    ensures { result ≡ class_of s.now }
{
    let path = s.path.as_slice();
    if path.is_empty() {
        None
    } else {
        Some(path[path.len() - 1])
    }
}

fn is_virtual_primary(primary: Primary, v: ClassId) -> bool
    ensures { result ≡ is_virtual_primary primary v }
{
    match primary {
        Primary::Virtual(w) => w.0 == v.0,
        Primary::None | Primary::Direct(_) => false,
    }
}

fn has_primary_in(primaries: &[Primary], v: ClassId, class: Option<ClassId>) -> bool
    ensures { result ≡ has_primary_in primaries.now v class }
{
    match class {
        Some(d) => match primaries.get(d.0 as usize) {
            Some(primary) => is_virtual_primary(*primary, v),
            None => false,
        },
        None => false,
    }
}

/// Whether the virtual base `v` is the primary base of the class of a subobject.
pub(crate) fn has_primary(primaries: &[Primary], v: ClassId, s: &Subobject) -> bool
    ensures { result ≡ has_primary primaries.now v s.now }
{
    has_primary_in(primaries, v, class_of(s))
}

fn is_nearly_root(nearly: &[bool], root: Root) -> bool
    ensures { result ≡ is_nearly_root nearly.now root }
{
    match root {
        Root::Whole => false,
        Root::Shared(v) => is_nearly(nearly, v),
    }
}

/// Whether a subobject is a nearly empty virtual base, itself.
fn is_nearly_base(nearly: &[bool], s: &Subobject) -> bool
    ensures { result ≡ is_nearly_base nearly.now s.now }
{
    s.path.len() == 1 && is_nearly_root(nearly, s.root)
}

/// Whether the virtual base `v` is the primary base of one of these.
fn is_taken(earlier: &[Primary], list: &[Subobject], v: ClassId) -> bool
    ensures { result ≡ list_any (has_primary earlier.now v) list.now }
{
    list.iter().any(|s| has_primary(earlier, v, s))
}

fn is_taken_root(earlier: &[Primary], list: &[Subobject], root: Root) -> bool
    ensures { result ≡ is_taken_root earlier.now list.now root }
{
    match root {
        Root::Whole => false,
        Root::Shared(v) => is_taken(earlier, list, v),
    }
}

/// The number of the first nearly empty virtual base that is the primary base of none of these.
fn first_free(nearly: &[bool], earlier: &[Primary], list: &[Subobject]) -> Option<usize>
    ensures { result ≡ position (is_free_base nearly.now earlier.now list.now) list.now }
{
    list.iter().position(|s| is_nearly_base(nearly, s) && !is_taken_root(earlier, list, s.root))
}

/// The number of the first nearly empty virtual base.
fn first_nearly(nearly: &[bool], list: &[Subobject]) -> Option<usize>
    ensures { result ≡ position (is_nearly_base nearly.now) list.now }
{
    list.iter().position(|s| is_nearly_base(nearly, s))
}

fn as_primary(root: Root) -> Primary
    ensures { result ≡ as_primary root }
{
    match root {
        Root::Whole => Primary::None,
        Root::Shared(v) => Primary::Virtual(v),
    }
}

/// A nearly empty virtual base, as the primary one.
fn virtual_primary(nearly: &[bool], earlier: &[Primary], list: &[Subobject]) -> Primary
    ensures { result ≡ virtual_primary nearly.now earlier.now list.now }
{
    match first_free(nearly, earlier, list) {
        Some(n) => as_primary(list[n].root),
        None => match first_nearly(nearly, list) {
            Some(n) => as_primary(list[n].root),
            None => Primary::None,
        },
    }
}

/// The primary base of a class (Itanium C++ ABI 2.4), where `dynamic` tells which classes are dynamic, `nearly` and
/// `earlier` tell which classes before it are nearly empty and which their primary bases are, and the list has its
/// subobjects in preorder; it may be empty where the class has no virtual base. It takes no memory.
pub fn primary_among(
    h: &Hierarchy,
    c: ClassId,
    dynamic: &[bool],
    nearly: &[bool],
    earlier: &[Primary],
    list: &[Subobject],
) -> Primary
    requires known { c.0 < length h.now }
    requires dynamic { TellDynamic h.now dynamic.now }
    requires list { ListsVirtual h.now c list.now }
    requires before { length earlier.now ≡ c.0 }
    ensures { IsPrimary h.now nearly.now earlier.now c result }
{
    h.keeps();
    match first_dynamic(h, c, dynamic) {
        Some(b) => Primary::Direct(b),
        None => virtual_primary(nearly, earlier, list),
    }
}

/// The primary base of a class (Itanium C++ ABI 2.4), where `nearly` and `earlier` tell of each class before it whether
/// it is nearly empty and which its primary base is; what they tell of later classes does not matter.
///
/// Errors: want of memory.
pub fn primary_base(
    alloc: Global,
    h: &Hierarchy,
    c: ClassId,
    nearly: &[bool],
    earlier: &[Primary],
) -> Result<Primary, NoMemory>
    requires known { c.0 < length h.now }
    requires before { c.0 ≤ length earlier.now }
    ensures { IfOk result (λ primary. IsPrimary h.now nearly.now (take c.0 earlier.now) c primary) }
{
    let before = &earlier[..c.0 as usize];
    let dynamic = dynamic_flags(alloc, h)?;
    let list = list_if_virtual(alloc, h, c)?;
    let primary = primary_among(h, c, &dynamic, nearly, before, list.as_slice());
    Ok(primary)
}
