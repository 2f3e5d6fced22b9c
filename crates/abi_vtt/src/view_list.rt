//! The views whose groups a VTT points to.

ghost use Rattle.std.specs.Prelude.{◌≡◌, ◌<◌, ◌++◌, ◌∷◌, [], ◌&&◌, ℕ, not, All, IfOk, OnOk, length, filter};
ghost use Rattle.std.specs.List.{flat_map};
ghost use Rattle.cxx_hierarchy.specs.declared.records.Base.{Base};
ghost use Rattle.cxx_hierarchy.specs.declared.records.ClassId.{ClassId};
ghost use Rattle.cxx_subobject.specs.Subobjects.{IsSubobject};
ghost use Rattle.abi_primary.specs.Kinds.{IsDynamic};
ghost use Rattle.abi_vtt.specs.Vtts.{has_vtt, shared_views, sub_views, views, HasDynamicClass};
ghost use Rattle.abi_vtt.specs.invariants.Marks.{AreVirtualMarks, marked};

use crate::marks::{is_marked, virtual_marks};
use cxx_hierarchy::{Base, ClassId, Hierarchy};
use cxx_subobject::listing::longer_path;
use cxx_subobject::{
    Root, Subobject, SubobjectList, list_subobjects, shared_class, subobject_below,
};
use foundation::{NoMemory, Sequence};
use std::alloc::Global;

/// Whether a direct base is not virtual and of a marked class.
pub(crate) fn is_built(marks: &[bool], base: &Base<ClassId>) -> bool
    ensures { result ≡ (not base.now.is_virtual && marked marks.now base.now.class) }
{
    !base.is_virtual && is_marked(marks, base.class)
}

/// Puts the views of a sub-VTT behind others.
fn push_views(
    alloc: Global,
    h: &Hierarchy,
    marks: &[bool],
    x: &Subobject,
    c: ClassId,
    list: &mut SubobjectList,
) -> Result<(), NoMemory>
    requires known { c.0 < length h.now }
    requires marks { AreVirtualMarks h.now (length h.now) marks.now }
    ensures { OnOk result ((n : ℕ) → c.0 < n → list.new ≡ list.old ++ sub_views h.now n x.now c) }
{
    h.keeps();
    let itself = subobject_below(alloc, x, &[])?;
    list.push(itself)?;
    for base in h.class(c).bases.as_slice() {
        if is_built(marks, base) {
            let inner = subobject_below(alloc, x, &[base.class])?;
            push_views(alloc, h, marks, &inner, base.class, list)?;
        }
    }
    Ok(())
}

/// Puts the views of the sub-VTT of a virtual base behind others, where it has virtual bases itself.
fn push_shared(
    alloc: Global,
    h: &Hierarchy,
    marks: &[bool],
    v: ClassId,
    list: &mut SubobjectList,
) -> Result<(), NoMemory>
    requires known { v.0 < length h.now }
    requires marks { AreVirtualMarks h.now (length h.now) marks.now }
    ensures { OnOk result (list.new ≡ list.old ++ flat_map (shared_views h.now) (filter (has_vtt h.now) (v ∷ []))) }
{
    if is_marked(marks, v) {
        let x = Subobject {
            root: Root::Shared(v),
            path: longer_path(alloc, &[v], &[])?,
        };
        push_views(alloc, h, marks, &x, v, list)?;
    }
    Ok(())
}

/// The views of the sub-VTTs of a class, in their order, the whole first. Each has a group that the VTT of the class points
/// to. Where the class is dynamic, so are those of the views.
///
/// Errors: want of memory.
pub fn views(alloc: Global, h: &Hierarchy, c: ClassId) -> Result<SubobjectList, NoMemory>
    requires { c.0 < length h.now }
    ensures list { IfOk result (λ list. list ≡ views h.now c) }
    ensures valid { IfOk result (λ list. All (IsSubobject h.now c) list) }
    ensures dynamic { IfOk result (λ list. IsDynamic h.now c → All (HasDynamicClass h.now) list) }
{
    h.keeps();
    let marks = virtual_marks(alloc, h)?;
    let subobjects = list_subobjects(alloc, h, c)?;
    let whole = Subobject {
        root: Root::Whole,
        path: longer_path(alloc, &[c], &[])?,
    };
    let mut list = Sequence::new(alloc);
    push_views(alloc, h, &marks, &whole, c, &mut list)?;
    for s in subobjects.as_slice() {
        match shared_class(s) {
            Some(v) => push_shared(alloc, h, &marks, v, &mut list)?,
            None => {}
        }
    }
    Ok(list)
}
