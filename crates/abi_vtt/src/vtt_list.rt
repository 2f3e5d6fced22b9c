//! The VTT of a class.

ghost use Rattle.std.specs.Prelude.{◌≡◌, ◌<◌, ◌∷◌, [], IfOk, OnOk, length, filter};
ghost use Rattle.std.specs.List.{flat_map};
ghost use Rattle.cxx_hierarchy.specs.declared.records.ClassId.{ClassId};
ghost use Rattle.cxx_hierarchy.specs.VirtualBases.{HasVirtualBase};
ghost use Rattle.abi_sound.specs.Places.{places_of};
ghost use Rattle.abi_vtable.specs.invariants.Kept.{GrowsByViews};
ghost use Rattle.abi_vtt.specs.Vtts.{has_vtt, shared_items, IsVtt};
ghost use Rattle.abi_vtt.specs.invariants.Marks.{AreVirtualMarks};
ghost use Rattle.abi_vtt.specs.invariants.Growing.{GrowsByVttWords};

use crate::marks::{is_marked, virtual_marks};
use crate::sub_vtt::push_sub_vtt;
use abi_slots::{GroupName, VttList};
use abi_sound::SoundLayout;
use abi_vtable::view::ViewList;
use cxx_hierarchy::{ClassId, Hierarchy};
use cxx_subobject::listing::longer_path;
use cxx_subobject::{Root, Subobject, list_subobjects, shared_class};
use foundation::{NoMemory, Sequence};
use std::alloc::Global;

/// Puts the words of the sub-VTT of a virtual base behind others, where it has virtual bases itself.
fn push_shared_vtt<L: SoundLayout>(
    alloc: Global,
    h: &Hierarchy,
    layout: &L,
    marks: &[bool],
    complete: ClassId,
    v: ClassId,
    views: &mut ViewList,
    words: &mut VttList,
) -> Result<(), NoMemory>
    requires layout { L.lays_out layout.now h.now }
    requires marks { AreVirtualMarks h.now (length h.now) marks.now }
    requires known { complete.0 < length h.now }
    requires base { HasVirtualBase h.now complete v }
    ensures words { OnOk result (GrowsByVttWords h.now (places_of h.now (L.rows layout.now)) complete (flat_map (shared_items h.now (places_of h.now (L.rows layout.now))) (filter (has_vtt h.now) (v ∷ []))) words.old words.new) }
    ensures views { OnOk result (GrowsByViews h.now (places_of h.now (L.rows layout.now)) views.old views.new) }
{
    h.keeps();
    if !is_marked(marks, v) {
        return Ok(());
    }
    let name = GroupName {
        complete,
        view: Subobject {
            root: Root::Shared(v),
            path: longer_path(alloc, &[v], &[])?,
        },
    };
    push_sub_vtt(alloc, h, layout, marks, &name, v, views, words)?;
    Ok(())
}

/// The words of the VTT of a class with virtual bases, in their order. The views to whose groups they point are put behind others
/// in the order in which they are listed, so that a caller who wants the groups need not make them again.
///
/// Errors: want of memory.
pub fn vtt_with_views<L: SoundLayout>(
    alloc: Global,
    h: &Hierarchy,
    layout: &L,
    c: ClassId,
    views: &mut ViewList,
) -> Result<VttList, NoMemory>
    requires layout { L.lays_out layout.now h.now }
    requires known { c.0 < length h.now }
    requires has_base { (v : ClassId) × HasVirtualBase h.now c v }
    ensures words { IfOk result (IsVtt h.now (places_of h.now (L.rows layout.now)) c) }
    ensures views { OnOk result (GrowsByViews h.now (places_of h.now (L.rows layout.now)) views.old views.new) }
{
    h.keeps();
    let marks = virtual_marks(alloc, h)?;
    let subobjects = list_subobjects(alloc, h, c)?;
    let whole = GroupName {
        complete: c,
        view: Subobject {
            root: Root::Whole,
            path: longer_path(alloc, &[c], &[])?,
        },
    };
    let mut words = Sequence::new(alloc);
    push_sub_vtt(alloc, h, layout, &marks, &whole, c, views, &mut words)?;
    for s in subobjects.as_slice() {
        match shared_class(s) {
            Some(v) => push_shared_vtt(alloc, h, layout, &marks, c, v, views, &mut words)?,
            None => {}
        }
    }
    Ok(words)
}

/// The words of the VTT of a class with virtual bases, in their order: the sub-VTT of the whole, and those of the virtual bases
/// that have virtual bases, in preorder.
///
/// Errors: want of memory.
pub fn vtt<L: SoundLayout>(
    alloc: Global,
    h: &Hierarchy,
    layout: &L,
    c: ClassId,
) -> Result<VttList, NoMemory>
    requires layout { L.lays_out layout.now h.now }
    requires known { c.0 < length h.now }
    requires has_base { (v : ClassId) × HasVirtualBase h.now c v }
    ensures { IfOk result (IsVtt h.now (places_of h.now (L.rows layout.now)) c) }
{
    let mut views = Sequence::new(alloc);
    let words = vtt_with_views(alloc, h, layout, c, &mut views)?;
    Ok(words)
}
