//! The tables of a class.

ghost use Rattle.std.specs.Prelude.{◌<◌, IfOk, OnOk, length};
ghost use Rattle.cxx_overrider.specs.Overriders.{AreOverriders};
ghost use Rattle.abi_sound.specs.Places.{places_of};
ghost use Rattle.abi_slots.specs.Slots.{AreSlots};
ghost use Rattle.abi_slots.specs.Groups.{GoAlong};
ghost use Rattle.abi_vtable.specs.invariants.Kept.{GrowsByViews};
ghost use Rattle.abi_vtt.specs.Vtts.{IsVttWord};
ghost use Rattle.abi_tables.specs.Tables.{AreClassTables, class_items};

use crate::group_list::push_groups;
use crate::has_virtual;
use abi_rtti::type_info;
use abi_slots::{GroupList, Slots, TypeInfo, VttList};
use abi_sound::SoundLayout;
use abi_vtable::view::ViewList;
use abi_vtt::vtt_with_views;
use cxx_hierarchy::{ClassId, Hierarchy};
use cxx_overrider::Overriders;
use foundation::{NoMemory, Sequence};
use std::alloc::Global;

/// The groups of a class in their order, its VTT, which is empty where it has no virtual base, and its type information.
#[derive(Debug, Drop)]
pub struct ClassTables {
    pub groups: GroupList,
    pub vtt: VttList,
    pub info: TypeInfo,
}

/// The VTT of a class, empty where it has no virtual base. The views to whose groups it points are put behind others.
///
/// Errors: want of memory.
fn class_vtt<L: SoundLayout>(
    alloc: Global,
    h: &Hierarchy,
    layout: &L,
    c: ClassId,
    views: &mut ViewList,
) -> Result<VttList, NoMemory>
    requires layout { L.lays_out layout.now h.now }
    requires known { c.0 < length h.now }
    ensures words { IfOk result (GoAlong (IsVttWord h.now (places_of h.now (L.rows layout.now)) c) (class_items h.now (places_of h.now (L.rows layout.now)) c)) }
    ensures views { OnOk result (GrowsByViews h.now (places_of h.now (L.rows layout.now)) views.old views.new) }
{
    h.keeps();
    if has_virtual(h, layout, c) {
        return vtt_with_views(alloc, h, layout, c, views);
    }
    Ok(Sequence::new(alloc))
}

/// The tables of a class.
///
/// Errors: want of memory.
pub fn class_tables<L: SoundLayout>(
    alloc: Global,
    h: &Hierarchy,
    o: &Overriders,
    layout: &L,
    slots: &Slots,
    c: ClassId,
) -> Result<ClassTables, NoMemory>
    requires layout { L.lays_out layout.now h.now }
    requires overriders { AreOverriders h.now o.now }
    requires slots { AreSlots h.now (places_of h.now (L.rows layout.now)) slots.now }
    requires known { c.0 < length h.now }
    ensures { IfOk result (AreClassTables h.now (places_of h.now (L.rows layout.now)) c) }
{
    let mut views = Sequence::new(alloc);
    let vtt = class_vtt(alloc, h, layout, c, &mut views)?;
    let mut groups = Sequence::new(alloc);
    push_groups(alloc, h, o, layout, slots, c, views.as_slice(), &mut groups)?;
    Ok(ClassTables {
        groups,
        vtt,
        info: type_info(alloc, h, layout, slots, c)?,
    })
}
