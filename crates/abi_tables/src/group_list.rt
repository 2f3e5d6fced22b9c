//! The groups of a class.

ghost use Rattle.std.specs.Prelude.{◌≡◌, ◌<◌, IfOk, OnOk, Some, length, true};
ghost use Rattle.cxx_overrider.specs.Overriders.{AreOverriders};
ghost use Rattle.abi_sound.specs.Places.{places_of};
ghost use Rattle.abi_slots.specs.Slots.{AreSlots};
ghost use Rattle.cxx_hierarchy.specs.declared.records.ClassId.{ClassId};
ghost use Rattle.cxx_subobject.specs.Subobjects.{IsSubobject, class_of};
ghost use Rattle.abi_primary.specs.Kinds.{IsDynamic};
ghost use Rattle.abi_slots.specs.Groups.{IsGroup};
ghost use Rattle.abi_vtable.specs.invariants.Kept.{AreViews, IsViewOf};
ghost use Rattle.abi_tables.specs.Tables.{IsNamed, group_name, group_names};
ghost use Rattle.abi_tables.specs.invariants.Growing.{GrowsByEach};

use crate::group_views;
use abi_slots::{Group, GroupList, GroupName, Slots};
use abi_sound::SoundLayout;
use abi_vtable::group;
use abi_vtable::tables::group_of_view;
use abi_vtable::view::{ViewParts, view_at};
use cxx_hierarchy::{ClassId, Hierarchy};
use cxx_overrider::Overriders;
use cxx_subobject::{Subobject, is_same, subobject_below};
use foundation::NoMemory;
use std::alloc::Global;

/// The name of a group.
///
/// Errors: want of memory.
fn name_of(alloc: Global, c: ClassId, view: &Subobject) -> Result<GroupName, NoMemory>
    ensures { IfOk result (λ name. name ≡ group_name c view.now) }
{
    Ok(GroupName {
        complete: c,
        view: subobject_below(alloc, view, &[])?,
    })
}

/// Whether the view of a number is kept, and is that of a group.
fn is_kept(views: &[ViewParts], number: usize, name: &GroupName) -> bool
    ensures { result ≡ true → IsViewOf views.now number name.now }
{
    let count = views.len();
    if number >= count {
        return false;
    }
    let x = view_at(views, number);
    if x.complete.0 != name.complete.0 {
        return false;
    }
    is_same(&x.at, &name.view)
}

/// The group of the view of a number.
///
/// Errors: want of memory.
fn kept_group<L: SoundLayout>(
    alloc: Global,
    h: &Hierarchy,
    o: &Overriders,
    layout: &L,
    slots: &Slots,
    views: &[ViewParts],
    number: usize,
    name: &GroupName,
) -> Result<Group, NoMemory>
    requires layout { L.lays_out layout.now h.now }
    requires overriders { AreOverriders h.now o.now }
    requires slots { AreSlots h.now (places_of h.now (L.rows layout.now)) slots.now }
    requires views { AreViews h.now (places_of h.now (L.rows layout.now)) views.now }
    requires of { IsViewOf views.now number name.now }
    ensures name { IfOk result (λ group. group.name ≡ name.now) }
    ensures group { IfOk result (IsGroup h.now (places_of h.now (L.rows layout.now))) }
{
    let _name = name;
    let x = view_at(views, number);
    let made = group_of_view(alloc, h, o, layout, slots, x)?;
    Ok(made)
}

/// The group of a view. It is filled from the view of a number, where that is the one.
///
/// Errors: want of memory.
fn group_by<L: SoundLayout>(
    alloc: Global,
    h: &Hierarchy,
    o: &Overriders,
    layout: &L,
    slots: &Slots,
    views: &[ViewParts],
    number: usize,
    name: &GroupName,
) -> Result<Group, NoMemory>
    requires layout { L.lays_out layout.now h.now }
    requires overriders { AreOverriders h.now o.now }
    requires slots { AreSlots h.now (places_of h.now (L.rows layout.now)) slots.now }
    requires views { AreViews h.now (places_of h.now (L.rows layout.now)) views.now }
    requires complete { name.now.complete.0 < length h.now }
    requires view { IsSubobject h.now name.now.complete name.now.view }
    requires dynamic { (d : ClassId) → class_of name.now.view ≡ Some d → IsDynamic h.now d }
    ensures name { IfOk result (λ group. group.name ≡ name.now) }
    ensures group { IfOk result (IsGroup h.now (places_of h.now (L.rows layout.now))) }
{
    if is_kept(views, number, name) {
        return kept_group(alloc, h, o, layout, slots, views, number, name);
    }
    group(alloc, h, o, layout, slots, name)
}

/// Puts the groups of a class behind others, in their order. Views that are there already are not made again.
///
/// Errors: want of memory.
pub(crate) fn push_groups<L: SoundLayout>(
    alloc: Global,
    h: &Hierarchy,
    o: &Overriders,
    layout: &L,
    slots: &Slots,
    c: ClassId,
    views: &[ViewParts],
    groups: &mut GroupList,
) -> Result<(), NoMemory>
    requires layout { L.lays_out layout.now h.now }
    requires overriders { AreOverriders h.now o.now }
    requires slots { AreSlots h.now (places_of h.now (L.rows layout.now)) slots.now }
    requires views { AreViews h.now (places_of h.now (L.rows layout.now)) views.now }
    requires known { c.0 < length h.now }
    ensures { OnOk result (GrowsByEach (IsNamed h.now (places_of h.now (L.rows layout.now))) (group_names h.now c) groups.old groups.new) }
{
    h.keeps();
    let list = group_views(alloc, h, layout, c)?;
    for (n, view) in list.as_slice().iter().enumerate() {
        let name = name_of(alloc, c, view)?;
        let one = group_by(alloc, h, o, layout, slots, views, n, &name)?;
        groups.push(one)?;
    }
    Ok(())
}
