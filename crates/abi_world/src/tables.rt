//! The tables of all classes.

ghost use Rattle.std.specs.Prelude.{◌≡◌, ◌++◌, OnOk, IfOk};
ghost use Rattle.cxx_overrider.specs.Overriders.{AreOverriders};
ghost use Rattle.abi_sound.specs.Places.{places_of};
ghost use Rattle.abi_slots.specs.Slots.{AreSlots};
ghost use Rattle.abi_world.specs.Made.{AreAllTables};

use abi_slots::{Group, GroupList, Slots, TypeInfo, VttList};
use abi_sound::SoundLayout;
use abi_tables::class_tables;
use cxx_hierarchy::{ClassId, Hierarchy};
use cxx_overrider::Overriders;
use foundation::NoMemory;
use std::alloc::Global;

/// The groups of all classes, their VTTs and their type information, in class order (Itanium C++ ABI 2.5, 2.6, 2.9).
#[derive(Drop)]
pub struct ProgramTables {
    pub groups: Vec<Group>,
    pub vtts: Vec<VttList>,
    pub infos: Vec<TypeInfo>,
}

/// Puts groups behind others.
///
/// Errors: want of memory.
fn append_groups(groups: &mut Vec<Group>, more: GroupList) -> Result<(), NoMemory>
    ensures { OnOk result (groups.new.items ≡ groups.old.items ++ more) }
{
    let mut list = more.into_vec();
    groups.append(&mut list)?;
    Ok(())
}

/// The tables of all classes.
///
/// Errors: want of memory.
pub fn program_tables<L: SoundLayout>(
    alloc: Global,
    h: &Hierarchy,
    overriders: &Overriders,
    layout: &L,
    slots: &Slots,
) -> Result<ProgramTables, NoMemory>
    requires layout { L.lays_out layout.now h.now }
    requires overriders { AreOverriders h.now overriders.now }
    requires slots { AreSlots h.now (places_of h.now (L.rows layout.now)) slots.now }
    ensures { IfOk result (λ tables. AreAllTables h.now (places_of h.now (L.rows layout.now)) tables.groups.items tables.vtts.items tables.infos.items) }
{
    let mut groups = Vec::new(alloc);
    let mut vtts = Vec::new(alloc);
    let mut infos = Vec::new(alloc);
    for n in 0..h.len() {
        let tables = class_tables(alloc, h, overriders, layout, slots, ClassId(n))?;
        append_groups(&mut groups, tables.groups)?;
        vtts.push(tables.vtt)?;
        infos.push(tables.info)?;
    }
    Ok(ProgramTables {
        groups,
        vtts,
        infos,
    })
}
