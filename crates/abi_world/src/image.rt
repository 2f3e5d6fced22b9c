//! The image of the tables of all classes.

ghost use Rattle.std.specs.Prelude.{◌≤◌, IfOk};
ghost use Rattle.cxx_overrider.specs.Overriders.{AreOverriders};
ghost use Rattle.cxx_program.specs.Typed.{IsTypedProgram};
ghost use Rattle.abi_sound.specs.Places.{places_of};
ghost use Rattle.abi_slots.specs.Slots.{AreSlots};
ghost use Rattle.abi_tables.specs.Counts.{words_of_all_classes, most_words};
ghost use Rattle.code_ops.specs.Setups.{setup};
ghost use Rattle.abi_world.specs.Made.{HaveCodeNumbers, HasImage};

use crate::tables::program_tables;
use abi_image::encode;
use abi_slots::{CodeNumbers, Slots};
use abi_sound::SoundLayout;
use byte_code::ImageBytes;
use cxx_hierarchy::Hierarchy;
use cxx_overrider::Overriders;
use cxx_program::TypedProgram;
use foundation::NoMemory;
use std::alloc::Global;

/// The image of the tables of all classes, whose entries run code of these numbers.
///
/// Errors: want of memory.
pub fn program_image<L: SoundLayout>(
    alloc: Global,
    h: &Hierarchy,
    overriders: &Overriders,
    layout: &L,
    slots: &Slots,
    program: &TypedProgram,
    numbers: &CodeNumbers,
) -> Result<ImageBytes, NoMemory>
    requires layout { L.lays_out layout.now h.now }
    requires overriders { AreOverriders h.now overriders.now }
    requires words { words_of_all_classes h.now (places_of h.now (L.rows layout.now)) ≤ most_words }
    requires slots { AreSlots h.now (places_of h.now (L.rows layout.now)) slots.now }
    requires typed { IsTypedProgram h.now program.now }
    requires numbered { HaveCodeNumbers (setup h.now (L.rows layout.now) program.now) numbers.now }
    ensures { IfOk result (HasImage h.now (places_of h.now (L.rows layout.now)) numbers.now) }
{
    h.keeps();
    let _program = program;
    let tables = program_tables(alloc, h, overriders, layout, slots)?;
    let image = encode(alloc, &tables.groups, &tables.vtts, &tables.infos, numbers)?;
    Ok(image.bytes)
}
