//! What a program is run over: its code, the numbers of its functions, and the image of its tables.

ghost use Rattle.std.specs.Prelude.{◌≡◌, ◌<◌, ◌≤◌, ◌^◌, length, true, IfOk};
ghost use Rattle.cxx_subobject.specs.Parts.{most_subobjects};
ghost use Rattle.cxx_overrider.specs.Overriders.{AreOverriders};
ghost use Rattle.cxx_program.specs.Typed.{IsTypedProgram};
ghost use Rattle.path_model.specs.States.{is_body};
ghost use Rattle.abi_sound.specs.Places.{places_of};
ghost use Rattle.abi_tables.specs.Counts.{words_of_all_classes, most_words};
ghost use Rattle.code_ops.specs.Setups.{setup};
ghost use Rattle.abi_lower.specs.Bounds.{IsSmall};
ghost use Rattle.code_blocks.specs.Lowered.{IsLowered};
ghost use Rattle.abi_world.specs.Made.{HasImage};
ghost use Rattle.abi_world.specs.Worlds.{HasWorld};

use crate::image::program_image;
use abi_lower::{Lowered, lower};
use abi_slots::{CodeNumbers, Slots};
use abi_sound::SoundLayout;
use byte_code::{Code, ImageBytes};
use cxx_hierarchy::Hierarchy;
use cxx_overrider::Overriders;
use cxx_program::TypedProgram;
use foundation::NoMemory;
use std::alloc::Global;

/// The code of a program, the numbers of its functions, and the image of the tables of its classes.
#[derive(Drop)]
pub struct Built {
    pub code: Code,
    pub numbers: CodeNumbers,
    pub image: ImageBytes,
}

/// The code of a typed program that has a `main`, and the image of its tables, over whatever sound layout.
///
/// Errors: want of memory.
pub fn build<L: SoundLayout>(
    alloc: Global,
    h: &Hierarchy,
    overriders: &Overriders,
    layout: &L,
    program: &TypedProgram,
) -> Result<Built, NoMemory>
    requires layout { L.lays_out layout.now h.now }
    requires overriders { AreOverriders h.now overriders.now }
    requires words { words_of_all_classes h.now (places_of h.now (L.rows layout.now)) ≤ most_words }
    requires typed { IsTypedProgram h.now program.now }
    requires main { is_body program.now.main ≡ true }
    requires small { IsSmall program.now }
    ensures lowered { IfOk result (λ built. IsLowered (setup h.now (L.rows layout.now) program.now) built.code built.numbers) }
    ensures few { IfOk result (λ built. length built.code.blocks < 2 ^ 32) }
    ensures image { IfOk result (λ built. HasImage h.now (places_of h.now (L.rows layout.now)) built.numbers built.image) }
    ensures world { IfOk result (λ built. HasWorld (setup h.now (L.rows layout.now) program.now) built.code built.numbers built.image most_subobjects) }
{
    h.keeps();
    let slots = Slots::new(alloc, h, overriders, layout)?;
    let Lowered { code, numbers } = lower(alloc, h, overriders, layout, &slots, program)?;
    let image = program_image(alloc, h, overriders, layout, &slots, program, &numbers)?;
    Ok(Built {
        code,
        numbers,
        image,
    })
}
