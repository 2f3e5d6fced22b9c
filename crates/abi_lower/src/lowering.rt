//! What a program is lowered by.

ghost use Rattle.std.specs.Prelude.{◌≡◌, ◌<◌, IfOk, length};
ghost use Rattle.std.specs.Option.{option_copied};
ghost use Rattle.path_bodies.specs.Places.{IsIndexOf};
ghost use Rattle.code_ops.specs.Setups.{body_of_routine};
ghost use Rattle.code_blocks.specs.Blocks.{items};
ghost use Rattle.code_blocks.specs.invariants.ItemCodes.{item_codes, ArePlans};
ghost use Rattle.abi_lower.specs.invariants.Codes.{routine_from};
ghost use Rattle.abi_lower.specs.invariants.Lowerings.{lowering_setup};

use crate::routines::{Routine, owner};
use abi_slots::Slots;
use abi_sound::SoundLayout;
use code_blocks::items::{ItemList, Plans};
use code_ops::routines::Course;
use cxx_hierarchy::{ClassId, Hierarchy};
use cxx_overrider::Overriders;
use cxx_program::{TypedBody, TypedProgram};
use foundation::NoMemory;
use path_bodies::BodyIndex;
use path_numbers::Numbers;
use path_plan::Form;
use std::alloc::Global;

/// The classes with their layout, overriders and words, and the program with the places of its bodies and the order of virtual bases.
#[derive(Drop)]
pub struct Lowering<'a, L> {
    pub alloc: Global,
    pub h: &'a Hierarchy,
    pub overriders: &'a Overriders,
    pub layout: &'a L,
    pub slots: &'a Slots,
    pub program: &'a TypedProgram,
    pub index: &'a BodyIndex,
    pub orders: &'a Numbers,
}

impl<'a, L: SoundLayout> Lowering<'a, L> {
    /// The body that a routine runs, if one is declared.
    pub fn body(&self, r: Routine) -> Option<&'a TypedBody>
        requires { IsIndexOf self.now.program.now self.now.index.now }
        ensures { option_copied result ≡ body_of_routine (lowering_setup L.rows self.now) (routine_from r) }
    {
        self.index.body(self.program, owner(r))
    }

    /// The plan of a class.
    ///
    /// Errors: want of memory.
    pub fn items(&self, course: Course, form: Form, c: ClassId) -> Result<ItemList, NoMemory>
        requires plans { ArePlans self.now.h.now self.now.program.now self.now.index.now self.now.orders.now }
        requires known { c.0 < length self.now.h.now }
        ensures { IfOk result (λ list. list ≡ item_codes (items (lowering_setup L.rows self.now) course form c)) }
    {
        let plans = Plans {
            alloc: self.alloc,
            h: self.h,
            program: self.program,
            index: self.index,
            orders: self.orders,
        };
        let list = plans.items(course, form, c)?;
        Ok(list)
    }
}
