//! From a typed program to its code.

ghost use Rattle.std.specs.Prelude.{◌≡◌, ◌<◌, ◌≤◌, ◌^◌, length, IfOk};
ghost use Rattle.cxx_overrider.specs.Overriders.{AreOverriders};
ghost use Rattle.cxx_program.specs.Typed.{IsTypedProgram};
ghost use Rattle.abi_sound.specs.Places.{places_of};
ghost use Rattle.abi_slots.specs.Slots.{AreSlots};
ghost use Rattle.code_plans.specs.ClassTables.{AreKeptTables};
ghost use Rattle.abi_tables.specs.Counts.{words_of_all_classes, most_words};
ghost use Rattle.code_ops.specs.Setups.{setup, body_of_routine, locals_in};
ghost use Rattle.code_blocks.specs.Lowered.{HasRegisters, IsLowered};
ghost use Rattle.abi_lower.specs.Bounds.{IsSmall};
ghost use Rattle.abi_lower.specs.invariants.Numbers.{routines, code_rows};
ghost use Rattle.abi_lower.specs.invariants.Codes.{routine_from, routines_from};
ghost use Rattle.abi_lower.specs.invariants.Lowerings.{IsLoweringAt, lowering_setup};
ghost use Rattle.code_ops.specs.invariants.Fits.{most_local_registers};

use crate::block_sites::BlockSite;
use crate::lowering::Lowering;
use crate::routines::{Routine, list_routines};
use abi_slots::{CodeNumbers, Slots};
use abi_sound::SoundLayout;
use byte_code::Code;
use code_plans::ClassTables;
use cxx_hierarchy::Hierarchy;
use cxx_overrider::Overriders;
use cxx_program::TypedProgram;
use foundation::NoMemory;
use path_bodies::BodyIndex;
use path_numbers::Numbers;
use std::alloc::Global;

/// The code of a program, and the numbers of its functions.
#[derive(Drop)]
pub struct Lowered {
    pub code: Code,
    pub numbers: CodeNumbers,
}

/// How many registers a frame has beside those of the locals: `this`, one that nothing writes, and those that are free for the ops of a
/// block, two of them for each of 16 arguments.
const OTHER_REGISTERS: u32 = 41;

impl<'a, L: SoundLayout> Lowering<'a, L> {
    /// How many locals the body of a routine has.
    fn locals(&self, r: Routine) -> u32
        requires { IsLoweringAt L.rows self.now }
        ensures count { result ≡ locals_in (body_of_routine (lowering_setup L.rows self.now) (routine_from r)) }
        ensures few { result < most_local_registers }
    {
        match self.body(r) {
            None => 0,
            Some(body) => body.locals.len() as u32,
        }
    }

    /// How many registers a frame has.
    fn registers(&self, list: &[Routine]) -> u32
        requires lowering { IsLoweringAt L.rows self.now }
        requires routines { routines_from list.now ≡ routines (lowering_setup L.rows self.now) }
        ensures { HasRegisters (lowering_setup L.rows self.now) result }
    {
        let mut most: u32 = 0;
        for r in list {
            most = most.max(self.locals(*r));
        }
        most + OTHER_REGISTERS
    }

    /// The code of the program.
    fn code(
        &self,
        numbers: &CodeNumbers,
        tables: &ClassTables,
        list: &[Routine],
    ) -> Result<Code, NoMemory>
        requires layout { L.lays_out self.now.layout.now self.now.h.now }
        requires lowering { IsLoweringAt L.rows self.now }
        requires rows { numbers.now ≡ code_rows (lowering_setup L.rows self.now) }
        requires tables { AreKeptTables self.now.h.now (places_of self.now.h.now (L.rows self.now.layout.now)) tables.now }
        requires routines { routines_from list.now ≡ routines (lowering_setup L.rows self.now) }
        ensures lowered { IfOk result (λ code. IsLowered (lowering_setup L.rows self.now) code numbers.now) }
        ensures few { IfOk result (λ code. length code.blocks < 2 ^ 32) }
    {
        let site = BlockSite {
            lowering: self,
            numbers,
            tables,
        };
        let blocks = site.blocks()?;
        Ok(Code {
            blocks,
            start: 0,
            globals: self.program.globals.len() as u32,
            registers: self.registers(list),
        })
    }

    /// The code of the program, and the numbers of its functions.
    fn lowered(&self, tables: &ClassTables, list: &[Routine]) -> Result<Lowered, NoMemory>
        requires layout { L.lays_out self.now.layout.now self.now.h.now }
        requires lowering { IsLoweringAt L.rows self.now }
        requires tables { AreKeptTables self.now.h.now (places_of self.now.h.now (L.rows self.now.layout.now)) tables.now }
        requires routines { routines_from list.now ≡ routines (lowering_setup L.rows self.now) }
        ensures lowered { IfOk result (λ lowered. IsLowered (lowering_setup L.rows self.now) lowered.code lowered.numbers) }
        ensures few { IfOk result (λ lowered. length lowered.code.blocks < 2 ^ 32) }
    {
        let numbers = self.numbers(list)?;
        let code = self.code(&numbers, tables, list)?;
        Ok(Lowered { code, numbers })
    }
}

/// The code of a typed program and the numbers of its functions, over a layout whose tables are within the limit on words.
///
/// Errors: want of memory.
pub fn lower<L: SoundLayout>(
    alloc: Global,
    h: &Hierarchy,
    overriders: &Overriders,
    layout: &L,
    slots: &Slots,
    program: &TypedProgram,
) -> Result<Lowered, NoMemory>
    requires layout { L.lays_out layout.now h.now }
    requires overriders { AreOverriders h.now overriders.now }
    requires slots { AreSlots h.now (places_of h.now (L.rows layout.now)) slots.now }
    requires words { words_of_all_classes h.now (places_of h.now (L.rows layout.now)) ≤ most_words }
    requires typed { IsTypedProgram h.now program.now }
    requires small { IsSmall program.now }
    ensures lowered { IfOk result (λ lowered. IsLowered (setup h.now (L.rows layout.now) program.now) lowered.code lowered.numbers) }
    ensures few { IfOk result (λ lowered. length lowered.code.blocks < 2 ^ 32) }
{
    h.keeps();
    let index = BodyIndex::new(alloc, program)?;
    let orders = Numbers::new(alloc, h)?;
    let tables = ClassTables::new(alloc, h, layout)?;
    let list = list_routines(alloc, h, program)?;
    let lowering = Lowering {
        alloc,
        h,
        overriders,
        layout,
        slots,
        program,
        index: &index,
        orders: &orders,
    };
    let lowered = lowering.lowered(&tables, list.as_slice())?;
    Ok(lowered)
}
