//! Where the code of routines begins.

ghost use Rattle.std.specs.Prelude.{◌≡◌, ◌<◌, ◌+◌, ◌^◌, ◌++◌, IfOk, OnOk};
ghost use Rattle.code_ops.specs.Routines.{IsRoutine, function_of_routine, routine_kind, start_by};
ghost use Rattle.code_blocks.specs.invariants.ItemCodes.{ArePlans};
ghost use Rattle.abi_lower.specs.invariants.Numbers.{routines, blocks_in, routine_row, code_rows};
ghost use Rattle.abi_lower.specs.invariants.Codes.{routine_from, routines_from};
ghost use Rattle.abi_lower.specs.invariants.Lowerings.{IsLoweringAt, lowering_setup};

use crate::lowering::Lowering;
use crate::routines::{Routine, kind, plan_function};
use abi_slots::{BlockKind, CodeNumbers, CodeRow, CodeRowList};
use abi_sound::SoundLayout;
use code_ops::routines::start_of;
use cxx_overrider::FunctionId;
use foundation::{NoMemory, Sequence};

impl<'a, L: SoundLayout> Lowering<'a, L> {
    /// The function whose code a routine is.
    fn function(&self, r: Routine) -> Option<FunctionId>
        requires { IsRoutine (lowering_setup L.rows self.now) (routine_from r) }
        ensures { result ≡ function_of_routine (lowering_setup L.rows self.now) (routine_from r) }
    {
        match r {
            Routine::Main => None,
            Routine::Function(f) => Some(f),
            Routine::Plan(course, _, c) => Some(plan_function(self.h, course, c)),
        }
    }

    /// The block at which a routine begins.
    pub fn first_block(&self, numbers: &CodeNumbers, r: Routine) -> u32
        requires { IsRoutine (lowering_setup L.rows self.now) (routine_from r) }
        ensures { result ≡ start_by (lowering_setup L.rows self.now) numbers.now (routine_from r) }
    {
        match r {
            Routine::Main => 0,
            Routine::Function(f) => start_of(numbers, f, BlockKind::Plain),
            Routine::Plan(course, _, c) => {
                start_of(numbers, plan_function(self.h, course, c), kind(r))
            }
        }
    }

    /// Puts the number of a routine behind others, if it is the code of a function, and gives the block behind the routine.
    ///
    /// Errors: want of memory.
    fn push_row(&self, rows: &mut CodeRowList, r: Routine, next: u32) -> Result<u32, NoMemory>
        requires plans { ArePlans self.now.h.now self.now.program.now self.now.index.now self.now.orders.now }
        requires routine { IsRoutine (lowering_setup L.rows self.now) (routine_from r) }
        requires room { next + blocks_in (lowering_setup L.rows self.now) (routine_from r) < 2 ^ 32 }
        ensures rows { OnOk result (rows.new ≡ rows.old ++ routine_row (routine_kind (routine_from r)) next (function_of_routine (lowering_setup L.rows self.now) (routine_from r))) }
        ensures next { IfOk result (λ n. n ≡ next + blocks_in (lowering_setup L.rows self.now) (routine_from r)) }
    {
        let count = self.blocks_in(r)?;
        match self.function(r) {
            Some(function) => rows.push(CodeRow {
                function,
                kind: kind(r),
                code: next,
            })?,
            None => {}
        }
        Ok(next + count as u32)
    }

    /// The numbers of the code of a program.
    ///
    /// Errors: want of memory.
    fn rows(&self, list: &[Routine]) -> Result<CodeRowList, NoMemory>
        requires lowering { IsLoweringAt L.rows self.now }
        requires routines { routines_from list.now ≡ routines (lowering_setup L.rows self.now) }
        ensures { IfOk result (λ rows. rows ≡ code_rows (lowering_setup L.rows self.now)) }
    {
        let mut rows = Sequence::new(self.alloc);
        let mut next = 0;
        for r in list {
            next = self.push_row(&mut rows, *r, next)?;
        }
        Ok(rows)
    }

    /// The numbers of the code of a program, to be looked up.
    ///
    /// Errors: want of memory.
    pub fn numbers(&self, list: &[Routine]) -> Result<CodeNumbers, NoMemory>
        requires lowering { IsLoweringAt L.rows self.now }
        requires routines { routines_from list.now ≡ routines (lowering_setup L.rows self.now) }
        ensures { IfOk result (λ numbers. numbers ≡ code_rows (lowering_setup L.rows self.now)) }
    {
        let rows = self.rows(list)?;
        let numbers = CodeNumbers::new(self.alloc, rows)?;
        Ok(numbers)
    }
}
