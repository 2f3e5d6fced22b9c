//! The blocks of routines.

ghost use Rattle.std.specs.Prelude.{◌≡◌, ◌<◌, ◌+◌, ◌^◌, ◌++◌, ◌∷◌, [], true, None, if◌then◌else◌, IfOk, OnOk, length};
ghost use Rattle.std.specs.List.{flat_map};
ghost use Rattle.byte_code.specs.declared.op.Check.TheVariants.{Never};
ghost use Rattle.byte_code.specs.declared.op.Finish.TheVariants.{Check as CheckOp};
ghost use Rattle.byte_code.specs.declared.op.Op.TheVariants.{Does as DoesOp, End, Return as ReturnOp};
ghost use Rattle.cxx_overrider.specs.Functions.{return_of};
ghost use Rattle.path_model.specs.Rules.{returns_value};
ghost use Rattle.code_ops.specs.Setups.{Routine as RoutineOf};
ghost use Rattle.code_ops.specs.Routines.{IsRoutine};
ghost use Rattle.code_blocks.specs.Blocks.{closing_ops};
ghost use Rattle.abi_lower.specs.invariants.Numbers.{plain_routines, block_number};
ghost use Rattle.abi_lower.specs.invariants.Codes.{routine_from, routines_from, runs_no_plan};
ghost use Rattle.abi_lower.specs.invariants.Runs.{run_of_body, routine_blocks as run_of, all_blocks};
ghost use Rattle.abi_lower.specs.invariants.Lowerings.{IsBlockSite, IsBodySite, RunsAt, block_setup};

use crate::block_sites::BlockSite;
use crate::routines::{Routine, list_plain};
use crate::statement_blocks::push_statements;
use abi_sound::SoundLayout;
use byte_code::{Block, BlockList, Check, Finish, Op, OpList};
use code_ops::sites::Site;
use cxx_hierarchy::{Hierarchy, ReturnType};
use cxx_overrider::FunctionId;
use cxx_overrider::signatures::declaration;
use cxx_program::TypedBody;
use foundation::{NoMemory, Sequence};
use std::alloc::Global;

/// Whether a function returns a value.
fn returns_value(h: &Hierarchy, f: FunctionId) -> bool
    requires { f.class.0 < length h.now }
    ensures { result ≡ returns_value (return_of h.now f) }
{
    match declaration(h, f) {
        None => false,
        Some(function) => match &function.ret {
            ReturnType::Void => false,
            ReturnType::Value(_) => true,
        },
    }
}

/// The ops of the end of `main`.
fn end_of_main(alloc: Global) -> Result<OpList, NoMemory>
    ensures { IfOk result (λ ops. ops ≡ End ∷ []) }
{
    let mut ops = Sequence::new(alloc);
    ops.push(Op::End)?;
    Ok(ops)
}

/// The ops of the end of a function: one that has to return a value may not come there.
fn end_of_function(alloc: Global, returns_value: bool) -> Result<OpList, NoMemory>
    ensures { IfOk result (λ ops. ops ≡ (if returns_value then DoesOp (CheckOp Never) ∷ [] else ReturnOp None None ∷ [])) }
{
    let mut ops = Sequence::new(alloc);
    if returns_value {
        ops.push(Op::Does(Finish::Check(Check::Never)))?;
        return Ok(ops);
    }
    ops.push(Op::Return {
        from: None,
        class: None,
    })?;
    Ok(ops)
}

impl<'a, L: SoundLayout> BlockSite<'a, L> {
    /// Puts the blocks of a body that begins at block `base` behind others; the last one has the ops `end`.
    pub(crate) fn push_body(
        &self,
        blocks: &mut BlockList,
        body: &TypedBody,
        base: u32,
        end: OpList,
    ) -> Result<(), NoMemory>
        requires site { IsBlockSite L.lays_out L.rows self.now }
        requires body { IsBodySite (block_setup L.rows self.now) self.now.lowering.now.slots.now self.now.lowering.now.overriders.now body.now }
        requires room { base + length body.now.statements < 2 ^ 32 }
        ensures { OnOk result ((r : RoutineOf) → RunsAt (block_setup L.rows self.now) self.now.numbers.now body.now base r → end ≡ closing_ops (block_setup L.rows self.now) (block_number (block_setup L.rows self.now)) r → blocks.new ≡ blocks.old ++ run_of_body (block_setup L.rows self.now) r body.now) }
    {
        let site = Site {
            alloc: self.lowering.alloc,
            h: self.lowering.h,
            layout: self.lowering.layout,
            overriders: self.lowering.overriders,
            slots: self.lowering.slots,
            numbers: self.numbers,
            program: self.lowering.program,
            body,
        };
        push_statements(blocks, &site, base)?;
        blocks.push(Block {
            ops: end,
            line: body.close_line,
        })?;
        Ok(())
    }

    /// Puts the blocks of `main` or of a function behind others; the last one has the ops `end`.
    fn push_plain(&self, blocks: &mut BlockList, r: Routine, end: OpList) -> Result<(), NoMemory>
        requires site { IsBlockSite L.lays_out L.rows self.now }
        requires routine { IsRoutine (block_setup L.rows self.now) (routine_from r) }
        requires plain { runs_no_plan (routine_from r) ≡ true }
        requires end { end ≡ closing_ops (block_setup L.rows self.now) (block_number (block_setup L.rows self.now)) (routine_from r) }
        ensures { OnOk result (blocks.new ≡ blocks.old ++ run_of (block_setup L.rows self.now) (routine_from r)) }
    {
        let base = self.lowering.first_block(self.numbers, r);
        match self.lowering.body(r) {
            // never met: the clauses `routine` and `plain` say that it has a body (`IsRoutine` of code_ops)
            None => {}
            Some(body) => self.push_body(blocks, body, base, end)?,
        }
        Ok(())
    }

    /// Puts the blocks of `main` or of a function behind others.
    fn push_run(&self, blocks: &mut BlockList, r: Routine) -> Result<(), NoMemory>
        requires site { IsBlockSite L.lays_out L.rows self.now }
        requires routine { IsRoutine (block_setup L.rows self.now) (routine_from r) }
        requires plain { runs_no_plan (routine_from r) ≡ true }
        ensures { OnOk result (blocks.new ≡ blocks.old ++ run_of (block_setup L.rows self.now) (routine_from r)) }
    {
        match r {
            Routine::Main => {
                let end = end_of_main(self.lowering.alloc)?;
                self.push_plain(blocks, r, end)?;
            }
            Routine::Function(f) => {
                let end = end_of_function(self.lowering.alloc, returns_value(self.lowering.h, f))?;
                self.push_plain(blocks, r, end)?;
            }
            Routine::Plan(_, _, _) => unreachable!(),
        }
        Ok(())
    }

    /// Puts the blocks of `main` and of the functions behind others.
    fn push_runs(&self, blocks: &mut BlockList, list: &[Routine]) -> Result<(), NoMemory>
        requires site { IsBlockSite L.lays_out L.rows self.now }
        requires plain { routines_from list.now ≡ plain_routines self.now.lowering.now.program.now }
        ensures { OnOk result (blocks.new ≡ blocks.old ++ flat_map (run_of (block_setup L.rows self.now)) (plain_routines self.now.lowering.now.program.now)) }
    {
        for r in list {
            self.push_run(blocks, *r)?;
        }
        Ok(())
    }

    /// The blocks of all routines.
    ///
    /// Errors: want of memory.
    pub fn blocks(&self) -> Result<BlockList, NoMemory>
        requires site { IsBlockSite L.lays_out L.rows self.now }
        ensures { IfOk result (λ blocks. blocks ≡ all_blocks (block_setup L.rows self.now)) }
    {
        let plain = list_plain(self.lowering.alloc, self.lowering.program)?;
        let mut blocks = Sequence::new(self.lowering.alloc);
        self.push_runs(&mut blocks, plain.as_slice())?;
        self.push_classes(&mut blocks)?;
        Ok(blocks)
    }
}
