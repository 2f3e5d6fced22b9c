//! The ops of a block, one after the other.

ghost use Rattle.std.specs.Prelude.{◌≡◌, None, IfOk};
ghost use Rattle.abi_dyncast.specs.Casts.{room};
ghost use Rattle.abi_dyncast.specs.Known.{TellsTruth};
ghost use Rattle.byte_machine.specs.Effects.{effect_of};
ghost use Rattle.byte_machine.specs.invariants.OpKinds.{op_kind, OfJumps, NeverStops};
ghost use Rattle.byte_machine.specs.invariants.States.{CanDo, DidAs, KeepsRoomAndOuts, refusal_stop, stopped};

use crate::calls::{limit_stop, run_call, run_delete};
use crate::finishing::run_finish;
use crate::outs::run_out;
use crate::plans::run_plan;
use crate::returns::run_return;
use crate::running::{Running, Setup, Stop};
use crate::turn::MachineTurn;
use crate::values::run_value;
use crate::views::run_view;
use byte_code::Op;
use byte_memory::Memory;
use foundation::NoMemory;

/// What stops a block with this line, if a rule refuses.
#[inline(always)]
pub fn refused(rule: Option<u8>, line: u32) -> Option<Stop>
    ensures { stopped result ≡ refusal_stop line rule }
{
    match rule {
        None => None,
        Some(rule) => Some(Stop::Answers(MachineTurn::Refused(rule, line))),
    }
}

/// Names the next block.
fn run_jump<M: Memory>(_setup: &Setup, running: &mut Running<M>, op: &Op)
    requires kind { op_kind op.now ≡ OfJumps }
    requires allowed { CanDo _setup.now (λ f s. effect_of f op.now s) running.old }
    ensures did { DidAs _setup.now (λ f s. effect_of f op.now s) running.old running.new None }
    ensures kept { KeepsRoomAndOuts _setup.now.image running.old running.new }
{
    match op {
        Op::Jump { block } => running.top.block = *block,
        Op::JumpIf { register, block } => {
            if running.register(*register).unwrap() != 0 {
                running.top.block = *block;
            }
        }
        _ => unreachable!(),
    }
}

/// Runs an op of a kind that never stops a block. Errors: want of memory.
fn run_plain<M: Memory>(setup: &Setup, running: &mut Running<M>, op: &Op) -> Result<(), NoMemory>
    requires kind { NeverStops (op_kind op.now) }
    requires allowed { CanDo setup.now (λ f s. effect_of f op.now s) running.old }
    requires room { room running.old.work ≡ setup.now.parts }
    ensures did { IfOk result (λ _. DidAs setup.now (λ f s. effect_of f op.now s) running.old running.new None) }
    ensures kept { KeepsRoomAndOuts setup.now.image running.old running.new }
{
    match op {
        Op::Const { .. }
        | Op::ReadGlobal { .. }
        | Op::Load { .. }
        | Op::Store { .. }
        | Op::Copy { .. }
        | Op::LoadBits { .. }
        | Op::StoreBits { .. }
        | Op::CopyBits { .. }
        | Op::Arith { .. } => run_value(setup, running, op),
        Op::Jump { .. } | Op::JumpIf { .. } => run_jump(setup, running, op),
        Op::TypeOf { .. } | Op::Top { .. } | Op::Cast { .. } => run_view(setup, running, op),
        Op::Print { .. } | Op::Dump { .. } | Op::Trace(_) => run_out(setup, running, op)?,
        Op::Open(_)
        | Op::SetTable(_)
        | Op::Begin { .. }
        | Op::SetPhase { .. }
        | Op::SetView { .. }
        | Op::ViewBack => run_plan(setup, running, op)?,
        _ => unreachable!(),
    }
    Ok(())
}

/// Runs one op. It answers what stops the block, if it does. Errors: want of memory.
#[inline(always)]
pub fn run_op<M: Memory>(
    setup: &Setup,
    running: &mut Running<M>,
    op: &Op,
) -> Result<Option<Stop>, NoMemory>
    requires allowed { CanDo setup.now (λ f s. effect_of f op.now s) running.old }
    requires room { room running.old.work ≡ setup.now.parts }
    requires known { TellsTruth setup.now.image running.old.known }
    ensures did { IfOk result (λ stop. DidAs setup.now (λ f s. effect_of f op.now s) running.old running.new (stopped stop)) }
    ensures kept { KeepsRoomAndOuts setup.now.image running.old running.new }
{
    match op {
        Op::Does(finish) => {
            let rule = run_finish(setup, running, finish);
            Ok(refused(rule, running.line))
        }
        Op::CallEntry { .. } | Op::CallCode { .. } | Op::New { .. } => {
            let limit = run_call(setup, running, op)?;
            Ok(limit_stop(limit))
        }
        Op::DeleteEntry { .. } | Op::DeleteCode { .. } => {
            let limit = run_delete(setup, running, op)?;
            Ok(limit_stop(limit))
        }
        Op::Return { from, class } => {
            let stop = run_return(setup, running, *from, *class)?;
            Ok(stop)
        }
        Op::End => Ok(Some(Stop::Answers(MachineTurn::Ended))),
        _ => {
            run_plain(setup, running, op)?;
            Ok(None)
        }
    }
}
