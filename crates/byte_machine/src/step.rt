//! One step: the block of the innermost frame, over what it works on.

ghost use Rattle.std.specs.Prelude.{◌≡◌, ◌<◌, ◌^◌, IfOk, OnErr, length, []};
ghost use Rattle.std.specs.List.{AllZip};
ghost use Rattle.byte_machine.specs.invariants.Flat.{IsFlatOf};
ghost use Rattle.abi_dyncast.specs.Casts.{room};
ghost use Rattle.abi_dyncast.specs.Known.{TellsTruth};
ghost use Rattle.byte_machine.specs.invariants.States.{fixed_by, running_of, KeepsRoomAndOuts};
ghost use Rattle.byte_machine.specs.invariants.Steps.{settled_frames, with_outs, HasNext, RanNext};

use crate::block::run_block;
use crate::flat::FlatBlock;
use crate::running::{Running, Setup};
use crate::turn::{MachineTurn, RawOutList};
use byte_code::Code;
use byte_memory::Memory;
use foundation::NoMemory;

/// The frames that a block opened go over the one that opened them. Errors: want of memory.
#[inline(always)]
fn settle<M: Memory>(_setup: &Setup, running: &mut Running<M>) -> Result<(), NoMemory>
    ensures settles { IfOk result (λ _. running_of running.new ≡ settled_frames (running_of running.old)) }
    ensures opened { IfOk result (λ _. length running.new.opened.items ≡ 0) }
    ensures kept { KeepsRoomAndOuts _setup.now.image running.old running.new }
{
    let Some(next) = running.opened.pop() else {
        return Ok(());
    };
    let top = std::mem::replace(&mut running.top, next);
    running.below.push(top, &mut running.spare)?;
    if running.opened.len() > 0 {
        running.below.append(&mut running.opened)?;
    }
    Ok(())
}

/// Runs the next block. Errors: want of memory.
#[inline(always)]
fn run_next<M: Memory>(
    setup: &Setup,
    code: &Code,
    flat: &[FlatBlock],
    running: &mut Running<M>,
) -> Result<MachineTurn, NoMemory>
    requires next { HasNext (fixed_by setup.now) code.now (running_of running.old) }
    requires few { length code.now.blocks < 2 ^ 32 }
    requires flat { AllZip IsFlatOf code.now.blocks flat.now }
    requires room { room running.old.work ≡ setup.now.parts }
    requires known { TellsTruth setup.now.image running.old.known }
    ensures ran { IfOk result (λ turn. RanNext (fixed_by setup.now) code.now (running_of running.old) (running_of running.new) turn) }
    ensures opened { IfOk result (λ _. length running.new.opened.items ≡ 0) }
    ensures kept { KeepsRoomAndOuts setup.now.image running.old running.new }
{
    let number = running.top.block as usize;
    let Some(block) = code.blocks.as_slice().get(number) else {
        unreachable!();
    };
    let Some(flat) = flat.get(number) else {
        unreachable!();
    };
    running.top.block += 1;
    running.line = block.line;
    let turn = run_block(setup, running, block.ops.as_slice(), flat.ops.as_slice())?;
    settle(setup, running)?;
    Ok(turn)
}

/// What one list has goes to the other, which is empty. Where there is nothing, no list is moved.
#[inline(always)]
fn hand_on(from: &mut RawOutList, to: &mut RawOutList)
    requires { to.old ≡ [] }
    ensures handed { to.new ≡ from.old }
    ensures left { from.new ≡ [] }
{
    if from.len() > 0 {
        std::mem::swap(from, to);
    }
}

/// Runs the next block, and puts what it tells at the end of `outs`.
///
/// Errors: want of memory; then `outs` has its old items.
#[inline(always)]
pub fn run_step<M: Memory>(
    setup: &Setup,
    code: &Code,
    flat: &[FlatBlock],
    running: &mut Running<M>,
    outs: &mut RawOutList,
) -> Result<MachineTurn, NoMemory>
    requires next { HasNext (fixed_by setup.now) code.now (with_outs (running_of running.old) outs.old) }
    requires few { length code.now.blocks < 2 ^ 32 }
    requires flat { AllZip IsFlatOf code.now.blocks flat.now }
    requires room { room running.old.work ≡ setup.now.parts }
    requires known { TellsTruth setup.now.image running.old.known }
    requires told { running.old.outs ≡ [] }
    ensures ran { IfOk result (λ turn. RanNext (fixed_by setup.now) code.now (with_outs (running_of running.old) outs.old) (with_outs (running_of running.new) outs.new) turn) }
    ensures outs { OnErr result (outs.new ≡ outs.old) }
    ensures opened { length running.new.opened.items ≡ 0 }
    ensures room { room running.new.work ≡ room running.old.work }
    ensures known { TellsTruth setup.now.image running.new.known }
    ensures told { running.new.outs ≡ [] }
{
    let was = outs.len();
    hand_on(outs, &mut running.outs);
    match run_next(setup, code, flat, running) {
        Ok(turn) => {
            hand_on(&mut running.outs, outs);
            Ok(turn)
        }
        Err(error) => {
            running.outs.truncate(was);
            running.opened.clear();
            hand_on(&mut running.outs, outs);
            Err(error)
        }
    }
}
