//! The frames that calls open.

ghost use Rattle.std.specs.Prelude.{◌≡◌, ◌<◌, ◌-◌, ◌++◌, [], IfOk, None, length, replicate};
ghost use Rattle.byte_machine.specs.Frames.{entry_registers};
ghost use Rattle.byte_machine.specs.Calls.{calling, frame_at, kept_for, most_calls, register_words};
ghost use Rattle.byte_machine.specs.GivenFrames.{frame_of, kept_of};
ghost use Rattle.byte_machine.specs.Turn.{main_frame};
ghost use Rattle.byte_machine.specs.invariants.States.{fixed_by, running_of, KeepsRoomAndOuts};

use crate::frames::{Frame, Handed, Kept};
use crate::running::{Running, Setup};
use byte_code::{Code, Finish, FinishList, ResultUse};
use byte_memory::Memory;
use foundation::{NoMemory, Sequence};
use std::alloc::Global;

/// The words of these registers of the frame that runs go behind others.
fn push_words<M: Memory>(
    registers: &mut Vec<Option<u64>>,
    running: &Running<M>,
    arguments: &[u32],
) -> Result<(), NoMemory>
    ensures { IfOk result (λ _. registers.new.items ≡ registers.old.items ++ register_words (running_of running.now) arguments.now) }
{
    for number in arguments {
        registers.push(running.register(*number))?;
    }
    Ok(())
}

/// A list without registers: that of a frame that was left, or a new one. Errors: want of memory.
fn spare_registers<M: Memory>(
    setup: &Setup,
    running: &mut Running<M>,
) -> Result<Vec<Option<u64>>, NoMemory>
    ensures none { IfOk result (λ registers. registers.items ≡ []) }
    ensures same { running_of running.new ≡ running_of running.old }
    ensures kept { KeepsRoomAndOuts setup.now.image running.old running.new }
{
    match running.spare.pop() {
        Some(mut registers) => {
            registers.clear();
            Ok(registers)
        }
        None => {
            let registers = Vec::with_capacity(setup.alloc, setup.size as usize)?;
            Ok(registers)
        }
    }
}

/// Puts unset registers behind others, up to as many as a frame has.
#[tactic(auto, using(crate::proofs::Unset::unset_rest, crate::proofs::Unset::no_rest))]
fn fill_up(setup: &Setup, registers: &mut Vec<Option<u64>>) -> Result<(), NoMemory>
    ensures { IfOk result (λ _. registers.new.items ≡ registers.old.items ++ replicate (setup.now.size - length registers.old.items) None) }
{
    let count = registers.len();
    if count >= setup.unset.len() {
        return Ok(());
    }
    registers.extend_from_slice(&setup.unset[count..])?;
    Ok(())
}

/// The registers of a frame that is entered: `this`, the words of these registers, and unset ones.
pub fn enter<M: Memory>(
    setup: &Setup,
    running: &mut Running<M>,
    this: u64,
    arguments: &[u32],
) -> Result<Vec<Option<u64>>, NoMemory>
    ensures registers { IfOk result (λ registers. registers.items ≡ entry_registers setup.now.size this (register_words (running_of running.old) arguments.now)) }
    ensures same { running_of running.new ≡ running_of running.old }
    ensures kept { KeepsRoomAndOuts setup.now.image running.old running.new }
{
    let mut registers = spare_registers(setup, running)?;
    registers.push(Some(this))?;
    push_words(&mut registers, running, arguments)?;
    fill_up(setup, &mut registers)?;
    Ok(registers)
}

/// A list with these ops: one that was given back, or a new one. Errors: want of memory.
fn finish_list<M: Memory>(
    setup: &Setup,
    running: &mut Running<M>,
    ops: &[Finish],
) -> Result<FinishList, NoMemory>
    ensures list { IfOk result (λ list. list ≡ ops.now) }
    ensures same { running_of running.new ≡ running_of running.old }
    ensures kept { KeepsRoomAndOuts setup.now.image running.old running.new }
{
    if ops.is_empty() {
        return Ok(Sequence::new(setup.alloc));
    }
    let mut list = match running.lists.pop() {
        Some(list) => list.into_vec(),
        None => Vec::new(setup.alloc),
    };
    list.clear();
    list.extend_from_slice(ops)?;
    Ok(Sequence::from_vec(list))
}

/// What the return of a call does.
pub fn keep<M: Memory>(
    setup: &Setup,
    running: &mut Running<M>,
    outcome: &ResultUse,
    vbase: u64,
    add: u64,
) -> Result<Kept, NoMemory>
    ensures is { IfOk result (λ kept. kept_of kept ≡ kept_for outcome.now vbase add) }
    ensures same { running_of running.new ≡ running_of running.old }
    ensures kept { KeepsRoomAndOuts setup.now.image running.old running.new }
{
    let finish = finish_list(setup, running, outcome.finish.as_slice())?;
    Ok(Kept {
        to: outcome.to,
        class: outcome.class,
        vbase,
        add,
        finish,
    })
}

/// Nothing is handed to a complete object, a function or `main`.
pub const NOTHING_HANDED: Handed = Handed {
    owner: 0,
    owner_class: 0,
    vtt: 0,
    outer: 0,
    outer_class: 0,
};

/// Opens the frame of a call.
pub fn open_call<M: Memory>(
    setup: &Setup,
    running: &mut Running<M>,
    block: u32,
    this: u64,
    arguments: &[u32],
    kept: Kept,
) -> Result<(), NoMemory>
    requires { running.old.calls < most_calls }
    ensures did { IfOk result (λ _. running_of running.new ≡ calling (frame_at (fixed_by setup.now) block this (register_words (running_of running.old) arguments.now) (kept_of kept)) (running_of running.old)) }
    ensures kept { KeepsRoomAndOuts setup.now.image running.old running.new }
{
    let registers = enter(setup, running, this, arguments)?;
    let frame = Frame {
        registers,
        handed: NOTHING_HANDED,
        block,
        start: block,
        again: 0,
        stride: 0,
        is_call: true,
        kept,
    };
    running.opened.push(frame)?;
    running.calls += 1;
    Ok(())
}

/// So many words that are all the same.
pub fn same_words(
    alloc: Global,
    count: u32,
    word: Option<u64>,
) -> Result<Vec<Option<u64>>, NoMemory>
    ensures { IfOk result (λ words. words.items ≡ replicate count word) }
{
    let mut words = Vec::new(alloc);
    words.resize(count as usize, word)?;
    Ok(words)
}

/// The frame of `main`.
pub fn enter_main(alloc: Global, code: &Code) -> Result<Frame, NoMemory>
    ensures { IfOk result (λ frame. frame_of frame ≡ main_frame code.now) }
{
    let registers = same_words(alloc, code.registers, None)?;
    let kept = Kept {
        to: None,
        class: None,
        vbase: 0,
        add: 0,
        finish: Sequence::new(alloc),
    };
    Ok(Frame {
        registers,
        handed: NOTHING_HANDED,
        block: code.start,
        start: code.start,
        again: 0,
        stride: 0,
        is_call: false,
        kept,
    })
}
