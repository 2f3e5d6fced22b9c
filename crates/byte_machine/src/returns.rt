//! Returns.

ghost use Rattle.std.specs.Prelude.{◌≡◌, ◌<◌, ◌-◌, Some, IfOk, IsSome, length, if◌then◌else◌};
ghost use Rattle.abi_dyncast.specs.Casts.{room};
ghost use Rattle.abi_dyncast.specs.Known.{TellsTruth};
ghost use Rattle.byte_machine.specs.Frames.{next_element};
ghost use Rattle.byte_machine.specs.Running.{Goes, Returned, moved, register};
ghost use Rattle.byte_machine.specs.Calls.{resumed_frame, operand, result_checked, result_moved, return_effect, returned_to};
ghost use Rattle.byte_machine.specs.GivenFrames.{frame_of};
ghost use Rattle.byte_machine.specs.invariants.States.{fixed_by, running_of, CanDo, DidAs, KeepsRoomAndOuts, refusal_stop, stopped};

use crate::callees::moved_by_word;
use crate::checks::check_view;
use crate::frames::Frame;
use crate::running::{Running, Setup, Stop};
use crate::turn::MachineTurn;
use crate::words::moved;
use byte_code::FinishList;
use byte_memory::Memory;
use foundation::NoMemory;

/// The word that is returned, if any.
fn operand<M: Memory>(running: &Running<M>, from: Option<u32>) -> Option<u64>
    ensures { result ≡ operand (running_of running.now) from }
{
    match from {
        None => None,
        Some(number) => running.register(number),
    }
}

/// What is added to a result: the vbase word of its table, and then a constant; the unset state and 0 are passed on.
fn moved_result<M: Memory>(
    setup: &Setup,
    running: &Running<M>,
    word: Option<u64>,
) -> Option<Option<u64>>
    ensures { result ≡ result_moved (fixed_by setup.now) (running_of running.now) word }
{
    match word {
        None => Some(None),
        Some(0) => Some(Some(0)),
        Some(at) => {
            let kept = &running.top.kept;
            let base = moved_by_word(&setup.image, &running.heap, at, kept.vbase)?;
            Some(Some(moved(base, kept.add)))
        }
    }
}

/// Whether a result may become one of the class that the declaration found names. It answers the rule that refuses, if one does.
fn check_result<M: Memory>(
    setup: &Setup,
    running: &mut Running<M>,
    word: Option<u64>,
    class: Option<u32>,
) -> Option<u8>
    requires allowed { CanDo setup.now (λ f s. result_checked s word s.top.kept.class class (Goes s)) running.old }
    requires room { room running.old.work ≡ setup.now.parts }
    requires known { TellsTruth setup.now.image running.old.known }
    ensures did { DidAs setup.now (λ f s. result_checked s word s.top.kept.class class (Goes s)) running.old running.old (refusal_stop running.old.line result) }
    ensures same { running_of running.new ≡ running_of running.old }
    ensures kept { KeepsRoomAndOuts setup.now.image running.old running.new }
{
    let at = word?;
    if at == 0 {
        return None;
    }
    let found = running.top.kept.class?;
    let class = class?;
    if found == class {
        return None;
    }
    if !running.shadow.is_ready(at, class) {
        return Some(3);
    }
    if running.top.kept.vbase == 0 {
        return None;
    }
    let rule = check_view(setup, running, at, class);
    rule
}

/// The frame of the next element of an array.
fn enter_next<M: Memory>(_setup: &Setup, running: &mut Running<M>, this: u64)
    requires some { 0 < running.old.top.again }
    requires registers { 0 < length running.old.top.registers.items }
    ensures next { running_of running.new ≡ record (running_of running.old) { top = next_element (running_of running.old).top this (running.old.top.again - 1) } }
    ensures kept { KeepsRoomAndOuts _setup.now.image running.old running.new }
{
    running.top.registers.fill(None);
    running.top.registers[0] = Some(this);
    running.top.block = running.top.start;
    running.top.again -= 1;
}

/// The frame below takes a result.
fn give(frame: &mut Frame, to: Option<u32>, word: Option<u64>)
    requires { IsSome (resumed_frame to word (frame_of frame.old)) }
    ensures { resumed_frame to word (frame_of frame.old) ≡ Some (frame_of frame.new) }
{
    if let Some(to) = to {
        frame.registers[to as usize] = word;
    }
}

/// How many calls are open once a frame is left.
fn left_calls(calls: u32, is_call: bool) -> u32
    ensures { result ≡ (if is_call then calls - 1 else calls) }
{
    if is_call {
        calls.saturating_sub(1)
    } else {
        calls
    }
}

/// The frame below goes on, with the result. It answers what follows. Errors: want of memory.
fn leave<M: Memory>(
    setup: &Setup,
    running: &mut Running<M>,
    word: Option<u64>,
) -> Result<FinishList, NoMemory>
    requires { CanDo setup.now (λ f s. returned_to s word s.below) running.old }
    ensures did { IfOk result (λ finish. DidAs setup.now (λ f s. returned_to s word s.below) running.old running.new (Some (Returned finish))) }
    ensures kept { KeepsRoomAndOuts setup.now.image running.old running.new }
{
    let found = running.below.pop(setup.alloc, &mut running.spare)?;
    let mut under = found.unwrap();
    give(&mut under, running.top.kept.to, word);
    running.calls = left_calls(running.calls, running.top.is_call);
    let done = std::mem::replace(&mut running.top, under);
    let _ = running.spare.push(done.registers);
    Ok(done.kept.finish)
}

/// Runs a return. It answers what stops the block: a refusal, or what follows the return; the next element of an array stops
/// nothing. Errors: want of memory.
pub fn run_return<M: Memory>(
    setup: &Setup,
    running: &mut Running<M>,
    from: Option<u32>,
    class: Option<u32>,
) -> Result<Option<Stop>, NoMemory>
    requires allowed { CanDo setup.now (λ f s. return_effect f s from class s.opened) running.old }
    requires room { room running.old.work ≡ setup.now.parts }
    requires known { TellsTruth setup.now.image running.old.known }
    ensures did { IfOk result (λ stop. DidAs setup.now (λ f s. return_effect f s from class s.opened) running.old running.new (stopped stop)) }
    ensures kept { KeepsRoomAndOuts setup.now.image running.old running.new }
{
    if running.top.again > 0 {
        let this = running.register(0).unwrap();
        enter_next(setup, running, moved(this, running.top.stride));
        return Ok(None);
    }
    let word = operand(running, from);
    if let Some(rule) = check_result(setup, running, word, class) {
        return Ok(Some(Stop::Answers(MachineTurn::Refused(rule, running.line))));
    }
    let word = moved_result(setup, running, word).unwrap();
    let finish = leave(setup, running, word)?;
    Ok(Some(Stop::Returned(finish)))
}
