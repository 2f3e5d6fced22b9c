//! Calls, `new` and `delete` (Itanium C++ ABI 2.5.2, 2.5.3).

ghost use Rattle.std.specs.Prelude.{◌≡◌, ◌*◌, [], Some, IfOk};
ghost use Rattle.byte_machine.specs.Calls.{code_called, deleted_unless_null, entry_called, new_effect, nothing_used};
ghost use Rattle.byte_machine.specs.Effects.{effect_of};
ghost use Rattle.byte_machine.specs.Running.{table_word};
ghost use Rattle.byte_machine.specs.invariants.Flat.{code_call, CanDoAll, DidAllAs};
ghost use Rattle.byte_machine.specs.invariants.OpKinds.{op_kind, OfCalls, OfDeletes};
ghost use Rattle.byte_machine.specs.invariants.States.{CanDo, DidAs, KeepsRoomAndOuts, limited, stopped};

use crate::callees::{callee_by_record, find_callee};
use crate::entering::{keep, open_call};
use crate::running::{Running, Setup, Stop};
use crate::turn::MachineTurn;
use crate::words::table_word;
use byte_code::{Op, ResultUse};
use byte_memory::Memory;
use foundation::{NoMemory, Sequence};

/// How many calls, `new` and `delete` may be open.
const MOST_CALLS: u32 = 4096;

/// A call by an entry of the table of an address. It answers the limit that it meets, if it does.
fn call_entry<M: Memory>(
    setup: &Setup,
    running: &mut Running<M>,
    this: u64,
    entry: u32,
    arguments: &[u32],
    outcome: &ResultUse,
) -> Result<Option<u8>, NoMemory>
    requires { CanDo setup.now (λ f s. entry_called f s entry arguments.now outcome.now this) running.old }
    ensures did { IfOk result (λ limit. DidAs setup.now (λ f s. entry_called f s entry arguments.now outcome.now this) running.old running.new (limited limit)) }
    ensures kept { KeepsRoomAndOuts setup.now.image running.old running.new }
{
    if running.calls >= MOST_CALLS {
        return Ok(Some(10));
    }
    let callee = find_callee(&setup.image, &running.heap, this, entry).unwrap();
    let kept = keep(setup, running, outcome, callee.vbase, callee.add)?;
    open_call(setup, running, callee.block, callee.this, arguments, kept)?;
    Ok(None)
}

/// The same, where the address of the entry's record is known.
fn call_record<M: Memory>(
    setup: &Setup,
    running: &mut Running<M>,
    this: u64,
    entry: u32,
    place: u64,
    arguments: &[u32],
    outcome: &ResultUse,
) -> Result<Option<u8>, NoMemory>
    requires place { table_word setup.now.image (M.meaning running.old.heap.memory) this (8 * entry) ≡ Some place }
    requires allowed { CanDo setup.now (λ f s. entry_called f s entry arguments.now outcome.now this) running.old }
    ensures did { IfOk result (λ limit. DidAs setup.now (λ f s. entry_called f s entry arguments.now outcome.now this) running.old running.new (limited limit)) }
    ensures kept { KeepsRoomAndOuts setup.now.image running.old running.new }
{
    if running.calls >= MOST_CALLS {
        return Ok(Some(10));
    }
    let callee = callee_by_record(&setup.image, &running.heap, this, entry, place).unwrap();
    let kept = keep(setup, running, outcome, callee.vbase, callee.add)?;
    open_call(setup, running, callee.block, callee.this, arguments, kept)?;
    Ok(None)
}

/// Tests that an entry of the table of an address has code, and calls it; its record is looked up once. It answers what stops the
/// block, if something does.
///
/// Errors: want of memory; then nothing is said of what it works on.
pub fn call_with_code<M: Memory>(
    setup: &Setup,
    running: &mut Running<M>,
    this: u32,
    entry: u32,
    arguments: &[u32],
    outcome: &ResultUse,
) -> Result<Option<Stop>, NoMemory>
    requires allowed { CanDoAll setup.now (code_call this entry arguments.now outcome.now) running.old }
    ensures did { IfOk result (λ stop. DidAllAs setup.now (code_call this entry arguments.now outcome.now) running.old running.new (stopped stop)) }
    ensures kept { KeepsRoomAndOuts setup.now.image running.old running.new }
{
    let at = running.register(this).unwrap();
    if at == 0 {
        let limit = call_entry(setup, running, at, entry, arguments, outcome)?;
        return Ok(limit_stop(limit));
    }
    let place = table_word(&setup.image, &running.heap, at, 8 * entry as u64).unwrap();
    if place == 0 {
        return Ok(Some(Stop::Answers(MachineTurn::Refused(6, running.line))));
    }
    let limit = call_record(setup, running, at, entry, place, arguments, outcome)?;
    Ok(limit_stop(limit))
}

/// What stops a block, if a limit is met.
pub fn limit_stop(limit: Option<u8>) -> Option<Stop>
    ensures { stopped result ≡ limited limit }
{
    match limit {
        None => None,
        Some(number) => Some(Stop::Answers(MachineTurn::Limit(number))),
    }
}

/// A call of a block, with `this`. It answers the limit that it meets, if it does.
fn call_code<M: Memory>(
    setup: &Setup,
    running: &mut Running<M>,
    block: u32,
    this: u64,
    arguments: &[u32],
    outcome: &ResultUse,
) -> Result<Option<u8>, NoMemory>
    requires { CanDo setup.now (λ f s. code_called f s block arguments.now outcome.now this) running.old }
    ensures did { IfOk result (λ limit. DidAs setup.now (λ f s. code_called f s block arguments.now outcome.now this) running.old running.new (limited limit)) }
    ensures kept { KeepsRoomAndOuts setup.now.image running.old running.new }
{
    if running.calls >= MOST_CALLS {
        return Ok(Some(10));
    }
    let kept = keep(setup, running, outcome, 0, 0)?;
    open_call(setup, running, block, this, arguments, kept)?;
    Ok(None)
}

/// A `new`: a heap object, and the frame of a block over its address. It answers the limit that it meets, if it does.
fn make<M: Memory>(
    setup: &Setup,
    running: &mut Running<M>,
    size: u32,
    class: u32,
    block: u32,
    outcome: &ResultUse,
) -> Result<Option<u8>, NoMemory>
    requires { CanDo setup.now (λ f s. new_effect f s size class block outcome.now) running.old }
    ensures did { IfOk result (λ limit. DidAs setup.now (λ f s. new_effect f s size class block outcome.now) running.old running.new (limited limit)) }
    ensures kept { KeepsRoomAndOuts setup.now.image running.old running.new }
{
    if running.heap.is_full(size) {
        return Ok(Some(8));
    }
    if running.calls >= MOST_CALLS {
        return Ok(Some(10));
    }
    let kept = keep(setup, running, outcome, 0, 0)?;
    let at = running.heap.make(size, class)?;
    open_call(setup, running, block, at, &[], kept)?;
    Ok(None)
}

/// Nothing becomes of a result.
fn unused(setup: &Setup) -> ResultUse
    ensures { result ≡ nothing_used }
{
    ResultUse {
        to: None,
        class: None,
        finish: Sequence::new(setup.alloc),
    }
}

/// A `delete`, by an entry of the table of an address.
fn delete_entry<M: Memory>(
    setup: &Setup,
    running: &mut Running<M>,
    this: u64,
    entry: u32,
) -> Result<Option<u8>, NoMemory>
    requires { CanDo setup.now (λ f s. deleted_unless_null this s (entry_called f s entry [] nothing_used this)) running.old }
    ensures did { IfOk result (λ limit. DidAs setup.now (λ f s. deleted_unless_null this s (entry_called f s entry [] nothing_used this)) running.old running.new (limited limit)) }
    ensures kept { KeepsRoomAndOuts setup.now.image running.old running.new }
{
    if this == 0 {
        return Ok(None);
    }
    let outcome = unused(setup);
    let limit = call_entry(setup, running, this, entry, &[], &outcome)?;
    Ok(limit)
}

/// A `delete`, by a block.
fn delete_code<M: Memory>(
    setup: &Setup,
    running: &mut Running<M>,
    this: u64,
    block: u32,
) -> Result<Option<u8>, NoMemory>
    requires { CanDo setup.now (λ f s. deleted_unless_null this s (code_called f s block [] nothing_used this)) running.old }
    ensures did { IfOk result (λ limit. DidAs setup.now (λ f s. deleted_unless_null this s (code_called f s block [] nothing_used this)) running.old running.new (limited limit)) }
    ensures kept { KeepsRoomAndOuts setup.now.image running.old running.new }
{
    if this == 0 {
        return Ok(None);
    }
    let outcome = unused(setup);
    let limit = call_code(setup, running, block, this, &[], &outcome)?;
    Ok(limit)
}

/// Runs a call or a `new`. It answers the limit that it meets, if it does.
///
/// Errors: want of memory; then nothing is said of what it works on.
pub fn run_call<M: Memory>(
    setup: &Setup,
    running: &mut Running<M>,
    op: &Op,
) -> Result<Option<u8>, NoMemory>
    requires kind { op_kind op.now ≡ OfCalls }
    requires allowed { CanDo setup.now (λ f s. effect_of f op.now s) running.old }
    ensures did { IfOk result (λ limit. DidAs setup.now (λ f s. effect_of f op.now s) running.old running.new (limited limit)) }
    ensures kept { KeepsRoomAndOuts setup.now.image running.old running.new }
{
    let limit = match op {
        Op::CallEntry {
            this,
            entry,
            arguments,
            result,
        } => {
            let at = running.register(*this).unwrap();
            call_entry(setup, running, at, *entry, arguments.as_slice(), result)?
        }
        Op::CallCode {
            block,
            this,
            arguments,
            result,
        } => {
            let at = running.register(*this).unwrap();
            call_code(setup, running, *block, at, arguments.as_slice(), result)?
        }
        Op::New {
            size,
            class,
            block,
            result,
        } => make(setup, running, *size, *class, *block, result)?,
        _ => unreachable!(),
    };
    Ok(limit)
}

/// Runs a `delete`. It answers the limit that it meets, if it does.
///
/// Errors: want of memory; then nothing is said of what it works on.
pub fn run_delete<M: Memory>(
    setup: &Setup,
    running: &mut Running<M>,
    op: &Op,
) -> Result<Option<u8>, NoMemory>
    requires kind { op_kind op.now ≡ OfDeletes }
    requires allowed { CanDo setup.now (λ f s. effect_of f op.now s) running.old }
    ensures did { IfOk result (λ limit. DidAs setup.now (λ f s. effect_of f op.now s) running.old running.new (limited limit)) }
    ensures kept { KeepsRoomAndOuts setup.now.image running.old running.new }
{
    let limit = match op {
        Op::DeleteEntry { this, entry } => {
            let at = running.register(*this).unwrap();
            delete_entry(setup, running, at, *entry)?
        }
        Op::DeleteCode { this, block } => {
            let at = running.register(*this).unwrap();
            delete_code(setup, running, at, *block)?
        }
        _ => unreachable!(),
    };
    Ok(limit)
}
