//! What ops tell.

ghost use Rattle.std.specs.Prelude.{◌≡◌, None, IfOk};
ghost use Rattle.byte_machine.specs.Running.{telling_raw};
ghost use Rattle.byte_machine.specs.Effects.{effect_of};
ghost use Rattle.byte_machine.specs.invariants.OpKinds.{op_kind, OfOuts};
ghost use Rattle.byte_machine.specs.invariants.States.{CanDo, DidAs, KeepsRoomAndOuts};

use crate::running::{Running, Setup};
use crate::turn::RawOut;
use byte_code::{Op, PrintAs, TraceKind};
use byte_memory::Memory;
use foundation::NoMemory;

/// Runs an op that tells something. Errors: want of memory; then what was told is as before.
pub fn run_out<M: Memory>(_setup: &Setup, running: &mut Running<M>, op: &Op) -> Result<(), NoMemory>
    requires kind { op_kind op.now ≡ OfOuts }
    requires allowed { CanDo _setup.now (λ f s. effect_of f op.now s) running.old }
    ensures did { IfOk result (λ _. DidAs _setup.now (λ f s. effect_of f op.now s) running.old running.new None) }
    ensures kept { KeepsRoomAndOuts _setup.now.image running.old running.new }
{
    let out = match op {
        Op::Print { from, what } => {
            let word = running.register(*from).unwrap();
            match what {
                PrintAs::Number(width) => RawOut::Number(width.number(word)),
                PrintAs::Address => RawOut::Address(word),
                PrintAs::Class => RawOut::Class((word % 0x1_0000_0000) as u32),
            }
        }
        Op::Dump { from } => RawOut::Dump(running.register(*from).unwrap()),
        Op::Trace(TraceKind::Call) => {
            let frame = running.opened.last().unwrap();
            RawOut::Call(frame.block, frame.registers[0].unwrap())
        }
        Op::Trace(TraceKind::Built(class)) => {
            RawOut::Built(*class, running.register(0).unwrap())
        }
        Op::Trace(TraceKind::Ending(class)) => {
            RawOut::Ending(*class, running.register(0).unwrap())
        }
        _ => unreachable!(),
    };
    running.outs.push(out)?;
    Ok(())
}
