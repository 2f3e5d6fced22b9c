//! Ops on words, globals and memory.

ghost use Rattle.std.specs.Prelude.{◌≡◌, None, true};
ghost use Rattle.byte_machine.specs.Effects.{effect_of};
ghost use Rattle.byte_machine.specs.invariants.OpKinds.{op_kind, moves_bits, OfValues};
ghost use Rattle.byte_machine.specs.invariants.States.{CanDo, DidAs, KeepsRoomAndOuts};

use crate::running::{Running, Setup};
use crate::simple::{copy_bytes, put_loaded, put_result, store_word};
use crate::words::moved;
use byte_code::Op;
use byte_memory::Memory;

/// Runs an op on the bits of a bit-field.
fn run_bits<M: Memory>(_setup: &Setup, running: &mut Running<M>, op: &Op)
    requires kind { moves_bits op.now ≡ true }
    requires allowed { CanDo _setup.now (λ f s. effect_of f op.now s) running.old }
    ensures did { DidAs _setup.now (λ f s. effect_of f op.now s) running.old running.new None }
    ensures kept { KeepsRoomAndOuts _setup.now.image running.old running.new }
{
    match op {
        Op::LoadBits {
            to,
            base,
            offset,
            first,
            width,
        } => {
            let at = running.register(*base).unwrap();
            let number = running
                .heap
                .load_bits(moved(at, *offset as u64), *first, width.bits)
                .unwrap();
            running.put(_setup, *to, Some(width.extend(number)));
        }
        Op::StoreBits {
            from,
            base,
            offset,
            first,
            width,
        } => {
            let at = running.register(*base).unwrap();
            let word = running.register(*from).unwrap();
            running
                .heap
                .store_bits(moved(at, *offset as u64), *first, width.bits, word)
                .unwrap();
        }
        Op::CopyBits {
            to,
            from,
            offset,
            first,
            bits,
        } => {
            let source = moved(running.register(*from).unwrap(), *offset as u64);
            let target = moved(running.register(*to).unwrap(), *offset as u64);
            running
                .heap
                .copy_bits(source, target, *first, *bits)
                .unwrap();
        }
        _ => unreachable!(),
    }
}

/// Runs an op on words, globals or memory.
pub fn run_value<M: Memory>(_setup: &Setup, running: &mut Running<M>, op: &Op)
    requires kind { op_kind op.now ≡ OfValues }
    requires allowed { CanDo _setup.now (λ f s. effect_of f op.now s) running.old }
    ensures did { DidAs _setup.now (λ f s. effect_of f op.now s) running.old running.new None }
    ensures kept { KeepsRoomAndOuts _setup.now.image running.old running.new }
{
    match op {
        Op::Const { to, value } => running.put(_setup, *to, Some(*value)),
        Op::ReadGlobal { to, global } => {
            let word = running.globals[*global as usize];
            running.put(_setup, *to, word);
        }
        Op::Load {
            to,
            base,
            offset,
            width,
        } => put_loaded(_setup, running, *to, *base, *offset, *width),
        Op::Store {
            from,
            base,
            offset,
            width,
        } => store_word(_setup, running, *from, *base, *offset, *width),
        Op::Copy {
            to,
            from,
            offset,
            bytes,
        } => copy_bytes(_setup, running, *to, *from, *offset, *bytes),
        Op::LoadBits { .. } | Op::StoreBits { .. } | Op::CopyBits { .. } => {
            run_bits(_setup, running, op)
        }
        Op::Arith {
            kind,
            width,
            to,
            left,
            right,
        } => put_result(_setup, running, *kind, *width, *to, *left, *right),
        _ => unreachable!(),
    }
}
