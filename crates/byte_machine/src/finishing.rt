//! Ops that may follow a return.

ghost use Rattle.std.specs.Prelude.{◌≡◌};
ghost use Rattle.abi_dyncast.specs.Casts.{room};
ghost use Rattle.abi_dyncast.specs.Known.{TellsTruth};
ghost use Rattle.byte_machine.specs.Effects.{finish_effect};
ghost use Rattle.byte_machine.specs.invariants.States.{CanDo, DidAs, KeepsRoomAndOuts, refusal_stop};

use crate::checks::run_check;
use crate::numbers::convert;
use crate::running::{Running, Setup};
use crate::views::add_word;
use crate::words::{moved, word_bytes};
use byte_code::Finish;
use byte_memory::Memory;

/// Runs an op that may follow a return. It answers the rule that refuses, if one does.
#[inline(always)]
pub fn run_finish<M: Memory>(setup: &Setup, running: &mut Running<M>, finish: &Finish) -> Option<u8>
    requires allowed { CanDo setup.now (λ f s. finish_effect f finish.now s) running.old }
    requires room { room running.old.work ≡ setup.now.parts }
    requires known { TellsTruth setup.now.image running.old.known }
    ensures did { DidAs setup.now (λ f s. finish_effect f finish.now s) running.old running.new (refusal_stop running.old.line result) }
    ensures kept { KeepsRoomAndOuts setup.now.image running.old running.new }
{
    match finish {
        Finish::Check(check) => {
            let rule = run_check(setup, running, check);
            rule
        }
        Finish::Add { to, base, offset } => {
            let word = match running.register(*base) {
                None => None,
                Some(0) => Some(0),
                Some(at) => Some(moved(at, *offset)),
            };
            running.put(setup, *to, word);
            None
        }
        Finish::AddVbase { to, base, word } => {
            add_word(setup, running, *to, *base, word_bytes(*word));
            None
        }
        Finish::Convert { to, from, kind } => {
            let word = match running.register(*from) {
                None => None,
                Some(word) => Some(convert(*kind, word)),
            };
            running.put(setup, *to, word);
            None
        }
        Finish::Move { to, from } => {
            let word = running.register(*from);
            running.put(setup, *to, word);
            None
        }
        Finish::WriteGlobal { global, from } => {
            running.globals[*global as usize] = running.register(*from);
            None
        }
    }
}
