//! What is read through virtual pointers, and casts.

ghost use Rattle.std.specs.Prelude.{◌≡◌, ◌+◌, None, Some};
ghost use Rattle.abi_dyncast.specs.Casts.{room};
ghost use Rattle.byte_machine.specs.Running.{Casts, moved, passed, put_register, register, table_word, with_some_word};
ghost use Rattle.byte_machine.specs.Effects.{effect_of, or_null};
ghost use Rattle.byte_machine.specs.invariants.OpKinds.{op_kind, OfViews};
ghost use Rattle.byte_machine.specs.invariants.States.{CanDo, DidAs, KeepsRoomAndOuts};

use crate::running::{Running, Setup};
use crate::words::{moved, table_word};
use abi_dyncast::cast_hinted;
use byte_code::{BaseReader, Op};
use byte_memory::Memory;

/// Where the offset to top stands, in bytes behind an address point modulo 2^64 (Itanium C++ ABI 2.5.2).
const TOP_WORD: u64 = 0xffff_ffff_ffff_fff0;

/// Where the address of the type information stands, likewise.
const INFO_WORD: u64 = 0xffff_ffff_ffff_fff8;

/// Adds to an address the word of its table that stands so many bytes behind the address point. The address 0 and the unset state
/// are passed on.
pub fn add_word<M: Memory>(setup: &Setup, running: &mut Running<M>, to: u32, base: u32, bytes: u64)
    requires { CanDo setup.now (λ f s. passed to s (register s base) (λ at. with_some_word (table_word f.image s.memory at bytes) (λ by. put_register to (Some (moved at by)) s))) running.old }
    ensures did { DidAs setup.now (λ f s. passed to s (register s base) (λ at. with_some_word (table_word f.image s.memory at bytes) (λ by. put_register to (Some (moved at by)) s))) running.old running.new None }
    ensures kept { KeepsRoomAndOuts setup.now.image running.old running.new }
{
    let word = match running.register(base) {
        None => None,
        Some(0) => Some(0),
        Some(at) => {
            let by = table_word(&setup.image, &running.heap, at, bytes).unwrap();
            Some(moved(at, by))
        }
    };
    running.put(setup, to, word);
}

/// The answer of a cast as an address, 0 where it has none.
fn or_null(found: Option<u64>) -> u64
    ensures { result ≡ or_null found }
{
    match found {
        None => 0,
        Some(at) => at,
    }
}

/// Puts the answer of the cast of an address that is no null, or 0 where it has none.
fn put_cast<M: Memory>(
    setup: &Setup,
    running: &mut Running<M>,
    to: u32,
    at: u64,
    class: u32,
    target: u32,
    hint: i64,
)
    requires allowed { CanDo setup.now (λ f s. Casts at class target hint (λ answer. put_register to (Some (or_null answer)) s)) running.old }
    requires room { room running.old.work ≡ setup.now.parts }
    ensures did { DidAs setup.now (λ f s. Casts at class target hint (λ answer. put_register to (Some (or_null answer)) s)) running.old running.new None }
    ensures kept { KeepsRoomAndOuts setup.now.image running.old running.new }
{
    let mut reader = BaseReader::new(&setup.image);
    let found = cast_hinted(
        &mut reader,
        running.heap.memory(),
        &mut running.work,
        at,
        class,
        target,
        hint,
    );
    running.put(setup, to, Some(or_null(found)));
}

/// Runs an op that looks at a view.
pub fn run_view<M: Memory>(setup: &Setup, running: &mut Running<M>, op: &Op)
    requires kind { op_kind op.now ≡ OfViews }
    requires allowed { CanDo setup.now (λ f s. effect_of f op.now s) running.old }
    requires room { room running.old.work ≡ setup.now.parts }
    ensures did { DidAs setup.now (λ f s. effect_of f op.now s) running.old running.new None }
    ensures kept { KeepsRoomAndOuts setup.now.image running.old running.new }
{
    match op {
        Op::TypeOf { to, base } => {
            let at = running.register(*base).unwrap();
            let info = table_word(&setup.image, &running.heap, at, INFO_WORD).unwrap();
            let class = setup.image.number(info).unwrap();
            running.put(setup, *to, Some(class));
        }
        Op::Top { to, base } => add_word(setup, running, *to, *base, TOP_WORD),
        Op::Cast {
            to,
            base,
            class,
            target,
            hint,
        } => match running.register(*base) {
            None => running.put(setup, *to, None),
            Some(0) => running.put(setup, *to, Some(0)),
            Some(at) => put_cast(setup, running, *to, at, *class, *target, *hint),
        },
        _ => unreachable!(),
    }
}
