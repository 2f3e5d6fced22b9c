//! Checks.

ghost use Rattle.std.specs.Prelude.{◌≡◌, if◌then◌else◌};
ghost use Rattle.abi_dyncast.specs.Casts.{room};
ghost use Rattle.abi_dyncast.specs.Known.{TellsTruth};
ghost use Rattle.byte_machine.specs.Running.{Goes};
ghost use Rattle.byte_machine.specs.Checks.{checked, view_checked};
ghost use Rattle.byte_machine.specs.invariants.States.{running_of, CanDo, DidAs, KeepsRoomAndOuts, refusal_stop};
ghost use Rattle.byte_machine.specs.invariants.CheckKinds.{check_kind, OfMemory, OfPhases, OfOwners};
ghost use Rattle.byte_code.specs.declared.op.Check.TheVariants.{Fits, SetLeaf};

use crate::numbers::fits;
use crate::running::{Running, Setup};
use crate::words::{moved, table_word};
use byte_code::{ArithKind, Check, Phase, Width};
use byte_memory::Memory;

/// The rule that refuses, where its test does not hold.
fn unless(holds: bool, rule: u8) -> Option<u8>
    ensures { result ≡ (if holds then None else Some rule) }
{
    if holds { None } else { Some(rule) }
}

/// Whether the result of a calculation is a number of the width, where both words are set. It answers the rule that refuses, if it
/// does.
#[inline(always)]
pub fn check_fits<M: Memory>(
    _setup: &Setup,
    running: &Running<M>,
    kind: ArithKind,
    width: Width,
    left: u32,
    right: u32,
) -> Option<u8>
    requires allowed { CanDo _setup.now (λ f s. checked f (Fits kind width left right) s) running.now }
    ensures { DidAs _setup.now (λ f s. checked f (Fits kind width left right) s) running.now running.now (refusal_stop running.now.line result) }
{
    match running.register(left) {
        None => None,
        Some(left) => match running.register(right) {
            None => None,
            Some(right) => unless(fits(kind, width, left, right), 12),
        },
    }
}

/// Whether the bytes of a leaf are set, where its address is not 0 and set. It answers the rule that refuses, if it does.
#[inline(always)]
pub fn check_leaf<M: Memory>(
    _setup: &Setup,
    running: &Running<M>,
    base: u32,
    offset: u32,
    width: Width,
) -> Option<u8>
    requires allowed { CanDo _setup.now (λ f s. checked f (SetLeaf base offset width) s) running.now }
    ensures { DidAs _setup.now (λ f s. checked f (SetLeaf base offset width) s) running.now running.now (refusal_stop running.now.line result) }
{
    match running.register(base) {
        None | Some(0) => None,
        Some(at) => {
            let leaf = running.heap.load(moved(at, offset as u64), width.bytes);
            unless(leaf.is_ok(), 5)
        }
    }
}

/// A check that looks at memory, or at the image.
#[inline(never)]
fn check_memory<M: Memory>(setup: &Setup, running: &Running<M>, check: &Check) -> Option<u8>
    requires kind { check_kind check.now ≡ OfMemory }
    requires allowed { CanDo setup.now (λ f s. checked f check.now s) running.now }
    ensures { DidAs setup.now (λ f s. checked f check.now s) running.now running.now (refusal_stop running.now.line result) }
{
    match check {
        Check::Open { register } => match running.register(*register) {
            None | Some(0) => None,
            Some(at) => unless(running.heap.fault(at).is_none(), 2),
        },
        Check::SetLeaf {
            base,
            offset,
            width,
        } => check_leaf(setup, running, *base, *offset, *width),
        Check::SetBits {
            base,
            offset,
            first,
            width,
        } => match running.register(*base) {
            None | Some(0) => None,
            Some(at) => unless(
                running
                    .heap
                    .load_bits(moved(at, *offset as u64), *first, width.bits)
                    .is_ok(),
                5,
            ),
        },
        Check::HasCode { register, entry } => match running.register(*register) {
            None | Some(0) => None,
            Some(at) => {
                let record = table_word(&setup.image, &running.heap, at, 8 * *entry as u64);
                unless(record != Some(0), 6)
            }
        },
        _ => unreachable!(),
    }
}

/// A check that looks at phases.
#[inline(never)]
fn check_phases<M: Memory>(_setup: &Setup, running: &Running<M>, check: &Check) -> Option<u8>
    requires kind { check_kind check.now ≡ OfPhases }
    requires allowed { CanDo _setup.now (λ f s. checked f check.now s) running.now }
    ensures { DidAs _setup.now (λ f s. checked f check.now s) running.now running.now (refusal_stop running.now.line result) }
{
    match check {
        Check::Ready {
            register,
            offset,
            class,
        } => match running.register(*register) {
            None | Some(0) => None,
            Some(at) => unless(running.shadow.is_ready(moved(at, *offset), *class), 3),
        },
        Check::Derived {
            register,
            offset,
            class,
        } => match running.register(*register) {
            None | Some(0) => None,
            Some(at) => unless(
                running.shadow.phase(moved(at, *offset), *class).is_some(),
                7,
            ),
        },
        Check::Complete { register } => match running.register(*register) {
            None | Some(0) => None,
            Some(at) => {
                let object = running.heap.opened(at).unwrap();
                let phase = running.shadow.phase(object.start, object.class);
                unless(phase == Some(Phase::Complete), 10)
            }
        },
        _ => unreachable!(),
    }
}

/// Whether a subobject is the view of its complete object, or a base of that view; else 4 refuses.
pub fn check_view<M: Memory>(
    setup: &Setup,
    running: &mut Running<M>,
    at: u64,
    class: u32,
) -> Option<u8>
    requires allowed { CanDo setup.now (λ f s. view_checked s at class (Goes s)) running.old }
    requires room { room running.old.work ≡ setup.now.parts }
    requires known { TellsTruth setup.now.image running.old.known }
    ensures did { DidAs setup.now (λ f s. view_checked s at class (Goes s)) running.old running.old (refusal_stop running.old.line result) }
    ensures same { running_of running.new ≡ running_of running.old }
    ensures kept { KeepsRoomAndOuts setup.now.image running.old running.new }
{
    let owner = running.shadow.owner(at, class).unwrap();
    let view = running.shadow.view(owner.0, owner.1).unwrap();
    if view.0 == at && view.1 == class {
        return None;
    }
    let inside = running.known.is_within(
        &setup.image,
        running.heap.memory(),
        &mut running.work,
        view.0,
        view.1,
        at,
        class,
    );
    unless(inside, 4)
}

/// A check that looks at complete objects.
#[inline(never)]
fn check_owners<M: Memory>(setup: &Setup, running: &mut Running<M>, check: &Check) -> Option<u8>
    requires kind { check_kind check.now ≡ OfOwners }
    requires allowed { CanDo setup.now (λ f s. checked f check.now s) running.old }
    requires room { room running.old.work ≡ setup.now.parts }
    requires known { TellsTruth setup.now.image running.old.known }
    ensures did { DidAs setup.now (λ f s. checked f check.now s) running.old running.new (refusal_stop running.old.line result) }
    ensures kept { KeepsRoomAndOuts setup.now.image running.old running.new }
{
    match check {
        Check::InView {
            register,
            offset,
            class,
        } => match running.register(*register) {
            None | Some(0) => None,
            Some(at) => {
                let rule = check_view(setup, running, moved(at, *offset), *class);
                rule
            }
        },
        Check::Whole { register, class } => match running.register(*register) {
            None | Some(0) => None,
            Some(at) => {
                let owner = running.shadow.owner(at, *class).unwrap();
                unless(owner.0 == at && owner.1 == *class, 8)
            }
        },
        Check::HeapObject { register, class } => match running.register(*register) {
            None | Some(0) => None,
            Some(at) => {
                let owner = running.shadow.owner(at, *class).unwrap();
                let object = running.heap.opened(at).unwrap();
                unless(owner.0 == object.start && owner.1 == object.class, 9)
            }
        },
        _ => unreachable!(),
    }
}

/// Runs a check. It answers the rule that refuses, if it does.
#[inline(always)]
pub fn run_check<M: Memory>(setup: &Setup, running: &mut Running<M>, check: &Check) -> Option<u8>
    requires allowed { CanDo setup.now (λ f s. checked f check.now s) running.old }
    requires room { room running.old.work ≡ setup.now.parts }
    requires known { TellsTruth setup.now.image running.old.known }
    ensures did { DidAs setup.now (λ f s. checked f check.now s) running.old running.new (refusal_stop running.old.line result) }
    ensures kept { KeepsRoomAndOuts setup.now.image running.old running.new }
{
    match check {
        Check::SetRegister { register } => unless(running.register(*register).is_some(), 5),
        Check::Fits {
            kind,
            width,
            left,
            right,
        } => check_fits(setup, running, *kind, *width, *left, *right),
        Check::NotNull { register } => match running.register(*register) {
            Some(0) => Some(1),
            _ => None,
        },
        Check::Never => Some(11),
        Check::Open { .. }
        | Check::SetLeaf { .. }
        | Check::SetBits { .. }
        | Check::HasCode { .. } => check_memory(setup, running, check),
        Check::Ready { .. } | Check::Derived { .. } | Check::Complete { .. } => {
            check_phases(setup, running, check)
        }
        Check::InView { .. } | Check::Whole { .. } | Check::HeapObject { .. } => {
            check_owners(setup, running, check)
        }
    }
}
