//! What is asked of views: of conversions to a base, and of what needs the view of a complete object.

ghost use Rattle.std.specs.Prelude.{◌≡◌, ◌∷◌, ◌++◌, IfOk};
ghost use Rattle.path_model.specs.Values.{Pointer};
ghost use Rattle.path_model.specs.Uses.{Reads, Guards, arrow, convert, is_shared, uses_of_view};
ghost use Rattle.path_tables.specs.Asked.{AreAnswers};
ghost use Rattle.path_tables.specs.Worlds.{IsWorld};
ghost use Rattle.path_refusals.specs.invariants.Pieces.{Refuses, SteadyRefuses, PartRefuses, ReadyRefuses};

use crate::moment::{Moment, Refusal};
use crate::pointers::{arrow, is_unready, reads};
use cxx_program::Conversion;
use cxx_subobject::{Root, Subobject};
use path_heap::Value;
use path_rules::Undefined;
use path_tables::Answers;
use path_values::is_outside;

/// Whether a subobject is a virtual base or lies behind one.
pub(crate) fn is_shared(i: &Subobject) -> bool
    ensures { result ≡ is_shared i.now }
{
    match i.root {
        Root::Whole => false,
        Root::Shared(_) => true,
    }
}

/// What a part breaks that is ready, where its view is needed: it lies outside of the view (ISO C++03 12.7).
///
/// Errors: want of memory.
pub(crate) fn view(moment: &Moment, answers: &mut Answers, n: u64, needed: bool) -> Refusal
    requires world { IsWorld moment.now.world }
    requires answers { AreAnswers moment.now.world.h.now answers.old }
    ensures answers { AreAnswers moment.now.world.h.now answers.new }
    ensures is { IfOk result (ReadyRefuses moment.now.world.h.now moment.now.heap.now n (λ p. uses_of_view needed (Pointer p))) }
{
    if !needed {
        return Ok(None);
    }
    if is_outside(moment.alloc, &moment.world, moment.heap, answers, n)? {
        Ok(Some(Undefined::OutsideView))
    } else {
        Ok(None)
    }
}

/// The same of a value that is no pointer to a part that is not ready.
///
/// Errors: want of memory.
pub(crate) fn view_of(moment: &Moment, answers: &mut Answers, v: Value, needed: bool) -> Refusal
    requires world { IsWorld moment.now.world }
    requires answers { AreAnswers moment.now.world.h.now answers.old }
    ensures answers { AreAnswers moment.now.world.h.now answers.new }
    ensures is { IfOk result (SteadyRefuses moment.now.world.h.now moment.now.heap.now v (λ x. uses_of_view needed x)) }
{
    match v {
        Value::Unset => Ok(None),
        Value::Number(_) => Ok(None),
        Value::Null => Ok(None),
        Value::Pointer(n) => view(moment, answers, n, needed),
    }
}

/// What a guarded use of a part breaks, where its view may be needed too.
///
/// Errors: want of memory.
pub(crate) fn guard_view(moment: &Moment, answers: &mut Answers, n: u64, needed: bool) -> Refusal
    requires world { IsWorld moment.now.world }
    requires answers { AreAnswers moment.now.world.h.now answers.old }
    ensures answers { AreAnswers moment.now.world.h.now answers.new }
    ensures is { IfOk result (PartRefuses moment.now.world.h.now moment.now.heap.now n (λ p. Guards (Pointer p) ∷ uses_of_view needed (Pointer p))) }
{
    if is_unready(moment.heap, n) {
        return Ok(Some(Undefined::NotReady));
    }
    view(moment, answers, n, needed)
}

/// The same of a value.
///
/// Errors: want of memory.
pub(crate) fn guard_view_of(
    moment: &Moment,
    answers: &mut Answers,
    v: Value,
    needed: bool,
) -> Refusal
    requires world { IsWorld moment.now.world }
    requires answers { AreAnswers moment.now.world.h.now answers.old }
    ensures answers { AreAnswers moment.now.world.h.now answers.new }
    ensures is { IfOk result (Refuses moment.now.world.h.now moment.now.heap.now v (λ x. Guards x ∷ uses_of_view needed x)) }
{
    match v {
        Value::Unset => Ok(None),
        Value::Number(_) => Ok(None),
        Value::Null => Ok(None),
        Value::Pointer(n) => guard_view(moment, answers, n, needed),
    }
}

/// The same of a value that is read.
///
/// Errors: want of memory.
pub(crate) fn read_view(moment: &Moment, answers: &mut Answers, v: Value, needed: bool) -> Refusal
    requires world { IsWorld moment.now.world }
    requires answers { AreAnswers moment.now.world.h.now answers.old }
    ensures answers { AreAnswers moment.now.world.h.now answers.new }
    ensures is { IfOk result (Refuses moment.now.world.h.now moment.now.heap.now v (λ x. Reads x ∷ (Guards x ∷ uses_of_view needed x))) }
{
    match reads(moment.heap, v) {
        Some(rule) => Ok(Some(rule)),
        None => guard_view_of(moment, answers, v, needed),
    }
}

/// What a conversion breaks (ISO C++03 4.10, 12.7 p2).
///
/// Errors: want of memory.
pub(crate) fn convert(moment: &Moment, answers: &mut Answers, v: Value, c: &Conversion) -> Refusal
    requires world { IsWorld moment.now.world }
    requires answers { AreAnswers moment.now.world.h.now answers.old }
    ensures answers { AreAnswers moment.now.world.h.now answers.new }
    ensures is { IfOk result (Refuses moment.now.world.h.now moment.now.heap.now v (λ x. convert x c.now)) }
{
    match c {
        Conversion::Number(_) => Ok(None),
        Conversion::Bits(_, _) => Ok(None),
        Conversion::Null => Ok(None),
        Conversion::Same => Ok(None),
        Conversion::Base(i) => guard_view_of(moment, answers, v, is_shared(i)),
    }
}

/// What a value breaks that is read and converted.
///
/// Errors: want of memory.
pub(crate) fn read_converted(
    moment: &Moment,
    answers: &mut Answers,
    v: Value,
    c: &Conversion,
) -> Refusal
    requires world { IsWorld moment.now.world }
    requires answers { AreAnswers moment.now.world.h.now answers.old }
    ensures answers { AreAnswers moment.now.world.h.now answers.new }
    ensures is { IfOk result (Refuses moment.now.world.h.now moment.now.heap.now v (λ x. Reads x ∷ convert x c.now)) }
{
    match reads(moment.heap, v) {
        Some(rule) => Ok(Some(rule)),
        None => convert(moment, answers, v, c),
    }
}

/// What the pointer of `->`, `*` or `typeid` breaks, where its view may be needed.
///
/// Errors: want of memory.
pub(crate) fn arrow_view(moment: &Moment, answers: &mut Answers, v: Value, needed: bool) -> Refusal
    requires world { IsWorld moment.now.world }
    requires answers { AreAnswers moment.now.world.h.now answers.old }
    ensures answers { AreAnswers moment.now.world.h.now answers.new }
    ensures is { IfOk result (Refuses moment.now.world.h.now moment.now.heap.now v (λ x. arrow x ++ uses_of_view needed x)) }
{
    match arrow(moment.heap, v) {
        Some(rule) => Ok(Some(rule)),
        None => view_of(moment, answers, v, needed),
    }
}
