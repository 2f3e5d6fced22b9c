//! What is asked of casts, and of the conversion of what they give.

ghost use Rattle.std.specs.Prelude.{[], ◌∷◌, IfOk};
ghost use Rattle.cxx_hierarchy.specs.declared.records.ClassId.{ClassId};
ghost use Rattle.cxx_subobject.specs.Locations.{ObjectPart};
ghost use Rattle.cxx_program.specs.Typed.{Casts};
ghost use Rattle.path_model.specs.Values.{Objects, Pointer};
ghost use Rattle.path_model.specs.Uses.{Reads, Guards, Downs, cast_uses, cast_value};
ghost use Rattle.path_heap.specs.Stands.{Means};
ghost use Rattle.path_tables.specs.Asked.{AreAnswers};
ghost use Rattle.path_tables.specs.Worlds.{IsWorld};
ghost use Rattle.path_refusals.specs.invariants.Pieces.{Refuses, SteadyRefuses, ReadyRefuses, IsReadyPart, CastRefuses};
ghost use Rattle.path_refusals.specs.invariants.SideRules.{PartCastRefuses};

use crate::moment::{Moment, Refusal};
use crate::pointers::guarded;
use crate::views::{guard_view_of, is_shared, read_view};
use cxx_hierarchy::ClassId;
use cxx_program::{Conversion, TypedCast};
use cxx_subobject::Subobject;
use foundation::NoMemory;
use path_heap::Value;
use path_rules::Undefined;
use path_tables::Answers;
use path_values::{cast, down};

/// What a static downcast of a part that is ready breaks: it is that base of no subobject of the class (ISO C++03 5.2.9 p8).
///
/// Errors: want of memory.
fn part_down(
    moment: &Moment,
    answers: &mut Answers,
    n: u64,
    target: ClassId,
    i: &Subobject,
) -> Refusal
    requires world { IsWorld moment.now.world }
    requires answers { AreAnswers moment.now.world.h.now answers.old }
    ensures answers { AreAnswers moment.now.world.h.now answers.new }
    ensures is { IfOk result (ReadyRefuses moment.now.world.h.now moment.now.heap.now n (λ p. Downs (Pointer p) target i.now ∷ [])) }
{
    match down(
        moment.alloc,
        &moment.world,
        moment.heap,
        answers,
        n,
        target,
        i,
    )? {
        Value::Unset => Ok(Some(Undefined::BadDowncast)),
        // never met, nor null: a downcast gives a part or no value, by `down` of path_values
        Value::Number(_) => Ok(None),
        Value::Null => Ok(None),
        Value::Pointer(_) => Ok(None),
    }
}

/// The same of a value that is no pointer to a part that is not ready.
///
/// Errors: want of memory.
fn down_of(
    moment: &Moment,
    answers: &mut Answers,
    v: Value,
    target: ClassId,
    i: &Subobject,
) -> Refusal
    requires world { IsWorld moment.now.world }
    requires answers { AreAnswers moment.now.world.h.now answers.old }
    ensures answers { AreAnswers moment.now.world.h.now answers.new }
    ensures is { IfOk result (SteadyRefuses moment.now.world.h.now moment.now.heap.now v (λ x. Downs x target i.now ∷ [])) }
{
    match v {
        Value::Unset => Ok(None),
        Value::Number(_) => Ok(None),
        Value::Null => Ok(None),
        Value::Pointer(n) => part_down(moment, answers, n, target, i),
    }
}

/// What a static downcast breaks.
///
/// Errors: want of memory.
fn down_cast(
    moment: &Moment,
    answers: &mut Answers,
    v: Value,
    target: ClassId,
    i: &Subobject,
) -> Refusal
    requires world { IsWorld moment.now.world }
    requires answers { AreAnswers moment.now.world.h.now answers.old }
    ensures answers { AreAnswers moment.now.world.h.now answers.new }
    ensures is { IfOk result (Refuses moment.now.world.h.now moment.now.heap.now v (λ x. Reads x ∷ (Guards x ∷ Downs x target i.now ∷ []))) }
{
    match guarded(moment.heap, v) {
        Some(rule) => Ok(Some(rule)),
        None => down_of(moment, answers, v, target, i),
    }
}

/// What a cast breaks (ISO C++03 5.2.7, 5.2.9, 5.4, 12.7).
///
/// Errors: want of memory.
pub(crate) fn cast_rule(
    moment: &Moment,
    answers: &mut Answers,
    v: Value,
    how: &TypedCast,
) -> Refusal
    requires world { IsWorld moment.now.world }
    requires answers { AreAnswers moment.now.world.h.now answers.old }
    ensures answers { AreAnswers moment.now.world.h.now answers.new }
    ensures is { IfOk result (Refuses moment.now.world.h.now moment.now.heap.now v (cast_uses how.now)) }
{
    match how {
        TypedCast::Same => Ok(guarded(moment.heap, v)),
        TypedCast::Up(i) => read_view(moment, answers, v, is_shared(i)),
        TypedCast::Down(target, i) => down_cast(moment, answers, v, *target, i),
        TypedCast::Dynamic(_) => read_view(moment, answers, v, true),
    }
}

/// What a cast of a part that is ready gives.
///
/// Errors: want of memory.
fn part_cast(
    moment: &Moment,
    answers: &mut Answers,
    n: u64,
    how: &TypedCast,
) -> Result<Value, NoMemory>
    requires world { IsWorld moment.now.world }
    requires answers { AreAnswers moment.now.world.h.now answers.old }
    ensures answers { AreAnswers moment.now.world.h.now answers.new }
    ensures is { IfOk result (λ v. (s : Objects) (p : ObjectPart) (c d : ClassId) → IsReadyPart moment.now.world.h.now moment.now.heap.now s n p c → Casts moment.now.world.h.now c how.now d → Means moment.now.world.h.now s.classes v (cast_value moment.now.world.h.now s how.now (Pointer p))) }
{
    match how {
        TypedCast::Same => Ok(Value::Pointer(n)),
        TypedCast::Up(i) => Ok(Value::Pointer(
            moment.heap.base(moment.world.numbers, moment.world.h, n, i),
        )),
        TypedCast::Down(target, i) => down(
            moment.alloc,
            &moment.world,
            moment.heap,
            answers,
            n,
            *target,
            i,
        ),
        TypedCast::Dynamic(target) => cast(
            moment.alloc,
            &moment.world,
            moment.heap,
            answers,
            n,
            *target,
        ),
    }
}

/// What the conversion of the result of a cast breaks, of a part that is ready.
///
/// Errors: want of memory.
fn part_cast_converted(
    moment: &Moment,
    answers: &mut Answers,
    n: u64,
    how: &TypedCast,
    c: &Conversion,
) -> Refusal
    requires world { IsWorld moment.now.world }
    requires answers { AreAnswers moment.now.world.h.now answers.old }
    ensures answers { AreAnswers moment.now.world.h.now answers.new }
    ensures is { IfOk result (PartCastRefuses moment.now.world.h.now moment.now.heap.now n how.now c.now) }
{
    match c {
        Conversion::Number(_) => Ok(None),
        Conversion::Bits(_, _) => Ok(None),
        Conversion::Null => Ok(None),
        Conversion::Same => Ok(None),
        Conversion::Base(i) => {
            let to = part_cast(moment, answers, n, how)?;
            guard_view_of(moment, answers, to, is_shared(i))
        }
    }
}

/// The same of a value that the cast may have: of what is no pointer nothing is asked.
///
/// Errors: want of memory.
pub(crate) fn cast_converted(
    moment: &Moment,
    answers: &mut Answers,
    v: Value,
    how: &TypedCast,
    c: &Conversion,
) -> Refusal
    requires world { IsWorld moment.now.world }
    requires answers { AreAnswers moment.now.world.h.now answers.old }
    ensures answers { AreAnswers moment.now.world.h.now answers.new }
    ensures is { IfOk result (CastRefuses moment.now.world.h.now moment.now.heap.now v how.now c.now) }
{
    match v {
        Value::Unset => Ok(None),
        Value::Number(_) => Ok(None),
        Value::Null => Ok(None),
        Value::Pointer(n) => part_cast_converted(moment, answers, n, how, c),
    }
}
