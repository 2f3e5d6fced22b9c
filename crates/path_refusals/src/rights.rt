//! What is asked of what stands to the right of `=`.

ghost use Rattle.std.specs.Prelude.{IfOk};
ghost use Rattle.path_tables.specs.Asked.{AreAnswers};
ghost use Rattle.path_tables.specs.Worlds.{IsWorld};
ghost use Rattle.path_refusals.specs.invariants.SideRules.{IsLeafReached, IsAddressReached, ReadRefuses, AddressRefuses, CastedRefuses, RightRefuses};

use crate::calls::call;
use crate::casts::{cast_converted, cast_rule};
use crate::moment::{Moment, Refusal};
use crate::operands::{calculation, read, two_arguments};
use crate::places::place;
use crate::views::{arrow_view, convert, read_converted};
use cxx_program::{Conversion, TypedCast, TypedOperand, TypedPlace, TypedRight};
use path_heap::Value;
use path_tables::Answers;
use path_values::{Scene, address_number, leaf_number, value};

/// The value of the leaf to which a place leads that breaks no rule, by the value of its pointer.
fn leaf_of(moment: &Moment, v: Value, place: &TypedPlace) -> Value
    requires world { IsWorld moment.now.world }
    ensures { IsLeafReached moment.now.world.h.now moment.now.heap.now v place.now result }
{
    match v {
        Value::Unset => Value::Unset,
        Value::Number(_) => Value::Unset,
        Value::Null => Value::Unset,
        Value::Pointer(n) => moment
            .heap
            .leaf(leaf_number(&moment.world, moment.heap, n, place)),
    }
}

/// A pointer to the class member to which a place leads that breaks no rule, by the value of its pointer.
fn address_of(moment: &Moment, v: Value, place: &TypedPlace) -> Value
    requires world { IsWorld moment.now.world }
    ensures { IsAddressReached moment.now.world.h.now moment.now.heap.now v place.now result }
{
    match v {
        Value::Unset => Value::Unset,
        Value::Number(_) => Value::Unset,
        Value::Null => Value::Unset,
        Value::Pointer(n) => Value::Pointer(address_number(&moment.world, moment.heap, n, place)),
    }
}

/// What the reading of a place breaks: its pointer and its path, and where these break no rule what it reads.
///
/// Errors: want of memory.
fn loaded(
    moment: &Moment,
    answers: &mut Answers,
    scene: &Scene,
    from: &TypedPlace,
    c: &Conversion,
) -> Refusal
    requires world { IsWorld moment.now.world }
    requires answers { AreAnswers moment.now.world.h.now answers.old }
    ensures answers { AreAnswers moment.now.world.h.now answers.new }
    ensures is { IfOk result (ReadRefuses moment.now.world.h.now moment.now.heap.now scene.now from.now c.now) }
{
    let v = value(scene, &from.pointer);
    match place(moment, answers, v, from)? {
        Some(rule) => Ok(Some(rule)),
        None => {
            let leaf = leaf_of(moment, v, from);
            read_converted(moment, answers, leaf, c)
        }
    }
}

/// What the address of a place breaks, and its conversion.
///
/// Errors: want of memory.
fn addressed(
    moment: &Moment,
    answers: &mut Answers,
    scene: &Scene,
    of: &TypedPlace,
    c: &Conversion,
) -> Refusal
    requires world { IsWorld moment.now.world }
    requires answers { AreAnswers moment.now.world.h.now answers.old }
    ensures answers { AreAnswers moment.now.world.h.now answers.new }
    ensures is { IfOk result (AddressRefuses moment.now.world.h.now moment.now.heap.now scene.now of.now c.now) }
{
    let v = value(scene, &of.pointer);
    match place(moment, answers, v, of)? {
        Some(rule) => Ok(Some(rule)),
        None => {
            let to = address_of(moment, v, of);
            convert(moment, answers, to, c)
        }
    }
}

/// What a cast breaks, and the conversion of what it gives.
///
/// Errors: want of memory.
fn casted(
    moment: &Moment,
    answers: &mut Answers,
    scene: &Scene,
    how: &TypedCast,
    x: &TypedOperand,
    c: &Conversion,
) -> Refusal
    requires world { IsWorld moment.now.world }
    requires answers { AreAnswers moment.now.world.h.now answers.old }
    ensures answers { AreAnswers moment.now.world.h.now answers.new }
    ensures is { IfOk result (CastedRefuses moment.now.world.h.now moment.now.heap.now scene.now how.now x.now c.now) }
{
    let v = value(scene, x);
    match cast_rule(moment, answers, v, how)? {
        Some(rule) => Ok(Some(rule)),
        None => cast_converted(moment, answers, v, how, c),
    }
}

/// What a right side breaks, and the conversion of its value. That of a result is asked where the function returns.
///
/// Errors: want of memory.
pub(crate) fn right(
    moment: &Moment,
    answers: &mut Answers,
    scene: &Scene,
    right: &TypedRight,
    c: &Conversion,
) -> Refusal
    requires world { IsWorld moment.now.world }
    requires answers { AreAnswers moment.now.world.h.now answers.old }
    ensures answers { AreAnswers moment.now.world.h.now answers.new }
    ensures is { IfOk result (RightRefuses moment.now.world.h.now moment.now.heap.now scene.now right.now c.now) }
{
    match right {
        TypedRight::Operand(x) => {
            let v = value(scene, x);
            read_converted(moment, answers, v, c)
        }
        TypedRight::Arithmetic(op, t, x, y) => Ok(calculation(moment.heap, scene, *op, *t, x, y)),
        TypedRight::SamePointer(_, a, b) => two_arguments(moment, answers, scene, a, b),
        TypedRight::Not(x) => Ok(read(moment.heap, scene, x)),
        TypedRight::Read(from) => loaded(moment, answers, scene, from, c),
        TypedRight::Address(of, _) => addressed(moment, answers, scene, of, c),
        TypedRight::Call(to) => call(moment, answers, scene, to),
        TypedRight::New(_) => Ok(None),
        TypedRight::Cast(how, x) => casted(moment, answers, scene, how, x, c),
        TypedRight::TypeEqual(x, _) => {
            let v = value(scene, x);
            arrow_view(moment, answers, v, true)
        }
    }
}
