//! The values of right sides (ISO C++03 5).

ghost use Rattle.std.specs.Prelude.{◌≡◌, IfOk, if◌then◌else◌, not};
ghost use Rattle.path_tables.specs.Asked.{AreAnswers};
ghost use Rattle.path_tables.specs.Worlds.{IsWorld};
ghost use Rattle.path_effects.specs.ClearSights.{IsRightValue};
ghost use Rattle.path_effects.specs.invariants.SideValues.{IsPointerComparison, IsSideValue};

use crate::arguments::argument_value;
use crate::casts::cast_value;
use crate::places::{address_value, leaf_value};
use crate::types::type_equal;
use cxx_program::{Argument, Converted, TypedRight};
use foundation::NoMemory;
use path_heap::{Heap, Value};
use path_tables::{Answers, World};
use path_values::{Scene, calculate, convert, is_same, negated, truth, value};
use std::alloc::Global;

/// What `==` says, or where `differ` holds `!=`.
fn holds(differ: bool, is_same: bool) -> bool
    ensures { result ≡ (if differ then not is_same else is_same) }
{
    if differ { !is_same } else { is_same }
}

/// Whether two pointers, converted to one class, are the same, or where `differ` holds are not (ISO C++03 5.10).
fn compared(
    world: &World,
    heap: &Heap,
    scene: &Scene,
    differ: bool,
    a: &Argument,
    b: &Argument,
) -> Value
    requires world { IsWorld world.now }
    ensures { IsPointerComparison world.now.h.now heap.now scene.now differ a.now b.now result }
{
    let one = argument_value(world, heap, scene, a);
    let other = argument_value(world, heap, scene, b);
    truth(holds(differ, is_same(one, other)))
}

/// The value of a right side before its conversion; none of a call and of a `new`, which the frames above wait for.
fn side_value(
    alloc: Global,
    world: &World,
    heap: &Heap,
    answers: &mut Answers,
    scene: &Scene,
    right: &TypedRight,
) -> Result<Value, NoMemory>
    requires world { IsWorld world.now }
    requires answers { AreAnswers world.now.h.now answers.old }
    ensures answers { AreAnswers world.now.h.now answers.new }
    ensures is { IfOk result (IsSideValue world.now.h.now heap.now scene.now right.now) }
{
    match right {
        TypedRight::Operand(x) => Ok(value(scene, x)),
        TypedRight::Arithmetic(op, t, x, y) => {
            Ok(calculate(*op, *t, value(scene, x), value(scene, y)))
        }
        TypedRight::SamePointer(differ, a, b) => Ok(compared(world, heap, scene, *differ, a, b)),
        TypedRight::Not(x) => Ok(negated(value(scene, x))),
        TypedRight::Read(place) => Ok(leaf_value(world, heap, scene, place)),
        TypedRight::Address(place, _) => Ok(address_value(world, heap, scene, place)),
        TypedRight::Call(_) => Ok(Value::Unset),
        TypedRight::New(_) => Ok(Value::Unset),
        TypedRight::Cast(cast, x) => cast_value(alloc, world, heap, answers, scene, cast, x),
        TypedRight::TypeEqual(x, d) => Ok(type_equal(heap, value(scene, x), *d)),
    }
}

/// The value of a right side, converted; no value of a call and of a `new`.
///
/// Errors: want of memory.
pub fn right_value(
    alloc: Global,
    world: &World,
    heap: &Heap,
    answers: &mut Answers,
    scene: &Scene,
    x: &Converted,
) -> Result<Value, NoMemory>
    requires world { IsWorld world.now }
    requires answers { AreAnswers world.now.h.now answers.old }
    ensures answers { AreAnswers world.now.h.now answers.new }
    ensures is { IfOk result (IsRightValue world.now.h.now heap.now scene.now x.now) }
{
    let v = side_value(alloc, world, heap, answers, scene, &x.right)?;
    Ok(convert(world, heap, v, &x.conversion))
}
