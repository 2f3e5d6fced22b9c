//! Casts of pointers (ISO C++03 5.2.7, 5.2.9, 5.4).

ghost use Rattle.std.specs.Prelude.{IfOk};
ghost use Rattle.path_model.specs.Values.{Value as ValueOf, Objects, value_of_operand};
ghost use Rattle.path_model.specs.Uses.{down_value, dynamic_value};
ghost use Rattle.path_tables.specs.Asked.{AreAnswers};
ghost use Rattle.path_heap.specs.Stands.{HeapStands, Means};
ghost use Rattle.path_tables.specs.Worlds.{IsWorld};
ghost use Rattle.path_effects.specs.invariants.Begun.{IsBegun};
ghost use Rattle.path_effects.specs.invariants.SideValues.{IsCastValue};

use cxx_hierarchy::ClassId;
use cxx_program::{TypedCast, TypedOperand};
use cxx_subobject::Subobject;
use foundation::NoMemory;
use path_heap::{Heap, Value};
use path_tables::{Answers, World};
use path_values::{Scene, cast, down, to_base, value};
use std::alloc::Global;

/// What a static downcast gives: null of null.
fn down_value(
    alloc: Global,
    world: &World,
    heap: &Heap,
    answers: &mut Answers,
    v: Value,
    target: ClassId,
    i: &Subobject,
) -> Result<Value, NoMemory>
    requires world { IsWorld world.now }
    requires answers { AreAnswers world.now.h.now answers.old }
    ensures answers { AreAnswers world.now.h.now answers.new }
    ensures is { IfOk result (λ value. (s : Objects) (w : ValueOf) → HeapStands world.now.h.now heap.now s → Means world.now.h.now s.classes v w → IsBegun s w → Means world.now.h.now s.classes value (down_value world.now.h.now s target i.now w)) }
{
    match v {
        Value::Pointer(n) => down(alloc, world, heap, answers, n, target, i),
        Value::Null => Ok(Value::Null),
        _ => Ok(Value::Unset),
    }
}

/// What a `dynamic_cast` gives: null of null.
fn dynamic_value(
    alloc: Global,
    world: &World,
    heap: &Heap,
    answers: &mut Answers,
    v: Value,
    target: ClassId,
) -> Result<Value, NoMemory>
    requires world { IsWorld world.now }
    requires answers { AreAnswers world.now.h.now answers.old }
    ensures answers { AreAnswers world.now.h.now answers.new }
    ensures is { IfOk result (λ value. (s : Objects) (w : ValueOf) → HeapStands world.now.h.now heap.now s → Means world.now.h.now s.classes v w → IsBegun s w → Means world.now.h.now s.classes value (dynamic_value world.now.h.now s target w)) }
{
    match v {
        Value::Pointer(n) => cast(alloc, world, heap, answers, n, target),
        Value::Null => Ok(Value::Null),
        _ => Ok(Value::Unset),
    }
}

/// The value of a cast.
///
/// Errors: want of memory.
pub(crate) fn cast_value(
    alloc: Global,
    world: &World,
    heap: &Heap,
    answers: &mut Answers,
    scene: &Scene,
    cast: &TypedCast,
    x: &TypedOperand,
) -> Result<Value, NoMemory>
    requires world { IsWorld world.now }
    requires answers { AreAnswers world.now.h.now answers.old }
    ensures answers { AreAnswers world.now.h.now answers.new }
    ensures is { IfOk result (IsCastValue world.now.h.now heap.now scene.now cast.now x.now) }
{
    let v = value(scene, x);
    match cast {
        TypedCast::Same => Ok(v),
        TypedCast::Up(i) => Ok(to_base(world, heap, v, i)),
        TypedCast::Down(target, i) => down_value(alloc, world, heap, answers, v, *target, i),
        TypedCast::Dynamic(target) => dynamic_value(alloc, world, heap, answers, v, *target),
    }
}
