//! The copy of an object (ISO C++03 12.8).

ghost use Rattle.std.specs.Prelude.{OnOk};
ghost use Rattle.path_tables.specs.Asked.{AreAnswers};
ghost use Rattle.path_tables.specs.Worlds.{IsWorld};
ghost use Rattle.path_effects.specs.ClearSights.{CopiesLeaves};

use cxx_hierarchy::ClassId;
use cxx_program::TypedOperand;
use foundation::NoMemory;
use path_heap::{Heap, Value};
use path_tables::{Answers, World};
use path_values::{Scene, value};
use std::alloc::Global;

/// `*to = *from`: each leaf of the one part takes the old value of the same leaf of the other one, both of class c.
///
/// Errors: want of memory. The heap is then of no use.
pub fn copy(
    alloc: Global,
    world: &World,
    heap: &mut Heap,
    answers: &mut Answers,
    scene: &Scene,
    to: &TypedOperand,
    from: &TypedOperand,
    c: ClassId,
) -> Result<(), NoMemory>
    requires world { IsWorld world.now }
    requires answers { AreAnswers world.now.h.now answers.old }
    ensures answers { AreAnswers world.now.h.now answers.new }
    ensures copies { OnOk result (CopiesLeaves world.now.h.now heap.old heap.new scene.now to.now from.now c) }
{
    // never met, nor the next exit: where no rule refuses both are pointers, by `CopiesLeaves`
    let Value::Pointer(target) = value(scene, to) else {
        return Ok(());
    };
    let Value::Pointer(source) = value(scene, from) else {
        return Ok(());
    };
    answers.list(alloc, world, c)?;
    path_places::copy(alloc, world, heap, c, target, source, answers.listed(c))?;
    Ok(())
}
