//! The values of arguments.

ghost use Rattle.std.specs.Prelude.{IfOk};
ghost use Rattle.path_tables.specs.Worlds.{IsWorld};
ghost use Rattle.path_effects.specs.ClearSights.{IsArgumentValue, AreArgumentValues};

use cxx_program::Argument;
use foundation::NoMemory;
use path_heap::{Heap, Value};
use path_tables::World;
use path_values::{Scene, convert, value};
use std::alloc::Global;

/// The value of an operand, converted to what a leaf, a parameter or a result keeps (ISO C++03 4, 9.6).
pub fn argument_value(world: &World, heap: &Heap, scene: &Scene, a: &Argument) -> Value
    requires world { IsWorld world.now }
    ensures { IsArgumentValue world.now.h.now heap.now scene.now a.now result }
{
    convert(world, heap, value(scene, &a.operand), &a.conversion)
}

/// The values of the arguments of a call, in their order.
///
/// Errors: want of memory.
pub fn argument_values(
    alloc: Global,
    world: &World,
    heap: &Heap,
    scene: &Scene,
    list: &[Argument],
) -> Result<Vec<Value>, NoMemory>
    requires world { IsWorld world.now }
    ensures { IfOk result (λ values. AreArgumentValues world.now.h.now heap.now scene.now list.now values.items) }
{
    let mut values = Vec::new(alloc);
    for a in list {
        values.push(argument_value(world, heap, scene, a))?;
    }
    Ok(values)
}
