//! The subobject that a call is for (ISO C++03 5.2.2).

ghost use Rattle.path_model.specs.Values.{Value as ValueOf, Objects};
ghost use Rattle.path_model.specs.Uses.{goes_to};
ghost use Rattle.path_heap.specs.Stands.{HeapStands, Means};
ghost use Rattle.path_tables.specs.Worlds.{IsWorld};
ghost use Rattle.path_values.specs.Conversions.{CanGo};
ghost use Rattle.path_values.specs.Landings.{IsCallReceiver};

use crate::conversions::to_base;
use crate::operands::value;
use crate::scene::Scene;
use cxx_program::TypedCall;
use cxx_subobject::Subobject;
use path_heap::{Heap, Value};
use path_tables::World;

/// The value of a call's pointer, moved to the class before `::`, where one stands there.
pub fn goes_to(world: &World, heap: &Heap, v: Value, qualifier: &Option<Subobject>) -> Value
    requires world { IsWorld world.now }
    ensures { (s : Objects) (w : ValueOf) → HeapStands world.now.h.now heap.now s → Means world.now.h.now s.classes v w → CanGo world.now.h.now s w qualifier.now → Means world.now.h.now s.classes result (goes_to qualifier.now w) }
{
    match qualifier {
        Some(i) => to_base(world, heap, v, i),
        None => v,
    }
}

/// A pointer to the subobject of the class in which a call's function was found.
pub fn receiver(world: &World, heap: &Heap, scene: &Scene, call: &TypedCall) -> Value
    requires world { IsWorld world.now }
    ensures { IsCallReceiver world.now.h.now heap.now scene.now call.now result }
{
    let from = goes_to(world, heap, value(scene, &call.pointer), &call.qualifier);
    to_base(world, heap, from, &call.base)
}
