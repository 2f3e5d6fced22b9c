//! Reading and writing leaves, and the addresses of class members (ISO C++03 5.2.5, 5.17).

ghost use Rattle.std.specs.Prelude.{IfOk};
ghost use Rattle.path_tables.specs.Worlds.{IsWorld};
ghost use Rattle.path_effects.specs.ClearSights.{WritesLeaf};
ghost use Rattle.path_effects.specs.invariants.SideValues.{IsLeafValue, IsAddressValue};

use crate::arguments::argument_value;
use cxx_program::{Argument, TypedPlace};
use foundation::NoMemory;
use path_heap::{Heap, Value};
use path_tables::World;
use path_values::{Scene, address_number, leaf_number, value};

/// The value of the leaf that a place is.
pub(crate) fn leaf_value(world: &World, heap: &Heap, scene: &Scene, place: &TypedPlace) -> Value
    requires world { IsWorld world.now }
    ensures { IsLeafValue world.now.h.now heap.now scene.now place.now result }
{
    match value(scene, &place.pointer) {
        Value::Pointer(n) => heap.leaf(leaf_number(world, heap, n, place)),
        _ => Value::Unset,
    }
}

/// A pointer to the class member that a place is.
pub(crate) fn address_value(world: &World, heap: &Heap, scene: &Scene, place: &TypedPlace) -> Value
    requires world { IsWorld world.now }
    ensures { IsAddressValue world.now.h.now heap.now scene.now place.now result }
{
    match value(scene, &place.pointer) {
        Value::Pointer(n) => Value::Pointer(address_number(world, heap, n, place)),
        _ => Value::Unset,
    }
}

/// Gives the leaf that a place is the value of an argument (ISO C++03 5.17).
///
/// Errors: want of memory. The heap is then of no use.
pub fn write(
    world: &World,
    heap: &mut Heap,
    scene: &Scene,
    place: &TypedPlace,
    x: &Argument,
) -> Result<(), NoMemory>
    requires world { IsWorld world.now }
    ensures { IfOk result (λ _. WritesLeaf world.now.h.now heap.old heap.new scene.now place.now x.now) }
{
    // another value is never met: where no rule refuses it is a pointer, by `WritesLeaf`
    if let Value::Pointer(n) = value(scene, &place.pointer) {
        let v = argument_value(world, heap, scene, x);
        let k = leaf_number(world, heap, n, place);
        heap.set_leaf(k, v)?;
    }
    Ok(())
}
