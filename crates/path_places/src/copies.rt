//! The copy of a part.

ghost use Rattle.std.specs.Prelude.{IfOk, OnOk};
ghost use Rattle.path_tables.specs.Parts.{IsPartList};
ghost use Rattle.path_tables.specs.Worlds.{IsWorld};
ghost use Rattle.path_places.specs.invariants.Stores.{ReadsAll, StoresAll};
ghost use Rattle.path_places.specs.PartCopies.{CopiesPart};

use crate::leaves::leaf_numbers;
use cxx_hierarchy::ClassId;
use foundation::NoMemory;
use path_heap::{Heap, Value};
use path_tables::{PartList, World};
use std::alloc::Global;

/// The values of some leaves.
fn values_of(alloc: Global, heap: &Heap, leaves: &[u64]) -> Result<Vec<Value>, NoMemory>
    ensures { IfOk result (λ values. ReadsAll heap.now leaves.now values.items) }
{
    let mut values = Vec::with_capacity(alloc, leaves.len())?;
    for k in leaves {
        values.push(heap.leaf(*k))?;
    }
    Ok(values)
}

/// Gives each leaf its value, the last one first.
///
/// Errors: want of memory.
fn store_all(heap: &mut Heap, leaves: &[u64], values: &[Value]) -> Result<(), NoMemory>
    ensures { IfOk result (λ _. StoresAll heap.old heap.new leaves.now values.now) }
{
    let mut i = leaves.len().min(values.len());
    while i > 0 {
        i -= 1;
        heap.set_leaf(leaves[i], values[i])?;
    }
    Ok(())
}

/// Each leaf of one part takes the old value of the same leaf of another one, both of class c, whose subobjects with their numbers
/// these are: `*to = *from` (ISO C++03 12.8 p13).
///
/// Errors: want of memory. The heap is then of no use.
pub fn copy(
    alloc: Global,
    world: &World,
    heap: &mut Heap,
    c: ClassId,
    to: u64,
    from: u64,
    list: &PartList,
) -> Result<(), NoMemory>
    requires world { IsWorld world.now }
    requires list { IsPartList world.now.h.now c list.now }
    ensures { OnOk result (CopiesPart world.now.h.now heap.old heap.new c to from) }
{
    let leaves = leaf_numbers(alloc, world, heap, to, c, list)?;
    let sources = leaf_numbers(alloc, world, heap, from, c, list)?;
    let values = values_of(alloc, heap, &sources)?;
    store_all(heap, &leaves, &values)?;
    Ok(())
}
