//! Where places lead, in numbers (ISO C++03 5.2.5).

ghost use Rattle.cxx_hierarchy.specs.declared.records.ClassId.{ClassId};
ghost use Rattle.cxx_subobject.specs.declared.Subobject.{Subobject};
ghost use Rattle.cxx_subobject.specs.Locations.{ObjectPart};
ghost use Rattle.cxx_program.specs.Typed.{IsPassed};
ghost use Rattle.path_model.specs.Values.{Objects};
ghost use Rattle.path_model.specs.Places.{passed_part, end_part};
ghost use Rattle.path_heap.specs.Points.{Points};
ghost use Rattle.path_heap.specs.Stands.{HeapStands};
ghost use Rattle.path_tables.specs.Worlds.{IsWorld};
ghost use Rattle.path_values.specs.Open.{OpensTo, IsOpen};
ghost use Rattle.path_values.specs.Landings.{IsLeafNumber, IsAddressNumber};

use cxx_program::{PassedMember, TypedPlace};
use path_heap::Heap;
use path_tables::World;

/// The number of the class member that a path passes through, from the part of number n.
pub fn passed_number(world: &World, heap: &Heap, n: u64, x: &PassedMember) -> u64
    requires world { IsWorld world.now }
    ensures { (s : Objects) (p : ObjectPart) (c : ClassId) → HeapStands world.now.h.now heap.now s → Points world.now.h.now s.classes n p → OpensTo world.now.h.now s p c x.now.base → IsPassed world.now.h.now c x.now → Points world.now.h.now s.classes result (passed_part p x.now) }
{
    let declared_in = heap.base(world.numbers, world.h, n, &x.base);
    heap.element(world.numbers, world.h, declared_in, x.member, x.index)
}

/// The number of the part behind all class members of a path.
pub fn end_number(world: &World, heap: &Heap, n: u64, passed: &[PassedMember]) -> u64
    requires world { IsWorld world.now }
    ensures { (s : Objects) (p : ObjectPart) (c : ClassId) (last : Subobject) → HeapStands world.now.h.now heap.now s → Points world.now.h.now s.classes n p → IsOpen world.now.h.now s p c passed.now last → Points world.now.h.now s.classes result (end_part p passed.now) }
{
    match passed {
        [] => n,
        [x, rest @ ..] => end_number(world, heap, passed_number(world, heap, n, x), rest),
    }
}

/// The number of the leaf to which a place leads from the part of number n.
pub fn leaf_number(world: &World, heap: &Heap, n: u64, place: &TypedPlace) -> u64
    requires world { IsWorld world.now }
    ensures { IsLeafNumber world.now.h.now heap.now n place.now result }
{
    let end = end_number(world, heap, n, place.passed.as_slice());
    let declared_in = heap.base(world.numbers, world.h, end, &place.base);
    heap.leaf_number(
        world.numbers,
        world.h,
        declared_in,
        place.member,
        place.index,
    )
}

/// The number of the class member that a place is, from the part of number n.
pub fn address_number(world: &World, heap: &Heap, n: u64, place: &TypedPlace) -> u64
    requires world { IsWorld world.now }
    ensures { IsAddressNumber world.now.h.now heap.now n place.now result }
{
    let end = end_number(world, heap, n, place.passed.as_slice());
    let declared_in = heap.base(world.numbers, world.h, end, &place.base);
    heap.element(
        world.numbers,
        world.h,
        declared_in,
        place.member,
        place.index,
    )
}
