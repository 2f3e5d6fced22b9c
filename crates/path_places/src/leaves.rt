//! The numbers of the leaves of a part.

ghost use Rattle.std.specs.Prelude.{◌≡◌, ◌+◌, ◌<◌, ◌%◌, ◌^◌, ◌++◌, Some, IfOk, OnOk, get_or, length, map};
ghost use Rattle.std.specs.List.{AllZip};
ghost use Rattle.cxx_hierarchy.specs.declared.records.ClassId.{ClassId};
ghost use Rattle.cxx_hierarchy.specs.declared.records.FieldType.TheVariants.{Object};
ghost use Rattle.cxx_subobject.specs.Subobjects.{class_of};
ghost use Rattle.path_plan.specs.Places.{ObjectPart};
ghost use Rattle.path_plan.specs.Plans.{upto};
ghost use Rattle.path_model.specs.Values.{Objects};
ghost use Rattle.path_model.specs.Places.{leaves_of};
ghost use Rattle.path_heap.specs.Points.{Points, PointsLeaf};
ghost use Rattle.path_heap.specs.Stands.{HeapStands, HasBegun};
ghost use Rattle.path_tables.specs.Parts.{IsPartList};
ghost use Rattle.path_tables.specs.Worlds.{IsWorld};
ghost use Rattle.path_places.specs.invariants.Leaves.{ListsWhole, ListsOwn, ListsMember, ListsElements};

use cxx_hierarchy::{ClassId, FieldType, Member};
use cxx_subobject::{Subobject, class_of, put_subobjects};
use foundation::{NoMemory, Sequence};
use path_heap::Heap;
use path_tables::{PartList, World};
use std::alloc::Global;

/// The class of a subobject; the first one where there is none.
pub(crate) fn class_or_first(base: &Subobject) -> ClassId
    ensures { (d : ClassId) → class_of base.now ≡ Some d → result ≡ d }
{
    match class_of(base) {
        Some(d) => d,
        // never met: the path of a subobject is not empty (`class_of` of cxx_subobject)
        None => ClassId(0),
    }
}

/// Puts so many numbers from k on behind the others.
#[inline(never)]
fn push_numbers(k: u64, count: u32, leaves: &mut Vec<u64>) -> Result<(), NoMemory>
    ensures { OnOk result (leaves.new.items ≡ leaves.old.items ++ map (λ i. (k + i) % 2 ^ 64) (upto count)) }
{
    for i in 0..count {
        leaves.push(k.wrapping_add(i as u64))?;
    }
    Ok(())
}

/// The numbers of the leaves of objects of a class, which stand one behind the other from k on.
#[cycle(leaves)]
fn push_elements(
    alloc: Global,
    world: &World,
    class: ClassId,
    k: u64,
    count: u32,
    leaves: &mut Vec<u64>,
) -> Result<(), NoMemory>
    requires world { IsWorld world.now }
    requires known { class.0 < length world.now.h.now }
    ensures { OnOk result (ListsElements world.now.h.now class k count count leaves.old.items leaves.new.items) }
{
    let size = world.numbers.in_full(class) as u64;
    for i in 0..count {
        let start = k.wrapping_add((i as u64).wrapping_mul(size));
        push_whole(alloc, world, class, start, leaves)?;
    }
    Ok(())
}

/// The numbers of the leaves of a member of a part of class c, whose element 0 has the number k.
#[cycle(leaves)]
fn push_member(
    alloc: Global,
    world: &World,
    c: ClassId,
    member: &Member<ClassId>,
    k: u64,
    leaves: &mut Vec<u64>,
) -> Result<(), NoMemory>
    requires world { IsWorld world.now }
    requires known { c.0 < length world.now.h.now }
    requires below { (d : ClassId) → member.now.ty ≡ Object d → d.0 < c.0 }
    ensures { OnOk result (ListsMember world.now.h.now c member.now k leaves.old.items leaves.new.items) }
{
    match &member.ty {
        FieldType::Value(_) => push_numbers(k, member.elements(), leaves),
        FieldType::Object(d) => push_elements(alloc, world, *d, k, member.elements(), leaves),
    }
}

/// The numbers of the leaves of the members that class c declares, in a part of it of number k.
#[cycle(leaves)]
fn push_own(
    alloc: Global,
    world: &World,
    c: ClassId,
    k: u64,
    leaves: &mut Vec<u64>,
) -> Result<(), NoMemory>
    requires world { IsWorld world.now }
    requires known { c.0 < length world.now.h.now }
    ensures { OnOk result (ListsOwn world.now.h.now c k leaves.old.items leaves.new.items) }
{
    world.h.keeps();
    let members = world.h.class(c).members.as_slice();
    for (m, member) in members.iter().enumerate() {
        let start = k.wrapping_add(world.numbers.member_offset(c, m) as u64);
        push_member(alloc, world, c, member, start, leaves)?;
    }
    Ok(())
}

/// The numbers of the leaves of a complete object of a class, of number k.
#[cycle(leaves)]
fn push_whole(
    alloc: Global,
    world: &World,
    c: ClassId,
    k: u64,
    leaves: &mut Vec<u64>,
) -> Result<(), NoMemory>
    requires world { IsWorld world.now }
    requires known { c.0 < length world.now.h.now }
    ensures { OnOk result (ListsWhole world.now.h.now c k leaves.old.items leaves.new.items) }
{
    world.h.keeps();
    let mut bases = Sequence::new(alloc);
    put_subobjects(alloc, world.h, c, &mut bases)?;
    for base in bases.as_slice() {
        let d = class_or_first(base);
        let start = k.wrapping_add(world.numbers.number_in(world.h, c, base) as u64);
        push_own(alloc, world, d, start, leaves)?;
    }
    Ok(())
}

/// A number of a list; 0 past its end.
fn number_at(numbers: &[u32], i: usize) -> u32
    ensures { result ≡ get_or numbers.now i 0 }
{
    numbers.get(i).copied().unwrap_or(0)
}

/// The numbers of the leaves of a part that has begun, of class c, whose subobjects with their numbers these are: those of each
/// subobject, each virtual base once, and in each the members and elements in order.
///
/// Errors: want of memory.
pub fn leaf_numbers(
    alloc: Global,
    world: &World,
    heap: &Heap,
    n: u64,
    c: ClassId,
    list: &PartList,
) -> Result<Vec<u64>, NoMemory>
    requires world { IsWorld world.now }
    requires list { IsPartList world.now.h.now c list.now }
    ensures { IfOk result (λ leaves. (s : Objects) (p : ObjectPart) → HeapStands world.now.h.now heap.now s → Points world.now.h.now s.classes n p → HasBegun s p → class_of p.at ≡ Some c → AllZip (PointsLeaf world.now.h.now s.classes) leaves.items (leaves_of world.now.h.now c p)) }
{
    // never met for the class of a part: `Points` says that it is one of the hierarchy
    if c.0 >= world.h.len() {
        return Ok(Vec::new(alloc));
    }
    world.h.keeps();
    let mut leaves = Vec::with_capacity(alloc, list.numbers.len())?;
    for (i, base) in list.parts.as_slice().iter().enumerate() {
        let d = class_or_first(base);
        let number = number_at(&list.numbers, i);
        let start = heap.numbered_base(world.numbers, world.h, n, c, base, number);
        push_own(alloc, world, d, start, &mut leaves)?;
    }
    Ok(leaves)
}
