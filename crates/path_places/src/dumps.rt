//! The dump of a heap object.

ghost use Rattle.std.specs.Prelude.{◌≡◌, ◌+◌, ◌<◌, ◌++◌, ◌∷◌, [], Some, IfOk, OnOk, length, slice_get};
ghost use Rattle.cxx_hierarchy.specs.declared.records.ClassId.{ClassId};
ghost use Rattle.cxx_hierarchy.specs.declared.records.FieldType.TheVariants.{Object};
ghost use Rattle.cxx_hierarchy.specs.Classes.{members_of};
ghost use Rattle.cxx_subobject.specs.declared.locations.Hop.TheVariants.{Inherit, Member as MemberHop};
ghost use Rattle.cxx_subobject.specs.Subobjects.{IsSubobject};
ghost use Rattle.path_plan.specs.Places.{ObjectPart};
ghost use Rattle.path_plan.specs.declared.form.Form.TheVariants.{InFull};
ghost use Rattle.path_numbers.specs.Sizes.{sizes_of, member_offset};
ghost use Rattle.path_numbers.specs.Numbers.{subobject_number};
ghost use Rattle.path_model.specs.Values.{Objects};
ghost use Rattle.path_model.specs.Effects.{object_out};
ghost use Rattle.path_heap.specs.Points.{Points};
ghost use Rattle.path_heap.specs.Stands.{HeapStands};
ghost use Rattle.path_tables.specs.Worlds.{IsWorld};
ghost use Rattle.path_places.specs.invariants.Dumps.{dumped_object, DumpsWhole, DumpsOwn, DumpsMember, DumpsValues, DumpsElements, DumpsLeaf};

use crate::leaves::class_or_first;
use crate::locations::shown;
use cxx_hierarchy::{ClassId, FieldType, Hierarchy, Member};
use cxx_subobject::{Hop, Location, Subobject, put_subobjects, subobject_below};
use foundation::{NoMemory, Sequence};
use path_heap::Heap;
use path_model::{DumpLeaf, Out};
use path_tables::World;
use std::alloc::Global;

/// What a dump looks at, and the number from 1 and the class of the heap object.
#[derive(Clone, Copy)]
struct Site<'a> {
    world: &'a World<'a>,
    heap: &'a Heap,
    object: u32,
    class: ClassId,
}

/// A subobject of the complete object to which the hops lead.
#[derive(Clone, Copy)]
struct Place<'a> {
    hops: &'a Vec<Hop>,
    base: &'a Subobject,
}

/// A hop once more.
fn copy_hop(alloc: Global, hop: &Hop) -> Result<Hop, NoMemory>
    ensures { IfOk result (λ copy. copy ≡ hop.now) }
{
    match hop {
        Hop::Inherit(base) => Ok(Hop::Inherit(subobject_below(alloc, base, &[])?)),
        Hop::Member(member, index) => Ok(Hop::Member(*member, *index)),
    }
}

/// The hops to an element of a member of a subobject.
fn hops_below(alloc: Global, place: &Place, member: u32, index: u32) -> Result<Vec<Hop>, NoMemory>
    ensures { IfOk result (λ hops. hops.items ≡ place.now.hops.now.items ++ Inherit place.now.base.now ∷ MemberHop member index ∷ []) }
{
    let mut hops = Vec::new(alloc);
    for hop in place.hops.as_slice() {
        hops.push(copy_hop(alloc, hop)?)?;
    }
    hops.push(Hop::Inherit(subobject_below(alloc, place.base, &[])?))?;
    hops.push(Hop::Member(member, index))?;
    Ok(hops)
}

/// Makes a list the hops to an element of a member of a subobject. It is no part of the walk below, of which each open call takes
/// room on the stack.
#[inline(never)]
fn put_hops(
    alloc: Global,
    place: &Place,
    member: u32,
    index: u32,
    list: &mut Vec<Hop>,
) -> Result<(), NoMemory>
    ensures { OnOk result (list.new.items ≡ place.now.hops.now.items ++ Inherit place.now.base.now ∷ MemberHop member index ∷ []) }
{
    *list = hops_below(alloc, place, member, index)?;
    Ok(())
}

/// A leaf, by its number, and its value.
fn dump_leaf(
    alloc: Global,
    site: &Site,
    place: &Place,
    member: u32,
    index: u32,
    k: u64,
) -> Result<DumpLeaf, NoMemory>
    requires { IsWorld site.now.world.now }
    ensures { IfOk result (DumpsLeaf (dumped_object site.now.world.now.h.now site.now.heap.now site.now.object site.now.class) place.now.hops.now.items place.now.base.now member index k) }
{
    let value = shown(alloc, site.world, site.heap, site.heap.leaf(k))?;
    let hops = hops_below(alloc, place, member, index)?;
    Ok(DumpLeaf {
        at: Location {
            object: site.object,
            class: site.class,
            hops: Sequence::from_vec(hops),
        },
        value,
    })
}

/// The leaves of a member that is a number or a pointer, whose element 0 has the number k.
#[inline(never)]
fn dump_values(
    alloc: Global,
    site: &Site,
    place: &Place,
    m: u32,
    k: u64,
    count: u32,
    out: &mut Vec<DumpLeaf>,
) -> Result<(), NoMemory>
    requires { IsWorld site.now.world.now }
    ensures { OnOk result (DumpsValues (dumped_object site.now.world.now.h.now site.now.heap.now site.now.object site.now.class) place.now.hops.now.items place.now.base.now m k count count out.old.items out.new.items) }
{
    for i in 0..count {
        out.push(dump_leaf(alloc, site, place, m, i, k.wrapping_add(i as u64))?)?;
    }
    Ok(())
}

/// How many numbers a complete object of a class takes. This and the next three are no part of the walk below either.
#[inline(never)]
fn in_full(site: &Site, d: ClassId) -> u32
    requires world { IsWorld site.now.world.now }
    requires known { d.0 < length site.now.world.now.h.now }
    ensures { result ≡ sizes_of site.now.world.now.h.now InFull d }
{
    site.world.numbers.in_full(d)
}

/// How far element 0 of a member stands behind a part.
#[inline(never)]
fn member_offset(site: &Site, c: ClassId, m: u32) -> u32
    requires world { IsWorld site.now.world.now }
    requires known { c.0 < length site.now.world.now.h.now }
    ensures { m < length (members_of site.now.world.now.h.now c) → result ≡ member_offset site.now.world.now.h.now (sizes_of site.now.world.now.h.now) c m }
{
    site.world.numbers.member_offset(c, m as usize)
}

/// The member of a number of a class.
#[inline(never)]
fn member_of<'a>(h: &'a Hierarchy, c: ClassId, m: u32) -> &'a Member<ClassId>
    requires known { c.0 < length h.now }
    requires there { m < length (members_of h.now c) }
    ensures { slice_get (members_of h.now c) m ≡ Some result.now }
{
    &h.class(c).members.as_slice()[m as usize]
}

/// The number of a subobject within its complete object, which is of class c.
#[inline(never)]
fn number_in(site: &Site, c: ClassId, s: &Subobject) -> u32
    requires world { IsWorld site.now.world.now }
    requires known { c.0 < length site.now.world.now.h.now }
    requires subobject { IsSubobject site.now.world.now.h.now c s.now }
    ensures { result ≡ subobject_number site.now.world.now.h.now c s.now }
{
    site.world.numbers.number_in(site.world.h, c, s)
}

/// The leaves of a member that is an object of class d.
#[cycle(dumps)]
fn dump_elements(
    alloc: Global,
    site: &Site,
    place: &Place,
    m: u32,
    d: ClassId,
    k: u64,
    count: u32,
    out: &mut Vec<DumpLeaf>,
) -> Result<(), NoMemory>
    requires world { IsWorld site.now.world.now }
    requires known { d.0 < length site.now.world.now.h.now }
    ensures { OnOk result (DumpsElements (dumped_object site.now.world.now.h.now site.now.heap.now site.now.object site.now.class) place.now.hops.now.items place.now.base.now m d k count count out.old.items out.new.items) }
{
    let size = in_full(site, d) as u64;
    let mut hops = Vec::new(alloc);
    for i in 0..count {
        put_hops(alloc, place, m, i, &mut hops)?;
        let start = k.wrapping_add((i as u64).wrapping_mul(size));
        dump_whole(alloc, site, &hops, d, start, out)?;
    }
    Ok(())
}

/// The leaves of the member number m of a part of class c.
#[cycle(dumps)]
fn dump_member(
    alloc: Global,
    site: &Site,
    place: &Place,
    c: ClassId,
    m: u32,
    member: &Member<ClassId>,
    k: u64,
    out: &mut Vec<DumpLeaf>,
) -> Result<(), NoMemory>
    requires world { IsWorld site.now.world.now }
    requires known { c.0 < length site.now.world.now.h.now }
    requires below { (d : ClassId) → member.now.ty ≡ Object d → d.0 < c.0 }
    ensures { OnOk result (DumpsMember (dumped_object site.now.world.now.h.now site.now.heap.now site.now.object site.now.class) place.now.hops.now.items place.now.base.now c m member.now k out.old.items out.new.items) }
{
    match &member.ty {
        FieldType::Value(_) => dump_values(alloc, site, place, m, k, member.elements(), out),
        FieldType::Object(d) => {
            dump_elements(alloc, site, place, m, *d, k, member.elements(), out)
        }
    }
}

/// The leaves of the members that class c declares, in a part of it of number k.
#[cycle(dumps)]
fn dump_own(
    alloc: Global,
    site: &Site,
    place: &Place,
    c: ClassId,
    k: u64,
    out: &mut Vec<DumpLeaf>,
) -> Result<(), NoMemory>
    requires world { IsWorld site.now.world.now }
    requires known { c.0 < length site.now.world.now.h.now }
    ensures { OnOk result (DumpsOwn (dumped_object site.now.world.now.h.now site.now.heap.now site.now.object site.now.class) place.now.hops.now.items place.now.base.now c k out.old.items out.new.items) }
{
    site.world.h.keeps();
    let count = site.world.h.class(c).members.len() as u32;
    for m in 0..count {
        let member = member_of(site.world.h, c, m);
        let start = k.wrapping_add(member_offset(site, c, m) as u64);
        dump_member(alloc, site, place, c, m, member, start, out)?;
    }
    Ok(())
}

/// The leaves of a complete object of class c, of number k, to which the hops lead.
#[cycle(dumps)]
fn dump_whole(
    alloc: Global,
    site: &Site,
    hops: &Vec<Hop>,
    c: ClassId,
    k: u64,
    out: &mut Vec<DumpLeaf>,
) -> Result<(), NoMemory>
    requires world { IsWorld site.now.world.now }
    requires known { c.0 < length site.now.world.now.h.now }
    ensures { OnOk result (DumpsWhole (dumped_object site.now.world.now.h.now site.now.heap.now site.now.object site.now.class) hops.now.items c k out.old.items out.new.items) }
{
    site.world.h.keeps();
    let mut bases = Sequence::new(alloc);
    put_subobjects(alloc, site.world.h, c, &mut bases)?;
    for base in bases.as_slice() {
        let d = class_or_first(base);
        let start = k.wrapping_add(number_in(site, c, base) as u64);
        let place = Place { hops, base };
        dump_own(alloc, site, &place, d, start, out)?;
    }
    Ok(())
}

/// The dump of the whole heap object of a part: its number from 1, its class, and each of its leaves with its value.
///
/// Errors: want of memory.
pub fn dump(alloc: Global, world: &World, heap: &Heap, n: u64) -> Result<Out, NoMemory>
    requires { IsWorld world.now }
    ensures { IfOk result (λ told. (s : Objects) (p : ObjectPart) → HeapStands world.now.h.now heap.now s → Points world.now.h.now s.classes n p → Some told ≡ object_out world.now.h.now s p.object (slice_get s.classes p.object)) }
{
    let object = heap.object(n);
    let class = heap.object_class(n);
    let site = Site {
        world,
        heap,
        object: object + 1,
        class,
    };
    let mut leaves = Vec::new(alloc);
    // never met for a heap object: `HeapStands` says that its class is one of the hierarchy
    if class.0 >= world.h.len() {
        return Ok(Out::Dump(object + 1, class, Sequence::from_vec(leaves)));
    }
    let hops = Vec::new(alloc);
    dump_whole(alloc, &site, &hops, class, heap.heap_object(n), &mut leaves)?;
    Ok(Out::Dump(object + 1, class, Sequence::from_vec(leaves)))
}
