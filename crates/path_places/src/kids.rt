//! The step from a part to the one of its direct parts that holds a number.

ghost use Rattle.std.specs.Prelude.{◌≡◌, ◌<◌, Some, length, slice_get};
ghost use Rattle.cxx_hierarchy.specs.Classes.{bases_of, members_of};
ghost use Rattle.path_tables.specs.Worlds.{IsWorld};
ghost use Rattle.path_places.specs.invariants.Kids.{IsRest, IsItem, IsBaseRest, IsBaseFound, IsMemberRest, IsMemberFound, IsSharedRest, IsSharedFound, IsKidFound};

use cxx_hierarchy::{Base, ClassId, FieldType, Member};
use path_tables::World;

/// What a step down leads to.
#[derive(Clone, Copy)]
pub(crate) enum Way {
    /// A direct base that is not virtual.
    Base,
    /// A virtual base.
    Shared,
    /// An element of a member: the number of the member, and the index.
    Element(u32, u32),
}

/// A direct part that holds a number: how it is reached, its class, and how far the number stands behind its own.
#[derive(Clone, Copy)]
pub(crate) struct Kid {
    pub way: Way,
    pub class: ClassId,
    pub rest: u32,
}

/// How far a number stands behind an offset, where it is one of so many numbers from there on.
fn rest_of(n: u32, offset: u32, size: u32) -> Option<u32>
    ensures { IsRest n offset size result }
{
    if n < offset {
        return None;
    }
    let rest = n - offset;
    if rest < size { Some(rest) } else { None }
}

/// The item that a number behind the first one lies in, where each takes so many numbers, and how far it stands behind that item's.
fn item_of(n: u32, size: u32, count: u32) -> Option<(u32, u32)>
    ensures { IsItem n size count result }
{
    if size == 0 {
        return None;
    }
    let index = n / size;
    if index < count {
        Some((index, n % size))
    } else {
        None
    }
}

/// How far a number stands behind a direct base's, where the base holds it and is not virtual.
fn base_rest(world: &World, c: ClassId, i: usize, base: &Base<ClassId>, n: u32) -> Option<u32>
    requires world { IsWorld world.now }
    requires known { c.0 < length world.now.h.now }
    requires listed { slice_get (bases_of world.now.h.now c) i ≡ Some base.now }
    ensures { IsBaseRest world.now.h.now c n i base.now result }
{
    world.h.keeps();
    if base.is_virtual {
        return None;
    }
    rest_of(
        n,
        world.numbers.base_offset(c, i),
        world.numbers.as_base(base.class),
    )
}

/// The direct base that holds a number and is not virtual.
fn base_kid(world: &World, c: ClassId, n: u32) -> Option<Kid>
    requires world { IsWorld world.now }
    requires known { c.0 < length world.now.h.now }
    ensures { IsBaseFound world.now.h.now c n result }
{
    let bases = world.h.class(c).bases.as_slice();
    for (i, base) in bases.iter().enumerate() {
        match base_rest(world, c, i, base, n) {
            Some(rest) => {
                return Some(Kid {
                    way: Way::Base,
                    class: base.class,
                    rest,
                });
            }
            None => {}
        }
    }
    None
}

/// The element of a member that holds a number, where it is an object.
fn member_rest(world: &World, c: ClassId, m: usize, member: &Member<ClassId>, n: u32) -> Option<Kid>
    requires world { IsWorld world.now }
    requires known { c.0 < length world.now.h.now }
    requires listed { slice_get (members_of world.now.h.now c) m ≡ Some member.now }
    requires few { m < 4294967296 }
    ensures { IsMemberRest world.now.h.now c n m member.now result }
{
    world.h.keeps();
    let offset = world.numbers.member_offset(c, m);
    if n < offset {
        return None;
    }
    match &member.ty {
        FieldType::Value(_) => None,
        FieldType::Object(d) => {
            match item_of(n - offset, world.numbers.in_full(*d), member.elements()) {
                Some((index, rest)) => Some(Kid {
                    way: Way::Element(m as u32, index),
                    class: *d,
                    rest,
                }),
                None => None,
            }
        }
    }
}

/// The element of a member that holds a number.
fn member_kid(world: &World, c: ClassId, n: u32) -> Option<Kid>
    requires world { IsWorld world.now }
    requires known { c.0 < length world.now.h.now }
    ensures { IsMemberFound world.now.h.now c n result }
{
    world.h.keeps();
    let members = world.h.class(c).members.as_slice();
    for (m, member) in members.iter().enumerate() {
        match member_rest(world, c, m, member, n) {
            Some(kid) => return Some(kid),
            None => {}
        }
    }
    None
}

/// How far a number stands behind a virtual base's, where the class is one that holds it.
fn shared_rest(world: &World, c: ClassId, v: ClassId, n: u32) -> Option<u32>
    requires world { IsWorld world.now }
    requires known { c.0 < length world.now.h.now }
    requires below { v.0 < length world.now.h.now }
    ensures { IsSharedRest world.now.h.now c n v result }
{
    world.h.keeps();
    match world.numbers.shared_offset(c, v) {
        Some(offset) => rest_of(n, offset, world.numbers.as_base(v)),
        None => None,
    }
}

/// The virtual base that holds a number, in a complete object.
fn shared_kid(world: &World, c: ClassId, n: u32) -> Option<Kid>
    requires world { IsWorld world.now }
    requires known { c.0 < length world.now.h.now }
    ensures { IsSharedFound world.now.h.now c n result }
{
    world.h.keeps();
    if n < world.numbers.as_base(c) {
        return None;
    }
    for v in 0..c.0 {
        let class = ClassId(v);
        match shared_rest(world, c, class, n) {
            Some(rest) => {
                return Some(Kid {
                    way: Way::Shared,
                    class,
                    rest,
                });
            }
            None => {}
        }
    }
    None
}

/// The direct part that holds a number behind that of a part of class c; only a complete object holds its virtual bases.
pub(crate) fn kid_of(world: &World, c: ClassId, is_full: bool, n: u32) -> Option<Kid>
    requires { IsWorld world.now }
    ensures { IsKidFound world.now.h.now c is_full n result }
{
    world.h.keeps();
    if c.0 >= world.h.len() {
        return None;
    }
    match base_kid(world, c, n) {
        Some(kid) => return Some(kid),
        None => {}
    }
    match member_kid(world, c, n) {
        Some(kid) => return Some(kid),
        None => {}
    }
    if is_full {
        shared_kid(world, c, n)
    } else {
        None
    }
}
