//! The places of the virtual bases of a class (Itanium C++ ABI 2.4).

ghost use Rattle.std.specs.Prelude.{◌≡◌, ◌+◌, ◌<◌, ◌≤◌, ◌^◌, None, IfOk, get_or, length, map};
ghost use Rattle.cxx_hierarchy.specs.declared.records.ClassId.{ClassId};
ghost use Rattle.cxx_subobject.specs.Subobjects.{Leads};
ghost use Rattle.abi_sound.specs.Places.{place_along};
ghost use Rattle.abi_layout.specs.Layouts.{place_from};
ghost use Rattle.abi_layout.specs.invariants.Settled.{root_by, place_by, IsPathWithin, held_at, with_place, EndsWithinLimit, CanSettle, AreSettled, with_free, with_frees, free_table, AreVirtualPlaces};

use crate::brought::base_place;
use crate::placed_bases::PlacedBase;
use crate::scene::holder;
use abi_sound::{ClassLayout, PlaceList};
use cxx_hierarchy::{ClassId, Hierarchy};
use cxx_subobject::{Root, Subobject};
use foundation::{NoMemory, Sequence};
use std::alloc::Global;

/// The sum of the places along a path of direct non-virtual bases, in bytes.
fn path_place(h: &Hierarchy, rows: &[ClassLayout], d: ClassId, path: &[ClassId]) -> u32
    requires rows { length rows.now ≤ length h.now }
    requires row { d.0 < length rows.now }
    requires leads { Leads h.now d path.now }
    requires bounded { place_along h.now rows.now d path.now < 2 ^ 32 }
    ensures { result ≡ place_along h.now rows.now d path.now }
{
    h.keeps();
    match path.split_first() {
        Some((b, rest)) => base_place(h, rows, d, *b) + path_place(h, rows, *b, rest),
        None => 0,
    }
}

/// The sum of the places along a path and below its first class, in bytes.
pub(crate) fn whole_path_place(h: &Hierarchy, rows: &[ClassLayout], path: &[ClassId]) -> u32
    requires rows { length rows.now ≤ length h.now }
    requires path { IsPathWithin h.now (length rows.now) path.now }
    requires bounded { place_from h.now rows.now path.now < 2 ^ 32 }
    ensures { result ≡ place_from h.now rows.now path.now }
{
    match path.split_first() {
        Some((d, rest)) => path_place(h, rows, *d, rest),
        None => 0,
    }
}

/// The place of a virtual base by the table, in bytes.
fn table_place(table: &[u32], v: ClassId) -> u32
    ensures { result ≡ get_or table.now v.0 0 }
{
    match table.get(v.0 as usize) {
        Some(place) => *place,
        None => 0,
    }
}

fn root_place(table: &[u32], root: Root) -> u32
    ensures { result ≡ root_by table.now root }
{
    match root {
        Root::Whole => 0,
        Root::Shared(v) => table_place(table, v),
    }
}

/// The place of a subobject, where the table tells the places of the virtual bases, in bytes.
pub(crate) fn subobject_place(
    h: &Hierarchy,
    rows: &[ClassLayout],
    table: &[u32],
    s: &Subobject,
) -> u32
    requires rows { length rows.now ≤ length h.now }
    requires path { IsPathWithin h.now (length rows.now) s.now.path }
    requires bounded { place_by h.now rows.now table.now s.now < 2 ^ 32 }
    ensures { result ≡ place_by h.now rows.now table.now s.now }
{
    root_place(table, s.root) + whole_path_place(h, rows, s.path.as_slice())
}

/// Puts the place of a virtual base that is held, which is that of its holder, into the table.
fn settle_one(
    h: &Hierarchy,
    rows: &[ClassLayout],
    list: &[Subobject],
    holders: &[Option<usize>],
    v: ClassId,
    table: &mut [u32],
)
    requires rows { length rows.now ≤ length h.now }
    requires can { CanSettle h.now rows.now list.now holders.now }
    requires room { EndsWithinLimit rows.now table.old }
    requires within { v.0 < length table.old }
    ensures { table.new ≡ with_place h.now rows.now table.old v.0 (held_at list.now (get_or holders.now v.0 None)) }
{
    if let Some(n) = holder(holders, v) {
        let place = subobject_place(h, rows, table, &list[n]);
        table[v.0 as usize] = place;
    }
}

/// Puts the places of the virtual bases that are held into the table, which has those of the others. A holder in a
/// virtual base holds one of a smaller class number, so that the greatest comes first.
pub(crate) fn settle(
    h: &Hierarchy,
    rows: &[ClassLayout],
    list: &[Subobject],
    holders: &[Option<usize>],
    count: u32,
    table: &mut [u32],
)
    requires rows { length rows.now ≤ length h.now }
    requires can { CanSettle h.now rows.now list.now holders.now }
    requires room { EndsWithinLimit rows.now table.old }
    requires one_each { length table.old ≡ count }
    ensures { AreSettled h.now rows.now list.now holders.now table.old table.new }
{
    for i in 0..count {
        settle_one(h, rows, list, holders, ClassId(count - 1 - i), table);
    }
}

/// Puts the place of a virtual base that no subobject holds into the table.
fn put_free(base: PlacedBase, place: u32, table: &mut [u32])
    ensures { table.new ≡ with_free table.old base place }
{
    if let PlacedBase::VirtualBase(v) = base {
        let number = v.0 as usize;
        if number < table.len() {
            table[number] = place;
        }
    }
}

fn put_frees(free: &[PlacedBase], places: &[u32], table: &mut [u32])
    ensures { table.new ≡ with_frees table.old free.now places.now }
{
    if let Some((base, free)) = free.split_first() {
        if let Some((place, places)) = places.split_first() {
            put_free(*base, *place, table);
            put_frees(free, places, table);
        }
    }
}

/// The places of classes by the table.
fn table_places(alloc: Global, table: &[u32], virtuals: &[ClassId]) -> Result<PlaceList, NoMemory>
    ensures { IfOk result (λ places. places ≡ map (λ (v : ClassId). get_or table.now v.0 0) virtuals.now) }
{
    let mut places = Sequence::from_vec(Vec::with_capacity(alloc, virtuals.len())?);
    for v in virtuals {
        places.push(table_place(table, *v))?;
    }
    Ok(places)
}

/// What the places of the virtual bases of a class follow from, where its row has the places of its direct bases:
/// `list` has its subobjects in preorder, `holders` says by class number which of these holds a virtual base, and `free`
/// has the virtual bases that no subobject holds, with their places in bytes.
#[derive(Clone, Copy)]
pub(crate) struct VirtualScene<'a> {
    pub h: &'a Hierarchy,
    pub c: ClassId,
    pub list: &'a [Subobject],
    pub holders: &'a [Option<usize>],
    pub free: &'a [PlacedBase],
    pub free_places: &'a [u32],
}

/// The places of the virtual bases of a class: those that no subobject holds are placed, and each other one lies where
/// its holder does.
///
/// Errors: want of memory.
pub(crate) fn virtual_places(
    alloc: Global,
    scene: &VirtualScene,
    rows: &[ClassLayout],
    virtuals: &[ClassId],
) -> Result<PlaceList, NoMemory>
    requires rows { length rows.now ≤ length scene.now.h.now }
    requires can { CanSettle scene.now.h.now rows.now scene.now.list.now scene.now.holders.now }
    requires room { EndsWithinLimit rows.now (free_table scene.now.c.0 scene.now.free.now scene.now.free_places.now) }
    ensures { IfOk result (λ places. AreVirtualPlaces scene.now.h.now rows.now scene.now.list.now scene.now.holders.now (free_table scene.now.c.0 scene.now.free.now scene.now.free_places.now) virtuals.now places) }
{
    let count = scene.c.0;
    let mut table = vec![in alloc; 0; count as usize]?;
    put_frees(scene.free, scene.free_places, &mut table);
    settle(scene.h, rows, scene.list, scene.holders, count, &mut table);
    let places = table_places(alloc, &table, virtuals)?;
    Ok(places)
}
