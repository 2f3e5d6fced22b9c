//! The finished row of one class, by the layouts of the classes before it (Itanium C++ ABI 2.4).

ghost use Rattle.std.specs.Prelude.{◌≡◌, ℕ, ◌+◌, ◌<◌, List, [], ◌∷◌, ◌++◌, Option, IfOk, IfErr, OnOk, Some, None, get_or, length, map, slice_get, slice_set};
ghost use Rattle.cxx_hierarchy.specs.Classes.{class_at};
ghost use Rattle.cxx_hierarchy.specs.declared.records.ClassId.{ClassId};
ghost use Rattle.abi_layout.specs.invariants.Known.{AreAllSized};
ghost use Rattle.abi_layout.specs.Holding.{AreHolders};
ghost use Rattle.abi_layout.specs.invariants.Scenes.{IsLayoutScene};
ghost use Rattle.abi_layout.specs.PlacedBases.{IsPossible};
ghost use Rattle.abi_layout.specs.Layouts.{primary_of};
ghost use Rattle.abi_layout.specs.invariants.Arrangements.{row_from};
ghost use Rattle.abi_layout.specs.invariants.Settled.{held_at, EndsWithinLimit, CanSettle, free_table};
ghost use Rattle.abi_layout.specs.invariants.ClassRows.{AreSmaller, AreVirtualPlacesIn, FillsRow, IsOneOrOther, IsRefusedBy, filled_row, IsRowAdded};
ghost use Rattle.abi_sound.specs.declared.class_layout.ClassLayout.{ClassLayout};

use crate::arrangement::Arrangement;
use crate::component::PartList;
use crate::holding::{holders, virtual_bases};
use crate::known::Known;
use crate::placed_class::{PlacedClass, place_class};
use crate::scene::{Scene, holder};
use crate::virtual_places::{VirtualScene, virtual_places};
use abi_primary::Primary;
use abi_sound::{ClassLayout, ClassList, HolderList, PlaceList};
use cxx_hierarchy::{ClassId, ClassRec, Hierarchy, Stop};
use cxx_subobject::{Subobject, subobject_below};
use foundation::{NoMemory, Sequence};
use std::alloc::Global;

/// What is known of a class once it is laid out, besides its row, and the class subobjects in its members, by their
/// places.
#[derive(Drop)]
pub struct ClassFacts {
    pub known: Known,
    pub members: PartList,
}

/// The subobject that holds a virtual base, if one does.
fn holder_at(
    alloc: Global,
    list: &[Subobject],
    holders: &[Option<usize>],
    v: ClassId,
) -> Result<Option<Subobject>, NoMemory>
    requires { (n : ℕ) → get_or holders.now v.0 None ≡ Some n → n < length list.now }
    ensures { IfOk result (λ s. s ≡ held_at list.now (get_or holders.now v.0 None)) }
{
    match holder(holders, v) {
        Some(n) => Ok(Some(subobject_below(alloc, &list[n], &[])?)),
        None => Ok(None),
    }
}

/// For each virtual base the subobject that holds it.
fn holder_list(
    alloc: Global,
    list: &[Subobject],
    holders: &[Option<usize>],
    virtuals: &[ClassId],
) -> Result<HolderList, NoMemory>
    requires { (v n : ℕ) → get_or holders.now v None ≡ Some n → n < length list.now }
    ensures { IfOk result (λ held. held ≡ map (λ (v : ClassId). held_at list.now (get_or holders.now v.0 None)) virtuals.now) }
{
    let mut held = Sequence::from_vec(Vec::with_capacity(alloc, virtuals.len())?);
    for v in virtuals {
        held.push(holder_at(alloc, list, holders, *v)?)?;
    }
    Ok(held)
}

/// Puts the virtual bases of a class, their places and what holds them into its row.
fn fill_row(
    rows: &mut Vec<ClassLayout>,
    c: ClassId,
    virtuals: ClassList,
    places: PlaceList,
    held: HolderList,
)
    requires { c.0 < length rows.old.items }
    ensures { (row : ClassLayout) → slice_get rows.old.items c.0 ≡ Some row → rows.new.items ≡ slice_set rows.old.items c.0 (filled_row row virtuals places held) }
{
    let row = &mut rows[c.0 as usize];
    row.virtual_bases = virtuals;
    row.virtual_places = places;
    row.holders = held;
}

/// What is left of an arrangement whose row stands behind the others: the places of the virtual bases behind the
/// members, all class subobjects, by their places, and those in the members alone.
#[derive(Drop)]
struct PushedRow {
    free_places: PlaceList,
    parts: PartList,
    member_parts: PartList,
}

/// Puts the row of an arrangement, without virtual bases, behind the others.
fn push_row(
    alloc: Global,
    primary: Primary,
    base_places: PlaceList,
    arrangement: Arrangement,
    rows: &mut Vec<ClassLayout>,
) -> Result<PushedRow, NoMemory>
    ensures row { OnOk result (rows.new.items ≡ rows.old.items ++ row_from arrangement primary base_places [] [] [] ∷ []) }
    ensures free_places { IfOk result (λ pushed. pushed.free_places ≡ arrangement.free_places) }
    ensures parts { IfOk result (λ pushed. pushed.parts ≡ arrangement.parts) }
    ensures member_parts { IfOk result (λ pushed. pushed.member_parts ≡ arrangement.member_parts) }
{
    let Arrangement {
        size,
        align,
        dsize,
        nvsize,
        nvalign,
        front_places: _,
        member_places,
        member_bits,
        free_places,
        parts,
        member_parts,
    } = arrangement;
    rows.push(ClassLayout {
        size,
        align,
        dsize,
        nvsize,
        nvalign,
        primary,
        base_places,
        virtual_bases: Sequence::new(alloc),
        virtual_places: Sequence::new(alloc),
        holders: Sequence::new(alloc),
        member_places,
        member_bits,
    })?;
    Ok(PushedRow {
        free_places,
        parts,
        member_parts,
    })
}

/// Puts the virtual bases of a class, their places and what holds them into its row, which has the places of its
/// direct bases.
fn place_virtuals(
    alloc: Global,
    scene: &VirtualScene,
    virtuals: Vec<ClassId>,
    rows: &mut Vec<ClassLayout>,
) -> Result<(), NoMemory>
    requires class { scene.now.c.0 < length scene.now.h.now }
    requires row { length rows.old.items ≡ scene.now.c.0 + 1 }
    requires can { CanSettle scene.now.h.now rows.old.items scene.now.list.now scene.now.holders.now }
    requires room { EndsWithinLimit rows.old.items (free_table scene.now.c.0 scene.now.free.now scene.now.free_places.now) }
    ensures { OnOk result ((places : List ℕ) × AreVirtualPlacesIn scene.now rows.old.items virtuals.items places × FillsRow scene.now virtuals.items places rows.old.items rows.new.items) }
{
    let places = virtual_places(alloc, scene, rows, &virtuals)?;
    let held = holder_list(alloc, scene.list, scene.holders, &virtuals)?;
    fill_row(rows, scene.c, Sequence::from_vec(virtuals), places, held);
    Ok(())
}

/// The next class of a hierarchy: its record, its primary base, and whether it has a virtual pointer of its own. `list`
/// has its subobjects in preorder, `known` and `members` tell what is known of the classes before it besides their
/// rows, and `primaries` which primary bases these and the class itself have.
#[derive(Clone, Copy)]
pub struct NextClass<'a> {
    pub c: ClassId,
    pub class: &'a ClassRec<ClassId>,
    pub primary: Primary,
    pub has_pointer: bool,
    pub list: &'a [Subobject],
    pub known: &'a [Known],
    pub members: &'a [PartList],
    pub primaries: &'a [Primary],
}

/// Lays out the next class, by the rows of the classes before it: its row goes behind theirs.
///
/// Errors: the limit L6 exactly where the size of the class is above 500,000 bytes; else the refusal SharedPlace
/// exactly where a base brings one pair of class and place twice; want of memory.
pub(crate) fn lay_out_class(
    alloc: Global,
    h: &Hierarchy,
    next: &NextClass,
    rows: &mut Vec<ClassLayout>,
) -> Result<ClassFacts, Stop>
    requires scene { (holders : List (Option ℕ)) → AreHolders next.now.primaries.now next.now.list.now next.now.c.0 holders → IsLayoutScene h.now next.now.c rows.old.items next.now.known.now next.now.members.now next.now.primaries.now next.now.list.now holders }
    requires sized { AreAllSized rows.old.items next.now.known.now }
    requires class { class_at h.now next.now.c ≡ Some next.now.class.now }
    requires primary { IsPossible h.now next.now.c next.now.primary }
    requires own { primary_of next.now.primaries.now next.now.c ≡ next.now.primary }
    requires pointer { IsOneOrOther next.now.primary next.now.has_pointer }
    requires smaller { AreSmaller next.now.c next.now.known.now }
    ensures laid { IfOk result (λ facts. IsRowAdded h.now next.now.c rows.old.items next.now.known.now next.now.primaries.now next.now.class.now next.now.has_pointer rows.new.items facts) }
    ensures refused { IfErr result (IsRefusedBy h.now next.now.c rows.old.items next.now.known.now next.now.primaries.now next.now.class.now next.now.has_pointer) }
{
    h.keeps();
    let virtuals = virtual_bases(alloc, next.list)?;
    let holders = holders(alloc, next.primaries, next.list, next.c.0 as usize)?;
    let scene = Scene {
        h,
        c: next.c,
        rows,
        known: next.known,
        members: next.members,
        primaries: next.primaries,
        list: next.list,
        holders: &holders,
    };
    let placed = place_class(
        alloc,
        &scene,
        next.class,
        next.primary,
        next.has_pointer,
        &virtuals,
    )?;
    let PlacedClass {
        arrangement,
        base_places,
        free,
        is_empty,
        is_pod,
    } = placed;
    let pushed = push_row(alloc, next.primary, base_places, arrangement, rows)?;
    let placing = VirtualScene {
        h,
        c: next.c,
        list: next.list,
        holders: &holders,
        free: &free,
        free_places: pushed.free_places.as_slice(),
    };
    place_virtuals(alloc, &placing, virtuals, rows)?;
    let PushedRow {
        free_places: _,
        parts,
        member_parts,
    } = pushed;
    Ok(ClassFacts {
        known: Known {
            is_empty,
            is_pod,
            parts,
        },
        members: member_parts,
    })
}
