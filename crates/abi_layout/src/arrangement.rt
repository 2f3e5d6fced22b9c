//! Where the components of a class lie, and which sizes come of it (Itanium C++ ABI 2.4).

ghost use Rattle.std.specs.Prelude.{◌≡◌, ◌≤◌, ◌⊎◌, IfOk, IfErr, max, if◌then◌else◌};
ghost use Rattle.cxx_hierarchy.specs.declared.stop.LimitNo.{LimitNo};
ghost use Rattle.abi_layout.specs.Limits.{size_limit};
ghost use Rattle.abi_layout.specs.Placements.{IsNextMultiple, parts_at};
ghost use Rattle.abi_layout.specs.invariants.Alignments.{IsAlignment, IsPlacing, AreFit};
ghost use Rattle.abi_layout.specs.Layouts.{start_stage};
ghost use Rattle.abi_layout.specs.invariants.Arrangements.{stage_with, IsArranged, IsWithinLimit, IsTooLargeBy};

use crate::component::{Component, PartList, Stage, push_placed};
use crate::placing::{Placing, Positions, place_all, place_bases, round_up};
use crate::rows::first_placing;
use abi_sound::{BitList, PlaceList};
use cxx_hierarchy::{ClassId, Stop};
use foundation::{NoMemory, Sequence};
use std::alloc::Global;

/// A class whose components are placed: the sizes and alignments of its row, in bytes; the places of the bases before
/// the members, of the members, with their bits, and of the virtual bases behind them; all class subobjects, by their places; and those
/// in the members alone.
#[derive(Drop)]
pub struct Arrangement {
    pub size: u32,
    pub align: u32,
    pub dsize: u32,
    pub nvsize: u32,
    pub nvalign: u32,
    pub front_places: PlaceList,
    pub member_places: PlaceList,
    pub member_bits: BitList,
    pub free_places: PlaceList,
    pub parts: PartList,
    pub member_parts: PartList,
}

/// The stage behind a virtual pointer, if there is one, with the class subobjects of a stage.
fn behind_pointer(stage: Stage, has_pointer: bool) -> Stage
    ensures { result ≡ stage_with has_pointer stage.parts }
{
    let Stage {
        dsize: _,
        free_bit: _,
        size: _,
        align: _,
        parts,
    } = stage;
    if has_pointer {
        Stage {
            dsize: 8,
            free_bit: 64,
            size: 8,
            align: 8,
            parts,
        }
    } else {
        Stage {
            dsize: 0,
            free_bit: 0,
            size: 0,
            align: 1,
            parts,
        }
    }
}

/// Before the first component: the class itself is at 0, and so is its own virtual pointer, if it has one.
fn start(alloc: Global, c: ClassId, has_pointer: bool) -> Result<Placing, NoMemory>
    ensures stage { IfOk result (λ placing. placing.stage ≡ start_stage c has_pointer) }
    ensures placing { IfOk result IsPlacing }
{
    let Placing {
        stage,
        table,
        listed,
    } = first_placing(alloc, c)?;
    let behind = behind_pointer(stage, has_pointer);
    Ok(Placing {
        stage: behind,
        table,
        listed,
    })
}

/// The size of a class whose components end here.
fn whole_size(stage: &Stage) -> u32
    requires align { IsAlignment stage.now.align }
    requires size { stage.now.size ≤ size_limit }
    ensures { IsNextMultiple (max 1 stage.now.size) stage.now.align result }
{
    round_up(stage.size.max(1), stage.align)
}

/// A size that is the whole size for a POD class.
fn size_of_kind(is_pod: bool, whole: u32, other: u32) -> u32
    ensures { result ≡ (if is_pod then whole else other) }
{
    if is_pod { whole } else { other }
}

/// Places the components of a class: the bases before the members, the members, and the virtual bases behind them.
///
/// Errors: the limit L6 exactly where the size of the class is above 500,000 bytes, or want of memory.
pub(crate) fn arrange(
    alloc: Global,
    c: ClassId,
    has_pointer: bool,
    is_pod: bool,
    fronts: &[Component],
    members: &[Component],
    frees: &[Component],
) -> Result<Arrangement, Stop>
    requires fronts { AreFit fronts.now }
    requires members { AreFit members.now }
    requires frees { AreFit frees.now }
    ensures arranged { IfOk result (λ a. IsArranged (start_stage c has_pointer) fronts.now members.now frees.now is_pod a) }
    ensures members { IfOk result (λ a. a.member_parts ≡ parts_at members.now a.member_places) }
    ensures within { IfOk result IsWithinLimit }
    ensures limit { IfErr result (λ e. (e ≡ Stop.NoMemory) ⊎ ((e ≡ Stop.Limit LimitNo.L6) × IsTooLargeBy (start_stage c has_pointer) fronts.now members.now frees.now is_pod)) }
{
    let mut placing = start(alloc, c, has_pointer)?;
    let front_places = place_bases(alloc, &mut placing, fronts)?;
    let Positions {
        places: member_places,
        bits: member_bits,
    } = place_all(alloc, &mut placing, members)?;
    let end = placing.stage.size;
    let nvalign = placing.stage.align;
    let free_places = place_bases(alloc, &mut placing, frees)?;
    let size = whole_size(&placing.stage);
    let dsize = size_of_kind(is_pod, size, placing.stage.dsize);
    let nvsize = size_of_kind(is_pod, size, end);
    let mut member_parts = Sequence::new(alloc);
    push_placed(&mut member_parts, members, member_places.as_slice())?;
    let Placing {
        stage,
        table: _,
        listed: _,
    } = placing;
    Ok(Arrangement {
        size,
        align: stage.align,
        dsize,
        nvsize,
        nvalign,
        front_places,
        member_places,
        member_bits,
        free_places,
        parts: stage.parts,
        member_parts,
    })
}
