//! Components of a class, placed one after the other (Itanium C++ ABI 2.4).

ghost use Rattle.std.specs.Prelude.{◌≡◌, ◌+◌, ◌^◌, ◌<◌, ◌≤◌, ◌⊎◌, All, map, if◌then◌else◌, IfOk, IfErr, IfSome, IfNone, OnOk, None};
ghost use Rattle.abi_emptybase.specs.Table.{has_conflict, moved_part};
ghost use Rattle.cxx_hierarchy.specs.declared.stop.LimitNo.{LimitNo};
ghost use Rattle.abi_layout.specs.Limits.{size_limit};
ghost use Rattle.abi_layout.specs.Placements.{IsNextMultiple, IsLeastFreePlace, IsComponentAt, ArePlaced, component_end, stage_after, stage_after_all, bits_at};
ghost use Rattle.abi_layout.specs.invariants.Alignments.{IsAlignment, IsFit, AreFit, ListsFirstParts, IsTableReady, with_parts, IsPlacing, HasNoPlace, IsPastLimit};

use crate::bit_places::{bit_place, bits_of, end_of, free_after};
use crate::component::{Component, Stage, push_moved};
use abi_emptybase::{Part, PlaceTable, is_among};
use abi_sound::{BitList, PlaceList};
use cxx_hierarchy::{LimitNo, Stop};
use foundation::{NoMemory, Sequence};
use std::alloc::Global;

/// The largest size of a class, in bytes.
pub(crate) const SIZE_LIMIT: u32 = 500_000;

/// Among so few class subobjects a component is compared with each, and the table is not asked.
const FEW_PARTS: usize = 8;

/// The layout of a class so far, and the table of the class subobjects that were placed: of the first ones, as many as
/// are listed. The others wait until a component asks for the table.
#[derive(Drop)]
pub struct Placing {
    pub stage: Stage,
    pub table: PlaceTable,
    pub listed: usize,
}

/// The least multiple of an alignment at or behind a place.
pub(crate) fn round_up(place: u32, align: u32) -> u32
    requires alignment { IsAlignment align }
    requires bounded { place ≤ size_limit }
    ensures { IsNextMultiple place align result }
{
    (place + (align - 1)) / align * align
}

/// Whether the component, at this place, would bring a subobject of a class to where one of that class is already.
fn is_taken(placing: &Placing, component: &Component, at: u32) -> bool
    requires placing { IsPlacing placing.now }
    requires ready { IsTableReady placing.now component.now }
    requires component { IsFit component.now }
    requires bounded { at ≤ size_limit }
    ensures { result ≡ has_conflict placing.now.stage.parts component.now.parts at }
{
    let placed = placing.stage.parts.as_slice();
    if placed.len() <= FEW_PARTS {
        return is_among(placed, component.parts.as_slice(), at);
    }
    placing.table.conflicts(component.parts.as_slice(), at)
}

/// The place of the next component, which is no bit-field, and None where it lies behind the largest size.
fn find_place(placing: &Placing, component: &Component) -> Option<u32>
    requires placing { IsPlacing placing.now }
    requires ready { IsTableReady placing.now component.now }
    requires component { IsFit component.now }
    requires whole { component.now.width ≡ None }
    ensures place { IfSome result (λ at. IsLeastFreePlace placing.now.stage component.now at) }
    ensures within { IfSome result (λ at. at ≤ size_limit) }
    ensures past { IfNone result (HasNoPlace placing.now.stage component.now) }
{
    if component.is_empty && !is_taken(placing, component, 0) {
        return Some(0);
    }
    let mut at = round_up(placing.stage.dsize, component.align);
    while at <= SIZE_LIMIT {
        if !is_taken(placing, component, at) {
            return Some(at);
        }
        at += component.align;
    }
    None
}

/// Puts the class subobjects of a component, which lies at a place, behind the others.
/// The table takes them only once it is asked.
pub(crate) fn add_parts(placing: &mut Placing, parts: &[Part], at: u32) -> Result<(), NoMemory>
    requires table { ListsFirstParts placing.old }
    requires bounded { All (λ part. part.place + at < 2 ^ 32) parts.now }
    ensures table { OnOk result (ListsFirstParts placing.new) }
    ensures stage { OnOk result (placing.new.stage ≡ with_parts placing.old.stage (map (moved_part at) parts.now)) }
{
    push_moved(&mut placing.stage.parts, parts, at)?;
    Ok(())
}

/// Puts what the table does not have yet into it, where the next component has class subobjects and is compared with more
/// than a few: no other one asks it.
fn make_ready(placing: &mut Placing, component: &Component) -> Result<(), NoMemory>
    requires { IsPlacing placing.old }
    ensures placing { OnOk result (IsPlacing placing.new) }
    ensures ready { OnOk result (IsTableReady placing.new component.now) }
    ensures stage { OnOk result (placing.new.stage ≡ placing.old.stage) }
{
    let parts = placing.stage.parts.as_slice();
    if component.parts.len() == 0 || parts.len() <= FEW_PARTS {
        return Ok(());
    }
    placing.table.add(&parts[placing.listed..], 0)?;
    placing.listed = parts.len();
    Ok(())
}

/// Where the data of a stage end once a component is placed that ends there: an empty base takes no data.
fn data_end(stage: &Stage, component: &Component, end: u32) -> u32
    ensures { result ≡ (if component.now.is_empty then stage.now.dsize else end) }
{
    if component.is_empty { stage.dsize } else { end }
}

/// The place of the next component, and None where it lies behind the largest size.
fn place_of(placing: &Placing, component: &Component) -> Option<u32>
    requires placing { IsPlacing placing.now }
    requires ready { IsTableReady placing.now component.now }
    requires component { IsFit component.now }
    ensures place { IfSome result (λ at. IsComponentAt placing.now.stage component.now at) }
    ensures within { IfSome result (λ at. at ≤ size_limit + 8) }
    ensures past { IfNone result (HasNoPlace placing.now.stage component.now) }
{
    match component.width {
        None => find_place(placing, component),
        Some(width) => Some(bit_place(&placing.stage, component.align, width)),
    }
}

/// Puts a component at its place, where it ends at this byte.
fn put(placing: &mut Placing, component: &Component, at: u32) -> Result<(), NoMemory>
    requires placing { IsPlacing placing.old }
    requires component { IsFit component.now }
    requires place { IsComponentAt placing.old.stage component.now at }
    requires bounded { component_end placing.old.stage component.now at ≤ size_limit }
    ensures after { IfOk result (λ _. placing.new.stage ≡ stage_after placing.old.stage component.now at) }
    ensures placing { IfOk result (λ _. IsPlacing placing.new) }
{
    let end = end_of(&placing.stage, component, at);
    let data_end = data_end(&placing.stage, component, end);
    let free_bit = free_after(&placing.stage, component, at, data_end);
    add_parts(placing, component.parts.as_slice(), at)?;
    placing.stage.dsize = data_end;
    placing.stage.free_bit = free_bit;
    placing.stage.size = placing.stage.size.max(end);
    placing.stage.align = placing.stage.align.max(component.align);
    Ok(())
}

/// Where components lie: their places, in bytes, and the bits there that hold them.
#[derive(Drop)]
pub struct Positions {
    pub places: PlaceList,
    pub bits: BitList,
}

/// Places the components one after the other, and gives their places and bits.
pub(crate) fn place_all(
    alloc: Global,
    placing: &mut Placing,
    components: &[Component],
) -> Result<Positions, Stop>
    requires placing { IsPlacing placing.old }
    requires components { AreFit components.now }
    ensures placed { IfOk result (λ all. ArePlaced placing.old.stage components.now all.places) }
    ensures bits { IfOk result (λ all. all.bits ≡ bits_at placing.old.stage components.now all.places) }
    ensures after { IfOk result (λ all. placing.new.stage ≡ stage_after_all placing.old.stage components.now all.places) }
    ensures placing { IfOk result (λ _. IsPlacing placing.new) }
    ensures limit { IfErr result (λ e. (e ≡ Stop.NoMemory) ⊎ ((e ≡ Stop.Limit LimitNo.L6) × IsPastLimit placing.old.stage components.now)) }
{
    let mut places = Sequence::new(alloc);
    let mut bits = Sequence::new(alloc);
    for component in components {
        make_ready(placing, component)?;
        match place_of(placing, component) {
            None => return Err(Stop::Limit(LimitNo::L6)),
            Some(at) => {
                if end_of(&placing.stage, component, at) > SIZE_LIMIT {
                    return Err(Stop::Limit(LimitNo::L6));
                }
                bits.push(bits_of(&placing.stage, component, at))?;
                put(placing, component, at)?;
                places.push(at)?;
            }
        }
    }
    Ok(Positions { places, bits })
}

/// Places bases one after the other, and gives their places.
pub(crate) fn place_bases(
    alloc: Global,
    placing: &mut Placing,
    components: &[Component],
) -> Result<PlaceList, Stop>
    requires placing { IsPlacing placing.old }
    requires components { AreFit components.now }
    ensures placed { IfOk result (λ places. ArePlaced placing.old.stage components.now places) }
    ensures after { IfOk result (λ places. placing.new.stage ≡ stage_after_all placing.old.stage components.now places) }
    ensures placing { IfOk result (λ _. IsPlacing placing.new) }
    ensures limit { IfErr result (λ e. (e ≡ Stop.NoMemory) ⊎ ((e ≡ Stop.Limit LimitNo.L6) × IsPastLimit placing.old.stage components.now)) }
{
    let Positions { places, bits: _ } = place_all(alloc, placing, components)?;
    Ok(places)
}
