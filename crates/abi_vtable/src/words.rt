//! The words of a table: offsets and entries.

ghost use Rattle.std.specs.Prelude.{◌≡◌, ◌<◌, ◌-ℤ◌, pos, ℕ, false, Option, Some, IfOk, IfSome, OnOk, Contains, List, length, slice_get, slice_index_or};
ghost use Rattle.cxx_hierarchy.specs.declared.records.ClassId.{ClassId};
ghost use Rattle.cxx_hierarchy.specs.Classes.{Classes};
ghost use Rattle.cxx_subobject.specs.declared.Subobject.{Subobject};
ghost use Rattle.cxx_subobject.specs.Subobjects.{IsSubobject};
ghost use Rattle.cxx_subobject.specs.Inside.{IsInside};
ghost use Rattle.cxx_subobject.specs.Preorder.{preorder};
ghost use Rattle.cxx_overrider.specs.Functions.{is_pure, overrider};
ghost use Rattle.abi_sound.specs.Places.{Places, places_of};
ghost use Rattle.abi_slots.specs.declared.words.EntryKey.{EntryKey};
ghost use Rattle.abi_slots.specs.declared.words.Offset.{Offset};
ghost use Rattle.abi_slots.specs.Slots.{AreSlots};
ghost use Rattle.abi_slots.specs.Views.{place};
ghost use Rattle.abi_slots.specs.Groups.{GoAlong, named_in, vcall_for, code_word, IsOffsetWord, IsEntryWord};
ghost use Rattle.abi_vtable.specs.invariants.Parts.{NumbersSubobject, IsViewPart, IsViewParts, IsSomeView, view_of_parts};
ghost use Rattle.abi_vtable.specs.invariants.Returns.{AreKnown};
ghost use Rattle.abi_vtable.specs.invariants.Sites.{IsTableSite};
ghost use Rattle.abi_vtable.specs.invariants.Words.{NamesVirtual, LiesInClass, HasVcall, AreAlong, IsFirstDeclarer};

use crate::places::{adjust_between, place_of_part};
use crate::returns::{KnownReturn, return_for};
use crate::table_sites::TableSite;
use crate::view::{ViewPart, ViewParts};
use abi_slots::{EntryKey, EntryWord, Offset, Slots, TableWord};
use abi_sound::SoundLayout;
use abi_thunk::shared_place;
use cxx_hierarchy::{ClassId, Hierarchy};
use cxx_overrider::FunctionId;
use cxx_overrider::signatures::declaration;
use cxx_subobject::listing::longer_path;
use cxx_subobject::{Root, Subobject, contains, is_longer};
use foundation::NoMemory;
use std::alloc::Global;

/// How far it is from one place to another, in bytes.
pub(crate) fn distance(from: u32, to: u32) -> i64
    ensures { result ≡ pos to -ℤ pos from }
{
    to as i64 - from as i64
}

/// A part at or behind which all of a class stand.
fn start_of(starts: &[usize], d: ClassId) -> usize
    ensures { result ≡ slice_index_or starts.now d.0 0 }
{
    match starts.get(d.0 as usize) {
        Some(start) => *start,
        None => 0,
    }
}

/// The part of the view that is of a class and has a subobject in it. It takes no memory.
fn part_over<'a>(h: &Hierarchy, x: &'a ViewParts, s: &Subobject, d: ClassId) -> &'a ViewPart
    requires view { IsSomeView h.now x.now }
    requires valid { IsSubobject h.now x.now.class s.now }
    requires some { LiesInClass h.now x.now.class s.now d }
    ensures part { (l : Places) → IsViewParts h.now l x.now → IsViewPart h.now l (view_of_parts x.now) (preorder h.now x.now.class) result.now }
    ensures class { result.now.class ≡ d }
    ensures inside { IsInside h.now result.now.at s.now }
{
    h.keeps();
    let parts = x.parts.as_slice();
    for n in start_of(x.starts.as_slice(), d)..parts.len() {
        let part = &parts[n];
        if part.class.0 == d.0 && contains(h, x.class, &part.at, s) {
            return part;
        }
    }
    unreachable!()
}

/// The subobject of a view that lies below a virtual base at a path, or below the view itself where this is that base.
fn named_in(alloc: Global, d: ClassId, path: &[ClassId]) -> Result<Subobject, NoMemory>
    ensures { IfOk result (λ s. s ≡ named_in d path.now) }
{
    let root = match path {
        [] => Root::Whole,
        [v, ..] => {
            if v.0 == d.0 {
                Root::Whole
            } else {
                Root::Shared(*v)
            }
        }
    };
    Ok(Subobject {
        root,
        path: longer_path(alloc, path, &[])?,
    })
}

/// The word of an offset in the table of a part, which lies at a place of the complete object, in bytes.
///
/// Errors: want of memory.
pub(crate) fn offset_word<L: SoundLayout>(
    site: &TableSite<L>,
    x: &ViewParts,
    t: &ViewPart,
    start: u32,
    offset: &Offset,
) -> Result<TableWord, NoMemory>
    requires layout { L.lays_out site.now.layout.now site.now.h.now }
    requires site { IsTableSite site.now.h.now (L.rows site.now.layout.now) site.now.overriders.now site.now.slots.now }
    requires view { IsViewParts site.now.h.now (places_of site.now.h.now (L.rows site.now.layout.now)) x.now }
    requires part { IsViewPart site.now.h.now (places_of site.now.h.now (L.rows site.now.layout.now)) (view_of_parts x.now) (preorder site.now.h.now x.now.class) t.now }
    requires start { start ≡ place (places_of site.now.h.now (L.rows site.now.layout.now)) (view_of_parts x.now) t.now.at }
    requires named { NamesVirtual site.now.h.now x.now.class offset.now }
    ensures { IfOk result (IsOffsetWord site.now.h.now (places_of site.now.h.now (L.rows site.now.layout.now)) (view_of_parts x.now) t.now.at offset.now) }
{
    site.h.keeps();
    match offset {
        Offset::ToBase(v) => {
            let place = shared_place(site.h, site.layout, x.complete, *v);
            Ok(TableWord::Vbase(distance(start, place), *v))
        }
        Offset::ToOverrider(path, f) => {
            let s = named_in(site.alloc, x.class, path.as_slice())?;
            let g = site.overriders.final_function(site.h, x.class, &s, *f);
            let part = part_over(site.h, x, &s, g.class);
            let place = place_of_part(site.alloc, site.h, site.layout, x, part)?;
            Ok(TableWord::Vcall(distance(start, place), *f))
        }
    }
}

/// The part of a view whose class declares an entry, by its number, and the function that it declares there.
#[derive(Clone, Copy, Debug, PartialEq, Eq)]
pub struct Declarer {
    pub part: usize,
    pub function: FunctionId,
}

/// The first of a chain, from a part on and so many steps down, whose class declares a function at the entry of a number.
fn declarer_below(
    h: &Hierarchy,
    slots: &Slots,
    x: &ViewParts,
    at: Option<usize>,
    n: usize,
    steps: u32,
) -> Option<Declarer>
    requires view { IsSomeView h.now x.now }
    requires number { IfSome at (λ i. i < length x.now.parts) }
    ensures { (l : Places) (k : EntryKey) (s : Option Subobject) → IsViewParts h.now l x.now → AreSlots h.now l slots.now → NumbersSubobject (preorder h.now x.now.class) at s → AreAlong h.now l (view_of_parts x.now) k n s → IsFirstDeclarer h.now l x.now k steps s result }
{
    h.keeps();
    if steps == 0 {
        return None;
    }
    let number = match at {
        Some(number) => number,
        None => return None,
    };
    let part = &x.parts.as_slice()[number];
    match slots.declared(part.class, n) {
        Some(function) => Some(Declarer {
            part: number,
            function,
        }),
        None => declarer_below(h, slots, x, part.next, n, steps - 1),
    }
}

/// The vcall word by which `this` is adjusted from one subobject to another, in bytes from the address point.
fn vcall_for(slots: &Slots, f: FunctionId, from: &Subobject, to: &Subobject) -> Option<i64>
    ensures { (h : Classes) (l : Places) → AreSlots h l slots.now → HasVcall h l f from.now.root → result ≡ vcall_for h l f from.now to.now }
{
    if is_longer(to, from) {
        return None;
    }
    match from.root {
        Root::Whole => None,
        Root::Shared(v) => Some(8 * (slots.vcall(v, f) as i64)),
    }
}

/// Whether a function is pure.
fn is_pure(h: &Hierarchy, f: FunctionId) -> bool
    requires { f.class.0 < length h.now }
    ensures { result ≡ is_pure h.now f }
{
    match declaration(h, f) {
        Some(function) => function.is_pure,
        None => false,
    }
}

/// The code that an entry runs for a part whose class declares it: that of the final overrider, which lies in another part.
///
/// Errors: want of memory.
fn code_word<L: SoundLayout>(
    site: &TableSite<L>,
    known: &mut Vec<KnownReturn>,
    x: &ViewParts,
    key: EntryKey,
    from: &ViewPart,
    to: &ViewPart,
    g: FunctionId,
) -> Result<EntryWord, NoMemory>
    requires layout { L.lays_out site.now.layout.now site.now.h.now }
    requires site { IsTableSite site.now.h.now (L.rows site.now.layout.now) site.now.overriders.now site.now.slots.now }
    requires known { AreKnown site.now.h.now (places_of site.now.h.now (L.rows site.now.layout.now)) known.old.items }
    requires view { IsViewParts site.now.h.now (places_of site.now.h.now (L.rows site.now.layout.now)) x.now }
    requires from { IsViewPart site.now.h.now (places_of site.now.h.now (L.rows site.now.layout.now)) (view_of_parts x.now) (preorder site.now.h.now x.now.class) from.now }
    requires to { IsViewPart site.now.h.now (places_of site.now.h.now (L.rows site.now.layout.now)) (view_of_parts x.now) (preorder site.now.h.now x.now.class) to.now }
    requires key { key.function.class.0 < length site.now.h.now }
    requires function { g.class.0 < length site.now.h.now }
    requires vcall { HasVcall site.now.h.now (places_of site.now.h.now (L.rows site.now.layout.now)) key.function from.now.at.root }
    requires code { is_pure site.now.h.now g ≡ false }
    ensures word { IfOk result (λ word. word ≡ code_word site.now.h.now (places_of site.now.h.now (L.rows site.now.layout.now)) (view_of_parts x.now) key from.now.at (overrider to.now.at g)) }
    ensures known { OnOk result (AreKnown site.now.h.now (places_of site.now.h.now (L.rows site.now.layout.now)) known.new.items) }
{
    let vcall = vcall_for(site.slots, key.function, &from.at, &to.at);
    let this = adjust_between(site.alloc, site.h, site.layout, x, from, to, vcall)?;
    let result = return_for(site, known, g, key.function)?;
    Ok(EntryWord::Code(g, key.kind, this, result))
}

/// The word of an entry in the table of the part of a number.
///
/// Errors: want of memory.
pub(crate) fn entry_word<L: SoundLayout>(
    site: &TableSite<L>,
    known: &mut Vec<KnownReturn>,
    x: &ViewParts,
    number: usize,
    n: usize,
    key: EntryKey,
) -> Result<EntryWord, NoMemory>
    requires layout { L.lays_out site.now.layout.now site.now.h.now }
    requires site { IsTableSite site.now.h.now (L.rows site.now.layout.now) site.now.overriders.now site.now.slots.now }
    requires known { AreKnown site.now.h.now (places_of site.now.h.now (L.rows site.now.layout.now)) known.old.items }
    requires view { IsViewParts site.now.h.now (places_of site.now.h.now (L.rows site.now.layout.now)) x.now }
    requires number { number < length x.now.parts }
    requires key { key.function.class.0 < length site.now.h.now }
    requires along { AreAlong site.now.h.now (places_of site.now.h.now (L.rows site.now.layout.now)) (view_of_parts x.now) key n (slice_get (preorder site.now.h.now x.now.class) number) }
    ensures word { IfOk result (λ word. (t : Subobject) → slice_get (preorder site.now.h.now x.now.class) number ≡ Some t → IsEntryWord site.now.h.now (places_of site.now.h.now (L.rows site.now.layout.now)) (view_of_parts x.now) t key word) }
    ensures known { OnOk result (AreKnown site.now.h.now (places_of site.now.h.now (L.rows site.now.layout.now)) known.new.items) }
{
    site.h.keeps();
    let found = match declarer_below(site.h, site.slots, x, Some(number), n, x.class.0 + 1) {
        Some(found) => found,
        None => return Ok(EntryWord::Unused),
    };
    let from = &x.parts.as_slice()[found.part];
    let g = site
        .overriders
        .final_function(site.h, x.class, &from.at, found.function);
    if is_pure(site.h, g) {
        return Ok(EntryWord::Pure(g));
    }
    let to = part_over(site.h, x, &from.at, g.class);
    code_word(site, known, x, key, from, to, g)
}
