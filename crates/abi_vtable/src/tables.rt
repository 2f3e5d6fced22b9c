//! The tables of a group, from their words.

ghost use Rattle.std.specs.Prelude.{◌≡◌, ◌<◌, ◌≤◌, ◌++◌, ◌∷◌, ℕ, ℤ, Some, IfOk, OnOk, length, map, reverse, slice_get};
ghost use Rattle.cxx_hierarchy.specs.declared.records.ClassId.{ClassId};
ghost use Rattle.cxx_subobject.specs.declared.Subobject.{Subobject};
ghost use Rattle.cxx_subobject.specs.Subobjects.{IsSubobject, class_of};
ghost use Rattle.cxx_subobject.specs.Preorder.{preorder};
ghost use Rattle.cxx_overrider.specs.Overriders.{AreOverriders};
ghost use Rattle.abi_primary.specs.Kinds.{IsDynamic};
ghost use Rattle.abi_sound.specs.Places.{places_of};
ghost use Rattle.abi_slots.specs.declared.words.EntryKey.{EntryKey};
ghost use Rattle.abi_slots.specs.declared.words.Offset.{Offset};
ghost use Rattle.abi_slots.specs.declared.words.TableWord.TheVariants.{Top, Info, Entry};
ghost use Rattle.abi_slots.specs.Limits.{most_offsets};
ghost use Rattle.abi_slots.specs.Slots.{AreSlots};
ghost use Rattle.abi_slots.specs.Views.{place, heads};
ghost use Rattle.abi_slots.specs.Groups.{GoAlong, is_shared_base, IsOffsetWord, IsEntryWord, IsTable, IsGroup};
ghost use Rattle.abi_vtable.specs.invariants.Parts.{IsViewPart, IsViewParts, view_of_parts, subobjects_numbered};
ghost use Rattle.abi_vtable.specs.invariants.Returns.{AreKnown};
ghost use Rattle.abi_vtable.specs.invariants.Sites.{IsTableSite};
ghost use Rattle.abi_vtable.specs.invariants.Words.{NamesVirtual, AreAlong};

use crate::heads::heads_of;
use crate::places::seen_of;
use crate::returns::KnownReturn;
use crate::table_sites::TableSite;
use crate::view::{ViewPart, ViewParts, view_parts};
use crate::words::{distance, entry_word, offset_word};
use abi_slots::{
    EntryKey, EntryWord, Group, GroupName, Offset, Slots, Table, TableList, TableWord, WordList,
};
use abi_sound::SoundLayout;
use cxx_hierarchy::{ClassId, Hierarchy};
use cxx_overrider::Overriders;
use cxx_subobject::{Subobject, shared_class, subobject_below};
use foundation::{NoMemory, Sequence};
use std::alloc::Global;

/// Whether a subobject is a virtual base itself.
fn is_shared_base(s: &Subobject) -> bool
    ensures { result ≡ is_shared_base s.now }
{
    match shared_class(s) {
        Some(_) => true,
        None => false,
    }
}

/// The words of offsets in the table of a part, which lies at a place of the complete object, in the order of the offsets.
///
/// Errors: want of memory.
fn offset_words<L: SoundLayout>(
    site: &TableSite<L>,
    x: &ViewParts,
    t: &ViewPart,
    start: u32,
    offsets: &[Offset],
) -> Result<Vec<TableWord>, NoMemory>
    requires layout { L.lays_out site.now.layout.now site.now.h.now }
    requires site { IsTableSite site.now.h.now (L.rows site.now.layout.now) site.now.overriders.now site.now.slots.now }
    requires view { IsViewParts site.now.h.now (places_of site.now.h.now (L.rows site.now.layout.now)) x.now }
    requires part { IsViewPart site.now.h.now (places_of site.now.h.now (L.rows site.now.layout.now)) (view_of_parts x.now) (preorder site.now.h.now x.now.class) t.now }
    requires start { start ≡ place (places_of site.now.h.now (L.rows site.now.layout.now)) (view_of_parts x.now) t.now.at }
    requires named { (i : ℕ) (offset : Offset) → slice_get offsets.now i ≡ Some offset → NamesVirtual site.now.h.now x.now.class offset }
    ensures { IfOk result (λ words. GoAlong (IsOffsetWord site.now.h.now (places_of site.now.h.now (L.rows site.now.layout.now)) (view_of_parts x.now) t.now.at) offsets.now words.items) }
{
    let mut words = Vec::new(site.alloc);
    for offset in offsets {
        let word = offset_word(site, x, t, start, offset)?;
        words.push(word)?;
    }
    Ok(words)
}

/// The words of entries in the table of the part of a number.
///
/// Errors: want of memory.
fn entry_words<L: SoundLayout>(
    site: &TableSite<L>,
    known: &mut Vec<KnownReturn>,
    x: &ViewParts,
    number: usize,
    entries: &[EntryKey],
) -> Result<Vec<EntryWord>, NoMemory>
    requires layout { L.lays_out site.now.layout.now site.now.h.now }
    requires site { IsTableSite site.now.h.now (L.rows site.now.layout.now) site.now.overriders.now site.now.slots.now }
    requires known { AreKnown site.now.h.now (places_of site.now.h.now (L.rows site.now.layout.now)) known.old.items }
    requires view { IsViewParts site.now.h.now (places_of site.now.h.now (L.rows site.now.layout.now)) x.now }
    requires number { number < length x.now.parts }
    requires keys { (i : ℕ) (key : EntryKey) → slice_get entries.now i ≡ Some key → key.function.class.0 < length site.now.h.now }
    requires along { (i : ℕ) (key : EntryKey) → slice_get entries.now i ≡ Some key → AreAlong site.now.h.now (places_of site.now.h.now (L.rows site.now.layout.now)) (view_of_parts x.now) key i (slice_get (preorder site.now.h.now x.now.class) number) }
    ensures words { IfOk result (λ words. (t : Subobject) → slice_get (preorder site.now.h.now x.now.class) number ≡ Some t → GoAlong (IsEntryWord site.now.h.now (places_of site.now.h.now (L.rows site.now.layout.now)) (view_of_parts x.now) t) entries.now words.items) }
    ensures known { OnOk result (AreKnown site.now.h.now (places_of site.now.h.now (L.rows site.now.layout.now)) known.new.items) }
{
    let mut words = Vec::new(site.alloc);
    for (n, key) in entries.iter().enumerate() {
        let word = entry_word(site, known, x, number, n, *key)?;
        words.push(word)?;
    }
    Ok(words)
}

/// Puts words behind others, the last one first.
fn push_reversed(words: &mut WordList, more: &[TableWord]) -> Result<(), NoMemory>
    ensures { OnOk result (words.new ≡ words.old ++ reverse more.now) }
{
    for i in 0..more.len() {
        words.push(more[more.len() - 1 - i])?;
    }
    Ok(())
}

/// Puts the words of entries behind others.
fn push_entries(words: &mut WordList, entries: &[EntryWord]) -> Result<(), NoMemory>
    ensures { OnOk result (words.new ≡ words.old ++ map Entry entries.now) }
{
    for entry in entries {
        words.push(TableWord::Entry(*entry))?;
    }
    Ok(())
}

/// The words of a table from low to high: its offsets, the last one first, how far it is to the start of the view, in bytes,
/// the class of the view, and its entries.
///
/// Errors: want of memory.
fn words_of(
    alloc: Global,
    offsets: &[TableWord],
    top: i64,
    class: ClassId,
    entries: &[EntryWord],
) -> Result<WordList, NoMemory>
    ensures { IfOk result (λ words. words ≡ reverse offsets.now ++ Top top ∷ Info class ∷ map Entry entries.now) }
{
    let mut words = Sequence::new(alloc);
    push_reversed(&mut words, offsets)?;
    words.push(TableWord::Top(top))?;
    words.push(TableWord::Info(class))?;
    push_entries(&mut words, entries)?;
    Ok(words)
}

/// The table of the part of a number.
///
/// Errors: want of memory.
fn table<L: SoundLayout>(
    site: &TableSite<L>,
    known: &mut Vec<KnownReturn>,
    x: &ViewParts,
    number: usize,
) -> Result<Table, NoMemory>
    requires layout { L.lays_out site.now.layout.now site.now.h.now }
    requires site { IsTableSite site.now.h.now (L.rows site.now.layout.now) site.now.overriders.now site.now.slots.now }
    requires known { AreKnown site.now.h.now (places_of site.now.h.now (L.rows site.now.layout.now)) known.old.items }
    requires view { IsViewParts site.now.h.now (places_of site.now.h.now (L.rows site.now.layout.now)) x.now }
    requires number { number < length x.now.parts }
    ensures table { IfOk result (λ table. (t : Subobject) → slice_get (preorder site.now.h.now x.now.class) number ≡ Some t → IsTable site.now.h.now (places_of site.now.h.now (L.rows site.now.layout.now)) (view_of_parts x.now) t table) }
    ensures known { OnOk result (AreKnown site.now.h.now (places_of site.now.h.now (L.rows site.now.layout.now)) known.new.items) }
{
    site.h.keeps();
    let t = &x.parts.as_slice()[number];
    let seen = seen_of(site.alloc, site.h, x, t)?;
    let place = site.layout.place(site.h, x.complete, &seen);
    let offsets = site.slots.offsets(t.class, is_shared_base(&seen));
    let offset_words = offset_words(site, x, t, place, offsets)?;
    let entries = site.slots.entries(t.class);
    let entry_words = entry_words(site, known, x, number, entries)?;
    let top = distance(place, x.start);
    let words = words_of(
        site.alloc,
        offset_words.as_slice(),
        top,
        x.class,
        entry_words.as_slice(),
    )?;
    Ok(Table {
        class: t.class,
        place,
        before: offset_words.len() as u32 + 2,
        words,
    })
}

/// The tables of some parts, by their numbers.
///
/// Errors: want of memory.
fn tables_of<L: SoundLayout>(
    site: &TableSite<L>,
    x: &ViewParts,
    numbers: &[usize],
) -> Result<TableList, NoMemory>
    requires layout { L.lays_out site.now.layout.now site.now.h.now }
    requires site { IsTableSite site.now.h.now (L.rows site.now.layout.now) site.now.overriders.now site.now.slots.now }
    requires view { IsViewParts site.now.h.now (places_of site.now.h.now (L.rows site.now.layout.now)) x.now }
    requires heads { subobjects_numbered (preorder site.now.h.now x.now.class) numbers.now ≡ map Some (heads site.now.h.now (places_of site.now.h.now (L.rows site.now.layout.now)) (view_of_parts x.now)) }
    ensures { IfOk result (GoAlong (IsTable site.now.h.now (places_of site.now.h.now (L.rows site.now.layout.now)) (view_of_parts x.now)) (heads site.now.h.now (places_of site.now.h.now (L.rows site.now.layout.now)) (view_of_parts x.now))) }
{
    let mut tables = Sequence::new(site.alloc);
    let mut known = Vec::new(site.alloc);
    for number in numbers {
        let one = table(site, &mut known, x, *number)?;
        tables.push(one)?;
    }
    Ok(tables)
}

/// The group of a view whose parts are there: the tables of its heads, in their order.
///
/// Errors: want of memory.
pub fn group_of_view<L: SoundLayout>(
    alloc: Global,
    h: &Hierarchy,
    o: &Overriders,
    layout: &L,
    slots: &Slots,
    x: &ViewParts,
) -> Result<Group, NoMemory>
    requires layout { L.lays_out layout.now h.now }
    requires overriders { AreOverriders h.now o.now }
    requires slots { AreSlots h.now (places_of h.now (L.rows layout.now)) slots.now }
    requires view { IsViewParts h.now (places_of h.now (L.rows layout.now)) x.now }
    ensures complete { IfOk result (λ group. group.name.complete ≡ x.now.complete) }
    ensures view { IfOk result (λ group. group.name.view ≡ x.now.at) }
    ensures group { IfOk result (IsGroup h.now (places_of h.now (L.rows layout.now))) }
{
    h.keeps();
    let numbers = heads_of(alloc, x)?;
    let site = TableSite {
        alloc,
        h,
        overriders: o,
        layout,
        slots,
    };
    let tables = tables_of(&site, x, numbers.as_slice())?;
    Ok(Group {
        name: GroupName {
            complete: x.complete,
            view: subobject_below(alloc, &x.at, &[])?,
        },
        tables,
    })
}

/// The group of a view: the tables of its heads, in their order. The view may be the whole object or any dynamic subobject of it.
///
/// Errors: want of memory.
pub fn group<L: SoundLayout>(
    alloc: Global,
    h: &Hierarchy,
    o: &Overriders,
    layout: &L,
    slots: &Slots,
    name: &GroupName,
) -> Result<Group, NoMemory>
    requires layout { L.lays_out layout.now h.now }
    requires overriders { AreOverriders h.now o.now }
    requires slots { AreSlots h.now (places_of h.now (L.rows layout.now)) slots.now }
    requires complete { name.now.complete.0 < length h.now }
    requires view { IsSubobject h.now name.now.complete name.now.view }
    requires dynamic { (d : ClassId) → class_of name.now.view ≡ Some d → IsDynamic h.now d }
    ensures name { IfOk result (λ group. group.name ≡ name.now) }
    ensures group { IfOk result (IsGroup h.now (places_of h.now (L.rows layout.now))) }
{
    let x = view_parts(alloc, h, layout, name)?;
    let made = group_of_view(alloc, h, o, layout, slots, &x)?;
    Ok(made)
}
