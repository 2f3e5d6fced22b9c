//! The row of a class, by the rows of the classes before it.

ghost use Rattle.std.specs.Prelude.{◌≡◌, ◌<◌, ◌≤◌, ◌↔◌, ℕ, true, false, IfOk, IsTrue, List, length};
ghost use Rattle.cxx_hierarchy.specs.Classes.{Classes};
ghost use Rattle.cxx_overrider.specs.Overriders.{AreOverriders};
ghost use Rattle.abi_sound.specs.Places.{Places};
ghost use Rattle.cxx_overrider.specs.Virtuals.{own};
ghost use Rattle.abi_slots.specs.Limits.{most_offsets};
ghost use Rattle.abi_slots.specs.Listing.{entries, offsets, primary_entries, primary_offsets};
ghost use Rattle.abi_slots.specs.Rows.{listings_of, AreOwn};
ghost use Rattle.abi_slots.specs.Slots.{IsVirtualBase, IsSlotRow};
ghost use Rattle.abi_slots.specs.invariants.OffsetWords.{virtual_base_number, name_number, AreWords};
ghost use Rattle.abi_slots.specs.invariants.RowSites.{row_numbers, row_places, IsRowSite};
ghost use Rattle.abi_slots.specs.invariants.SlotRows.{AreSlotRows, IsPrimaryBefore, IsShared, ListsShared};

use crate::entries::{Entries, entries_of};
use crate::entry_tables::{declared_of, numbers_of};
use crate::functions::own_functions;
use crate::keys::keys_of;
use crate::offset_tables::{OffsetTable, base_table, name_table};
use crate::offsets::push_bases;
use crate::row_sites::RowSite;
use crate::rows::SlotRow;
use crate::vcalls::{FunctionList, push_calls};
use crate::words::{EntryKey, Offset};
use abi_primary::Primary;
use abi_sound::SoundLayout;
use cxx_hierarchy::{ClassId, Hierarchy};
use cxx_overrider::{FunctionId, Overriders};
use foundation::{NoMemory, Sequence};
use std::alloc::Global;

/// The entries of a primary base.
fn old_entries(rows: &[SlotRow], primary: Primary) -> &[EntryKey]
    requires { IsPrimaryBefore (length rows.now) primary }
    ensures { (h : Classes) (l : Places) (numbers : List (List ℕ)) → AreSlotRows h l numbers rows.now → result.now ≡ primary_entries (entries h l) primary }
{
    match primary {
        Primary::None => &[],
        Primary::Direct(b) => rows[b.0 as usize].entries.as_slice(),
        Primary::Virtual(v) => rows[v.0 as usize].entries.as_slice(),
    }
}

/// The offsets of a primary base.
fn old_offsets(rows: &[SlotRow], primary: Primary) -> &[Offset]
    requires { IsPrimaryBefore (length rows.now) primary }
    ensures few { length result.now ≤ most_offsets }
    ensures offsets { (h : Classes) (l : Places) (numbers : List (List ℕ)) → AreSlotRows h l numbers rows.now → IsShared h primary → result.now ≡ primary_offsets (offsets h l) primary }
{
    match primary {
        Primary::None => &[],
        Primary::Direct(b) => rows[b.0 as usize].offsets.as_slice(),
        Primary::Virtual(v) => rows[v.0 as usize].shared_offsets.as_slice(),
    }
}

/// The entries of a class, and the entry of each key of its own.
///
/// Errors: want of memory.
fn class_entries<L: SoundLayout>(
    site: &RowSite<L>,
    rows: &[SlotRow],
    mine: &[FunctionId],
    c: ClassId,
) -> Result<Entries, NoMemory>
    requires site { IsRowSite L.lays_out site.now }
    requires known { c.0 < length site.now.h.now }
    requires size { length rows.now ≡ c.0 }
    requires rows { AreSlotRows site.now.h.now (row_places L.rows site.now) (row_numbers site.now) rows.now }
    requires own { mine.now ≡ own site.now.h.now c }
    ensures entries { IfOk result (λ all. all.entries.items ≡ entries site.now.h.now (row_places L.rows site.now) c) }
    ensures listings { IfOk result (λ all. all.listings.items ≡ listings_of site.now.h.now (row_places L.rows site.now) c) }
{
    site.h.keeps();
    let keys = keys_of(site.alloc, site.h, mine)?;
    let row = site.layout.layout(c);
    let old = old_entries(rows, row.primary);
    entries_of(
        site.alloc,
        site.h,
        site.layout,
        site.numbering,
        old,
        keys.as_slice(),
    )
}

/// The offsets of a class, with the numbers of the words to its virtual bases.
///
/// Errors: want of memory.
fn class_offsets<L: SoundLayout>(
    site: &RowSite<L>,
    rows: &[SlotRow],
    c: ClassId,
) -> Result<OffsetTable, NoMemory>
    requires site { IsRowSite L.lays_out site.now }
    requires known { c.0 < length site.now.h.now }
    requires size { length rows.now ≡ c.0 }
    requires rows { AreSlotRows site.now.h.now (row_places L.rows site.now) (row_numbers site.now) rows.now }
    ensures offsets { IfOk result (λ table. table.offsets.items ≡ offsets site.now.h.now (row_places L.rows site.now) false c) }
    ensures size { IfOk result (λ table. length table.words.items ≡ c.0) }
    ensures words { IfOk result (λ table. AreWords virtual_base_number table.offsets.items table.words.items) }
{
    site.h.keeps();
    let row = site.layout.layout(c);
    let old = old_offsets(rows, row.primary);
    let mut table = base_table(site.alloc, old, c.0 as usize)?;
    push_bases(&mut table, site.h, row.virtual_bases.as_slice())?;
    Ok(table)
}

/// The offsets that a class lists as a virtual base, with the numbers of its vcall words, by those that it lists otherwise.
///
/// Errors: want of memory.
fn shared_offsets<L: SoundLayout>(
    site: &RowSite<L>,
    plain: &[Offset],
    c: ClassId,
) -> Result<OffsetTable, NoMemory>
    requires site { IsRowSite L.lays_out site.now }
    requires known { c.0 < length site.now.h.now }
    requires plain { plain.now ≡ offsets site.now.h.now (row_places L.rows site.now) false c }
    ensures offsets { IfOk result (λ table. table.offsets.items ≡ offsets site.now.h.now (row_places L.rows site.now) true c) }
    ensures size { IfOk result (λ table. length table.words.items ≡ site.now.numbering.now.count) }
    ensures words { IfOk result (λ table. AreWords (name_number (row_numbers site.now)) table.offsets.items table.words.items) }
{
    site.h.keeps();
    let mut table = name_table(site.alloc, site.numbering, plain)?;
    push_calls(
        site.alloc,
        site.h,
        site.layout,
        site.numbering,
        site.own,
        &[c],
        c,
        &mut table,
    )?;
    Ok(table)
}

/// Whether a class is a virtual base of some class.
fn is_virtual_base(h: &Hierarchy, v: ClassId) -> bool
    ensures { IsTrue result ↔ IsVirtualBase h.now v }
{
    for number in 0..h.len() {
        if h.has_virtual_base(ClassId(number), v) {
            return true;
        }
    }
    false
}

/// The offsets that a class lists as a virtual base, where it is one, by those that it lists otherwise.
///
/// Errors: want of memory.
fn calls_of<L: SoundLayout>(
    site: &RowSite<L>,
    plain: &[Offset],
    c: ClassId,
) -> Result<OffsetTable, NoMemory>
    requires site { IsRowSite L.lays_out site.now }
    requires known { c.0 < length site.now.h.now }
    requires plain { plain.now ≡ offsets site.now.h.now (row_places L.rows site.now) false c }
    ensures { IfOk result (λ table. ListsShared site.now.h.now (row_places L.rows site.now) (row_numbers site.now) site.now.numbering.now.count c table.offsets.items table.words.items) }
{
    site.h.keeps();
    if !is_virtual_base(site.h, c) {
        return Ok(OffsetTable {
            offsets: Vec::new(site.alloc),
            words: Vec::new(site.alloc),
        });
    }
    shared_offsets(site, plain, c)
}

/// What is kept of a class, by the rows of the classes before it.
///
/// Errors: want of memory.
fn slot_row<L: SoundLayout>(
    site: &RowSite<L>,
    rows: &[SlotRow],
    c: ClassId,
) -> Result<SlotRow, NoMemory>
    requires site { IsRowSite L.lays_out site.now }
    requires known { c.0 < length site.now.h.now }
    requires size { length rows.now ≡ c.0 }
    requires rows { AreSlotRows site.now.h.now (row_places L.rows site.now) (row_numbers site.now) rows.now }
    ensures { IfOk result (IsSlotRow site.now.h.now (row_places L.rows site.now) (row_numbers site.now) c) }
{
    site.h.keeps();
    let mine = &site.own[c.0 as usize];
    let all = class_entries(site, rows, mine.as_slice(), c)?;
    let declared = declared_of(site.alloc, all.listings.as_slice(), all.entries.as_slice())?;
    let count = site.h.class(c).functions.len() + 1;
    let numbers = numbers_of(
        site.alloc,
        all.listings.as_slice(),
        all.entries.as_slice(),
        count,
    )?;
    let bases = class_offsets(site, rows, c)?;
    let calls = calls_of(site, bases.offsets.as_slice(), c)?;
    Ok(SlotRow {
        entries: Sequence::from_vec(all.entries),
        declared,
        numbers,
        offsets: Sequence::from_vec(bases.offsets),
        vbases: Sequence::from_vec(bases.words),
        shared_offsets: Sequence::from_vec(calls.offsets),
        vcalls: Sequence::from_vec(calls.words),
    })
}

/// The virtual functions that each class declares.
///
/// Errors: want of memory.
pub fn own_of_each(
    alloc: Global,
    h: &Hierarchy,
    overriders: &Overriders,
) -> Result<Vec<FunctionList>, NoMemory>
    requires { AreOverriders h.now overriders.now }
    ensures { IfOk result (λ lists. AreOwn h.now lists.items) }
{
    let mut lists = Vec::new(alloc);
    for number in 0..h.len() {
        let list = own_functions(alloc, h, overriders, ClassId(number))?;
        lists.push(Sequence::from_vec(list))?;
    }
    Ok(lists)
}

/// What is kept of each class.
///
/// Errors: want of memory.
pub(crate) fn rows_of_each<L: SoundLayout>(site: &RowSite<L>) -> Result<Vec<SlotRow>, NoMemory>
    requires site { IsRowSite L.lays_out site.now }
    ensures size { IfOk result (λ rows. length rows.items ≡ length site.now.h.now) }
    ensures rows { IfOk result (λ rows. AreSlotRows site.now.h.now (row_places L.rows site.now) (row_numbers site.now) rows.items) }
{
    let mut rows = Vec::new(site.alloc);
    for number in 0..site.h.len() {
        let row = slot_row(site, &rows, ClassId(number))?;
        rows.push(row)?;
    }
    Ok(rows)
}
