//! The numbers of the words of virtual tables.

ghost use Rattle.std.specs.Prelude.{◌≡◌, ◌<◌, ◌≤◌, true, IfOk, Contains, length, slice_get, slice_index_or, pos};
ghost use Rattle.std.specs.List.{list_any};
ghost use Rattle.std.specs.Option.{option_and_then};
ghost use Rattle.cxx_hierarchy.specs.Classes.{Classes};
ghost use Rattle.cxx_hierarchy.specs.VirtualBases.{HasVirtualBase};
ghost use Rattle.cxx_overrider.specs.Overriders.{AreOverriders};
ghost use Rattle.abi_sound.specs.Places.{Places, places_of};
ghost use Rattle.cxx_overrider.specs.Virtuals.{own};
ghost use Rattle.abi_slots.specs.Limits.{most_entries, most_offsets};
ghost use Rattle.abi_slots.specs.Listing.{is_offset_of_name, entries, offsets, entry_number, vbase_number, vcall_number};
ghost use Rattle.abi_slots.specs.Slots.{word_number, first_key, declared_at, IsVirtualBase, AreSlots};

use crate::class_rows::{own_of_each, rows_of_each};
use crate::row_sites::RowSite;
use crate::rows::SlotRow;
use crate::words::{EntryKey, Offset};
use abi_sound::SoundLayout;
use cxx_hierarchy::{ClassId, Hierarchy};
use cxx_overrider::signatures::{Numbering, number_of, number_signatures};
use cxx_overrider::{FunctionId, Overriders};
use foundation::NoMemory;
use std::alloc::Global;

/// What the classes of a hierarchy list for their virtual tables, and at which numbers.
#[derive(Drop)]
pub struct Slots {
    numbering: Numbering,
    rows: Vec<SlotRow>,
}

/// A number of a table, and 0 behind its end.
fn number_at(numbers: &[u32], index: usize) -> u32
    ensures { result ≡ slice_index_or numbers.now index 0 }
{
    match numbers.get(index) {
        Some(number) => *number,
        None => 0,
    }
}

/// A number of a table, and 0 behind its end.
fn word_at(numbers: &[i32], index: usize) -> i32
    ensures { result ≡ slice_index_or numbers.now index (pos 0) }
{
    match numbers.get(index) {
        Some(number) => *number,
        None => 0,
    }
}

/// The function of a class's own at an entry, and None behind the end.
fn declared_in(list: &[Option<FunctionId>], n: usize) -> Option<FunctionId>
    ensures { result ≡ slice_index_or list.now n None }
{
    match list.get(n) {
        Some(function) => *function,
        None => None,
    }
}

impl Slots {
    /// What the classes of a hierarchy list, over a layout.
    ///
    /// Errors: want of memory.
    pub fn new<L: SoundLayout>(
        alloc: Global,
        h: &Hierarchy,
        overriders: &Overriders,
        layout: &L,
    ) -> Result<Slots, NoMemory>
        requires layout { L.lays_out layout.now h.now }
        requires overriders { AreOverriders h.now overriders.now }
        ensures { IfOk result (AreSlots h.now (places_of h.now (L.rows layout.now))) }
    {
        h.keeps();
        let numbering = number_signatures(alloc, h)?;
        let own = own_of_each(alloc, h, overriders)?;
        let site = RowSite {
            alloc,
            h,
            layout,
            numbering: &numbering,
            own: &own,
        };
        let rows = rows_of_each(&site)?;
        Ok(Slots { numbering, rows })
    }

    /// The number of a virtual function's entry, from the address point upwards; of a destructor the complete one's. It
    /// takes no memory.
    pub fn entry(&self, f: FunctionId) -> u32
        ensures { (h : Classes) (l : Places) → AreSlots h l self.now → Contains (own h f.class) f → result ≡ entry_number h l (first_key h f) }
    {
        match self.rows.get(f.class.0 as usize) {
            Some(row) => number_at(row.numbers.as_slice(), f.index as usize),
            // never met for a function that its class declares as virtual: `AreSlots` has a row for each class
            None => 0,
        }
    }

    /// The number of the word that leads to a virtual base of a class, from the address point: -3 and below. It takes no
    /// memory.
    pub fn vbase(&self, c: ClassId, v: ClassId) -> i32
        ensures { (h : Classes) (l : Places) → AreSlots h l self.now → HasVirtualBase h c v → result ≡ word_number (vbase_number h l c v) }
    {
        match self.rows.get(c.0 as usize) {
            Some(row) => word_at(row.vbases.as_slice(), v.0 as usize),
            // never met for a class with the virtual base: `AreSlots` has a row for each class
            None => 0,
        }
    }

    /// The number of the word that leads from a virtual base to the final overrider of a function, from the address point: -3
    /// and below. It takes no memory.
    pub fn vcall(&self, v: ClassId, f: FunctionId) -> i32
        ensures { (h : Classes) (l : Places) → AreSlots h l self.now → IsVirtualBase h v → list_any (is_offset_of_name h f) (offsets h l true v) ≡ true → result ≡ word_number (vcall_number h l v f) }
    {
        match self.rows.get(v.0 as usize) {
            Some(row) => match number_of(&self.numbering.rows, f) {
                Some(number) => word_at(row.vcalls.as_slice(), number),
                // never met for a function of which the base has an offset: `AreSlots` numbers it
                None => 0,
            },
            // never met for a virtual base: `AreSlots` has a row for each class
            None => 0,
        }
    }

    /// The entries of a class, from the address point upwards.
    pub fn entries(&self, c: ClassId) -> &[EntryKey]
        ensures few { length result.now ≤ most_entries }
        ensures entries { (h : Classes) (l : Places) → AreSlots h l self.now → c.0 < length h → result.now ≡ entries h l c }
    {
        match self.rows.get(c.0 as usize) {
            Some(row) => row.entries.as_slice(),
            // never met for a class of the hierarchy: `AreSlots` has a row for each
            None => &[],
        }
    }

    /// The virtual function that a class declares at an entry of its, and None where it declares none there.
    pub fn declared(&self, c: ClassId, n: usize) -> Option<FunctionId>
        ensures { (h : Classes) (l : Places) → AreSlots h l self.now → c.0 < length h → result ≡ option_and_then (declared_at h l c) (slice_get (entries h l c) n) }
    {
        match self.rows.get(c.0 as usize) {
            Some(row) => declared_in(row.declared.as_slice(), n),
            None => None,
        }
    }

    /// The offsets of a class, from the address point downwards; those that it lists as a virtual base of a complete object,
    /// or the others.
    pub fn offsets(&self, c: ClassId, is_shared: bool) -> &[Offset]
        ensures few { length result.now ≤ most_offsets }
        ensures offsets { (h : Classes) (l : Places) → AreSlots h l self.now → c.0 < length h → (is_shared ≡ true → IsVirtualBase h c) → result.now ≡ offsets h l is_shared c }
    {
        match self.rows.get(c.0 as usize) {
            Some(row) => {
                if is_shared {
                    row.shared_offsets.as_slice()
                } else {
                    row.offsets.as_slice()
                }
            }
            // never met for a class of the hierarchy: `AreSlots` has a row for each
            None => &[],
        }
    }
}
