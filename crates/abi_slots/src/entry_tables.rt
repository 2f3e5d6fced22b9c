//! The functions and the numbers of the entries of a class.

ghost use Rattle.std.specs.Prelude.{◌≡◌, ◌<◌, ◌≤◌, IfOk, IfSome, All, length, map, position};
ghost use Rattle.abi_slots.specs.declared.entries.Listing.{Listing};
ghost use Rattle.abi_slots.specs.Limits.{most_entries};
ghost use Rattle.abi_slots.specs.Listing.{same_entry_key, first_position};
ghost use Rattle.abi_slots.specs.Rows.{listed_function, with_entry, AreEntryNumbers, HaveOneEntry};

use crate::entries::Listing;
use crate::keys::is_same_key;
use crate::rows::{DeclaredList, EntryNumbers};
use crate::words::{CodeKind, EntryKey};
use cxx_overrider::FunctionId;
use foundation::{NoMemory, Sequence};
use std::alloc::Global;

/// The function of a class's own that has an entry.
fn declared_in(listings: &[Listing], entry: EntryKey) -> Option<FunctionId>
    ensures { result ≡ listed_function listings.now entry }
{
    for listing in listings {
        if is_same_key(listing.entry, entry) {
            return Some(listing.key.function);
        }
    }
    None
}

/// For each entry the function of the class's own that has it.
///
/// Errors: want of memory.
pub fn declared_of(
    alloc: Global,
    listings: &[Listing],
    entries: &[EntryKey],
) -> Result<DeclaredList, NoMemory>
    ensures { IfOk result (λ list. list ≡ map (listed_function listings.now) entries.now) }
{
    let mut list = Sequence::new(alloc);
    for entry in entries {
        list.push(declared_in(listings, *entry))?;
    }
    Ok(list)
}

/// The place of an entry among others.
fn position_of(entries: &[EntryKey], entry: EntryKey) -> Option<usize>
    ensures place { result ≡ position (same_entry_key entry) entries.now }
    ensures within { IfSome result (λ place. place < length entries.now) }
{
    entries.iter().position(|other| is_same_key(entry, *other))
}

/// The place of an entry among others, and how many there are where it is none of these.
fn place_in(entries: &[EntryKey], entry: EntryKey) -> usize
    ensures place { result ≡ first_position (same_entry_key entry) entries.now }
    ensures within { result ≤ length entries.now }
{
    match position_of(entries, entry) {
        Some(place) => place,
        None => entries.len(),
    }
}

/// Keeps the number of a key's entry under the index of its function; the second key of a destructor has none.
fn keep_number(numbers: &mut Vec<u32>, listing: &Listing, entries: &[EntryKey])
    requires few { length entries.now ≤ most_entries }
    requires within { listing.now.key.function.index < length numbers.old.items }
    ensures { numbers.new.items ≡ with_entry entries.now numbers.old.items listing.now }
{
    match listing.key.kind {
        CodeKind::Plain | CodeKind::Complete => {
            numbers[listing.key.function.index as usize] = place_in(entries, listing.entry) as u32;
        }
        CodeKind::Deleting => {}
    }
}

/// For each index of a function of a class, of which there are so many, the number of its entry.
///
/// Errors: want of memory.
pub fn numbers_of(
    alloc: Global,
    listings: &[Listing],
    entries: &[EntryKey],
    count: usize,
) -> Result<EntryNumbers, NoMemory>
    requires few { length entries.now ≤ most_entries }
    requires within { All (λ (x : Listing). x.key.function.index < count) listings.now }
    requires one { HaveOneEntry listings.now }
    ensures { IfOk result (λ numbers. AreEntryNumbers entries.now listings.now numbers) }
{
    let mut numbers = vec![in alloc; 0; count]?;
    for listing in listings {
        keep_number(&mut numbers, listing, entries);
    }
    Ok(Sequence::from_vec(numbers))
}
