//! The entries that a class lists.

ghost use Rattle.std.specs.Prelude.{◌≡◌, ◌<◌, ◌++◌, ◌∷◌, [], if◌then◌else◌, Some, None, IfOk, OnOk, All, length, map};
ghost use Rattle.std.specs.Option.{is_none};
ghost use Rattle.std.specs.List.{find};
ghost use Rattle.cxx_overrider.specs.invariants.Numbers.{IsNumbering};
ghost use Rattle.abi_sound.specs.Places.{places_of};
ghost use Rattle.abi_slots.specs.declared.words.EntryKey.{EntryKey};
ghost use Rattle.abi_slots.specs.Listing.{shares, or_itself, new_entries};
ghost use Rattle.abi_slots.specs.Rows.{listing_of_key, listed_all, own_part};

use crate::keys::shared_entry;
use crate::words::EntryKey;
use abi_sound::SoundLayout;
use cxx_hierarchy::Hierarchy;
use cxx_overrider::signatures::Numbering;
use foundation::NoMemory;
use std::alloc::Global;

/// A key of a class's own, and the entry that it has in the tables of the class.
#[derive(Clone, Copy, Debug, PartialEq, Eq)]
pub struct Listing {
    pub key: EntryKey,
    pub entry: EntryKey,
}

/// The entries of a class, and the entry of each key of its own.
#[derive(Drop)]
pub struct Entries {
    pub entries: Vec<EntryKey>,
    pub listings: Vec<Listing>,
}

/// Puts the entry of a key behind the others: the one that it shares, or a new one.
fn push_entry(all: &mut Entries, key: EntryKey, shared: Option<EntryKey>) -> Result<(), NoMemory>
    ensures entries { OnOk result (all.new.entries.items ≡ all.old.entries.items ++ own_part key shared) }
    ensures listings { OnOk result (all.new.listings.items ≡ all.old.listings.items ++ listing_of_key key shared ∷ []) }
{
    match shared {
        Some(entry) => all.listings.push(Listing { key, entry })?,
        None => {
            all.entries.push(key)?;
            all.listings.push(Listing { key, entry: key })?;
        }
    }
    Ok(())
}

/// The entries of a class: the old ones, which are those of its primary base, and then the keys of its own that share none.
///
/// Errors: want of memory.
pub fn entries_of<L: SoundLayout>(
    alloc: Global,
    h: &Hierarchy,
    layout: &L,
    numbering: &Numbering,
    old: &[EntryKey],
    keys: &[EntryKey],
) -> Result<Entries, NoMemory>
    requires layout { L.lays_out layout.now h.now }
    requires numbering { IsNumbering h.now numbering.now.rows.items numbering.now.count }
    requires old { All (λ (k : EntryKey). k.function.class.0 < length h.now) old.now }
    requires keys { All (λ (k : EntryKey). k.function.class.0 < length h.now) keys.now }
    ensures entries { IfOk result (λ all. all.entries.items ≡ old.now ++ new_entries h.now (places_of h.now (L.rows layout.now)) old.now keys.now) }
    ensures listings { IfOk result (λ all. all.listings.items ≡ listed_all h.now (places_of h.now (L.rows layout.now)) old.now keys.now) }
{
    let mut all = Entries {
        entries: Vec::from_slice(alloc, old)?,
        listings: Vec::new(alloc),
    };
    for key in keys {
        let shared = shared_entry(alloc, h, layout, numbering, *key, old)?;
        push_entry(&mut all, *key, shared)?;
    }
    Ok(all)
}
