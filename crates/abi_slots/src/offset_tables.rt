//! Offsets with the numbers of their words.

ghost use Rattle.std.specs.Prelude.{◌≡◌, ◌<◌, ◌≤◌, ◌++◌, ◌∷◌, [], ℕ, true, false, Some, IfOk, OnOk, IfSome, All, length, slice_index_or, pos};
ghost use Rattle.cxx_overrider.specs.invariants.Numbers.{IsNumbering};
ghost use Rattle.abi_slots.specs.declared.words.Offset.{Offset};
ghost use Rattle.abi_slots.specs.Limits.{most_offsets};
ghost use Rattle.abi_slots.specs.Slots.{word_number};
ghost use Rattle.abi_slots.specs.invariants.OffsetWords.{virtual_base_number, name_number, first_word, with_offset_word, AreWords};

use crate::words::Offset;
use cxx_overrider::signatures::{Numbering, number_of};
use cxx_subobject::listing::longer_path;
use foundation::NoMemory;
use std::alloc::Global;

/// Offsets, and for each number of what they lead to the number of the first word that leads there; 0 where none does.
#[derive(Drop)]
pub struct OffsetTable {
    pub offsets: Vec<Offset>,
    pub words: Vec<i32>,
}

/// The number of the word of an offset, from the address point.
fn word_number(place: usize) -> i32
    requires { place < most_offsets }
    ensures { result ≡ word_number place }
{
    -3 - (place as i32)
}

/// The number of the first word that leads somewhere: the one that stands, or that of the offset at a place.
fn first_word(word: i32, place: usize) -> i32
    requires { place < most_offsets }
    ensures { result ≡ first_word word place }
{
    if word == 0 { word_number(place) } else { word }
}

/// Whether a word leads to what has a number.
pub fn has_word(table: &OffsetTable, number: usize) -> bool
    requires { number < length table.now.words.items }
    ensures some { result ≡ true → slice_index_or table.now.words.items number (pos 0) ≡ pos 0 → ⊥ }
    ensures none { result ≡ false → slice_index_or table.now.words.items number (pos 0) ≡ pos 0 }
{
    table.words[number] != 0
}

/// Puts an offset behind the others, and the number of its word under the number of what it leads to, where none stands.
pub fn push_offset(
    table: &mut OffsetTable,
    offset: Offset,
    number: Option<usize>,
) -> Result<(), NoMemory>
    requires few { length table.old.offsets.items < most_offsets }
    requires within { IfSome number (λ n. n < length table.old.words.items) }
    ensures offsets { OnOk result (table.new.offsets.items ≡ table.old.offsets.items ++ offset ∷ []) }
    ensures words { OnOk result (table.new.words.items ≡ with_offset_word (length table.old.offsets.items) number table.old.words.items) }
{
    let place = table.offsets.len();
    table.offsets.push(offset)?;
    match number {
        Some(n) => table.words[n] = first_word(table.words[n], place),
        None => {}
    }
    Ok(())
}

/// The number of the virtual base to which an offset leads.
fn base_number(offset: &Offset) -> Option<usize>
    ensures { result ≡ virtual_base_number offset.now }
{
    match offset {
        Offset::ToBase(v) => Some(v.0 as usize),
        Offset::ToOverrider(_, _) => None,
    }
}

/// The number of the signature for which an offset is listed.
fn name_number(numbering: &Numbering, offset: &Offset) -> Option<usize>
    ensures { result ≡ name_number numbering.now.rows.items offset.now }
{
    match offset {
        Offset::ToBase(_) => None,
        Offset::ToOverrider(_, f) => number_of(&numbering.rows, *f),
    }
}

fn copied(alloc: Global, offset: &Offset) -> Result<Offset, NoMemory>
    ensures { IfOk result (λ copy. copy ≡ offset.now) }
{
    match offset {
        Offset::ToBase(v) => Ok(Offset::ToBase(*v)),
        Offset::ToOverrider(path, f) => {
            Ok(Offset::ToOverrider(longer_path(alloc, path.as_slice(), &[])?, *f))
        }
    }
}

/// Copies of offsets, with the numbers of their words by virtual bases, of which the numbers are below a count.
///
/// Errors: want of memory.
pub fn base_table(alloc: Global, old: &[Offset], count: usize) -> Result<OffsetTable, NoMemory>
    requires few { length old.now ≤ most_offsets }
    requires within { All (λ (x : Offset). IfSome (virtual_base_number x) (λ n. n < count)) old.now }
    ensures offsets { IfOk result (λ table. table.offsets.items ≡ old.now) }
    ensures size { IfOk result (λ table. length table.words.items ≡ count) }
    ensures words { IfOk result (λ table. AreWords virtual_base_number table.offsets.items table.words.items) }
{
    let mut table = OffsetTable {
        offsets: Vec::new(alloc),
        words: vec![in alloc; 0; count]?,
    };
    for offset in old {
        let copy = copied(alloc, offset)?;
        push_offset(&mut table, copy, base_number(offset))?;
    }
    Ok(table)
}

/// Copies of offsets, with the numbers of their words by signatures.
///
/// Errors: want of memory.
pub fn name_table(
    alloc: Global,
    numbering: &Numbering,
    old: &[Offset],
) -> Result<OffsetTable, NoMemory>
    requires few { length old.now ≤ most_offsets }
    requires within { All (λ (x : Offset). IfSome (name_number numbering.now.rows.items x) (λ n. n < numbering.now.count)) old.now }
    ensures offsets { IfOk result (λ table. table.offsets.items ≡ old.now) }
    ensures size { IfOk result (λ table. length table.words.items ≡ numbering.now.count) }
    ensures words { IfOk result (λ table. AreWords (name_number numbering.now.rows.items) table.offsets.items table.words.items) }
{
    let mut table = OffsetTable {
        offsets: Vec::new(alloc),
        words: vec![in alloc; 0; numbering.count]?,
    };
    for offset in old {
        let copy = copied(alloc, offset)?;
        push_offset(&mut table, copy, name_number(numbering, offset))?;
    }
    Ok(table)
}
