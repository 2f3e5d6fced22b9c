//! The words of tables.

ghost use Rattle.std.specs.Prelude.{◌≡◌, ◌<◌, ◌≤◌, ◌+◌, ◌*◌, ◌^◌, ℕ, Some, IfOk, OnOk, length, map};
ghost use Rattle.abi_slots.specs.Images.{Image, HasWord, StandsAt, all_words};
ghost use Rattle.abi_image.specs.Conditions.{IsKnownWord, AreKnownWords, AreKnownTables, AreKnownGroups};
ghost use Rattle.abi_image.specs.invariants.Drafts.{AddsRecord, AllAt, AllBySize, HasRecordRoom, Puts, WordsStandAt, class_address, group_size, sum_of_sizes};

use crate::draft::Draft;
use crate::entries::entry_word;
use crate::numbers::word_of;
use abi_slots::{CodeNumbers, Group, Table, TableWord};
use foundation::NoMemory;

/// The word of a word of a table. The record of an entry is put behind the others.
fn table_word(
    records: &mut Vec<u64>,
    records_at: u64,
    codes: &CodeNumbers,
    infos: &[u64],
    word: &TableWord,
) -> Result<u64, NoMemory>
    requires known { IsKnownWord codes.now (length infos.now) word.now }
    requires place { 0 < records_at }
    requires room { records_at + 8 * (length records.old.items + 6) < 2 ^ 64 }
    ensures grows { OnOk result (AddsRecord records.old.items records.new.items) }
    ensures stands { IfOk result (λ number. (image : Image) (at : ℕ) → WordsStandAt image records_at records.new.items → image at ≡ Some number → HasWord image codes.now (class_address infos.now) at word.now) }
{
    match word {
        TableWord::Vcall(distance, _) => Ok(word_of(*distance)),
        TableWord::Vbase(distance, _) => Ok(word_of(*distance)),
        TableWord::Top(distance) => Ok(word_of(*distance)),
        TableWord::Info(c) => Ok(infos[c.0 as usize]),
        TableWord::Entry(entry) => entry_word(records, records_at, codes, entry),
    }
}

/// Puts a word of a table behind others.
fn push_word(
    draft: &mut Draft,
    codes: &CodeNumbers,
    infos: &[u64],
    word: &TableWord,
) -> Result<(), NoMemory>
    requires known { IsKnownWord codes.now (length infos.now) word.now }
    requires place { 0 < draft.old.records_at }
    requires room { HasRecordRoom draft.old 1 }
    ensures { OnOk result (Puts draft.old draft.new 1 (λ image at. HasWord image codes.now (class_address infos.now) at word.now)) }
{
    let number = table_word(&mut draft.records, draft.records_at, codes, infos, word)?;
    draft.words.push(number)?;
    Ok(())
}

/// Puts the words of a table behind others.
fn push_words(
    draft: &mut Draft,
    codes: &CodeNumbers,
    infos: &[u64],
    words: &[TableWord],
) -> Result<(), NoMemory>
    requires known { AreKnownWords codes.now (length infos.now) words.now }
    requires place { 0 < draft.old.records_at }
    requires room { HasRecordRoom draft.old (length words.now) }
    ensures { OnOk result (Puts draft.old draft.new (length words.now) (λ image at. AllAt (HasWord image codes.now (class_address infos.now)) words.now at)) }
{
    for word in words {
        push_word(draft, codes, infos, word)?;
    }
    Ok(())
}

/// Puts the words of tables behind others, one table after the other.
fn push_tables(
    draft: &mut Draft,
    codes: &CodeNumbers,
    infos: &[u64],
    tables: &[Table],
) -> Result<(), NoMemory>
    requires known { AreKnownTables codes.now (length infos.now) tables.now }
    requires place { 0 < draft.old.records_at }
    requires room { HasRecordRoom draft.old (length (all_words tables.now)) }
    ensures { OnOk result (Puts draft.old draft.new (length (all_words tables.now)) (λ image at. AllAt (HasWord image codes.now (class_address infos.now)) (all_words tables.now) at)) }
{
    for table in tables {
        push_words(draft, codes, infos, table.words.as_slice())?;
    }
    Ok(())
}

/// Puts the words of groups behind others, one group after the other.
///
/// Errors: want of memory.
pub fn push_groups(
    draft: &mut Draft,
    codes: &CodeNumbers,
    infos: &[u64],
    groups: &[Group],
) -> Result<(), NoMemory>
    requires known { AreKnownGroups codes.now (length infos.now) groups.now }
    requires place { 0 < draft.old.records_at }
    requires room { HasRecordRoom draft.old (sum_of_sizes (map group_size groups.now)) }
    ensures { OnOk result (Puts draft.old draft.new (sum_of_sizes (map group_size groups.now)) (λ image at. AllBySize group_size (λ i group there. StandsAt image codes.now (class_address infos.now) group there) groups.now at)) }
{
    for group in groups {
        push_tables(draft, codes, infos, group.tables.as_slice())?;
    }
    Ok(())
}
