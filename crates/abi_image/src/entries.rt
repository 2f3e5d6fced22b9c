//! Entries, and the records of the code that they run.

ghost use Rattle.std.specs.Prelude.{◌≡◌, ◌<◌, ◌+◌, ◌*◌, ◌^◌, ◌++◌, ℕ, Some, IfOk, OnOk, length};
ghost use Rattle.abi_slots.specs.declared.words.EntryWord.TheVariants.{Code};
ghost use Rattle.abi_slots.specs.CodeRows.{block_kind, code_of};
ghost use Rattle.abi_slots.specs.Images.{Image, HasEntry};
ghost use Rattle.abi_image.specs.Conditions.{HasCode};
ghost use Rattle.abi_image.specs.invariants.Drafts.{AddsRecord, WordsStandAt, thunk_words, record_words};

use crate::numbers::{return_constant, return_vbase, this_constant, this_vcall, word_of};
use crate::regions::behind;
use abi_slots::{BlockKind, CodeKind, CodeNumbers, EntryWord, ReturnAdjust, ThisAdjust};
use cxx_overrider::FunctionId;
use foundation::NoMemory;

/// The form of a function that an entry runs.
fn block_kind(kind: CodeKind) -> BlockKind
    ensures { result ≡ block_kind kind }
{
    match kind {
        CodeKind::Plain => BlockKind::Plain,
        CodeKind::Complete => BlockKind::EndComplete,
        CodeKind::Deleting => BlockKind::EndDeleting,
    }
}

/// Puts the words of a thunk behind others.
fn push_thunk(
    words: &mut Vec<u64>,
    this: Option<ThisAdjust>,
    adjusted: Option<ReturnAdjust>,
) -> Result<(), NoMemory>
    ensures { OnOk result (words.new.items ≡ words.old.items ++ thunk_words this adjusted) }
{
    words.push(word_of(this_constant(this)))?;
    words.push(word_of(this_vcall(this)))?;
    words.push(word_of(return_vbase(adjusted)))?;
    words.push(word_of(return_constant(adjusted)))?;
    Ok(())
}

/// Puts the record of an entry, which is to stand at an address, behind others: the number of its code and the address of its
/// thunk, which stands behind it; 0 where nothing is adjusted.
fn push_record(
    words: &mut Vec<u64>,
    at: u64,
    code: u32,
    this: Option<ThisAdjust>,
    adjusted: Option<ReturnAdjust>,
) -> Result<(), NoMemory>
    requires { at + 16 < 2 ^ 64 }
    ensures { OnOk result (words.new.items ≡ words.old.items ++ record_words at code this adjusted) }
{
    words.push(code as u64)?;
    if this.is_none() && adjusted.is_none() {
        words.push(0)?;
        return Ok(());
    }
    words.push(behind(at, 2))?;
    push_thunk(words, this, adjusted)?;
    Ok(())
}

/// The address of the record of an entry that runs code, which is put behind the others.
fn code_word(
    records: &mut Vec<u64>,
    records_at: u64,
    codes: &CodeNumbers,
    f: FunctionId,
    kind: CodeKind,
    this: Option<ThisAdjust>,
    adjusted: Option<ReturnAdjust>,
) -> Result<u64, NoMemory>
    requires code { (code : ℕ) × (code_of codes.now f (block_kind kind) ≡ Some code) }
    requires place { 0 < records_at }
    requires room { records_at + 8 * (length records.old.items + 6) < 2 ^ 64 }
    ensures grows { OnOk result (AddsRecord records.old.items records.new.items) }
    ensures stands { IfOk result (λ word. (image : Image) (at : ℕ) → WordsStandAt image records_at records.new.items → image at ≡ Some word → HasEntry image codes.now at (Code f kind this adjusted)) }
{
    match codes.code(f, block_kind(kind)) {
        Some(code) => {
            let at = behind(records_at, records.len());
            push_record(records, at, code, this, adjusted)?;
            Ok(at)
        }
        None => unreachable!(),
    }
}

/// The word of an entry. The record of the code that it runs is put behind the others.
///
/// Errors: want of memory.
pub fn entry_word(
    records: &mut Vec<u64>,
    records_at: u64,
    codes: &CodeNumbers,
    entry: &EntryWord,
) -> Result<u64, NoMemory>
    requires code { HasCode codes.now entry.now }
    requires place { 0 < records_at }
    requires room { records_at + 8 * (length records.old.items + 6) < 2 ^ 64 }
    ensures grows { OnOk result (AddsRecord records.old.items records.new.items) }
    ensures stands { IfOk result (λ word. (image : Image) (at : ℕ) → WordsStandAt image records_at records.new.items → image at ≡ Some word → HasEntry image codes.now at entry.now) }
{
    match *entry {
        EntryWord::Unused => Ok(0),
        EntryWord::Pure(_) => Ok(0),
        EntryWord::Code(f, kind, this, adjusted) => {
            code_word(records, records_at, codes, f, kind, this, adjusted)
        }
    }
}
