//! The text of a table: its words behind their numbers (Itanium C++ ABI 2.5.2).

ghost use Rattle.std.specs.Prelude.{◌≡◌, ◌++◌, pos, ◌-ℤ◌, OnOk, codes};
ghost use Rattle.std.specs.Fmt.{signed_decimal};
ghost use Rattle.abi_print.specs.TableTexts.{vcall_text, this_text, vbase_text, return_text, kind_text, entry_text, word_text, words_text, table_name, table_text};

use crate::text::{append, append_class, append_function, append_number};
use crate::writer::{Writer, Written};
use abi_slots::{CodeKind, EntryWord, ReturnAdjust, Table, TableWord, ThisAdjust};
use cxx_hierarchy::Hierarchy;
use foundation::NoMemory;
use std::alloc::Global;

pub(crate) fn append_signed(alloc: Global, text: &mut Vec<u8>, number: i64) -> Result<(), NoMemory>
    ensures { OnOk result (text.new.items ≡ text.old.items ++ signed_decimal number) }
{
    let digits = number.to_string(alloc)?;
    append(text, digits.as_bytes())?;
    Ok(())
}

fn append_vcall(alloc: Global, text: &mut Vec<u8>, vcall: Option<i64>) -> Result<(), NoMemory>
    ensures { OnOk result (text.new.items ≡ text.old.items ++ vcall_text vcall) }
{
    match vcall {
        None => Ok(()),
        Some(bytes) => {
            append(text, b" vcall ")?;
            append_signed(alloc, text, bytes)?;
            Ok(())
        }
    }
}

/// Puts at the end of a text how `this` is adjusted.
fn append_this(alloc: Global, text: &mut Vec<u8>, this: Option<ThisAdjust>) -> Result<(), NoMemory>
    ensures { OnOk result (text.new.items ≡ text.old.items ++ this_text this) }
{
    match this {
        None => Ok(()),
        Some(adjust) => {
            append(text, b" this ")?;
            append_signed(alloc, text, adjust.constant)?;
            append_vcall(alloc, text, adjust.vcall)?;
            Ok(())
        }
    }
}

fn append_vbase(alloc: Global, text: &mut Vec<u8>, vbase: Option<i64>) -> Result<(), NoMemory>
    ensures { OnOk result (text.new.items ≡ text.old.items ++ vbase_text vbase) }
{
    match vbase {
        None => Ok(()),
        Some(bytes) => {
            append(text, b"vbase ")?;
            append_signed(alloc, text, bytes)?;
            append(text, b" ")?;
            Ok(())
        }
    }
}

/// Puts at the end of a text how a result is adjusted.
fn append_return(
    alloc: Global,
    text: &mut Vec<u8>,
    returns: Option<ReturnAdjust>,
) -> Result<(), NoMemory>
    ensures { OnOk result (text.new.items ≡ text.old.items ++ return_text returns) }
{
    match returns {
        None => Ok(()),
        Some(adjust) => {
            append(text, b" return ")?;
            append_vbase(alloc, text, adjust.vbase)?;
            append_signed(alloc, text, adjust.constant)?;
            Ok(())
        }
    }
}

fn kind_text(kind: CodeKind) -> &'static [u8]
    ensures { result.now ≡ kind_text kind }
{
    match kind {
        CodeKind::Plain => b"func ",
        CodeKind::Complete => b"complete ",
        CodeKind::Deleting => b"deleting ",
    }
}

/// Puts the word of an entry at the end of a text.
fn append_entry<L>(w: &Writer<L>, text: &mut Vec<u8>, word: &EntryWord) -> Written
    ensures { OnOk result (text.new.items ≡ text.old.items ++ entry_text w.now.h.now word.now) }
{
    match word {
        EntryWord::Unused => append(text, b"unused")?,
        EntryWord::Pure(f) => {
            append(text, b"pure ")?;
            append_function(text, w.h, *f)?;
        }
        EntryWord::Code(f, kind, this, returns) => {
            append(text, kind_text(*kind))?;
            append_function(text, w.h, *f)?;
            append_this(w.alloc, text, *this)?;
            append_return(w.alloc, text, *returns)?;
        }
    }
    Ok(())
}

/// Puts a word of a table at the end of a text.
fn append_word<L>(w: &Writer<L>, text: &mut Vec<u8>, word: &TableWord) -> Written
    ensures { OnOk result (text.new.items ≡ text.old.items ++ word_text w.now.h.now word.now) }
{
    match word {
        TableWord::Vcall(distance, f) => {
            append(text, b"vcall ")?;
            append_signed(w.alloc, text, *distance)?;
            append(text, b" ")?;
            append_function(text, w.h, *f)?;
        }
        TableWord::Vbase(distance, v) => {
            append(text, b"vbase ")?;
            append_signed(w.alloc, text, *distance)?;
            append(text, b" ")?;
            append_class(text, w.h, *v)?;
        }
        TableWord::Top(distance) => {
            append(text, b"top ")?;
            append_signed(w.alloc, text, *distance)?;
        }
        TableWord::Info(c) => {
            append(text, b"typeinfo ")?;
            append_class(text, w.h, *c)?;
        }
        TableWord::Entry(entry) => append_entry(w, text, entry)?,
    }
    Ok(())
}

/// Puts the line of a word of a table at the end of a text.
fn append_word_line<L>(w: &Writer<L>, text: &mut Vec<u8>, number: i64, word: &TableWord) -> Written
    ensures { OnOk result (text.new.items ≡ text.old.items ++ signed_decimal number ++ codes " " ++ word_text w.now.h.now word.now ++ codes "\n") }
{
    append_signed(w.alloc, text, number)?;
    append(text, b" ")?;
    append_word(w, text, word)?;
    append(text, b"\n")?;
    Ok(())
}

/// Puts the words of a table at the end of a text, each behind its number, which counts from the address point.
/// `before` is the number of words before that.
fn append_words<L>(w: &Writer<L>, text: &mut Vec<u8>, before: u32, words: &[TableWord]) -> Written
    ensures { OnOk result (text.new.items ≡ text.old.items ++ words_text w.now.h.now (pos 0 -ℤ pos before) words.now) }
{
    let mut number = 0 - i64::from(before);
    for word in words {
        append_word_line(w, text, number, word)?;
        number += 1;
    }
    Ok(())
}

/// Puts the name of a table at the end of a text: the class of its subobject, and that one's place.
pub(crate) fn append_table_name<L>(w: &Writer<L>, text: &mut Vec<u8>, table: &Table) -> Written
    ensures { OnOk result (text.new.items ≡ text.old.items ++ table_name w.now.h.now table.now) }
{
    append_class(text, w.h, table.class)?;
    append(text, b"@")?;
    append_number(w.alloc, text, table.place)?;
    Ok(())
}

/// Puts the lines of a table at the end of a text.
pub(crate) fn append_table<L>(w: &Writer<L>, text: &mut Vec<u8>, table: &Table) -> Written
    ensures { OnOk result (text.new.items ≡ text.old.items ++ table_text w.now.h.now table.now) }
{
    append(text, b"table ")?;
    append_table_name(w, text, table)?;
    append(text, b"\n")?;
    append_words(w, text, table.before, table.words.as_slice())?;
    Ok(())
}
