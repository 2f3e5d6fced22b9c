//! The pieces of what is told of a pointer to a member.

ghost use Rattle.std.specs.Prelude.{◌≡◌, ◌++◌, OnOk};
ghost use Rattle.std.specs.Fmt.{decimal};
ghost use Rattle.hex.specs.Hex.{encode_lower};
ghost use Rattle.abi_print.specs.TableTexts.{function_text};
ghost use Rattle.abi_memptr.specs.PointerBytes.{word_bytes};
ghost use Rattle.abi_memptr.specs.Answers.{data_text, first_text, function_line, run_line, run_word};

use abi_print::text::{append, append_function};
use cxx_hierarchy::Hierarchy;
use cxx_overrider::FunctionId;
use foundation::NoMemory;
use std::alloc::Global;

/// That a piece was put at the end of a text, or want of memory.
pub(crate) type Written = Result<(), NoMemory>;

/// Puts the decimal digits of a number at the end of a text.
pub(crate) fn append_number(alloc: Global, text: &mut Vec<u8>, number: u64) -> Written
    ensures { OnOk result (text.new.items ≡ text.old.items ++ decimal number) }
{
    let digits = number.to_string(alloc)?;
    append(text, digits.as_bytes())?;
    Ok(())
}

/// Puts the bytes of a word as hexadecimal digits at the end of a text, the lowest byte first.
fn append_bytes(alloc: Global, text: &mut Vec<u8>, word: u64) -> Written
    ensures { OnOk result (text.new.items ≡ text.old.items ++ encode_lower (word_bytes word)) }
{
    let digits = hex::encode(alloc, word.to_le_bytes())?;
    append(text, digits.as_bytes())?;
    Ok(())
}

/// Puts the place of a data member, and the bytes of the pointer, at the end of a text.
pub(crate) fn append_data(alloc: Global, text: &mut Vec<u8>, place: u64) -> Written
    ensures { OnOk result (text.new.items ≡ text.old.items ++ data_text place) }
{
    append(text, b"data ")?;
    append_number(alloc, text, place)?;
    append(text, b"\nbytes ")?;
    append_bytes(alloc, text, place)?;
    append(text, b"\n")?;
    Ok(())
}

/// Puts the first word of a pointer to a function at the end of a text.
fn append_first(
    alloc: Global,
    text: &mut Vec<u8>,
    h: &Hierarchy,
    f: FunctionId,
    entry: Option<u64>,
) -> Written
    ensures { OnOk result (text.new.items ≡ text.old.items ++ first_text h.now f entry) }
{
    match entry {
        Some(word) => {
            append(text, b"function virtual ")?;
            append_number(alloc, text, word)?;
        }
        None => {
            append(text, b"function code ")?;
            append_function(text, h, f)?;
        }
    }
    Ok(())
}

/// Puts the two words of a pointer to a function at the end of a text: the first as a number where one is given, as for a virtual
/// function, else by the function whose code it names.
pub(crate) fn append_function_line(
    alloc: Global,
    text: &mut Vec<u8>,
    h: &Hierarchy,
    f: FunctionId,
    entry: Option<u64>,
    adj: u32,
) -> Written
    ensures { OnOk result (text.new.items ≡ text.old.items ++ function_line h.now f entry adj) }
{
    append_first(alloc, text, h, f, entry)?;
    append(text, b" adj ")?;
    append_number(alloc, text, adj as u64)?;
    append(text, b"\n")?;
    Ok(())
}

fn run_word(is_pure: bool) -> &'static [u8]
    ensures { result.now ≡ run_word is_pure }
{
    if is_pure { b"pure " } else { b"calls " }
}

/// Puts the function that a call runs, and the place of its subobject, at the end of a text.
pub(crate) fn append_run(
    alloc: Global,
    text: &mut Vec<u8>,
    h: &Hierarchy,
    is_pure: bool,
    f: FunctionId,
    place: u32,
) -> Written
    ensures { OnOk result (text.new.items ≡ text.old.items ++ run_line h.now is_pure f place) }
{
    append(text, run_word(is_pure))?;
    append_function(text, h, f)?;
    append(text, b" at ")?;
    append_number(alloc, text, place as u64)?;
    append(text, b"\n")?;
    Ok(())
}
