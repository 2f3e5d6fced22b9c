//! What is said of the values of a dump.

ghost use Rattle.std.specs.Prelude.{◌≡◌, ◌++◌, IfOk, OnOk};
ghost use Rattle.abi_sound.specs.Places.{places_of};
ghost use Rattle.abi_inspect.specs.SeenTexts.{IsFitting};
ghost use Rattle.abi_inspect.specs.Sayings.{said_leaf, said_leaves, said_value, seen_text};

use crate::seen::{Seen, SeenValue};
use crate::slots::{LeafLine, Row, rows_of};
use crate::values::append_place;
use abi_print::text::{append, append_class, append_number};
use abi_sound::SoundLayout;
use cxx_hierarchy::Hierarchy;
use foundation::NoMemory;
use std::alloc::Global;
use text_told::items::append_signed;

/// Puts what is said of a value at the end of a text.
fn append_said_value(alloc: Global, text: &mut Vec<u8>, value: SeenValue) -> Result<(), NoMemory>
    ensures { OnOk result (text.new.items ≡ text.old.items ++ said_value value) }
{
    match value {
        SeenValue::Unset => append(text, b"unset")?,
        SeenValue::Number(number) => append_signed(alloc, text, number)?,
        SeenValue::Null => append(text, b"null")?,
        SeenValue::Place(number, place) => append_place(alloc, text, number, place)?,
    }
    Ok(())
}

/// Puts a leaf and its value at the end of a text.
fn append_said_leaf(
    alloc: Global,
    text: &mut Vec<u8>,
    x: &LeafLine,
    value: SeenValue,
) -> Result<(), NoMemory>
    ensures { OnOk result (text.new.items ≡ text.old.items ++ said_leaf x.now value) }
{
    append(text, x.name.as_slice())?;
    append(text, b" ")?;
    append_said_value(alloc, text, value)?;
    append(text, b"\n")?;
    Ok(())
}

/// Puts the leaves among rows at the end of a text, which have these values in turn.
fn append_said_leaves(
    alloc: Global,
    text: &mut Vec<u8>,
    rows: &[Row],
    values: &[SeenValue],
) -> Result<(), NoMemory>
    ensures { OnOk result (text.new.items ≡ text.old.items ++ said_leaves rows.now values.now) }
{
    let mut rest = values;
    for row in rows {
        match row {
            Row::Fixed(_) => {}
            Row::Leaf(x) => match rest {
                [] => return Ok(()),
                [value, more @ ..] => {
                    append_said_leaf(alloc, text, x, *value)?;
                    rest = more;
                }
            },
        }
    }
    Ok(())
}

/// The number of the object and its class in a line, and in a line each its leaves with their values.
///
/// Errors: want of memory.
pub fn seen_text<L: SoundLayout>(
    alloc: Global,
    h: &Hierarchy,
    layout: &L,
    seen: &Seen,
) -> Result<Vec<u8>, NoMemory>
    requires layout { L.lays_out layout.now h.now }
    requires fitting { IsFitting h.now (places_of h.now (L.rows layout.now)) seen.now }
    ensures { IfOk result (λ text. text.items ≡ seen_text h.now (places_of h.now (L.rows layout.now)) seen.now) }
{
    let rows = rows_of(alloc, h, layout, seen.class)?;
    let mut text = Vec::new(alloc);
    append(&mut text, b"object ")?;
    append_number(alloc, &mut text, seen.object)?;
    append(&mut text, b" class ")?;
    append_class(&mut text, h, seen.class)?;
    append(&mut text, b"\n")?;
    append_said_leaves(alloc, &mut text, &rows, seen.leaves.as_slice())?;
    Ok(text)
}
