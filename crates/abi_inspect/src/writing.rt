//! The text of a dump, by the values of its leaves.

ghost use Rattle.std.specs.Prelude.{◌≡◌, ◌++◌, IfOk, OnOk};
ghost use Rattle.std.specs.List.{concat};
ghost use Rattle.abi_sound.specs.Places.{places_of};
ghost use Rattle.abi_inspect.specs.SeenTexts.{AreValuesOf, IsFitting, dump_of_seen, row_lines};

use crate::lines::{append_first, append_fixed, append_leaf};
use crate::seen::{Seen, SeenValue};
use crate::slots::{Row, rows_of};
use abi_sound::SoundLayout;
use cxx_hierarchy::Hierarchy;
use foundation::NoMemory;
use std::alloc::Global;

/// Puts the lines of rows at the end of a text, of which the leaves have these values in turn.
fn append_rows(
    alloc: Global,
    text: &mut Vec<u8>,
    h: &Hierarchy,
    rows: &[Row],
    values: &[SeenValue],
) -> Result<(), NoMemory>
    requires { AreValuesOf rows.now values.now }
    ensures { OnOk result (text.new.items ≡ text.old.items ++ concat (row_lines h.now rows.now values.now)) }
{
    let mut rest = values;
    for row in rows {
        match row {
            Row::Fixed(line) => append_fixed(text, line.as_slice())?,
            Row::Leaf(x) => match rest {
                [] => {}
                [value, more @ ..] => {
                    append_leaf(alloc, text, h, x, *value)?;
                    rest = more;
                }
            },
        }
    }
    Ok(())
}

/// The dump of values that fit: the number, class and size of the object, and by place its virtual pointers, its leaves and its gaps.
///
/// Errors: want of memory.
pub fn dump_text<L: SoundLayout>(
    alloc: Global,
    h: &Hierarchy,
    layout: &L,
    seen: &Seen,
) -> Result<Vec<u8>, NoMemory>
    requires layout { L.lays_out layout.now h.now }
    requires fitting { IsFitting h.now (places_of h.now (L.rows layout.now)) seen.now }
    ensures { IfOk result (λ text. text.items ≡ dump_of_seen h.now (places_of h.now (L.rows layout.now)) seen.now) }
{
    let rows = rows_of(alloc, h, layout, seen.class)?;
    let size = layout.layout(seen.class).size;
    let mut text = Vec::new(alloc);
    append_first(alloc, &mut text, h, seen.object, seen.class, size)?;
    append_rows(alloc, &mut text, h, &rows, seen.leaves.as_slice())?;
    Ok(text)
}
