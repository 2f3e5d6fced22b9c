//! The lines of a dump behind the first, read.

ghost use Rattle.std.specs.Prelude.{IfOk, Contains};
ghost use Rattle.abi_inspect.specs.declared.slots.LeafLine.{LeafLine};
ghost use Rattle.abi_inspect.specs.declared.slots.Row.TheVariants.{Leaf};
ghost use Rattle.abi_inspect.specs.invariants.Readable.{IsNarrow};
ghost use Rattle.abi_inspect.specs.invariants.RowReads.{IsRowsRead};

use crate::lines::{behind_fixed, read_leaf};
use crate::seen::SeenValue;
use crate::slots::Row;
use cxx_hierarchy::Hierarchy;
use foundation::NoMemory;
use std::alloc::Global;

/// What the lines behind the first say: the values of the leaves in turn, or how many lines come before the first fault.
#[derive(Drop)]
pub(crate) enum RowsRead {
    Values(Vec<SeenValue>),
    Fault(usize),
}

/// Reads the lines of rows, one after the other, to the end of the text.
pub(crate) fn read_rows(
    alloc: Global,
    h: &Hierarchy,
    rows: &[Row],
    text: &[u8],
) -> Result<RowsRead, NoMemory>
    requires { (x : LeafLine) → Contains rows.now (Leaf x) → IsNarrow x.bits.width }
    ensures { IfOk result (IsRowsRead h.now rows.now text.now) }
{
    let mut values = Vec::new(alloc);
    let mut rest = text;
    for (i, row) in rows.iter().enumerate() {
        match row {
            Row::Fixed(line) => match behind_fixed(rest, line.as_slice()) {
                Some(more) => rest = more,
                None => return Ok(RowsRead::Fault(i)),
            },
            Row::Leaf(x) => match read_leaf(alloc, h, x, rest)? {
                Some((value, more)) => {
                    values.push(value)?;
                    rest = more;
                }
                None => return Ok(RowsRead::Fault(i)),
            },
        }
    }
    if rest.is_empty() {
        Ok(RowsRead::Values(values))
    } else {
        Ok(RowsRead::Fault(rows.len()))
    }
}
