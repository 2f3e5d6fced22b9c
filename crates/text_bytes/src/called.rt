//! The functions that are called, by the blocks at which their code begins.

ghost use Rattle.std.specs.Prelude.{◌≡◌, ℕ, IfOk, OnOk, Some, if◌then◌else◌, nat_eq};
ghost use Rattle.indexmap.specs.IndexMap.{get};
ghost use Rattle.abi_slots.specs.CodeRows.{kind_number};
ghost use Rattle.abi_slots.specs.declared.code_numbers.BlockKind.TheVariants.{Plain};
ghost use Rattle.text_bytes.specs.RawTexts.{code_begins_at, function_at_block};

use abi_slots::{BlockKind, CodeRow};
use cxx_overrider::FunctionId;
use foundation::NoMemory;
use indexmap::IndexMap;
use std::alloc::Global;
use std::marker::Model;

/// Functions by the blocks at which their code begins.
type BlockTable = IndexMap<u32, FunctionId>;

/// The numbers of all code, which a contract sees as the list of their rows: the function that begins at a block is found by a table.
#[derive(Drop)]
pub struct CalledFunctions<'a> {
    rows: &'a [CodeRow],
    functions: BlockTable,
}

impl<'a> Model for CalledFunctions<'a> {
    ghost use Rattle.std.specs.Prelude.{◌≡◌, ℕ, List, nat_eq};
    ghost use Rattle.indexmap.specs.IndexMap.{get};
    ghost use Rattle.abi_slots.specs.declared.code_numbers.CodeRow.{CodeRow};
    ghost use Rattle.text_bytes.specs.RawTexts.{function_at_block};

    ghost Value = { List CodeRow };

    ghost view = { λ called. called.rows.now };

    ghost invariant = { λ called. (block : ℕ) → get nat_eq called.functions block ≡ function_at_block called.rows.now block };
}

/// Whether it is the code of a plain function.
fn is_plain(kind: BlockKind) -> bool
    ensures { result ≡ nat_eq (kind_number kind) (kind_number Plain) }
{
    matches!(kind, BlockKind::Plain)
}

/// Puts the function of a row under its block, in place of one that was there; a constructor or destructor is never called, and
/// is left out.
fn put_row(functions: &mut BlockTable, row: CodeRow) -> Result<(), NoMemory>
    ensures { OnOk result ((block : ℕ) → get nat_eq functions.new block ≡ (if code_begins_at block row then Some row.function else get nat_eq functions.old block)) }
{
    if !is_plain(row.kind) {
        return Ok(());
    }
    functions.insert(row.code, row.function)?;
    Ok(())
}

/// The table of rows. It is filled from the last row to the first, so that the first row of a block stays.
fn table_of(alloc: Global, rows: &[CodeRow]) -> Result<BlockTable, NoMemory>
    ensures { IfOk result (λ functions. (block : ℕ) → get nat_eq functions block ≡ function_at_block rows.now block) }
{
    let mut functions = IndexMap::new(alloc);
    let mut left = rows.len();
    while left > 0 {
        left -= 1;
        put_row(&mut functions, rows[left])?;
    }
    Ok(functions)
}

impl<'a> CalledFunctions<'a> {
    /// The functions of some rows.
    ///
    /// Errors: want of memory.
    pub fn new(alloc: Global, rows: &'a [CodeRow]) -> Result<CalledFunctions<'a>, NoMemory>
        ensures { IfOk result (λ called. called ≡ rows.now) }
    {
        let functions = table_of(alloc, rows)?;
        Ok(CalledFunctions { rows, functions })
    }

    /// The function whose code begins at a block; None where that of no plain function does.
    pub fn function(&self, block: u32) -> Option<FunctionId>
        ensures { result ≡ function_at_block self.now block }
    {
        self.functions.get(&block).copied()
    }
}
