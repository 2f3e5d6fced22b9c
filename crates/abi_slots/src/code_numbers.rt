//! The numbers of the code that entries and calls run.

ghost use Rattle.std.specs.Prelude.{◌≡◌, IfOk};
ghost use Rattle.cxx_overrider.specs.declared.FunctionId.{FunctionId};
ghost use Rattle.abi_slots.specs.declared.code_numbers.BlockKind.{BlockKind};
ghost use Rattle.abi_slots.specs.CodeRows.{AreDistinctRows, code_of};
ghost use Rattle.abi_slots.specs.invariants.CodeTables.{code_in, code_key};

use crate::code_table::{CodeTable, key_of};
use cxx_overrider::FunctionId;
use foundation::{NoMemory, Sequence};
use std::alloc::Global;
use std::marker::Model;

/// A form of the code of a function: that of a plain function, that in which a constructor builds a complete object or a base, and
/// that in which a destructor ends a complete object or a base, or ends and deletes one (Itanium C++ ABI 5.1.4.3).
#[derive(Clone, Copy, Debug, PartialEq, Eq)]
pub enum BlockKind {
    Plain,
    BuildComplete,
    BuildBase,
    EndComplete,
    EndBase,
    EndDeleting,
}

/// The number of the code of a form of a function. A constructor has the function index after its class's destructor.
#[derive(Clone, Copy, Debug, PartialEq, Eq)]
pub struct CodeRow {
    pub function: FunctionId,
    pub kind: BlockKind,
    pub code: u32,
}

pub type CodeRowList = Sequence<CodeRow>;

/// The numbers of all code, which a contract sees as the list of its rows. They are found by a table.
#[derive(Drop)]
pub struct CodeNumbers {
    rows: CodeRowList,
    table: CodeTable,
}

impl Model for CodeNumbers {
    ghost use Rattle.std.specs.Prelude.{◌≡◌, List};
    ghost use Rattle.cxx_overrider.specs.declared.FunctionId.{FunctionId};
    ghost use Rattle.abi_slots.specs.declared.code_numbers.BlockKind.{BlockKind};
    ghost use Rattle.abi_slots.specs.declared.code_numbers.CodeRow.{CodeRow};
    ghost use Rattle.abi_slots.specs.CodeRows.{code_of};
    ghost use Rattle.abi_slots.specs.invariants.CodeTables.{code_in, code_key};

    ghost Value = { List CodeRow };

    ghost view = { λ codes. codes.rows };

    ghost invariant = { λ codes. (f : FunctionId) (kind : BlockKind) → code_in codes.table (code_key f kind) ≡ code_of codes.rows f kind };
}

/// The table of rows. It is filled from the last row to the first, so that the first row with a key stays.
fn table_of(alloc: Global, rows: &[CodeRow]) -> Result<CodeTable, NoMemory>
    ensures { IfOk result (λ table. (f : FunctionId) (kind : BlockKind) → code_in table (code_key f kind) ≡ code_of rows.now f kind) }
{
    let mut table = CodeTable::new(alloc);
    let mut left = rows.len();
    while left > 0 {
        left -= 1;
        let row = rows[left];
        table.put(key_of(row.function, row.kind), row.code)?;
    }
    Ok(table)
}

impl CodeNumbers {
    /// The numbers of some rows.
    ///
    /// Errors: want of memory.
    pub fn new(alloc: Global, rows: CodeRowList) -> Result<CodeNumbers, NoMemory>
        requires { AreDistinctRows rows }
        ensures { IfOk result (λ codes. codes ≡ rows) }
    {
        let table = table_of(alloc, rows.as_slice())?;
        Ok(CodeNumbers { rows, table })
    }

    /// The rows, in the order in which they were given.
    pub fn rows(&self) -> &[CodeRow]
        ensures { result.now ≡ self.now }
    {
        self.rows.as_slice()
    }

    /// The number of the code of a form of a function; None exactly where no row has them.
    pub fn code(&self, f: FunctionId, kind: BlockKind) -> Option<u32>
        ensures { result ≡ code_of self.now f kind }
    {
        self.table.find(key_of(f, kind))
    }
}
