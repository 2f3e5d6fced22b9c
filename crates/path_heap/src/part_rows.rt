//! What is kept of parts, in one column.

ghost use Rattle.std.specs.Prelude.{◌≡◌, ◌≤◌, ◌+◌, ◌++◌, [], IfOk, None, length, replicate, slice_get, slice_set};
ghost use Rattle.path_columns.specs.Columns.{most_items};
ghost use Rattle.path_heap.specs.Blanks.{no_cell};
ghost use Rattle.path_heap.specs.PartLists.{AreAsLong};
ghost use Rattle.path_heap.specs.Running.{entry_at};
ghost use Rattle.path_heap.specs.invariants.Columns.{cell_or};
ghost use Rattle.path_heap.specs.invariants.PartRows.{no_row};

use crate::state::{BLANK, Cell};
use foundation::NoMemory;
use path_columns::Column;
use std::alloc::Global;
use std::marker::Model;

/// What is kept of a part. It has 20 bytes.
#[derive(Clone, Copy)]
pub struct PartRow {
    pub cell: Cell,
    /// Of a part that runs, how far behind its complete object the part stands that was the innermost one of it before.
    pub around: Option<u16>,
    /// Of a complete object, how far behind it the innermost part stands that runs.
    pub top: Option<u16>,
}

/// The row of a part that has not begun.
const NO_ROW: PartRow = PartRow {
    cell: BLANK,
    around: None,
    top: None,
};

/// What is kept of parts: a contract sees three lists. They stand in one column, so that the pages of that column are found by one
/// table in place of three.
#[derive(Drop)]
pub struct PartRows {
    rows: Column<PartRow>,
    ghost blank: { rows.blank ≡ no_row },
}

impl Model for PartRows {
    ghost use Rattle.path_heap.specs.PartLists.{PartLists};
    ghost use Rattle.path_heap.specs.invariants.PartRows.{part_lists};

    ghost Value = { PartLists };

    ghost view = { λ p. part_lists p.rows.items };
}

impl PartRows {
    /// No parts. It takes no memory.
    pub fn new(alloc: Global) -> PartRows
        ensures { result ≡ record { cells = []; tops = []; around = [] } }
    {
        PartRows {
            rows: Column::new(alloc, NO_ROW),
        }
    }

    /// How many parts and leaves have a number.
    pub fn len(&self) -> usize
        ensures { result ≡ length self.now.cells }
    {
        self.rows.len()
    }

    /// The cell of a part.
    pub fn cell(&self, n: u64) -> Cell
        ensures { result ≡ cell_or (slice_get self.now.cells n) }
    {
        self.rows.get(n).cell
    }

    /// How far behind a complete object the innermost part of it stands that runs.
    pub fn top(&self, n: u64) -> Option<u16>
        ensures { result ≡ entry_at self.now.tops n }
    {
        self.rows.get(n).top
    }

    /// How far behind the complete object the part stands that was the innermost one before.
    pub fn around(&self, n: u64) -> Option<u16>
        ensures { result ≡ entry_at self.now.around n }
    {
        self.rows.get(n).around
    }

    /// Sets a cell; past the end nothing changes. Errors: want of memory.
    pub fn set_cell(&mut self, n: u64, cell: Cell) -> Result<(), NoMemory>
        ensures long { AreAsLong self.old self.new }
        ensures cells { IfOk result (λ _. self.new.cells ≡ slice_set self.old.cells n cell) }
        ensures tops { IfOk result (λ _. self.new.tops ≡ self.old.tops) }
        ensures around { IfOk result (λ _. self.new.around ≡ self.old.around) }
    {
        let row = self.rows.get(n);
        let changed = PartRow {
            cell,
            around: row.around,
            top: row.top,
        };
        self.rows.set(n, changed)?;
        Ok(())
    }

    /// Sets how far the innermost part stands; past the end nothing changes. Errors: want of memory.
    pub fn set_top(&mut self, n: u64, top: Option<u16>) -> Result<(), NoMemory>
        ensures long { AreAsLong self.old self.new }
        ensures cells { IfOk result (λ _. self.new.cells ≡ self.old.cells) }
        ensures tops { IfOk result (λ _. self.new.tops ≡ slice_set self.old.tops n top) }
        ensures around { IfOk result (λ _. self.new.around ≡ self.old.around) }
    {
        let row = self.rows.get(n);
        let changed = PartRow {
            cell: row.cell,
            around: row.around,
            top,
        };
        self.rows.set(n, changed)?;
        Ok(())
    }

    /// Sets how far the part around stands; past the end nothing changes. Errors: want of memory.
    pub fn set_around(&mut self, n: u64, around: Option<u16>) -> Result<(), NoMemory>
        ensures long { AreAsLong self.old self.new }
        ensures cells { IfOk result (λ _. self.new.cells ≡ self.old.cells) }
        ensures tops { IfOk result (λ _. self.new.tops ≡ self.old.tops) }
        ensures around { IfOk result (λ _. self.new.around ≡ slice_set self.old.around n around) }
    {
        let row = self.rows.get(n);
        let changed = PartRow {
            cell: row.cell,
            around,
            top: row.top,
        };
        self.rows.set(n, changed)?;
        Ok(())
    }

    /// Puts so many parts that have not begun behind the others. It takes no memory.
    pub fn lengthen(&mut self, count: usize)
        requires room { length self.old.cells + count ≤ most_items }
        ensures cells { self.new.cells ≡ self.old.cells ++ replicate count no_cell }
        ensures tops { self.new.tops ≡ self.old.tops ++ replicate count None }
        ensures around { self.new.around ≡ self.old.around ++ replicate count None }
    {
        self.rows.lengthen(count);
    }
}
