//! A list that is made longer by blank items, and keeps what was set.

ghost use Rattle.std.specs.Prelude.{◌≡◌, ◌≤◌, ◌+◌, ◌++◌, [], IfOk, length, replicate, slice_set};
ghost use Rattle.path_columns.specs.Columns.{item_in, most_items};

use crate::slots::Slots;
use foundation::NoMemory;
use std::alloc::Global;
use std::marker::Model;

/// A list of items, most of which are the blank one. A contract sees the blank item and the items.
#[derive(Drop)]
pub struct Column<T> {
    slots: Slots<T>,
    len: usize,
    ghost few: { len ≤ most_items },
}

impl<T> Model for Column<T> {
    ghost use Rattle.std.specs.Prelude.{◌≡◌, ◌≤◌, ℕ};
    ghost use Rattle.path_columns.specs.Paged.{listed};
    ghost use Rattle.path_columns.specs.Columns.{Column as ColumnOf};
    ghost use Rattle.path_columns.specs.Slots.{item_at};

    ghost Value = { ColumnOf T };

    ghost view = { λ c. record { blank = c.slots.blank; items = listed (item_at c.slots) c.len } };

    ghost invariant = { λ c. (n : ℕ) → c.len ≤ n → item_at c.slots n ≡ c.slots.blank };
}

impl<T: Copy + Drop> Column<T> {
    /// The empty list. It takes no memory.
    pub fn new(alloc: Global, blank: T) -> Column<T>
        ensures { result ≡ record { blank = blank; items = [] } }
    {
        Column {
            slots: Slots::new(alloc, blank),
            len: 0,
        }
    }

    /// How many items the list has.
    pub fn len(&self) -> usize
        ensures { result ≡ length self.now.items }
    {
        self.len
    }

    /// The item at a place, and the blank one past the end.
    pub fn get(&self, n: u64) -> T
        ensures { result ≡ item_in self.now n }
    {
        self.slots.get(n)
    }

    /// Sets the item at a place; past the end nothing changes.
    ///
    /// Errors: want of memory.
    pub fn set(&mut self, n: u64, item: T) -> Result<(), NoMemory>
        ensures blank { self.new.blank ≡ self.old.blank }
        ensures length { length self.new.items ≡ length self.old.items }
        ensures items { IfOk result (λ _. self.new.items ≡ slice_set self.old.items n item) }
    {
        if n as usize >= self.len {
            return Ok(());
        }
        self.slots.set(n, item)?;
        Ok(())
    }

    /// Puts so many blank items behind the others. It takes no memory.
    pub fn lengthen(&mut self, count: usize)
        requires room { length self.old.items + count ≤ most_items }
        ensures blank { self.new.blank ≡ self.old.blank }
        ensures items { self.new.items ≡ self.old.items ++ replicate count self.old.blank }
    {
        self.len += count;
    }
}
