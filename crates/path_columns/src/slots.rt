//! Items by number, in pages.

ghost use Rattle.std.specs.Prelude.{◌≡◌, ◌<◌, ℕ, IfOk, OnErr, nat_eq, if◌then◌else◌};
ghost use Rattle.path_columns.specs.Paged.{ArePages};
ghost use Rattle.path_columns.specs.invariants.Placed.{placed};
ghost use Rattle.path_columns.specs.Pages.{number_at};
ghost use Rattle.path_columns.specs.Columns.{most_items};

use crate::pages::{Pages, reach};
use foundation::NoMemory;
use std::alloc::Global;

/// How many items a page has.
const WIDTH: u64 = 4;

/// An item for each number, the blank one where none was set. Memory is taken for those pages of four items in which one was set.
#[derive(Drop)]
pub struct Slots<T> {
    /// Where each page stands among the pages, counted from 1; 0 where it is not there.
    places: Pages,
    /// The pages, one behind the other.
    items: Vec<T>,
    /// What a number has that no item was set at.
    blank: T,
    /// How many pages there are.
    count: u64,
    ghost paged: { ArePages (number_at places) items.items blank 4 count },
    ghost counted: { count ≡ placed (number_at places) 68719476736 },
}

impl<T: Copy + Drop> Slots<T> {
    ghost use Rattle.path_columns.specs.Slots.{item_at};

    /// No item is set. It takes no memory.
    pub fn new(alloc: Global, blank: T) -> Slots<T>
        ensures blank { result.blank ≡ blank }
        ensures items { (n : ℕ) → item_at result n ≡ blank }
    {
        Slots {
            places: Pages::new(alloc),
            items: Vec::new(alloc),
            blank,
            count: 0,
        }
    }

    /// The item of a number.
    pub fn get(&self, n: u64) -> T
        ensures { result ≡ item_at self.now n }
    {
        let place = self.places.get(n / WIDTH);
        if place == 0 {
            return self.blank;
        }
        let at = (place - 1) as usize * WIDTH as usize + (n % WIDTH) as usize;
        match self.items.get(at) {
            Some(item) => *item,
            None => self.blank,
        }
    }

    /// Opens a page, where it is not there: where it stands, counted from 1.
    ///
    /// Errors: want of memory. Each number has what it had.
    fn open(&mut self, page: u64) -> Result<u64, NoMemory>
        requires { page < 68719476736 }
        ensures blank { self.new.blank ≡ self.old.blank }
        ensures same { (n : ℕ) → item_at self.new n ≡ item_at self.old n }
        ensures open { IfOk result (λ place. (0 < place) × (number_at self.new.places page ≡ place)) }
    {
        let place = self.places.get(page);
        if place > 0 {
            return Ok(place);
        }
        let count = self.count + 1;
        self.places.set(page, count)?;
        self.count = count;
        Ok(count)
    }

    /// Sets the item of a number.
    ///
    /// Errors: want of memory. Each number then has what it had.
    pub fn set(&mut self, n: u64, item: T) -> Result<(), NoMemory>
        requires { n < most_items }
        ensures blank { self.new.blank ≡ self.old.blank }
        ensures set { IfOk result (λ _. (m : ℕ) → item_at self.new m ≡ (if nat_eq m n then item else item_at self.old m)) }
        ensures kept { OnErr result ((m : ℕ) → item_at self.new m ≡ item_at self.old m) }
    {
        let place = self.open(n / WIDTH)?;
        let at = (place - 1) as usize * WIDTH as usize + (n % WIDTH) as usize;
        let blank = self.blank;
        reach(&mut self.items, at, blank)?;
        self.items[at] = item;
        Ok(())
    }
}
