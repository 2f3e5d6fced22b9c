//! Numbers by number, in pages.

ghost use Rattle.std.specs.Prelude.{◌≡◌, ◌<◌, ◌+◌, ◌*◌, ℕ, IfOk, OnErr, nat_eq, if◌then◌else◌, slice_index_or, length, slice_set};
ghost use Rattle.path_columns.specs.Paged.{ArePages};
ghost use Rattle.path_columns.specs.invariants.Placed.{placed};

use foundation::NoMemory;
use std::alloc::Global;

/// How many numbers a page has.
const WIDTH: u64 = 32;

/// How many numbers have 32 bits.
const TURN: u64 = 4294967296;

/// Makes a list longer, until it has this place.
pub(crate) fn reach<T: Copy + Drop>(
    list: &mut Vec<T>,
    place: usize,
    blank: T,
) -> Result<(), NoMemory>
    ensures same { (i : ℕ) → slice_index_or list.new.items i blank ≡ slice_index_or list.old.items i blank }
    ensures reached { IfOk result (λ _. place < length list.new.items) }
{
    while list.len() <= place {
        list.push(blank)?;
    }
    Ok(())
}

/// The same, where something other than 0 is to stand there.
fn reach_for(list: &mut Vec<u32>, place: usize, half: u32) -> Result<(), NoMemory>
    ensures same { (i : ℕ) → slice_index_or list.new.items i 0 ≡ slice_index_or list.old.items i 0 }
    ensures reached { IfOk result (λ _. 0 < half → place < length list.new.items) }
{
    if half > 0 {
        reach(list, place, 0)?;
    }
    Ok(())
}

/// What stands at a place of a list, and 0 past its end.
#[inline(always)]
fn half_at(list: &Vec<u32>, place: usize) -> u32
    ensures { result ≡ slice_index_or list.now.items place 0 }
{
    match list.get(place) {
        Some(half) => *half,
        None => 0,
    }
}

/// A number by its low 32 bits and the others.
#[inline(always)]
fn joined(low: u32, high: u32) -> u64
    ensures { result ≡ low + high * 4294967296 }
{
    low as u64 + high as u64 * TURN
}

/// Sets what stands at a place; past the end nothing changes.
#[inline(always)]
fn put_half(list: &mut Vec<u32>, place: usize, half: u32)
    ensures { list.new.items ≡ slice_set list.old.items place half }
{
    if place < list.len() {
        list[place] = half;
    }
}

/// A number for each number, 0 where none was set. Memory is taken for those pages of 32 numbers in which one was set: four bytes for
/// each of them, and four more up to the last page with a number of more than 32 bits.
#[derive(Drop)]
pub struct Pages {
    /// Where the page of each 32 numbers stands among the pages, counted from 1; 0 where it is not there.
    table: Vec<u32>,
    /// The pages, one behind the other, with the low 32 bits of each number.
    low: Vec<u32>,
    /// The other bits, as far as a number that has some.
    high: Vec<u32>,
    /// How many pages there are.
    count: u32,
    ghost paged: { ArePages (λ p. slice_index_or table.items p 0) low.items 0 32 count },
    ghost raised: { ArePages (λ p. slice_index_or table.items p 0) high.items 0 32 count },
    ghost counted: { count ≡ placed (λ p. slice_index_or table.items p 0) 2147483648 },
}

impl Pages {
    ghost use Rattle.path_columns.specs.Pages.{number_at};

    /// Nothing is set. It takes no memory.
    pub fn new(alloc: Global) -> Pages
        ensures { (n : ℕ) → number_at result n ≡ 0 }
    {
        Pages {
            table: Vec::new(alloc),
            low: Vec::new(alloc),
            high: Vec::new(alloc),
            count: 0,
        }
    }

    /// Where a page stands, counted from 1; 0 where it is not there.
    fn place(&self, page: u64) -> u32
        ensures { result ≡ slice_index_or self.now.table.items page 0 }
    {
        match self.table.get(page as usize) {
            Some(place) => *place,
            None => 0,
        }
    }

    /// The number that was set at a number; 0 where none was.
    pub fn get(&self, n: u64) -> u64
        ensures { result ≡ number_at self.now n }
    {
        let place = self.place(n / WIDTH);
        if place == 0 {
            return 0;
        }
        let at = (place - 1) as usize * WIDTH as usize + (n % WIDTH) as usize;
        joined(half_at(&self.low, at), half_at(&self.high, at))
    }

    /// Opens a page, where it is not there: where it stands, counted from 1.
    ///
    /// Errors: want of memory. Each number has what it had.
    fn open(&mut self, page: u64) -> Result<u32, NoMemory>
        requires { page < 2147483648 }
        ensures same { (n : ℕ) → number_at self.new n ≡ number_at self.old n }
        ensures open { IfOk result (λ place. (0 < place) × (slice_index_or self.new.table.items page 0 ≡ place)) }
    {
        let place = self.place(page);
        if place > 0 {
            return Ok(place);
        }
        reach(&mut self.table, page as usize, 0)?;
        let count = self.count + 1;
        self.table[page as usize] = count;
        self.count = count;
        Ok(count)
    }

    /// Makes the lists longer, until they have this place: that of the high bits only where there are some.
    ///
    /// Errors: want of memory. Each number has what it had.
    fn reach_halves(&mut self, at: usize, high: u32) -> Result<(), NoMemory>
        ensures table { self.new.table.items ≡ self.old.table.items }
        ensures same { (n : ℕ) → number_at self.new n ≡ number_at self.old n }
        ensures low { IfOk result (λ _. at < length self.new.low.items) }
        ensures high { IfOk result (λ _. 0 < high → at < length self.new.high.items) }
    {
        reach(&mut self.low, at, 0)?;
        reach_for(&mut self.high, at, high)?;
        Ok(())
    }

    /// Sets the number of a number.
    ///
    /// Errors: want of memory. Each number then has what it had.
    pub fn set(&mut self, n: u64, number: u64) -> Result<(), NoMemory>
        requires { n < 68719476736 }
        ensures set { IfOk result (λ _. (m : ℕ) → number_at self.new m ≡ (if nat_eq m n then number else number_at self.old m)) }
        ensures kept { OnErr result ((m : ℕ) → number_at self.new m ≡ number_at self.old m) }
    {
        let place = self.open(n / WIDTH)?;
        let at = (place - 1) as usize * WIDTH as usize + (n % WIDTH) as usize;
        let low = (number % TURN) as u32;
        let high = (number / TURN) as u32;
        self.reach_halves(at, high)?;
        put_half(&mut self.low, at, low);
        put_half(&mut self.high, at, high);
        Ok(())
    }
}
