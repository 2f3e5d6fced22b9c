//! A memory in pages of 4,096 bytes.

ghost use Rattle.std.specs.Prelude.{◌≡◌, ℕ, ◌+◌, ◌-◌, ◌*◌, ◌/◌, ◌^◌, ◌<◌, ◌≤◌, All, IfOk, nat_lt, is_some, None, count_by};
ghost use Rattle.std.specs.List.{find};
ghost use Rattle.byte_memory.specs.Regions.{total_of, IsAscending, IsAscendingBy};
ghost use Rattle.byte_memory.specs.Pages.{meets, next_start, numbered, users_of, bits_of, reached_bits};

use crate::cells::{all_set, from_bit, number_in, with_bits};
use crate::memory::{Memory, MemoryFault, Region, byte_span};
use crate::page::{PAGE_BYTES, Page};
use crate::regions::{check, check_both, region_from, shut_region};
use crate::table::{claim_pages, read_pages, read_rest, release_pages, write_pages};
use std::alloc::Global;

/// A memory that keeps the pages that meet an open region, and all regions, in the order of their addresses.
///
/// Page k has the 4,096 bytes from the address 4,096 k on. A load or a store finds its region by a binary search, and
/// its page by its distance from the first page, or else by a binary search. Each region that was closed keeps its 24 bytes.
#[derive(Drop)]
pub struct PageMemory {
    alloc: Global,
    regions: Vec<Region>,
    pages: Vec<Page>,
    /// The number of the region that a copy read last. It is looked at first.
    read: usize,
    /// The number of the region that was written last. It is looked at first.
    written: usize,
    ghost ascending: { IsAscending regions.items },
    ghost sizes: { All (λ region. 0 < region.size) regions.items },
    ghost total: { next_start regions.items ≤ 4096 + total_of regions.items },
    ghost bound: { total_of regions.items < 2 ^ 40 },
    ghost ordered: { IsAscendingBy (λ page. page.number) (λ page. 1) pages.items },
    ghost users: { (number : ℕ) → users_of (find (numbered number) pages.items) ≡ count_by (meets number) regions.items },
    ghost kept: { (number : ℕ) → is_some (find (numbered number) pages.items) ≡ nat_lt 0 (count_by (meets number) regions.items) },
    ghost unset: { (place : ℕ) → 8 * next_start regions.items ≤ place → bits_of pages.items place ≡ None },
}

impl PageMemory {
    ghost use Rattle.std.specs.Prelude.{length, List};
    ghost use Rattle.byte_memory.specs.Store.{empty};
    ghost use Rattle.byte_memory.specs.Pages.{ArePageNumbers};

    /// A memory with no region. It takes no memory.
    pub fn new(alloc: Global) -> PageMemory
        ensures { ⟦<PageMemory as Memory>⟧.meaning result ≡ empty }
    {
        PageMemory {
            alloc,
            regions: Vec::new(alloc),
            pages: Vec::new(alloc),
            read: 0,
            written: 0,
        }
    }

    /// How many pages meet an open region.
    pub fn pages(&self) -> u64
        ensures { (numbers : List ℕ) × ArePageNumbers (⟦<PageMemory as Memory>⟧.meaning self.now).regions numbers × (result ≡ length numbers) }
    {
        self.pages.len() as u64
    }
}

/// Where the next region starts.
fn start_of_next(regions: &[Region]) -> u64
    requires { next_start regions.now < 2 ^ 63 }
    ensures { result ≡ next_start regions.now }
{
    if regions.is_empty() {
        return PAGE_BYTES;
    }
    let last = regions[regions.len() - 1];
    (last.start + last.size + 15) / 16 * 16
}

/// The number of the last page that meets a region.
fn last_page(start: u64, size: u64) -> u64
    requires some { 0 < size }
    requires small { start + size < 2 ^ 63 }
    ensures { result ≡ (start + size - 1) / 4096 }
{
    (start + size - 1) / PAGE_BYTES
}

impl Memory for PageMemory {
    ghost meaning = { λ m. record { regions = m.regions.items; bit = reached_bits m.regions.items (bits_of m.pages.items) } };

    ghost ascends = { λ m. m.ascending };

    fn open(&mut self, size: u64) -> Result<u64, MemoryFault> {
        let start = start_of_next(&self.regions);
        let first = start / PAGE_BYTES;
        let last = last_page(start, size);
        if self.regions.try_reserve(1).is_err() {
            return Err(MemoryFault::NoMemory);
        }
        if claim_pages(&mut self.pages, self.alloc, first, last + 1 - first).is_err() {
            return Err(MemoryFault::NoMemory);
        }
        let region = Region {
            start,
            size,
            is_open: true,
        };
        let _ = self.regions.push(region);
        Ok(start)
    }

    fn close(&mut self, at: u64) -> Result<(), MemoryFault> {
        let Some((number, region)) = region_from(&self.regions, at) else {
            return Err(MemoryFault::Range(at));
        };
        if !region.is_open {
            return Err(MemoryFault::Closed(at));
        }
        let first = at / PAGE_BYTES;
        let last = last_page(at, region.size);
        release_pages(&mut self.pages, first, last + 1 - first);
        shut_region(&mut self.regions, number);
        Ok(())
    }

    fn load_bits(&self, at: u64, first: u8, bits: u8) -> Result<u64, MemoryFault> {
        let span = byte_span(first, bits);
        check_both(&self.regions, self.written, self.read, at, span as u64)?;
        let word = read_pages(&self.pages, at, span);
        number_in(word, first, bits).ok_or(MemoryFault::Unset(at))
    }

    fn store_bits(&mut self, at: u64, first: u8, bits: u8, value: u64) -> Result<(), MemoryFault> {
        let span = byte_span(first, bits);
        let region = check(&self.regions, self.written, at, span as u64)?;
        let rest = read_rest(&self.pages, at, span, first, bits);
        let new = with_bits(rest, first, bits, all_set(value));
        self.written = region;
        write_pages(&mut self.pages, at, span, new);
        Ok(())
    }

    fn copy_bits(&mut self, from: u64, to: u64, first: u8, bits: u8) -> Result<(), MemoryFault> {
        let span = byte_span(first, bits);
        let read = check(&self.regions, self.read, from, span as u64)?;
        let written = check(&self.regions, self.written, to, span as u64)?;
        let source = read_pages(&self.pages, from, span);
        let rest = read_rest(&self.pages, to, span, first, bits);
        let new = with_bits(rest, first, bits, from_bit(source, first));
        self.read = read;
        self.written = written;
        write_pages(&mut self.pages, to, span, new);
        Ok(())
    }

    fn copy(&mut self, from: u64, to: u64, bytes: u8) -> Result<(), MemoryFault> {
        let read = check(&self.regions, self.read, from, bytes as u64)?;
        let written = check(&self.regions, self.written, to, bytes as u64)?;
        let word = read_pages(&self.pages, from, bytes);
        self.read = read;
        self.written = written;
        write_pages(&mut self.pages, to, bytes, word);
        Ok(())
    }
}
