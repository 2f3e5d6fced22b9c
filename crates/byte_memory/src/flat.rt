//! A memory with a cell for each address.

ghost use Rattle.std.specs.Prelude.{◌≡◌, ℕ, ◌+◌, ◌*◌, ◌<◌, ◌≤◌, All, length};
ghost use Rattle.byte_memory.specs.Regions.{total_of, rounded, IsAscending};
ghost use Rattle.byte_memory.specs.Words.{bits_in};

use crate::cells::{
    Cell, all_set, clear_cells, from_bit, number_in, read_word, with_bits, write_word,
};
use crate::memory::{Memory, MemoryFault, Region, byte_span};
use crate::regions::{check, region_from, shut_region};
use std::alloc::Global;

/// A memory that keeps a cell for each address from 0 on, and its regions in the order of their addresses.
///
/// A load or a store finds its region by a binary search, and a close costs the size of its region.
#[derive(Drop)]
pub struct FlatMemory {
    regions: Vec<Region>,
    cells: Vec<Cell>,
    ghost ascending: { IsAscending regions.items },
    ghost sizes: { All (λ region. 0 < region.size) regions.items },
    ghost ends: { All (λ region. region.start + region.size ≤ length cells.items) regions.items },
    ghost total: { rounded (length cells.items) ≤ 16 + total_of regions.items },
}

impl FlatMemory {
    ghost use Rattle.byte_memory.specs.Store.{empty};

    /// A memory with no region. It takes no memory.
    pub fn new(alloc: Global) -> FlatMemory
        ensures { ⟦<FlatMemory as Memory>⟧.meaning result ≡ empty }
    {
        FlatMemory {
            regions: Vec::new(alloc),
            cells: Vec::new(alloc),
        }
    }
}

impl Memory for FlatMemory {
    ghost meaning = { λ m. record { regions = m.regions.items; bit = bits_in m.cells.items } };

    ghost ascends = { λ m. m.ascending };

    fn open(&mut self, size: u64) -> Result<u64, MemoryFault> {
        let len = self.cells.len();
        let start = ((len + 15) / 16 * 16).max(16);
        if self.regions.try_reserve(1).is_err() {
            return Err(MemoryFault::NoMemory);
        }
        if self
            .cells
            .resize(start + size as usize, Cell { value: 0, set: 0 })
            .is_err()
        {
            return Err(MemoryFault::NoMemory);
        }
        let region = Region {
            start: start as u64,
            size,
            is_open: true,
        };
        if self.regions.push(region).is_err() {
            self.cells.truncate(len);
            return Err(MemoryFault::NoMemory);
        }
        Ok(start as u64)
    }

    fn close(&mut self, at: u64) -> Result<(), MemoryFault> {
        let Some((number, region)) = region_from(&self.regions, at) else {
            return Err(MemoryFault::Range(at));
        };
        if !region.is_open {
            return Err(MemoryFault::Closed(at));
        }
        clear_cells(&mut self.cells, at as usize, region.size as usize);
        shut_region(&mut self.regions, number);
        Ok(())
    }

    fn load_bits(&self, at: u64, first: u8, bits: u8) -> Result<u64, MemoryFault> {
        let span = byte_span(first, bits);
        check(&self.regions, 0, at, span as u64)?;
        let word = read_word(&self.cells, at as usize, span);
        number_in(word, first, bits).ok_or(MemoryFault::Unset(at))
    }

    fn store_bits(&mut self, at: u64, first: u8, bits: u8, value: u64) -> Result<(), MemoryFault> {
        let span = byte_span(first, bits);
        check(&self.regions, 0, at, span as u64)?;
        let word = read_word(&self.cells, at as usize, span);
        let new = with_bits(word, first, bits, all_set(value));
        write_word(&mut self.cells, at as usize, span, new);
        Ok(())
    }

    fn copy_bits(&mut self, from: u64, to: u64, first: u8, bits: u8) -> Result<(), MemoryFault> {
        let span = byte_span(first, bits);
        check(&self.regions, 0, from, span as u64)?;
        check(&self.regions, 0, to, span as u64)?;
        let source = read_word(&self.cells, from as usize, span);
        let word = read_word(&self.cells, to as usize, span);
        let new = with_bits(word, first, bits, from_bit(source, first));
        write_word(&mut self.cells, to as usize, span, new);
        Ok(())
    }
}
