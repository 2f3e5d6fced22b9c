//! A memory that counts its stores.

ghost use Rattle.std.specs.Prelude.{◌≡◌};

use byte_memory::{FlatMemory, Memory, MemoryFault};
use std::alloc::Global;

/// A memory over another one that does what it is asked, with the number of stores that were not refused.
///
/// The meaning is that of the memory below, so that each call keeps the contract of the trait by that memory's own.
#[derive(Drop)]
pub struct CountingMemory {
    below: FlatMemory,
    stores: u64,
}

impl CountingMemory {
    ghost use Rattle.byte_memory.specs.Store.{empty};

    /// A memory with no region and no store.
    pub fn new(alloc: Global) -> CountingMemory
        ensures { ⟦<CountingMemory as Memory>⟧.meaning result ≡ empty }
    {
        CountingMemory {
            below: FlatMemory::new(alloc),
            stores: 0,
        }
    }

    /// How many stores were made. A copy is none.
    pub fn stores(&self) -> u64
        ensures { result ≡ self.now.stores }
    {
        self.stores
    }
}

impl Memory for CountingMemory {
    ghost use Rattle.byte_memory.specs.contracts.flat.FlatMemoryMemory.TheImpl.Laws.{ascends-law};

    ghost meaning = { λ m. ⟦<FlatMemory as Memory>⟧.meaning m.below };

    ghost ascends = { λ m. ascends-law m.below };

    fn open(&mut self, size: u64) -> Result<u64, MemoryFault> {
        self.below.open(size)
    }

    fn close(&mut self, at: u64) -> Result<(), MemoryFault> {
        self.below.close(at)
    }

    fn load_bits(&self, at: u64, first: u8, bits: u8) -> Result<u64, MemoryFault> {
        self.below.load_bits(at, first, bits)
    }

    fn store_bits(&mut self, at: u64, first: u8, bits: u8, value: u64) -> Result<(), MemoryFault> {
        let done = self.below.store_bits(at, first, bits, value);
        if done.is_ok() {
            self.stores = self.stores.saturating_add(1);
        }
        done
    }

    fn copy_bits(&mut self, from: u64, to: u64, first: u8, bits: u8) -> Result<(), MemoryFault> {
        self.below.copy_bits(from, to, first, bits)
    }
}
