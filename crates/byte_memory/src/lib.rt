//! A memory of regions of bytes, each bit of a byte set or unset.
//!
//! A region is opened with a size, and from then on it is never given out again: also after it was closed, its
//! addresses belong to it, so that a use of a dangling address is always seen. The crate owns the trait `Memory`, the
//! meaning of a memory (`specs/Store.antt`: a list of regions and a function from places to bits, where bit i of the byte
//! at address a has the place 8 * a + i), the exact refusals of its calls and their order, and two memories: `FlatMemory`
//! keeps a cell for each address, and `PageMemory` the pages that meet an open region (`specs/Pages.antt`).
//!
//! The layer above may rely on the contracts of `Memory` alone: a load gives the number whose bits, the lowest first, were
//! last stored there; a store changes its bits and nothing else, and so does a copy, which also passes on that a bit is
//! unset; a new region stands above all earlier ones. The same in bits is `proofs/ByBits.antt`, in bytes
//! `proofs/ByteViews.antt`.
#![tactic(auto)]

mod cells;
pub mod flat;
mod memory;
mod page;
mod pages;
mod regions;
mod table;

pub use crate::flat::FlatMemory;
pub use crate::memory::{Memory, MemoryFault, Region};
pub use crate::pages::PageMemory;
