//! What a memory in pages answers to calls in a row.

use byte_memory::{Memory, MemoryFault, PageMemory};
use std::alloc::{AllocError, Global};

// What is told of an answer.
fn told(alloc: Global, answer: Result<u64, MemoryFault>) -> Result<String, AllocError> {
    match answer {
        Ok(number) => format!(in alloc; "{number}\n"),
        Err(MemoryFault::Unset(at)) => format!(in alloc; "unset {at}\n"),
        Err(MemoryFault::Closed(at)) => format!(in alloc; "closed {at}\n"),
        Err(MemoryFault::Range(at)) => format!(in alloc; "range {at}\n"),
        Err(MemoryFault::NoMemory) => Err(AllocError),
    }
}

// A number for each answer that is none.
fn as_number(answer: Result<(), MemoryFault>) -> Result<u64, MemoryFault> {
    match answer {
        Ok(()) => Ok(0),
        Err(fault) => Err(fault),
    }
}

// A number for a truth.
fn as_truth(answer: Result<bool, MemoryFault>) -> Result<u64, MemoryFault> {
    match answer {
        Ok(true) => Ok(1),
        Ok(false) => Ok(0),
        Err(fault) => Err(fault),
    }
}

// Two regions, the pages that they meet, and what is left when they are closed.
fn regions_text(alloc: Global) -> Result<String, AllocError> {
    let mut memory = PageMemory::new(alloc);
    let mut text = told(alloc, memory.open(16))?;
    text.push_str(&told(alloc, memory.open(4096))?)?;
    text.push_str(&told(alloc, Ok(memory.pages()))?)?;
    text.push_str(&told(alloc, as_number(memory.close(4112)))?)?;
    text.push_str(&told(alloc, Ok(memory.pages()))?)?;
    text.push_str(&told(alloc, memory.load(4112, 1))?)?;
    text.push_str(&told(alloc, as_number(memory.close(4096)))?)?;
    text.push_str(&told(alloc, Ok(memory.pages()))?)?;
    Ok(text)
}

// A number in some bits of a byte, and the other bits of it.
fn bits_text(alloc: Global) -> Result<String, AllocError> {
    let mut memory = PageMemory::new(alloc);
    let mut text = told(alloc, memory.open(8))?;
    text.push_str(&told(alloc, as_number(memory.store_bits(4096, 3, 5, 9)))?)?;
    text.push_str(&told(alloc, memory.load_bits(4096, 3, 5))?)?;
    text.push_str(&told(alloc, memory.load_bits(4096, 0, 3))?)?;
    text.push_str(&told(alloc, memory.load(4096, 1))?)?;
    text.push_str(&told(alloc, as_truth(memory.bit_set(4096, 3)))?)?;
    text.push_str(&told(alloc, as_truth(memory.is_set(4096)))?)?;
    Ok(text)
}

/// What a memory in pages answers to two rows of calls: a line for each call, with the number that it gives, 1 for true and 0 for
/// false and for what gives nothing, or with the fault and its address.
pub fn pages_text(alloc: Global) -> Result<String, AllocError> {
    let mut text = regions_text(alloc)?;
    text.push_str(&bits_text(alloc)?)?;
    Ok(text)
}
