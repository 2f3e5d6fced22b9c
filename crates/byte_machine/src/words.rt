//! Words that are added, and words behind address points.

ghost use Rattle.std.specs.Prelude.{◌≡◌, ◌+◌};
ghost use Rattle.byte_code.specs.Images.{word_at};
ghost use Rattle.byte_machine.specs.Running.{moved, table_word};
ghost use Rattle.byte_machine.specs.Plans.{word_offset};

use crate::heap::Heap;
use byte_code::{ImageBytes, number_at};
use byte_memory::Memory;

/// An address, or a word, moved by another; addresses wrap at 2^64.
pub fn moved(at: u64, by: u64) -> u64
    ensures { result ≡ moved at by }
{
    at.wrapping_add(by)
}

/// How many bytes behind an address point the word of this number stands.
pub fn word_bytes(number: i32) -> u64
    ensures { result ≡ word_offset number }
{
    (8 * number as i64).cast_unsigned()
}

/// The word of an image at an address and so many bytes behind it, none outside of the image.
pub fn word_behind(image: &ImageBytes, at: u64, bytes: u64) -> Option<u64>
    ensures { result ≡ word_at image.now (at + bytes) }
{
    let there = at as u128 + bytes as u128;
    let base = image.base as u128;
    if there < base {
        return None;
    }
    number_at(image.bytes.as_slice(), there - base)
}

/// The word that stands so many bytes behind the address point to which the virtual pointer at an address leads.
#[tactic(auto, unfolding(crate::specs::Running::table_of))]
pub fn table_word<M: Memory>(image: &ImageBytes, heap: &Heap<M>, at: u64, bytes: u64) -> Option<u64>
    ensures { result ≡ table_word image.now (M.meaning heap.now.memory) at bytes }
{
    match heap.load(at, 8) {
        Ok(table) => image.number(moved(table, bytes)),
        Err(_) => None,
    }
}
