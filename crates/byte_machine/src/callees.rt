//! What runs by an entry of a virtual table, and what its thunk adjusts (Itanium C++ ABI 2.5.2, 2.5.3).

ghost use Rattle.std.specs.Prelude.{◌≡◌, ◌*◌, Some};
ghost use Rattle.byte_machine.specs.Running.{table_word};
ghost use Rattle.byte_machine.specs.Calls.{callee, moved_by_word, this_by_thunk, thunk_word};
ghost use Rattle.byte_machine.specs.invariants.GivenCallees.{found_callee};

use crate::heap::Heap;
use crate::words::{moved, table_word, word_behind};
use byte_code::ImageBytes;
use byte_memory::Memory;

/// Where the code of an entry is, its `this`, and what is added to its result: the word of its table that stands `vbase` bytes
/// behind the address point, where that is not 0, and then `add` bytes.
#[derive(Clone, Copy, Debug, PartialEq, Eq)]
pub struct Callee {
    pub block: u32,
    pub this: u64,
    pub vbase: u64,
    pub add: u64,
}

/// An address, moved by the word of its table that stands so many bytes behind the address point; where they are 0 it stays.
pub fn moved_by_word<M: Memory>(
    image: &ImageBytes,
    heap: &Heap<M>,
    at: u64,
    bytes: u64,
) -> Option<u64>
    ensures { result ≡ moved_by_word image.now (M.meaning heap.now.memory) at bytes }
{
    if bytes == 0 {
        return Some(at);
    }
    let by = table_word(image, heap, at, bytes)?;
    Some(moved(at, by))
}

/// What a thunk makes of `this`; the thunk 0 is none.
fn this_by_thunk<M: Memory>(
    image: &ImageBytes,
    heap: &Heap<M>,
    this: u64,
    thunk: u64,
) -> Option<u64>
    ensures { result ≡ this_by_thunk image.now (M.meaning heap.now.memory) this thunk }
{
    if thunk == 0 {
        return Some(this);
    }
    let add = image.number(thunk)?;
    let vcall = word_behind(image, thunk, 8)?;
    moved_by_word(image, heap, moved(this, add), vcall)
}

/// A word of a thunk for the result; 0 without a thunk.
fn thunk_word(image: &ImageBytes, thunk: u64, bytes: u64) -> Option<u64>
    ensures { result ≡ thunk_word image.now thunk bytes }
{
    if thunk == 0 {
        Some(0)
    } else {
        word_behind(image, thunk, bytes)
    }
}

/// What runs by the entry of this number in the table of an address, where the address of its record is known.
pub fn callee_by_record<M: Memory>(
    image: &ImageBytes,
    heap: &Heap<M>,
    this: u64,
    _entry: u32,
    place: u64,
) -> Option<Callee>
    requires { table_word image.now (M.meaning heap.now.memory) this (8 * _entry) ≡ Some place }
    ensures { result ≡ found_callee (callee image.now (M.meaning heap.now.memory) this _entry) }
{
    if place == 0 {
        return None;
    }
    let code = image.number(place)?;
    let thunk = word_behind(image, place, 8)?;
    let this = this_by_thunk(image, heap, this, thunk)?;
    let vbase = thunk_word(image, thunk, 16)?;
    let add = thunk_word(image, thunk, 24)?;
    Some(Callee {
        block: (code % 0x1_0000_0000) as u32,
        this,
        vbase,
        add,
    })
}

/// What runs by the entry of this number in the table of an address, if something does.
pub fn find_callee<M: Memory>(
    image: &ImageBytes,
    heap: &Heap<M>,
    this: u64,
    entry: u32,
) -> Option<Callee>
    ensures { result ≡ found_callee (callee image.now (M.meaning heap.now.memory) this entry) }
{
    let place = table_word(image, heap, this, 8 * entry as u64)?;
    callee_by_record(image, heap, this, entry, place)
}
