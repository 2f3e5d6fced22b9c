//! Calls through pointers to functions, by bytes alone.

ghost use Rattle.std.specs.Prelude.{◌≡◌, ℕ, ◌-◌, ◌%◌, ◌<◌, ◌^◌, Some, pos};
ghost use Rattle.byte_machine.specs.Running.{moved, table_word};
ghost use Rattle.byte_machine.specs.Calls.{moved_by_word};
ghost use Rattle.abi_memptr.specs.PointerBytes.{even_word};
ghost use Rattle.abi_memptr.specs.PointerCalls.{AppliesWords};
ghost use Rattle.abi_memptr.specs.invariants.Targets.{entry_target, thunk_this};

use byte_code::ImageBytes;
use byte_memory::Memory;

/// What a call through a pointer to a function runs: the number of its code, and the address that is its `this`.
#[derive(Clone, Copy, Debug, PartialEq, Eq)]
pub struct Applied {
    pub code: u32,
    pub this_at: u64,
}

/// An address, or a word, moved by another; addresses wrap at 2^64.
fn moved(at: u64, by: u64) -> u64
    ensures { result ≡ moved at by }
{
    at.wrapping_add(by)
}

/// The word that stands so many bytes behind the address point to which the virtual pointer at an address leads.
#[tactic(auto, unfolding(byte_machine::specs::Running::table_of))]
fn table_word<M: Memory>(image: &ImageBytes, memory: &M, at: u64, bytes: u64) -> Option<u64>
    ensures { result ≡ table_word image.now (M.meaning memory.now) at bytes }
{
    match memory.load(at, 8) {
        Ok(table) => image.number(moved(table, bytes)),
        Err(_) => None,
    }
}

/// An address, moved by the word of its table that stands so many bytes behind the address point; where they are 0 it stays.
fn moved_by_word<M: Memory>(image: &ImageBytes, memory: &M, at: u64, bytes: u64) -> Option<u64>
    ensures { result ≡ moved_by_word image.now (M.meaning memory.now) at bytes }
{
    if bytes == 0 {
        return Some(at);
    }
    let by = table_word(image, memory, at, bytes)?;
    Some(moved(at, by))
}

/// What a thunk makes of `this`; the thunk 0 is none.
fn thunk_this<M: Memory>(image: &ImageBytes, memory: &M, this: u64, thunk: u64) -> Option<u64>
    ensures { result ≡ thunk_this image.now (M.meaning memory.now) this thunk }
{
    if thunk == 0 {
        return Some(this);
    }
    let add = image.number(thunk)?;
    let vcall = image.number(moved(thunk, 8))?;
    moved_by_word(image, memory, moved(this, add), vcall)
}

/// What runs by the entry so many bytes behind the address point of the table of an address, if something does.
fn entry_target<M: Memory>(image: &ImageBytes, memory: &M, this: u64, bytes: u64) -> Option<Applied>
    ensures { result ≡ entry_target image.now (M.meaning memory.now) this bytes }
{
    let place = table_word(image, memory, this, bytes)?;
    if place == 0 {
        return None;
    }
    let code = image.number(place)?;
    let thunk = image.number(moved(place, 8))?;
    let this_at = thunk_this(image, memory, this, thunk)?;
    Some(Applied {
        code: low_number(code),
        this_at,
    })
}

/// The word of a number.
fn unsigned(number: i64) -> u64
    ensures { (n : ℕ) → number ≡ pos n → result ≡ n }
{
    number.cast_unsigned()
}

/// What runs by the word of code, with `this`.
fn code_target(word: u64, this: u64) -> Applied
    ensures { (code : ℕ) → code < 2 ^ 32 → word ≡ even_word code → result ≡ record { code = code; this_at = this } }
{
    Applied {
        code: low_number((word / 2).saturating_sub(1)),
        this_at: this,
    }
}

/// What runs by the first word of a pointer to a function, with `this`: an odd one leads to an entry, an even one names code.
fn word_target<M: Memory>(image: &ImageBytes, memory: &M, word: u64, this: u64) -> Option<Applied>
    ensures odd { word % 2 ≡ 1 → result ≡ entry_target image.now (M.meaning memory.now) this (word - 1) }
    ensures even { (code : ℕ) → code < 2 ^ 32 → word ≡ even_word code → result ≡ Some (record { code = code; this_at = this }) }
{
    if word % 2 == 1 {
        entry_target(image, memory, this, word - 1)
    } else {
        Some(code_target(word, this))
    }
}

/// The low 32 bits of a word.
fn low_number(word: u64) -> u32
    ensures { result ≡ word % 2 ^ 32 }
{
    (word % 0x1_0000_0000) as u32
}

/// What a call through the two words of a pointer to a function runs, on the object at an address (Itanium C++ ABI 2.3). It reads
/// bytes alone and takes no memory.
///
/// For a complete object of class D that stands at `at`, and the words of a function f of its subobject s: the code of the final
/// overrider of f at s in the whole object, or of f itself where it is not virtual, and the address of its subobject. None exactly
/// where the function that would run is pure. Of other words and objects nothing is said.
pub fn apply<M: Memory>(
    image: &ImageBytes,
    memory: &M,
    at: u64,
    ptr: i64,
    adj: i64,
) -> Option<Applied>
    ensures { AppliesWords image.now (M.meaning memory.now) at ptr adj result }
{
    let word = unsigned(ptr);
    let add = unsigned(adj);
    let this = moved(at, add);
    word_target(image, memory, word, this)
}
