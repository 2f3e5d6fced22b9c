//! Cells, one for each address, and the bits in them.

ghost use Rattle.std.specs.Prelude.{◌≡◌, ℕ, ◌+◌, ◌-◌, ◌*◌, ◌<◌, ◌≤◌, ◌^◌, length, slice_get, Some, if◌then◌else◌, IfSome};
ghost use Rattle.byte_memory.specs.Bits.{has_bit, number_from, cleared, is_among_places};
ghost use Rattle.byte_memory.specs.Words.{word_bit, bits_in, with_word};

use byteorder::{ByteOrder, LittleEndian};

/// A byte, with a mask of those of its bits that are set.
#[derive(Clone, Copy)]
pub struct Cell {
    pub value: u8,
    pub set: u8,
}

/// Up to eight bytes as one number, the lowest first, with a mask of those of its bits that are set.
#[derive(Clone, Copy)]
pub struct Word {
    pub value: u64,
    pub set: u64,
}

/// The word of a value, with each of its bits set.
#[inline(always)]
pub fn all_set(value: u64) -> Word
    ensures { result ≡ record { value = value; set = 18446744073709551615 } }
{
    Word {
        value,
        set: u64::MAX,
    }
}

/// A number with so many of its bits, from one on, as the lowest of another number are.
#[inline(always)]
fn replaced(word: u64, first: u8, bits: u8, from: u64) -> u64
    requires some { 0 < bits }
    requires word { first + bits ≤ 64 }
    ensures { (place : ℕ) → place < 64 → has_bit result place ≡ (if is_among_places first bits place then has_bit from (place - first) else has_bit word place) }
{
    let mask = u64::MAX >> (64 - bits);
    (word & !(mask << first)) | ((from & mask) << first)
}

/// The word with so many of its bits, from one on, as the lowest of another word are.
#[inline(always)]
pub fn with_bits(word: Word, first: u8, bits: u8, from: Word) -> Word
    requires some { 0 < bits }
    requires word { first + bits ≤ 64 }
    ensures { (place : ℕ) → place < 64 → word_bit result place ≡ (if is_among_places first bits place then word_bit from (place - first) else word_bit word place) }
{
    Word {
        value: replaced(word.value, first, bits, from.value),
        set: replaced(word.set, first, bits, from.set),
    }
}

/// The number in so many bits of a word, from one on, or None where one of them is unset.
#[inline(always)]
pub fn number_in(word: Word, first: u8, bits: u8) -> Option<u64>
    requires some { 0 < bits }
    requires word { first + bits ≤ 64 }
    ensures value { result ≡ number_from (word_bit word) first bits }
    ensures fits { IfSome result (λ number. number < 2 ^ bits) }
{
    let mask = u64::MAX >> (64 - bits);
    if (word.set >> first) & mask == mask {
        Some((word.value >> first) & mask)
    } else {
        None
    }
}

/// The bits of a word from one on, as the lowest of a word.
#[inline(always)]
pub fn from_bit(word: Word, first: u8) -> Word
    requires { first < 64 }
    ensures { (place : ℕ) → word_bit result place ≡ word_bit word (first + place) }
{
    Word {
        value: word.value >> first,
        set: word.set >> first,
    }
}

/// The cell of a number.
fn cell_at(cells: &[Cell], number: usize) -> Cell
    requires { number < length cells.now }
    ensures { slice_get cells.now number ≡ Some result }
{
    cells[number]
}

/// The word in n cells from one on.
pub fn read_word(cells: &[Cell], at: usize, n: u8) -> Word
    requires within { at + n ≤ length cells.now }
    requires small { n ≤ 8 }
    ensures bits { (place : ℕ) → place < 8 * n → word_bit result place ≡ bits_in cells.now (8 * at + place) }
    ensures value { result.value < 256 ^ n }
    ensures set { result.set < 256 ^ n }
{
    let mut values = [0; 8];
    let mut sets = [0; 8];
    for i in 0..n as usize {
        let cell = cell_at(cells, at + i);
        values[i] = cell.value;
        sets[i] = cell.set;
    }
    Word {
        value: LittleEndian::read_u64(&values),
        set: LittleEndian::read_u64(&sets),
    }
}

/// Writes the low n bytes of a word into the cells from one on.
pub fn write_word(cells: &mut [Cell], at: usize, n: u8, word: Word)
    requires within { at + n ≤ length cells.old }
    requires small { n ≤ 8 }
    ensures { bits_in cells.new ≡ with_word (bits_in cells.old) at n word }
{
    let mut values = [0; 8];
    let mut sets = [0; 8];
    LittleEndian::write_u64(&mut values, word.value);
    LittleEndian::write_u64(&mut sets, word.set);
    for i in 0..n as usize {
        cells[at + i] = Cell {
            value: values[i],
            set: sets[i],
        };
    }
}

/// Unsets the bits of n cells.
pub fn clear_cells(cells: &mut Vec<Cell>, at: usize, n: usize)
    requires { at + n ≤ length cells.old.items }
    ensures cleared { bits_in cells.new.items ≡ cleared (bits_in cells.old.items) (8 * at) (8 * n) }
    ensures len { length cells.new.items ≡ length cells.old.items }
{
    for i in 0..n {
        cells[at + i] = Cell { value: 0, set: 0 };
    }
}
