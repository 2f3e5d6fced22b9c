//! One page of a memory: 4,096 bytes, and how many open regions meet it.

ghost use Rattle.std.specs.Prelude.{◌≡◌, ℕ, ◌+◌, ◌*◌, ◌<◌, ◌≤◌, [], length, vec_capacity, IfOk};
ghost use Rattle.byte_memory.specs.Words.{word_bit, words_bits, with_word, with_part};

use crate::cells::{Word, from_bit, with_bits};
use std::alloc::{AllocError, Global};

/// How many bytes a page has.
pub const PAGE_BYTES: u64 = 4096;

/// How many words of 8 bytes a page has.
const PAGE_WORDS: usize = 512;

/// A page, with the words of its first bytes: none from there on was stored to. The room for all of them is reserved.
#[derive(Drop)]
pub struct Page {
    /// The number of the page: that of its first address, divided by 4,096.
    pub number: u64,
    /// How many open regions meet it.
    pub users: u64,
    /// The words of 8 bytes, up to the last one that was stored to, if not further.
    pub words: Vec<Word>,
    ghost short: { length words.items ≤ 512 },
    ghost room: { 512 ≤ vec_capacity words },
}

impl Page {
    /// A page that one region meets, of unset bits.
    pub fn new(alloc: Global, number: u64) -> Result<Page, AllocError>
        ensures number { IfOk result (λ page. page.number ≡ number) }
        ensures users { IfOk result (λ page. page.users ≡ 1) }
        ensures words { IfOk result (λ page. page.words.items ≡ []) }
    {
        let words = Vec::with_capacity(alloc, PAGE_WORDS)?;
        Ok(Page {
            number,
            users: 1,
            words,
        })
    }
}

/// The word of that number, of unset bits past the last one.
#[inline(always)]
fn word_at(words: &[Word], number: usize) -> Word
    ensures { (place : ℕ) → place < 64 → word_bit result place ≡ words_bits words.now (64 * number + place) }
{
    if number >= words.len() {
        return Word { value: 0, set: 0 };
    }
    words[number]
}

/// The word in n bytes of a page, from one on. They stand in one word of the page, or in two.
#[inline(always)]
pub fn read_page(page: &Page, at: usize, n: u8) -> Word
    requires short { n ≤ 8 }
    requires inside { at + n ≤ 4096 }
    ensures { (place : ℕ) → place < 8 * n → word_bit result place ≡ words_bits page.now.words.items (8 * at + place) }
{
    let first = (at % 8) as u8;
    let low = from_bit(word_at(&page.words, at / 8), 8 * first);
    if first + n <= 8 {
        return low;
    }
    let high = word_at(&page.words, at / 8 + 1);
    with_bits(low, 64 - 8 * first, 8 * first, high)
}

/// Gives so many bits of a word, from one on, the values of the lowest of another word.
#[inline(always)]
fn put_bits(words: &mut Vec<Word>, number: usize, first: u8, bits: u8, from: Word)
    requires inside { number < length words.old.items }
    requires some { 0 < bits }
    requires word { first + bits ≤ 64 }
    ensures len { length words.new.items ≡ length words.old.items }
    ensures capacity { vec_capacity words.new ≡ vec_capacity words.old }
    ensures bits { words_bits words.new.items ≡ with_part (words_bits words.old.items) (64 * number + first) bits from }
{
    let old = words[number];
    words[number] = with_bits(old, first, bits, from);
}

/// Writes the low n bytes of a word into a page, from a byte on. They stand in one word of the page, or in two.
#[inline(always)]
pub fn write_page(page: &mut Page, at: usize, n: u8, word: Word)
    requires inside { at + n ≤ 4096 }
    requires short { n ≤ 8 }
    requires some { 0 < n }
    ensures number { page.new.number ≡ page.old.number }
    ensures users { page.new.users ≡ page.old.users }
    ensures bits { words_bits page.new.words.items ≡ with_word (words_bits page.old.words.items) at n word }
{
    extend_words(&mut page.words, (at + n as usize + 7) / 8);
    let first = (at % 8) as u8;
    if first + n <= 8 {
        put_bits(&mut page.words, at / 8, 8 * first, 8 * n, word);
        return;
    }
    let here = 8 - first;
    put_bits(&mut page.words, at / 8, 8 * first, 8 * here, word);
    let rest = from_bit(word, 8 * here);
    put_bits(&mut page.words, at / 8 + 1, 0, 8 * (n - here), rest);
}

/// Makes the words at least so many, by unset ones, where there is room for them.
#[inline(always)]
fn extend_words(words: &mut Vec<Word>, len: usize)
    requires short { length words.old.items ≤ 512 }
    requires room { 512 ≤ vec_capacity words.old }
    requires fits { len ≤ 512 }
    ensures short { length words.new.items ≤ 512 }
    ensures room { 512 ≤ vec_capacity words.new }
    ensures len { len ≤ length words.new.items }
    ensures bits { words_bits words.new.items ≡ words_bits words.old.items }
{
    if words.len() < len {
        let _ = words.resize(len, Word { value: 0, set: 0 });
    }
}
