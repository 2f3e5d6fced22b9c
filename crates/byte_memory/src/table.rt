//! Pages in the order of their numbers, and what stands in them.

ghost use Rattle.std.specs.Prelude.{◌≡◌, ℕ, ◌+◌, ◌-◌, ◌*◌, ◌/◌, ◌<◌, ◌≤◌, ◌^◌, length, slice_get, nat_le, nat_eq, if◌then◌else◌, is_some, true, false, Some, None, IfOk, IfSome, MatchOption, MatchResult};
ghost use Rattle.std.specs.List.{find};
ghost use Rattle.byte_memory.specs.declared.page.Page.{Page};
ghost use Rattle.byte_memory.specs.Bits.{is_among_places};
ghost use Rattle.byte_memory.specs.Words.{word_bit, with_word};
ghost use Rattle.byte_memory.specs.Regions.{IsAscendingBy, CountsStarts};
ghost use Rattle.byte_memory.specs.Pages.{numbered, bits_of, users_of, claimed, released, AreFresh, AreAdded, AreUsedAs};

use crate::cells::{Word, with_bits};
use crate::page::{PAGE_BYTES, Page, read_page, write_page};
use std::alloc::{AllocError, Global};

/// How many pages have that number or a lower one: a binary search.
fn count_up_to(pages: &[Page], number: u64) -> usize
    requires { IsAscendingBy (λ page. page.number) (λ page. 1) pages.now }
    ensures bound { result ≤ length pages.now }
    ensures count { CountsStarts (λ page. page.number) pages.now number result }
{
    pages.partition_point(
        |page: &Page| -> bool
            ensures { result ≡ nat_le page.now.number number }
        { page.number <= number },
    )
}

/// Whether the page of that number stands there.
#[inline(always)]
fn is_at(pages: &[Page], index: usize, number: u64) -> bool
    requires { IsAscendingBy (λ page. page.number) (λ page. 1) pages.now }
    ensures { result ≡ true → (index < length pages.now) × (find (numbered number) pages.now ≡ slice_get pages.now index) }
{
    index < pages.len() && pages[index].number == number
}

/// Where the page of that number stands, if all pages between the first one and it are there.
#[inline(always)]
fn index_from_first(pages: &[Page], number: u64) -> Option<usize>
    requires { IsAscendingBy (λ page. page.number) (λ page. 1) pages.now }
    ensures { IfSome result (λ index. (index < length pages.now) × (find (numbered number) pages.now ≡ slice_get pages.now index)) }
{
    if pages.is_empty() || number < pages[0].number {
        return None;
    }
    let index = (number - pages[0].number) as usize;
    if is_at(pages, index, number) {
        Some(index)
    } else {
        None
    }
}

/// Where the page of that number stands: at its distance from the first page, or else by a binary search.
#[inline(always)]
pub fn index_of(pages: &[Page], number: u64) -> Option<usize>
    requires { IsAscendingBy (λ page. page.number) (λ page. 1) pages.now }
    ensures { MatchOption result
        (find (numbered number) pages.now ≡ None)
        (λ index. (index < length pages.now) × (find (numbered number) pages.now ≡ slice_get pages.now index)) }
{
    if let Some(index) = index_from_first(pages, number) {
        return Some(index);
    }
    let count = count_up_to(pages, number);
    if count == 0 {
        return None;
    }
    if pages[count - 1].number == number {
        Some(count - 1)
    } else {
        None
    }
}

/// The word in n bytes of one page, from one on, of unset bits where there is no such page.
#[inline(always)]
fn read_part(pages: &[Page], number: u64, at: usize, n: u8) -> Word
    requires ascending { IsAscendingBy (λ page. page.number) (λ page. 1) pages.now }
    requires short { n ≤ 8 }
    requires inside { at + n ≤ 4096 }
    ensures { (place : ℕ) → place < 8 * n → word_bit result place ≡ bits_of pages.now (32768 * number + 8 * at + place) }
{
    match index_of(pages, number) {
        None => Word { value: 0, set: 0 },
        Some(index) => read_page(&pages[index], at, n),
    }
}

/// The word in n bytes from an address on.
#[inline(always)]
pub fn read_pages(pages: &[Page], at: u64, n: u8) -> Word
    requires ascending { IsAscendingBy (λ page. page.number) (λ page. 1) pages.now }
    requires short { n ≤ 8 }
    ensures bits { (place : ℕ) → place < 8 * n → word_bit result place ≡ bits_of pages.now (8 * at + place) }
{
    let number = at / PAGE_BYTES;
    let first = at % PAGE_BYTES;
    if first + n as u64 <= PAGE_BYTES {
        return read_part(pages, number, first as usize, n);
    }
    let here = (PAGE_BYTES - first) as u8;
    let low = read_part(pages, number, first as usize, here);
    let high = read_part(pages, number + 1, 0, n - here);
    joined(low, high, here)
}

/// A word with the bits of the n bytes from an address on that stay where so many bits, from one on, are written. Nothing is
/// read where none stays.
#[inline(always)]
pub fn read_rest(pages: &[Page], at: u64, n: u8, first: u8, bits: u8) -> Word
    requires ascending { IsAscendingBy (λ page. page.number) (λ page. 1) pages.now }
    requires short { n ≤ 8 }
    ensures { (place : ℕ) → place < 8 * n → is_among_places first bits place ≡ false → word_bit result place ≡ bits_of pages.now (8 * at + place) }
{
    if first == 0 && bits == 8 * n {
        return Word { value: 0, set: 0 };
    }
    read_pages(pages, at, n)
}

/// The word of n bytes and the bytes of another word after them.
fn joined(low: Word, high: Word, n: u8) -> Word
    requires some { 0 < n }
    requires short { n < 8 }
    ensures low { (place : ℕ) → place < 8 * n → word_bit result place ≡ word_bit low place }
    ensures high { (place : ℕ) → 8 * n ≤ place → place < 64 → word_bit result place ≡ word_bit high (place - 8 * n) }
{
    with_bits(low, 8 * n, 64 - 8 * n, high)
}

/// Writes the low n bytes of a word into one page, from a byte on.
#[inline(always)]
fn write_part(pages: &mut Vec<Page>, number: u64, at: usize, n: u8, word: Word)
    requires ascending { IsAscendingBy (λ page. page.number) (λ page. 1) pages.old.items }
    requires there { is_some (find (numbered number) pages.old.items) ≡ true }
    requires inside { at + n ≤ 4096 }
    requires short { n ≤ 8 }
    requires some { 0 < n }
    ensures ascending { IsAscendingBy (λ page. page.number) (λ page. 1) pages.new.items }
    ensures same { AreUsedAs pages.old.items pages.new.items }
    ensures bits { bits_of pages.new.items ≡ with_word (bits_of pages.old.items) (4096 * number + at) n word }
{
    if let Some(index) = index_of(pages, number) {
        write_page(&mut pages[index], at, n, word);
    }
}

/// Writes the low n bytes of a word from an address on.
#[inline(always)]
pub fn write_pages(pages: &mut Vec<Page>, at: u64, n: u8, word: Word)
    requires ascending { IsAscendingBy (λ page. page.number) (λ page. 1) pages.old.items }
    requires short { n ≤ 8 }
    requires some { 0 < n }
    requires there { (k : ℕ) → k < n → is_some (find (numbered ((at + k) / 4096)) pages.old.items) ≡ true }
    ensures ascending { IsAscendingBy (λ page. page.number) (λ page. 1) pages.new.items }
    ensures same { AreUsedAs pages.old.items pages.new.items }
    ensures bits { bits_of pages.new.items ≡ with_word (bits_of pages.old.items) at n word }
{
    let number = at / PAGE_BYTES;
    let first = at % PAGE_BYTES;
    if first + n as u64 <= PAGE_BYTES {
        write_part(pages, number, first as usize, n, word);
        return;
    }
    let here = (PAGE_BYTES - first) as u8;
    write_part(pages, number, first as usize, here, word);
    let high = Word {
        value: word.value >> (8 * here),
        set: word.set >> (8 * here),
    };
    write_part(pages, number + 1, 0, n - here, high);
}

/// A page for each of n numbers, from one on.
fn fresh_pages(alloc: Global, first: u64, n: u64) -> Result<Vec<Page>, AllocError>
    requires { first + n < 2 ^ 63 }
    ensures { IfOk result (λ pages. AreFresh pages.items first n) }
{
    let mut pages = Vec::new(alloc);
    for k in 0..n {
        let page = Page::new(alloc, first + k)?;
        if pages.push(page).is_err() {
            return Err(AllocError);
        }
    }
    Ok(pages)
}

/// One region more meets the page of that number, if there is one.
fn claim_page(pages: &mut Vec<Page>, number: u64)
    requires ascending { IsAscendingBy (λ page. page.number) (λ page. 1) pages.old.items }
    requires few { users_of (find (numbered number) pages.old.items) < 2 ^ 63 }
    ensures ascending { IsAscendingBy (λ page. page.number) (λ page. 1) pages.new.items }
    ensures claimed { (other : ℕ) → find (numbered other) pages.new.items ≡ (if nat_eq other number then claimed (find (numbered other) pages.old.items) else find (numbered other) pages.old.items) }
{
    if let Some(index) = index_of(pages, number) {
        pages[index].users += 1;
    }
}

/// A page for each of n numbers, from one on, that are above those of all pages.
fn add_pages(pages: &mut Vec<Page>, alloc: Global, first: u64, n: u64) -> Result<(), AllocError>
    requires ascending { IsAscendingBy (λ page. page.number) (λ page. 1) pages.old.items }
    requires above { (number : ℕ) → first ≤ number → find (numbered number) pages.old.items ≡ None }
    requires small { first + n < 2 ^ 63 }
    ensures { MatchResult result
        (λ _. AreAdded pages.old.items pages.new.items first n)
        (λ _. pages.new.items ≡ pages.old.items) }
{
    let mut fresh = fresh_pages(alloc, first, n)?;
    pages.append(&mut fresh)
}

/// One region more meets each of n pages, from one on, of which the first alone may be there.
pub fn claim_pages(
    pages: &mut Vec<Page>,
    alloc: Global,
    first: u64,
    n: u64,
) -> Result<(), AllocError>
    requires ascending { IsAscendingBy (λ page. page.number) (λ page. 1) pages.old.items }
    requires above { (number : ℕ) → first < number → find (numbered number) pages.old.items ≡ None }
    requires some { 0 < n }
    requires small { first + n < 2 ^ 63 }
    requires few { users_of (find (numbered first) pages.old.items) < 2 ^ 63 }
    ensures { MatchResult result
        (λ _. AreAdded pages.old.items pages.new.items first n)
        (λ _. pages.new.items ≡ pages.old.items) }
{
    if index_of(pages, first).is_none() {
        return add_pages(pages, alloc, first, n);
    }
    add_pages(pages, alloc, first + 1, n - 1)?;
    claim_page(pages, first);
    Ok(())
}

/// One region less meets the page of that number. The page goes where none is left.
fn release_page(pages: &mut Vec<Page>, number: u64)
    requires ascending { IsAscendingBy (λ page. page.number) (λ page. 1) pages.old.items }
    ensures ascending { IsAscendingBy (λ page. page.number) (λ page. 1) pages.new.items }
    ensures released { (other : ℕ) → find (numbered other) pages.new.items ≡ (if nat_eq other number then released (find (numbered other) pages.old.items) else find (numbered other) pages.old.items) }
{
    if let Some(index) = index_of(pages, number) {
        if pages[index].users < 2 {
            pages.remove(index);
        } else {
            pages[index].users -= 1;
        }
    }
}

/// One region less meets each of n pages, from one on.
pub fn release_pages(pages: &mut Vec<Page>, first: u64, n: u64)
    requires ascending { IsAscendingBy (λ page. page.number) (λ page. 1) pages.old.items }
    requires small { first + n < 2 ^ 63 }
    ensures ascending { IsAscendingBy (λ page. page.number) (λ page. 1) pages.new.items }
    ensures released { (other : ℕ) → find (numbered other) pages.new.items ≡ (if is_among_places first n other then released (find (numbered other) pages.old.items) else find (numbered other) pages.old.items) }
{
    for k in 0..n {
        release_page(pages, first + k);
    }
}
