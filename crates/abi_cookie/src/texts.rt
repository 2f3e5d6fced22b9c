//! The text of an array.

ghost use Rattle.std.specs.Prelude.{◌≡◌, ℕ, List, ◌+◌, ◌-◌, ◌*◌, ◌<◌, ◌≤◌, ◌^◌, ◌%◌, ◌++◌, [], codes, nat_eq, if◌then◌else◌, map, reverse, All, IfOk, OnOk};
ghost use Rattle.std.specs.Fmt.{decimal};
ghost use Rattle.std.specs.List.{flat_map, range_with_len};
ghost use Rattle.byte_memory.specs.Limits.{most_region_bytes};
ghost use Rattle.byte_memory.specs.Store.{load_of};
ghost use Rattle.abi_cookie.specs.Cookies.{array_bytes};
ghost use Rattle.abi_cookie.specs.Arrays.{IsArray, element_at};
ghost use Rattle.abi_cookie.specs.ArrayTexts.{sizes_text, count_text, element_text, end_text, array_text};

use crate::arrays::{AddressList, array_count, delete_array, new_array};
use byte_memory::{Memory, PageMemory};
use foundation::NoMemory;
use std::alloc::Global;

/// Puts the bytes of the region and of its cookie at the end of a text.
fn append_sizes(
    alloc: Global,
    text: &mut Vec<u8>,
    size: u32,
    cookie: u32,
    count: u32,
) -> Result<(), NoMemory>
    requires { array_bytes size cookie count ≤ most_region_bytes }
    ensures { OnOk result (text.new.items ≡ text.old.items ++ sizes_text size cookie count) }
{
    let bytes = cookie + count * size;
    let lines = format!(in alloc; "region {bytes}\ncookie {cookie}\n")?;
    text.extend_from_slice(lines.as_bytes())?;
    Ok(())
}

/// Puts the count that stands before element 0 at the end of a text.
fn append_count<M: Memory>(
    alloc: Global,
    text: &mut Vec<u8>,
    memory: &M,
    first: u64,
) -> Result<(), NoMemory>
    requires { 8 ≤ first }
    ensures { OnOk result ((n : ℕ) → load_of (M.meaning memory.now) (first - 8) 8 ≡ Ok n →
        text.new.items ≡ text.old.items ++ count_text n) }
{
    // never met: `new_array` has stored the count in an open region, by its clause `array`
    let Ok(count) = array_count(memory, first) else {
        return Err(NoMemory);
    };
    let digits = hex::encode(alloc, count.to_le_bytes())?;
    text.extend_from_slice(b"count ")?;
    text.extend_from_slice(digits.as_bytes())?;
    text.extend_from_slice(b"\n")?;
    Ok(())
}

/// The same where there is a cookie, and nothing where there is none.
fn append_cookie<M: Memory>(
    alloc: Global,
    text: &mut Vec<u8>,
    memory: &M,
    first: u64,
    cookie: u32,
) -> Result<(), NoMemory>
    requires { 0 < cookie → 8 ≤ first }
    ensures { OnOk result ((n : ℕ) → (0 < cookie → load_of (M.meaning memory.now) (first - 8) 8 ≡ Ok n) →
        text.new.items ≡ text.old.items ++ (if nat_eq cookie 0 then [] else count_text n)) }
{
    if cookie == 0 {
        return Ok(());
    }
    append_count(alloc, text, memory, first)
}

/// Puts an element and its place at the end of a text.
fn append_element(alloc: Global, text: &mut Vec<u8>, i: u32, place: u32) -> Result<(), NoMemory>
    ensures { OnOk result (text.new.items ≡ text.old.items ++ (codes "element " ++ decimal i ++ codes " at " ++ decimal place ++ codes "\n")) }
{
    let line = format!(in alloc; "element {i} at {place}\n")?;
    text.extend_from_slice(line.as_bytes())?;
    Ok(())
}

/// Puts an element that was ended and its place at the end of a text.
fn append_end(alloc: Global, text: &mut Vec<u8>, i: u64, place: u64) -> Result<(), NoMemory>
    ensures { OnOk result (text.new.items ≡ text.old.items ++ (codes "end " ++ decimal i ++ codes " at " ++ decimal place ++ codes "\n")) }
{
    let line = format!(in alloc; "end {i} at {place}\n")?;
    text.extend_from_slice(line.as_bytes())?;
    Ok(())
}

/// Puts the elements and their places at the end of a text.
fn append_elements(
    alloc: Global,
    text: &mut Vec<u8>,
    size: u32,
    cookie: u32,
    count: u32,
) -> Result<(), NoMemory>
    requires { array_bytes size cookie count ≤ most_region_bytes }
    ensures { OnOk result (text.new.items ≡ text.old.items ++ flat_map (element_text size cookie) (range_with_len 0 count)) }
{
    for i in 0..count {
        append_element(alloc, text, i, cookie + i * size)?;
    }
    Ok(())
}

/// Puts the elements that were ended and their places at the end of a text.
fn append_ends(
    alloc: Global,
    text: &mut Vec<u8>,
    ended: &[u64],
    first: u64,
    size: u32,
    cookie: u32,
) -> Result<(), NoMemory>
    requires some_size { 1 ≤ size }
    requires behind { All (λ at. first ≤ at) ended.now }
    requires below { All (λ at. at < 2 ^ 41) ended.now }
    ensures { OnOk result ((numbers : List ℕ) → ended.now ≡ map (element_at first size) numbers →
        text.new.items ≡ text.old.items ++ flat_map (end_text size cookie) numbers) }
{
    for at in ended {
        let behind = *at - first;
        append_end(alloc, text, behind / size as u64, cookie as u64 + behind)?;
    }
    Ok(())
}

/// Ends an array, and puts the elements that were ended and their places at the end of a text.
fn append_ending<M: Memory>(
    alloc: Global,
    text: &mut Vec<u8>,
    memory: &mut M,
    first: u64,
    size: u32,
    cookie: u32,
) -> Result<(), NoMemory>
    requires some_size { 1 ≤ size }
    requires multiple { cookie % 8 ≡ 0 }
    requires array { (n : ℕ) × IsArray (M.meaning memory.old) size cookie n first }
    ensures { OnOk result ((n : ℕ) → IsArray (M.meaning memory.old) size cookie n first →
        text.new.items ≡ text.old.items ++ (if nat_eq cookie 0 then [] else flat_map (end_text size cookie) (reverse (range_with_len 0 n)))) }
{
    let mut ended = AddressList::new(alloc);
    // a closed array is never met: `new_array` has opened its region, by its clause `made`
    if delete_array(memory, first, size, cookie, &mut ended).is_err() {
        return Err(NoMemory);
    }
    append_ends(alloc, text, ended.as_slice(), first, size, cookie)?;
    Ok(())
}

/// Makes an array in a new memory and ends it, and tells of both. Sizes and places are bytes. Errors: want of memory.
pub fn array_text(alloc: Global, size: u32, cookie: u32, count: u32) -> Result<Vec<u8>, NoMemory>
    requires some_size { 1 ≤ size }
    requires some_count { 1 ≤ count }
    requires small { array_bytes size cookie count ≤ most_region_bytes }
    requires multiple { cookie % 8 ≡ 0 }
    ensures { IfOk result (λ text. text.items ≡ array_text size cookie count) }
{
    let mut memory = PageMemory::new(alloc);
    let first = new_array(&mut memory, size, cookie, count)?;
    let mut text = Vec::new(alloc);
    append_sizes(alloc, &mut text, size, cookie, count)?;
    append_cookie(alloc, &mut text, &memory, first, cookie)?;
    append_elements(alloc, &mut text, size, cookie, count)?;
    append_ending(alloc, &mut text, &mut memory, first, size, cookie)?;
    Ok(text)
}
