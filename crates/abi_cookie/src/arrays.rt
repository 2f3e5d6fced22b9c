//! Arrays that `new[]` makes and `delete[]` ends, over any memory. Sizes and places are bytes.

ghost use Rattle.std.specs.Prelude.{◌≡◌, ℕ, ◌+◌, ◌-◌, ◌*◌, ◌%◌, ◌<◌, ◌≤◌, ◌^◌, ◌++◌, None, MatchResult, IfOk, IfErr, OnOk, OnErr, reverse};
ghost use Rattle.byte_memory.specs.Limits.{most_region_bytes};
ghost use Rattle.byte_memory.specs.Regions.{close_fault, fault_at, total_of, rounded};
ghost use Rattle.byte_memory.specs.Store.{Closes, load_of};
ghost use Rattle.abi_cookie.specs.Cookies.{array_bytes};
ghost use Rattle.abi_cookie.specs.Arrays.{AreOpened, IsArray, IsCloseRefusal, MakesArray, count_stored, elements, ended_elements};

use crate::cookies::COUNT_BYTES;
use byte_memory::{Memory, MemoryFault};
use foundation::{NoMemory, Sequence};

/// Addresses.
pub type AddressList = Sequence<u64>;

/// Makes an array of so many elements behind its cookie, and gives the address of element 0 (ISO C++03 5.3.4).
///
/// It opens the region, and stores the count in the 8 bytes before element 0 where there is a cookie.
/// Errors: want of memory, and then all is as before.
pub fn new_array<M: Memory>(
    memory: &mut M,
    size: u32,
    cookie: u32,
    count: u32,
) -> Result<u64, NoMemory>
    requires some_size { 1 ≤ size }
    requires some_count { 1 ≤ count }
    requires small { array_bytes size cookie count ≤ most_region_bytes }
    requires room { total_of (M.meaning memory.old).regions + rounded (array_bytes size cookie count) < 2 ^ 40 }
    requires multiple { cookie % 8 ≡ 0 }
    ensures made { MatchResult result
        (λ first. MakesArray (M.meaning memory.old) (M.meaning memory.new) size cookie count first)
        (λ _. M.meaning memory.new ≡ M.meaning memory.old) }
    ensures array { IfOk result (λ first. AreOpened (M.meaning memory.old) → IsArray (M.meaning memory.new) size cookie count first) }
    ensures opened { AreOpened (M.meaning memory.old) → AreOpened (M.meaning memory.new) }
{
    let Ok(start) = memory.open(cookie as u64 + count as u64 * size as u64) else {
        return Err(NoMemory);
    };
    let first = start + cookie as u64;
    store_count(memory, first, cookie, count);
    Ok(first)
}

/// Stores the count before element 0, where there is a cookie.
fn store_count<M: Memory>(memory: &mut M, first: u64, cookie: u32, count: u32)
    requires behind { cookie ≤ first }
    requires multiple { cookie % 8 ≡ 0 }
    requires reached { 0 < cookie → fault_at (M.meaning memory.old).regions (first - 8) 8 ≡ None }
    ensures { M.meaning memory.new ≡ count_stored (M.meaning memory.old) cookie count first }
{
    if cookie == 0 {
        return;
    }
    // The bytes lie in an open region, so that the store is not refused.
    let _ = memory.store(first - COUNT_BYTES as u64, COUNT_BYTES as u8, count as u64);
}

/// The count in the 8 bytes before element 0 of an array with a cookie. It takes no memory.
///
/// Refusals are those of `load`.
pub fn array_count<M: Memory>(memory: &M, first: u64) -> Result<u64, MemoryFault>
    requires { 8 ≤ first }
    ensures { result ≡ load_of (M.meaning memory.now) (first - 8) 8 }
{
    memory.load(first - COUNT_BYTES as u64, COUNT_BYTES as u8)
}

/// Ends an array: with a cookie it appends the addresses of the elements that the count says, from the last to the first, and then
/// it closes the region (ISO C++03 5.3.5, Itanium C++ ABI 2.7).
///
/// Errors: Closed, with the start of the region, exactly where that is closed, else want of memory. Then all is as before.
pub fn delete_array<M: Memory>(
    memory: &mut M,
    first: u64,
    size: u32,
    cookie: u32,
    ended: &mut AddressList,
) -> Result<(), MemoryFault>
    requires some_size { 1 ≤ size }
    requires multiple { cookie % 8 ≡ 0 }
    requires array { (n : ℕ) × IsArray (M.meaning memory.old) size cookie n first }
    ensures ended { OnOk result ((n : ℕ) → IsArray (M.meaning memory.old) size cookie n first →
        ended.new ≡ ended.old ++ ended_elements first size cookie n) }
    ensures closed { OnOk result (Closes (M.meaning memory.old) (M.meaning memory.new) (first - cookie)) }
    ensures refused { IfErr result (IsCloseRefusal (M.meaning memory.old) (first - cookie)) }
    ensures kept { OnErr result ((M.meaning memory.new ≡ M.meaning memory.old) × (ended.new ≡ ended.old)) }
{
    end_elements(memory, first, size, cookie, ended)?;
    memory.close(first - cookie as u64)
}

/// Appends the addresses of the elements that the count says, from the last to the first, where there is a cookie.
///
/// Errors: as those of `delete_array`, but without a cookie none.
fn end_elements<M: Memory>(
    memory: &M,
    first: u64,
    size: u32,
    cookie: u32,
    ended: &mut AddressList,
) -> Result<(), MemoryFault>
    requires some_size { 1 ≤ size }
    requires multiple { cookie % 8 ≡ 0 }
    requires array { (n : ℕ) × IsArray (M.meaning memory.now) size cookie n first }
    ensures ended { OnOk result ((n : ℕ) → IsArray (M.meaning memory.now) size cookie n first →
        ended.new ≡ ended.old ++ ended_elements first size cookie n) }
    ensures reached { OnOk result (0 < cookie → close_fault (M.meaning memory.now).regions (first - cookie) ≡ None) }
    ensures refused { IfErr result (IsCloseRefusal (M.meaning memory.now) (first - cookie)) }
    ensures kept { OnErr result (ended.new ≡ ended.old) }
{
    if cookie == 0 {
        return Ok(());
    }
    let Ok(count) = array_count(memory, first) else {
        return Err(MemoryFault::Closed(first - cookie as u64));
    };
    append_ended(ended, first, size, count)
}

/// Puts the addresses of so many elements at the end of a list, from the last to the first.
///
/// Errors: want of memory, and then the list is as before.
fn append_ended(
    ended: &mut AddressList,
    first: u64,
    size: u32,
    count: u64,
) -> Result<(), MemoryFault>
    requires { first + count * size < 2 ^ 41 }
    ensures ok { OnOk result (ended.new ≡ ended.old ++ reverse (elements first size count)) }
    ensures err { IfErr result (λ fault. fault ≡ MemoryFault.NoMemory) }
    ensures kept { OnErr result (ended.new ≡ ended.old) }
{
    let len = ended.len();
    for i in (0..count).rev() {
        if ended.push(first + i * size as u64).is_err() {
            ended.truncate(len);
            return Err(MemoryFault::NoMemory);
        }
    }
    Ok(())
}

#[cfg(test)]
mod tests {
    use super::*;
    use crate::laws::arrays_stay;
    use byte_memory::PageMemory;
    use std::test::Fail;

    #[test]
    fn ended_twice(rt: HostRuntime) -> Result<(), Fail> {
        let mut memory = PageMemory::new(rt.alloc());
        let first = new_array(&mut memory, 2, 8, 300)?;
        let mut ended = AddressList::new(rt.alloc());
        delete_array(&mut memory, first, 2, 8, &mut ended)?;
        arrays_stay();
        let again = delete_array(&mut memory, first, 2, 8, &mut ended);
        assert!(rt; matches!(again, Err(MemoryFault::Closed(_))));
        assert_eq!(rt; ended.len(), 300);
        Ok(())
    }
}
