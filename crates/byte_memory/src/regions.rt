//! Regions in the order of their addresses, and how one of them is found.

ghost use Rattle.std.specs.Prelude.{◌≡◌, ℕ, ◌+◌, ◌<◌, ◌≤◌, All, length, map, slice_get, nat_le, Some, None, MatchResult, MatchOption, true};
ghost use Rattle.std.specs.List.{find};
ghost use Rattle.byte_memory.specs.declared.memory.Region.{Region};
ghost use Rattle.byte_memory.specs.Regions.{holds_bytes, starts, shut, fault_at, IsAscending, CountsStarts};

use crate::memory::{MemoryFault, Region};

/// Whether the n bytes from an address on all lie in the region.
fn is_within(region: Region, at: u64, n: u64) -> bool
    ensures { result ≡ holds_bytes at n region }
{
    region.start <= at && at - region.start <= region.size && n <= region.size - (at - region.start)
}

/// How many regions start there or below: all where the last one does, or else by a binary search.
fn count_up_to(regions: &[Region], at: u64) -> usize
    requires { IsAscending regions.now }
    ensures bound { result ≤ length regions.now }
    ensures count { CountsStarts (λ region. region.start) regions.now at result }
{
    if let Some(last) = regions.last() {
        if last.start <= at {
            return regions.len();
        }
    }
    regions.partition_point(
        |region: &Region| -> bool
            ensures { result ≡ nat_le region.now.start at }
        { region.start <= at },
    )
}

/// The number of the region that holds the n bytes from an address on, and the region.
fn region_of(regions: &[Region], at: u64, n: u64) -> Option<(usize, Region)>
    requires ascending { IsAscending regions.now }
    requires some { 0 < n }
    ensures { MatchOption result
        (find (holds_bytes at n) regions.now ≡ None)
        (λ found. find (holds_bytes at n) regions.now ≡ Some found.1) }
{
    let count = count_up_to(regions, at);
    if count == 0 {
        return None;
    }
    let region = regions[count - 1];
    if is_within(region, at, n) {
        Some((count - 1, region))
    } else {
        None
    }
}

/// Whether the region of that number is open, and holds the n bytes from an address on.
#[inline(always)]
fn is_reached_in(regions: &[Region], number: usize, at: u64, n: u64) -> bool
    requires ascending { IsAscending regions.now }
    requires some { 0 < n }
    ensures { result ≡ true → fault_at regions.now at n ≡ None }
{
    if number >= regions.len() {
        return false;
    }
    let region = regions[number];
    is_within(region, at, n) && region.is_open
}

/// The number of the region in which the n bytes from an address on can be reached, or why they can't: by a search.
#[inline(never)]
fn search(regions: &[Region], at: u64, n: u64) -> Result<usize, MemoryFault>
    requires ascending { IsAscending regions.now }
    requires some { 0 < n }
    ensures { MatchResult result
        (λ _. fault_at regions.now at n ≡ None)
        (λ fault. fault_at regions.now at n ≡ Some fault) }
{
    match region_of(regions, at, n) {
        None => Err(MemoryFault::Range(at)),
        Some((number, region)) => {
            if region.is_open {
                Ok(number)
            } else {
                Err(MemoryFault::Closed(at))
            }
        }
    }
}

/// The number of the region in which the n bytes from an address on can be reached, or why they can't. The region of the number
/// `hint` is looked at first.
#[inline(always)]
pub fn check(regions: &[Region], hint: usize, at: u64, n: u64) -> Result<usize, MemoryFault>
    requires ascending { IsAscending regions.now }
    requires some { 0 < n }
    ensures { MatchResult result
        (λ _. fault_at regions.now at n ≡ None)
        (λ fault. fault_at regions.now at n ≡ Some fault) }
{
    if is_reached_in(regions, hint, at, n) {
        return Ok(hint);
    }
    search(regions, at, n)
}

/// The number of the region in which the n bytes from an address on can be reached, or why they can't. The regions of the two
/// numbers are looked at first.
#[inline(always)]
pub fn check_both(
    regions: &[Region],
    hint: usize,
    other: usize,
    at: u64,
    n: u64,
) -> Result<usize, MemoryFault>
    requires ascending { IsAscending regions.now }
    requires some { 0 < n }
    ensures { MatchResult result
        (λ _. fault_at regions.now at n ≡ None)
        (λ fault. fault_at regions.now at n ≡ Some fault) }
{
    if is_reached_in(regions, hint, at, n) {
        return Ok(hint);
    }
    check(regions, other, at, n)
}

/// The number of the region that starts there, and the region.
pub fn region_from(regions: &[Region], at: u64) -> Option<(usize, Region)>
    requires ascending { IsAscending regions.now }
    requires sizes { All (λ region. 0 < region.size) regions.now }
    ensures { MatchOption result
        (find (starts at) regions.now ≡ None)
        (λ found. (slice_get regions.now found.0 ≡ Some found.1) × (find (starts at) regions.now ≡ Some found.1)) }
{
    let count = count_up_to(regions, at);
    if count == 0 {
        return None;
    }
    let region = regions[count - 1];
    if region.start == at {
        Some((count - 1, region))
    } else {
        None
    }
}

/// Marks a region as closed.
pub fn shut_region(regions: &mut Vec<Region>, number: usize)
    requires ascending { IsAscending regions.old.items }
    requires sizes { All (λ region. 0 < region.size) regions.old.items }
    requires inside { number < length regions.old.items }
    ensures { (r : Region) → slice_get regions.old.items number ≡ Some r → regions.new.items ≡ map (shut r.start) regions.old.items }
{
    regions[number].is_open = false;
}
