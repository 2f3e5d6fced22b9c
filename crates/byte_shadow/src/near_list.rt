//! Places of small numbers, each with another place near it, in one sorted list of 12 bytes each.

ghost use Rattle.std.specs.Prelude.{◌≡◌, ◌+◌, ◌<◌, ◌≤◌, [], length, slice_get, nat_le, Some, None, MatchOption, IfSome, IfOk, OnErr, true, false};
ghost use Rattle.std.specs.List.{find};
ghost use Rattle.byte_memory.specs.Regions.{CountsStarts};
ghost use Rattle.byte_shadow.specs.NearLists.{rank_of_place, near_rank, is_near_at, AscendingNear, AreNarrow, IsNearListed, with_other};

use foundation::NoMemory;
use std::alloc::Global;

/// A place whose address has at most 32 bits, and of another place near it the class and how far away it lies. Both classes have
/// numbers of at most 16 bits. It has 12 bytes, where what stands with it has at most two.
#[derive(Clone, Copy)]
pub struct NearPlace<T> {
    pub at: u32,
    pub class: u16,
    pub other_class: u16,
    /// In bytes; whether the other place lies before or behind is the same in the whole list.
    pub distance: u16,
    pub what: T,
}

/// Places, strictly ascending by their ranks.
#[derive(Drop)]
pub struct NearList<T> {
    pub items: Vec<NearPlace<T>>,
    ghost ascending: { AscendingNear items.items },
    ghost narrow: { AreNarrow items.items },
}

/// How many of the last places are searched first: about those of one object.
const NEAR: usize = 64;

/// How many of the last places are searched next, and how many may stand behind one that is put.
const RECENT: usize = 1_024;

/// Where a class at an address stands among others: by the address, and at one address the higher class first, since a
/// constructor begins the class before its bases. A rank is only ever compared.
#[inline(always)]
fn rank_at(at: u32, class: u32) -> u64
    ensures { result ≡ rank_of_place at class }
{
    at as u64 * 65_536 + 65_535_u32.saturating_sub(class) as u64
}

#[inline(always)]
fn near_rank<T: Copy + Drop>(item: NearPlace<T>) -> u64
    ensures { result ≡ near_rank item }
{
    rank_at(item.at, item.class as u32)
}

/// How many places rank there or below, by a binary search.
fn count_among<T: Copy + Drop>(items: &[NearPlace<T>], rank: u64) -> usize
    requires { AscendingNear items.now }
    ensures bound { result ≤ length items.now }
    ensures count { CountsStarts near_rank items.now rank result }
{
    items.partition_point(
        |item: &NearPlace<T>| -> bool
            ensures { result ≡ nat_le (near_rank item.now) rank }
        { near_rank(*item) <= rank },
    )
}

/// How many places rank there or below, if only so many of the last ones have to be searched for it.
fn count_in_last<T: Copy + Drop>(
    items: &[NearPlace<T>],
    searched: usize,
    rank: u64,
) -> Option<usize>
    requires ascending { AscendingNear items.now }
    requires some { 0 < searched }
    ensures { IfSome result (λ count. (count ≤ length items.now) × CountsStarts near_rank items.now rank count) }
{
    let len = items.len();
    if len < searched {
        return None;
    }
    let start = len - searched;
    if near_rank(items[start]) <= rank {
        Some(start + count_among(&items[start..], rank))
    } else {
        None
    }
}

/// How many places rank there or below: all where the last one does, or else by a search, of the last ones alone where that is
/// enough, since places are mostly asked for soon after they were put.
fn count_up_to<T: Copy + Drop>(items: &[NearPlace<T>], rank: u64) -> usize
    requires { AscendingNear items.now }
    ensures bound { result ≤ length items.now }
    ensures count { CountsStarts near_rank items.now rank result }
{
    let len = items.len();
    if len == 0 || near_rank(items[len - 1]) <= rank {
        return len;
    }
    if let Some(count) = count_in_last(items, NEAR, rank) {
        return count;
    }
    if let Some(count) = count_in_last(items, RECENT, rank) {
        return count;
    }
    count_among(items, rank)
}

/// Whether the place is that of a class at an address.
#[inline(always)]
fn is_near_at<T: Copy + Drop>(item: NearPlace<T>, at: u64, class: u32) -> bool
    ensures { result ≡ is_near_at at class item }
{
    item.at as u64 == at && item.class as u32 == class
}

/// Where the place of a class at an address stands, if it is listed.
#[inline(always)]
fn find_index<T: Copy + Drop>(items: &[NearPlace<T>], at: u32, class: u32) -> Option<usize>
    requires { AscendingNear items.now }
    ensures { MatchOption result
        (find (is_near_at at class) items.now ≡ None)
        (λ index. (index < length items.now) × (find (is_near_at at class) items.now ≡ slice_get items.now index)) }
{
    let count = count_up_to(items, rank_at(at, class));
    if count == 0 {
        return None;
    }
    let item = items[count - 1];
    if is_near_at(item, at as u64, class) {
        Some(count - 1)
    } else {
        None
    }
}

/// Whether the place of a class at an address stands at that number of the list.
#[inline(always)]
fn stands_at<T: Copy + Drop>(items: &[NearPlace<T>], index: usize, at: u64, class: u32) -> bool
    requires { AscendingNear items.now }
    ensures { result ≡ true → (index < length items.now) × (find (is_near_at at class) items.now ≡ slice_get items.now index) }
{
    if index >= items.len() {
        return false;
    }
    let item = items[index];
    is_near_at(item, at, class)
}

impl<T: Copy + Drop> NearList<T> {
    ghost use Rattle.std.specs.Prelude.{OnOk, OnErr};

    /// No place. It takes no memory.
    pub fn new(alloc: Global) -> NearList<T>
        ensures { result.items.items ≡ [] }
    {
        NearList {
            items: Vec::new(alloc),
        }
    }

    /// Where the place of a class at an address stands, if it is listed.
    #[inline(always)]
    pub fn index_of(&self, at: u64, class: u32) -> Option<usize>
        ensures { MatchOption result
            (find (is_near_at at class) self.now.items.items ≡ None)
            (λ index. (index < length self.now.items.items) × (find (is_near_at at class) self.now.items.items ≡ slice_get self.now.items.items index)) }
    {
        match u32::try_from(at) {
            Ok(low) => find_index(&self.items, low, class),
            Err(_) => None,
        }
    }

    /// Whether the place of a class at an address stands at that number of the list.
    #[inline(always)]
    pub fn stands_at(&self, index: usize, at: u64, class: u32) -> bool
        ensures { result ≡ true → (index < length self.now.items.items) × (find (is_near_at at class) self.now.items.items ≡ slice_get self.now.items.items index) }
    {
        stands_at(&self.items, index, at, class)
    }

    /// Where a place that is not listed belongs, if at most 1,024 others stand behind it.
    pub fn place_of(&self, item: NearPlace<T>) -> Option<usize>
        ensures { IfSome result (λ index. (index ≤ length self.now.items.items) × CountsStarts near_rank self.now.items.items (near_rank item) index) }
    {
        let count = count_up_to(&self.items, near_rank(item));
        if self.items.len() - count <= RECENT {
            Some(count)
        } else {
            None
        }
    }

    /// Puts a place that is not listed where it belongs. Errors: want of memory; then all is as before.
    pub fn insert(&mut self, index: usize, item: NearPlace<T>) -> Result<(), NoMemory>
        requires within { index ≤ length self.old.items.items }
        requires place { CountsStarts near_rank self.old.items.items (near_rank item) index }
        requires unlisted { find (is_near_at item.at item.class) self.old.items.items ≡ None }
        ensures ok { OnOk result (IsNearListed self.old.items.items self.new.items.items item) }
        ensures err { OnErr result (self.new.items.items ≡ self.old.items.items) }
    {
        self.items.insert(index, item)?;
        Ok(())
    }

    /// Puts another place near, and something else beside, in place of what stands at that number of the list.
    pub fn change(&mut self, index: usize, other_class: u16, distance: u16, what: T)
        requires { index < length self.old.items.items }
        ensures { (item : NearPlace T) → slice_get self.old.items.items index ≡ Some item → IsNearListed self.old.items.items self.new.items.items (with_other item other_class distance what) }
    {
        let item = self.items[index];
        self.items[index] = NearPlace {
            at: item.at,
            class: item.class,
            other_class,
            distance,
            what,
        };
    }

    /// Puts a place where it is listed, or else where it belongs, if at most 1,024 others stand behind it, and tells whether it did.
    ///
    /// Errors: want of memory; then all is as before.
    pub fn put(&mut self, item: NearPlace<T>) -> Result<bool, NoMemory>
        ensures put { IfOk result (λ done. done ≡ true → IsNearListed self.old.items.items self.new.items.items item) }
        ensures left { IfOk result (λ done. done ≡ false → self.new.items.items ≡ self.old.items.items) }
        ensures err { OnErr result (self.new.items.items ≡ self.old.items.items) }
    {
        if let Some(index) = self.index_of(item.at as u64, item.class as u32) {
            self.change(index, item.other_class, item.distance, item.what);
            return Ok(true);
        }
        match self.place_of(item) {
            Some(index) => {
                self.insert(index, item)?;
                Ok(true)
            }
            None => Ok(false),
        }
    }
}
