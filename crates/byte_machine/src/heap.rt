//! The heap objects of a run, over a memory.

ghost use Rattle.std.specs.Prelude.{◌≡◌, ◌+◌, ◌*◌, ◌<◌, ◌≤◌, ◌^◌, length, nat_le};
ghost use Rattle.byte_memory.specs.Limits.{most_region_bytes};
ghost use Rattle.byte_memory.specs.Regions.{rounded, CountsStarts};
ghost use Rattle.byte_machine.specs.Heap.{AreObjectsInOrder, LieInRegions, has_address, heap_limit, object_at};

use byte_memory::{Memory, MemoryFault};
use foundation::NoMemory;
use std::alloc::Global;

/// The most bytes that all heap objects of a run may take together.
const HEAP_LIMIT: u64 = 67_108_864;

/// A heap object: its number, from 1 on, and its region and class. It is listed also after its region was closed.
#[derive(Clone, Copy, Debug, PartialEq, Eq)]
pub struct Opened {
    pub number: u32,
    pub start: u64,
    pub size: u32,
    pub class: u32,
}

/// A memory, and the heap objects that were made in it, in the order of their addresses.
#[derive(Drop)]
pub struct Heap<M: Memory> {
    memory: M,
    objects: Vec<Opened>,
    total: u64,
    ghost counted: { 16 * length objects.items ≤ total },
    ghost limited: { total ≤ heap_limit },
    ghost in_order: { AreObjectsInOrder objects.items },
    ghost inside: { LieInRegions objects.items (M.meaning memory).regions },
}

/// A size rounded up to a multiple of 16.
fn round_up(size: u32) -> u64
    ensures { result ≡ rounded size }
{
    (size as u64 + 15) / 16 * 16
}

impl<M: Memory> Heap<M> {
    ghost use Rattle.std.specs.Prelude.{[], IfOk, MatchResult, Some, nat_lt};
    ghost use Rattle.byte_memory.specs.Bits.{AreOneOrApart};
    ghost use Rattle.byte_memory.specs.Store.{IsRoom, byte_span, open_of, store_of, store_bits_of, load_of, load_bits_of, copied_store, copy_bits_of, Closes, IsChanged};
    ghost use Rattle.byte_memory.specs.Regions.{total_of, fault_at, copy_fault, close_fault};
    ghost use Rattle.byte_machine.specs.Heap.{with_heap_object};

    /// A memory in which no heap object was made yet.
    pub fn new(alloc: Global, memory: M) -> Heap<M>
        ensures memory { result.memory ≡ memory }
        ensures objects { result.objects.items ≡ [] }
        ensures total { result.total ≡ 0 }
    {
        Heap {
            memory,
            objects: Vec::new(alloc),
            total: 0,
        }
    }

    /// The memory.
    pub fn memory(&self) -> &M
        ensures { result.now ≡ self.now.memory }
    {
        &self.memory
    }

    /// Whether one more object of this size would pass the limit.
    pub fn is_full(&self, size: u32) -> bool
        ensures { result ≡ nat_lt heap_limit (self.now.total + rounded size) }
    {
        self.total + round_up(size) > HEAP_LIMIT
    }

    /// Opens a region and lists it as a heap object. After NoMemory nothing is said of the heap.
    pub fn make(&mut self, size: u32, class: u32) -> Result<u64, NoMemory>
        requires positive { 0 < size }
        requires small { size ≤ most_region_bytes }
        requires limited { self.old.total + rounded size ≤ heap_limit }
        requires room { total_of (M.meaning self.old.memory).regions + rounded size < 2 ^ 40 }
        ensures at { IfOk result (λ at. IsRoom (M.meaning self.old.memory) at size) }
        ensures memory { IfOk result (λ at. M.meaning self.new.memory ≡ open_of (M.meaning self.old.memory) at size) }
        ensures objects { IfOk result (λ at. self.new.objects.items ≡ with_heap_object self.old.objects.items at size class) }
        ensures total { IfOk result (λ _. self.new.total ≡ self.old.total + rounded size) }
    {
        if self.objects.try_reserve(1).is_err() {
            return Err(NoMemory);
        }
        let number = self.objects.len() as u32 + 1;
        let start = match self.memory.open(size as u64) {
            Ok(start) => start,
            Err(MemoryFault::NoMemory) => return Err(NoMemory),
            Err(_) => unreachable!(),
        };
        let object = Opened {
            number,
            start,
            size,
            class,
        };
        self.objects.push(object)?;
        self.total += round_up(size);
        Ok(start)
    }

    /// Closes the region that starts there; it stays listed. It is refused where none does, or where that is closed.
    pub fn close(&mut self, at: u64) -> Result<(), MemoryFault>
        ensures result { MatchResult result
            (λ _. Closes (M.meaning self.old.memory) (M.meaning self.new.memory) at)
            (λ fault. (close_fault (M.meaning self.old.memory).regions at ≡ Some fault)
            × (M.meaning self.new.memory ≡ M.meaning self.old.memory)) }
        ensures objects { self.new.objects.items ≡ self.old.objects.items }
        ensures total { self.new.total ≡ self.old.total }
    {
        self.memory.close(at)
    }

    /// Why the byte there can't be reached, if so.
    pub fn fault(&self, at: u64) -> Option<MemoryFault>
        ensures { result ≡ fault_at (M.meaning self.now.memory).regions at 1 }
    {
        match self.memory.is_set(at) {
            Ok(_) => None,
            Err(fault) => Some(fault),
        }
    }

    /// The number whose little-endian bytes stand there.
    pub fn load(&self, at: u64, bytes: u8) -> Result<u64, MemoryFault>
        requires some { 0 < bytes }
        requires word { bytes ≤ 8 }
        ensures value { result ≡ load_of (M.meaning self.now.memory) at bytes }
        ensures fits { IfOk result (λ number. number < 256 ^ bytes) }
    {
        self.memory.load(at, bytes)
    }

    /// Stores the low bytes of a value.
    pub fn store(&mut self, at: u64, bytes: u8, value: u64) -> Result<(), MemoryFault>
        requires some { 0 < bytes }
        requires word { bytes ≤ 8 }
        ensures result { IsChanged result (fault_at (M.meaning self.old.memory).regions at bytes)
            (M.meaning self.old.memory) (M.meaning self.new.memory) (store_of (M.meaning self.old.memory) at bytes value) }
        ensures objects { self.new.objects.items ≡ self.old.objects.items }
        ensures total { self.new.total ≡ self.old.total }
    {
        self.memory.store(at, bytes, value)
    }

    /// Copies bytes, set or unset.
    pub fn copy(&mut self, from: u64, to: u64, bytes: u8) -> Result<(), MemoryFault>
        requires some { 0 < bytes }
        requires word { bytes ≤ 8 }
        requires apart { AreOneOrApart from to bytes }
        ensures result { IsChanged result (copy_fault (M.meaning self.old.memory).regions from to bytes)
            (M.meaning self.old.memory) (M.meaning self.new.memory) (copied_store (M.meaning self.old.memory) from to bytes) }
        ensures objects { self.new.objects.items ≡ self.old.objects.items }
        ensures total { self.new.total ≡ self.old.total }
    {
        self.memory.copy(from, to, bytes)
    }

    /// The number whose bits, the lowest first, stand from a bit of the byte there on.
    pub fn load_bits(&self, at: u64, first: u8, bits: u8) -> Result<u64, MemoryFault>
        requires inside { first < 8 }
        requires some { 0 < bits }
        requires word { first + bits ≤ 64 }
        ensures value { result ≡ load_bits_of (M.meaning self.now.memory) at first bits }
        ensures fits { IfOk result (λ number. number < 2 ^ bits) }
    {
        self.memory.load_bits(at, first, bits)
    }

    /// Stores the low bits of a value.
    pub fn store_bits(
        &mut self,
        at: u64,
        first: u8,
        bits: u8,
        value: u64,
    ) -> Result<(), MemoryFault>
        requires inside { first < 8 }
        requires some { 0 < bits }
        requires word { first + bits ≤ 64 }
        ensures result { IsChanged result (fault_at (M.meaning self.old.memory).regions at (byte_span first bits))
            (M.meaning self.old.memory) (M.meaning self.new.memory) (store_bits_of (M.meaning self.old.memory) at first bits value) }
        ensures objects { self.new.objects.items ≡ self.old.objects.items }
        ensures total { self.new.total ≡ self.old.total }
    {
        self.memory.store_bits(at, first, bits, value)
    }

    /// Copies bits, set or unset, from the same bit of both bytes on.
    pub fn copy_bits(&mut self, from: u64, to: u64, first: u8, bits: u8) -> Result<(), MemoryFault>
        requires inside { first < 8 }
        requires some { 0 < bits }
        requires word { first + bits ≤ 64 }
        requires apart { AreOneOrApart (8 * from) (8 * to) bits }
        ensures result { IsChanged result (copy_fault (M.meaning self.old.memory).regions from to (byte_span first bits))
            (M.meaning self.old.memory) (M.meaning self.new.memory) (copy_bits_of (M.meaning self.old.memory) from to first bits) }
        ensures objects { self.new.objects.items ≡ self.old.objects.items }
        ensures total { self.new.total ≡ self.old.total }
    {
        self.memory.copy_bits(from, to, first, bits)
    }

    /// The heap object whose region has the address, open or closed: a binary search.
    pub fn opened(&self, at: u64) -> Option<Opened>
        ensures { result ≡ object_at self.now.objects.items at }
    {
        find_object(&self.objects, at)
    }
}

/// How many heap objects start there or below: all where the last one does, or else by a binary search.
fn count_up_to(objects: &[Opened], at: u64) -> usize
    requires { AreObjectsInOrder objects.now }
    ensures bound { result ≤ length objects.now }
    ensures count { CountsStarts (λ object. object.start) objects.now at result }
{
    if let Some(last) = objects.last() {
        if last.start <= at {
            return objects.len();
        }
    }
    objects.partition_point(
        |object: &Opened| -> bool
            ensures { result ≡ nat_le object.now.start at }
        { object.start <= at },
    )
}

/// Whether the heap object has the address.
fn is_within(object: Opened, at: u64) -> bool
    ensures { result ≡ has_address at object }
{
    object.start <= at && at - object.start < object.size as u64
}

/// The heap object that has the address.
fn find_object(objects: &[Opened], at: u64) -> Option<Opened>
    requires { AreObjectsInOrder objects.now }
    ensures { result ≡ object_at objects.now at }
{
    let count = count_up_to(objects, at);
    if count == 0 {
        return None;
    }
    let object = objects[count - 1];
    if is_within(object, at) {
        Some(object)
    } else {
        None
    }
}
