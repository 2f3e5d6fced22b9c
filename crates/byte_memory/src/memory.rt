//! The trait of all memories.

ghost use Rattle.std.specs.Prelude.{◌≡◌, ◌+◌, ◌*◌, ◌/◌, ◌<◌, ◌≤◌, ◌^◌, Some, None, MatchResult, IfOk, is_some};
ghost use Rattle.byte_memory.specs.Limits.{most_region_bytes};
ghost use Rattle.byte_memory.specs.Bits.{AreOneOrApart};
ghost use Rattle.byte_memory.specs.Regions.{fault_at, close_fault, copy_fault, total_of, rounded, IsAscending};
ghost use Rattle.byte_memory.specs.Store.{Store, IsRoom, open_of, byte_at, byte_span, set_of};
ghost use Rattle.byte_memory.specs.Store.{load_of, load_bits_of, store_of, store_bits_of, copied_store, copy_bits_of, Closes, IsChanged};

use thiserror::Error;

/// A region of memory: `size` bytes from the address `start` on.
#[derive(Clone, Copy, Debug, PartialEq, Eq)]
pub struct Region {
    pub start: u64,
    pub size: u64,
    pub is_open: bool,
}

/// Why a call of a memory was refused, with the address that the call named.
#[derive(Clone, Copy, Debug, PartialEq, Eq, Error)]
pub enum MemoryFault {
    /// A bit was never stored since its region was opened.
    #[error("a byte at {0} is unset")]
    Unset(u64),
    /// The region was closed.
    #[error("the region at {0} is closed")]
    Closed(u64),
    /// The bytes do not all lie in one region.
    #[error("no region holds the bytes at {0}")]
    Range(u64),
    /// There was no memory for a new region.
    #[error("out of memory")]
    NoMemory,
}

/// How many bytes hold one of so many bits, from a bit of the first of them on.
pub fn byte_span(first: u8, bits: u8) -> u8
    requires inside { first < 8 }
    requires word { first + bits ≤ 64 }
    ensures { result ≡ (first + bits + 7) / 8 }
{
    (first + bits + 7) / 8
}

/// Whether bits are set, by what a load of them answered.
fn set_by(loaded: Result<u64, MemoryFault>) -> Result<bool, MemoryFault>
    ensures { result ≡ set_of loaded }
{
    match loaded {
        Ok(_) => Ok(true),
        Err(MemoryFault::Unset(_)) => Ok(false),
        Err(fault) => Err(fault),
    }
}

/// A memory of regions. Sizes and widths are in bytes, where a call does not name bits.
///
/// Bit 0 of a byte is its lowest. A stored byte has all its bits set.
pub trait Memory {
    /// What it is, however it is kept.
    ghost meaning: { Self → Store };

    /// Opens a new region of unset bits, at a multiple of 16 above all earlier regions and below 2^41.
    ///
    /// Its one refusal is `NoMemory`, after which all is as before.
    fn open(&mut self, size: u64) -> Result<u64, MemoryFault>
        requires positive { 0 < size }
        requires small { size ≤ most_region_bytes }
        requires room { total_of (meaning self.old).regions + rounded size < 2 ^ 40 }
        ensures { MatchResult result
            (λ at. IsRoom (meaning self.old) at size
            × (meaning self.new ≡ open_of (meaning self.old) at size))
            (λ fault. (fault ≡ MemoryFault.NoMemory) × (meaning self.new ≡ meaning self.old)) };

    /// Closes the region that starts there, and unsets its bits.
    ///
    /// Range where no region starts there, else Closed where it is closed; then all is as before.
    fn close(&mut self, at: u64) -> Result<(), MemoryFault>
        ensures { MatchResult result
            (λ _. Closes (meaning self.old) (meaning self.new) at)
            (λ fault. (close_fault (meaning self.old).regions at ≡ Some fault)
            × (meaning self.new ≡ meaning self.old)) };

    /// The number whose bits, the lowest first, stand from the bit `first` of the byte at `at` on.
    ///
    /// Range where the bytes that hold one of them do not all lie in one region, else Closed where that is closed, else
    /// Unset where one of the bits was never stored.
    fn load_bits(&self, at: u64, first: u8, bits: u8) -> Result<u64, MemoryFault>
        requires inside { first < 8 }
        requires some { 0 < bits }
        requires word { first + bits ≤ 64 }
        ensures value { result ≡ load_bits_of (meaning self.now) at first bits }
        ensures fits { IfOk result (λ number. number < 2 ^ bits) };

    /// Stores the low bits of a value there, and changes no other bit. Refusals are those of `load_bits` but Unset.
    fn store_bits(&mut self, at: u64, first: u8, bits: u8, value: u64) -> Result<(), MemoryFault>
        requires inside { first < 8 }
        requires some { 0 < bits }
        requires word { first + bits ≤ 64 }
        ensures { IsChanged result (fault_at (meaning self.old).regions at (byte_span first bits))
            (meaning self.old) (meaning self.new) (store_bits_of (meaning self.old) at first bits value) };

    /// Gives the bits from the bit `first` of the byte at `to` on the values of those of the byte at `from`, and unsets
    /// each whose bit at `from` is unset; it changes no other bit, and takes no memory. The two ranges are equal or have
    /// no bit in common.
    ///
    /// Refusals are those of `store_bits`, of `from` before `to`, each with its address; then all is as before.
    fn copy_bits(&mut self, from: u64, to: u64, first: u8, bits: u8) -> Result<(), MemoryFault>
        requires inside { first < 8 }
        requires some { 0 < bits }
        requires word { first + bits ≤ 64 }
        requires apart { AreOneOrApart (8 * from) (8 * to) bits }
        ensures { IsChanged result (copy_fault (meaning self.old).regions from to (byte_span first bits))
            (meaning self.old) (meaning self.new) (copy_bits_of (meaning self.old) from to first bits) };

    /// Whether the bit was stored. Range where no region holds its byte, else Closed where that is closed.
    fn bit_set(&self, at: u64, bit: u8) -> Result<bool, MemoryFault>
        requires { bit < 8 }
        ensures { MatchResult result
            (λ set. (fault_at (meaning self.now).regions at 1 ≡ None)
            × (set ≡ is_some ((meaning self.now).bit (8 * at + bit))))
            (λ fault. fault_at (meaning self.now).regions at 1 ≡ Some fault) }
    {
        set_by(self.load_bits(at, bit, 1))
    }

    /// Whether all eight bits of the byte were stored. Refusals are those of `bit_set`.
    fn is_set(&self, at: u64) -> Result<bool, MemoryFault>
        ensures { MatchResult result
            (λ set. (fault_at (meaning self.now).regions at 1 ≡ None)
            × (set ≡ is_some (byte_at (meaning self.now) at)))
            (λ fault. fault_at (meaning self.now).regions at 1 ≡ Some fault) }
    {
        set_by(self.load_bits(at, 0, 8))
    }

    /// The number whose little-endian bytes stand there.
    ///
    /// Range where they do not all lie in one region, else Closed where that is closed, else Unset where a bit of them
    /// was never stored.
    fn load(&self, at: u64, bytes: u8) -> Result<u64, MemoryFault>
        requires some { 0 < bytes }
        requires word { bytes ≤ 8 }
        ensures value { result ≡ load_of (meaning self.now) at bytes }
        ensures fits { IfOk result (λ number. number < 256 ^ bytes) }
    {
        self.load_bits(at, 0, 8 * bytes)
    }

    /// Stores the low bytes of a value, and changes nothing else. Refusals are those of `load` but Unset.
    fn store(&mut self, at: u64, bytes: u8, value: u64) -> Result<(), MemoryFault>
        requires some { 0 < bytes }
        requires word { bytes ≤ 8 }
        ensures { IsChanged result (fault_at (meaning self.old).regions at bytes)
            (meaning self.old) (meaning self.new) (store_of (meaning self.old) at bytes value) }
    {
        self.store_bits(at, 0, 8 * bytes, value)
    }

    /// Gives the bits of the bytes at `to` the values of those at `from`, and unsets each whose bit at `from` is unset;
    /// it changes nothing else, and takes no memory. The two ranges are equal or have no byte in common.
    ///
    /// Refusals are those of `store`, of `from` before `to`, each with its address; then all is as before.
    fn copy(&mut self, from: u64, to: u64, bytes: u8) -> Result<(), MemoryFault>
        requires some { 0 < bytes }
        requires word { bytes ≤ 8 }
        requires apart { AreOneOrApart from to bytes }
        ensures { IsChanged result (copy_fault (meaning self.old).regions from to bytes)
            (meaning self.old) (meaning self.new) (copied_store (meaning self.old) from to bytes) }
    {
        self.copy_bits(from, to, 0, 8 * bytes)
    }

    // No address is given out twice.
    ghost ascends: { (memory : Self) → IsAscending (meaning memory).regions };
}
