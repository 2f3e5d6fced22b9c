//! What stands in an image: words, entries of virtual tables with their thunks, and type information.

ghost use Rattle.std.specs.Prelude.{◌≡◌, ◌<◌, ◌^◌, ◌+◌, ℕ, Some, true};
ghost use Rattle.byte_code.specs.Numbers.{signed_of, word_of};
ghost use Rattle.byte_code.specs.Images.{image_number_at, word_at};
ghost use Rattle.byte_code.specs.Records.{IsEntryAt, IsInfoAt, HasBaseRecord, IsThunkAt, not_zero};
ghost use Rattle.byte_code.specs.declared.image.EntryRecord.{EntryRecord};
ghost use Rattle.byte_code.specs.declared.image.InfoRecord.{InfoRecord};
ghost use Rattle.byte_code.specs.declared.image.BaseRecord.{BaseRecord};
ghost use Rattle.byte_code.specs.declared.image.ThunkRecord.{ThunkRecord};

use crate::code::ImageBytes;
use byteorder::{ByteOrder, LittleEndian};

/// An entry of a virtual table: the number of the code that it runs, none at a pure or unused one, and the address of its thunk,
/// none where nothing is adjusted (Itanium C++ ABI 2.5.2).
#[derive(Clone, Copy, Debug, PartialEq, Eq)]
pub struct EntryRecord {
    pub code: Option<u32>,
    pub thunk: Option<u64>,
}

/// The type information of a class: its number, the flags of its shape, how many direct bases it lists, and the address of the first
/// one, 0 where it lists none (Itanium C++ ABI 2.9.5).
#[derive(Clone, Copy, Debug, PartialEq, Eq)]
pub struct InfoRecord {
    pub class: u32,
    pub flags: u32,
    pub bases: u32,
    pub first: u64,
}

/// A direct base in the type information of a class: the address of its own, and where it lies and what it is (Itanium C++ ABI
/// 2.9.5).
#[derive(Clone, Copy, Debug, PartialEq, Eq)]
pub struct BaseRecord {
    pub info: u64,
    pub offset_flags: i64,
}

/// The adjustments of an entry, in bytes. `this_add` is added to `this`, and then the word that stands `this_vcall` bytes from the
/// address point found there; to a result that is not null the word that stands `ret_vbase` bytes from the address point found there,
/// and then `ret_add`. Where one of the two words is not used its offset is 0.
#[derive(Clone, Copy, Debug, PartialEq, Eq)]
pub struct ThunkRecord {
    pub this_add: i64,
    pub this_vcall: i64,
    pub ret_vbase: i64,
    pub ret_add: i64,
}

/// The number whose eight bytes stand from an index on, the lowest first; none where there are fewer.
#[tactic(auto, unfolding(crate::specs::Images::image_number_at))]
pub fn number_at(bytes: &[u8], at: u128) -> Option<u64>
    ensures { result ≡ image_number_at bytes.now at }
{
    if at > bytes.len() as u128 {
        return None;
    }
    let at = at as usize;
    let chunk = bytes[at..].first_chunk::<8>()?;
    Some(LittleEndian::read_u64(chunk))
}

/// The signed number of a word.
fn signed(word: u64) -> i64
    ensures number { result ≡ signed_of 8 true word }
    ensures word { word_of result ≡ word }
{
    if word < 0x8000_0000_0000_0000 {
        word as i64
    } else {
        (word as i128 - 0x1_0000_0000_0000_0000) as i64
    }
}

/// The address that a word is, none where it is 0.
fn not_zero(word: u64) -> Option<u64>
    ensures { result ≡ not_zero word }
{
    if word == 0 { None } else { Some(word) }
}

impl ImageBytes {
    /// The word at an address and so many bytes behind it, none outside of the image.
    fn number_behind(&self, at: u64, bytes: u64) -> Option<u64>
        ensures { result ≡ word_at self.now (at + bytes) }
    {
        let there = at as u128 + bytes as u128;
        let base = self.base as u128;
        if there < base {
            return None;
        }
        number_at(self.bytes.as_slice(), there - base)
    }

    /// The word at an address as an unsigned number, none outside of the image.
    pub fn number(&self, at: u64) -> Option<u64>
        ensures { result ≡ word_at self.now at }
    {
        self.number_behind(at, 0)
    }

    /// The word at an address and so many bytes behind it, 0 outside of the image.
    fn number_or_zero(&self, at: u64, bytes: u64) -> u64
        ensures { (w : ℕ) → word_at self.now (at + bytes) ≡ Some w → result ≡ w }
    {
        match self.number_behind(at, bytes) {
            Some(number) => number,
            None => 0,
        }
    }

    /// The low 32 bits of the word behind others from an address.
    fn small_behind(&self, at: u64, bytes: u64) -> u32
        ensures { (w : ℕ) → w < 2 ^ 32 → word_at self.now (at + bytes) ≡ Some w → result ≡ w }
    {
        (self.number_or_zero(at, bytes) % 0x1_0000_0000) as u32
    }

    /// The signed word behind others from an address.
    fn signed_behind(&self, at: u64, bytes: u64) -> i64
        ensures { (w : ℕ) → word_at self.now (at + bytes) ≡ Some w → result ≡ signed_of 8 true w }
    {
        signed(self.number_or_zero(at, bytes))
    }

    /// The word at an address, read as two's complement; 0 outside of the image.
    pub fn word(&self, at: u64) -> i64
        ensures number { (w : ℕ) → word_at self.now at ≡ Some w → result ≡ signed_of 8 true w }
        ensures word { (w : ℕ) → word_at self.now at ≡ Some w → word_of result ≡ w }
    {
        signed(self.number_or_zero(at, 0))
    }

    /// The entry whose word stands at an address. Where none stands there, what is given is not said.
    pub fn entry(&self, at: u64) -> EntryRecord
        ensures { (r : EntryRecord) → IsEntryAt (word_at self.now) at r → result ≡ r }
    {
        let address = self.number_or_zero(at, 0);
        if address == 0 {
            return EntryRecord {
                code: None,
                thunk: None,
            };
        }
        EntryRecord {
            code: Some(self.small_behind(address, 0)),
            thunk: not_zero(self.number_or_zero(address, 8)),
        }
    }

    /// The type information that stands at an address. Where none stands there, what is given is not said.
    pub fn info(&self, at: u64) -> InfoRecord
        ensures { (r : InfoRecord) → IsInfoAt (word_at self.now) at r → result ≡ r }
    {
        InfoRecord {
            class: self.small_behind(at, 0),
            flags: self.small_behind(at, 8),
            bases: self.small_behind(at, 16),
            first: self.number_or_zero(at, 24),
        }
    }

    /// The direct base that stands at an address. Where none stands there, what is given is not said.
    pub fn base(&self, at: u64) -> BaseRecord
        ensures { (r : BaseRecord) → HasBaseRecord (word_at self.now) at r → result ≡ r }
    {
        BaseRecord {
            info: self.number_or_zero(at, 0),
            offset_flags: self.signed_behind(at, 8),
        }
    }

    /// The thunk that stands at an address. Where none stands there, what is given is not said.
    pub fn thunk(&self, at: u64) -> ThunkRecord
        ensures { (r : ThunkRecord) → IsThunkAt (word_at self.now) at r → result ≡ r }
    {
        ThunkRecord {
            this_add: self.signed_behind(at, 0),
            this_vcall: self.signed_behind(at, 8),
            ret_vbase: self.signed_behind(at, 16),
            ret_add: self.signed_behind(at, 24),
        }
    }
}
