//! A reader of an image that counts the records of bases that it reads.

ghost use Rattle.std.specs.Prelude.{◌≡◌, ◌<◌, ◌^◌, ◌+◌, ◌*◌, ℕ, Some, true};
ghost use Rattle.byte_code.specs.Numbers.{signed_of, word_of};
ghost use Rattle.byte_code.specs.Images.{word_at};
ghost use Rattle.byte_code.specs.Records.{IsInfoAt, HasBaseRecord, IsTableWord};
ghost use Rattle.byte_code.specs.Readers.{image_of, visits_of, raised};
ghost use Rattle.byte_code.specs.declared.image.InfoRecord.{InfoRecord};
ghost use Rattle.byte_code.specs.declared.image.BaseRecord.{BaseRecord};

use crate::code::ImageBytes;
use crate::image::{BaseRecord, InfoRecord};

/// A reader of an image. It counts how often it has read the record of a direct base in the type information of a class (Itanium
/// C++ ABI 2.9.5); the count stays at the last value of `u64`. It takes no memory.
#[derive(Debug, Drop)]
pub struct BaseReader<'a> {
    image: &'a ImageBytes,
    visits: u64,
}

impl BaseReader<'_> {
    /// A reader that has read no record of a base.
    pub fn new(image: &ImageBytes) -> BaseReader<'_>
        ensures image { image_of result ≡ image.now }
        ensures visits { visits_of result ≡ 0 }
    {
        BaseReader { image, visits: 0 }
    }

    /// How many records of bases it has read.
    pub fn visits(&self) -> u64
        ensures { result ≡ visits_of self.now }
    {
        self.visits
    }

    /// The word of the directory, of a table or of a VTT at an address, read as two's complement.
    pub fn word(&self, at: u64) -> i64
        requires { IsTableWord (word_at (image_of self.now)) at }
        ensures number { (w : ℕ) → word_at (image_of self.now) at ≡ Some w → result ≡ signed_of 8 true w }
        ensures word { (w : ℕ) → word_at (image_of self.now) at ≡ Some w → word_of result ≡ w }
    {
        self.image.word(at)
    }

    /// The type information that stands at an address. Where none stands there, what is given is not said.
    pub fn info(&self, at: u64) -> InfoRecord
        ensures { (r : InfoRecord) → IsInfoAt (word_at (image_of self.now)) at r → result ≡ r }
    {
        self.image.info(at)
    }

    /// The direct base of this number in the type information of a class. Where none stands there, what is given is not said.
    pub fn base(&mut self, info: &InfoRecord, i: u32) -> BaseRecord
        requires number { i < info.now.bases }
        requires low { info.now.first + 16 * i < 2 ^ 64 }
        ensures record { (r : BaseRecord) → HasBaseRecord (word_at (image_of self.old)) (info.now.first + 16 * i) r → result ≡ r }
        ensures visits { visits_of self.new ≡ raised (visits_of self.old) }
        ensures image { image_of self.new ≡ image_of self.old }
    {
        self.visits = self.visits.saturating_add(1);
        self.image.base(info.first + 16 * i as u64)
    }
}
