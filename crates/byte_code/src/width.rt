//! How many bytes or bits a number takes, and how they are read.

ghost use Rattle.std.specs.Prelude.{◌≡◌, ◌+◌, ◌%◌, ◌<◌, ◌≤◌, ◌^◌};
ghost use Rattle.byte_code.specs.Numbers.{number_of_word, extended, extended_bits};

/// A width of 1, 2, 4 or 8 bytes, read as two's complement or as an unsigned number.
#[derive(Clone, Copy, Debug, PartialEq, Eq)]
pub struct Width {
    pub bytes: u8,
    pub signed: bool,
}

/// A width of 1 to 64 bits, read as two's complement or as an unsigned number.
#[derive(Clone, Copy, Debug, PartialEq, Eq)]
pub struct BitWidth {
    pub bits: u8,
    pub signed: bool,
}

impl Width {
    /// The greatest number of its bytes: each bit of them is set.
    pub fn greatest(self) -> u64
        requires { self.bytes ≤ 8 }
        ensures { result + 1 ≡ 256 ^ self.bytes }
    {
        match self.bytes {
            0 => 0,
            1 => 0xff,
            2 => 0xffff,
            3 => 0xff_ffff,
            4 => 0xffff_ffff,
            5 => 0xff_ffff_ffff,
            6 => 0xffff_ffff_ffff,
            7 => 0xff_ffff_ffff_ffff,
            8 => 0xffff_ffff_ffff_ffff,
            _ => unreachable!(),
        }
    }

    /// The low bytes of a word.
    #[inline(always)]
    pub fn low(self, word: u64) -> u64
        requires { self.bytes ≤ 8 }
        ensures value { result ≡ word % 256 ^ self.bytes }
        ensures fits { result < 256 ^ self.bytes }
    {
        if self.bytes == 8 {
            return word;
        }
        word & self.greatest()
    }

    /// The number that the low bytes of a word stand for.
    #[tactic(auto, using(crate::proofs::Pow::pow_word, crate::proofs::Pow::pow_pos))]
    pub fn number(self, word: u64) -> i128
        requires { self.bytes ≤ 8 }
        ensures { result ≡ number_of_word self word }
    {
        let low = self.low(word);
        let greatest = self.greatest();
        if self.signed && low > greatest / 2 {
            low as i128 - (greatest as i128 + 1)
        } else {
            low as i128
        }
    }

    /// The word of the number that these bytes stand for: a signed width is sign-extended to 64 bits.
    #[inline(always)]
    #[tactic(auto, using(crate::proofs::Pow::pow_word, crate::proofs::Pow::pow_pos))]
    pub fn extend(self, low: u64) -> u64
        requires width { self.bytes ≤ 8 }
        requires fits { low < 256 ^ self.bytes }
        ensures { result ≡ extended self low }
    {
        if self.bytes == 8 {
            return low;
        }
        let greatest = self.greatest();
        if self.signed && low > greatest / 2 {
            low + (u64::MAX - greatest)
        } else {
            low
        }
    }
}

impl BitWidth {
    /// The word of the number that these bits stand for: a signed width is sign-extended to 64 bits.
    #[tactic(auto, using(crate::proofs::Pow::bits_word, crate::proofs::Pow::bit_pos))]
    pub fn extend(self, low: u64) -> u64
        requires width { self.bits ≤ 64 }
        requires fits { low < 2 ^ self.bits }
        ensures { result ≡ extended_bits self low }
    {
        let range = 1u128 << self.bits;
        if self.signed && 2 * (low as u128) >= range {
            (low as u128 + (0x1_0000_0000_0000_0000 - range)) as u64
        } else {
            low
        }
    }
}
