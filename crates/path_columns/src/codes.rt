//! Codes by number, some bits each.

ghost use Rattle.std.specs.Prelude.{◌≡◌, ◌<◌, ◌^◌, ℕ, IfOk, OnErr, nat_eq, if◌then◌else◌};
ghost use Rattle.path_columns.specs.Columns.{most_items};
ghost use Rattle.path_columns.specs.Digits.{IsCodeWidth};

use crate::digits::{digit, with_digit};
use crate::slots::Slots;
use foundation::NoMemory;
use std::alloc::Global;

/// A code of so many bits for each number, 0 where none was set. Words of 64 bits have the codes of numbers side by side.
#[derive(Drop)]
pub struct Codes<const BITS: u64> {
    words: Slots<u64>,
    ghost wide: { IsCodeWidth BITS },
}

impl<const BITS: u64> Codes<BITS> {
    ghost use Rattle.path_columns.specs.Codes.{code_at};

    /// No code is set. It takes no memory.
    pub fn new(alloc: Global) -> Codes<BITS>
        requires { IsCodeWidth BITS }
        ensures { (n : ℕ) → code_at result n ≡ 0 }
    {
        Codes {
            words: Slots::new(alloc, 0),
        }
    }

    /// The code of a number.
    #[inline]
    pub fn get(&self, n: u64) -> u64
        ensures { result ≡ code_at self.now n }
    {
        let width = 64 / BITS;
        digit(self.words.get(n / width), BITS, n % width)
    }

    /// Sets the code of a number.
    ///
    /// Errors: want of memory. Each number then has what it had.
    pub fn set(&mut self, n: u64, code: u64) -> Result<(), NoMemory>
        requires low { n < most_items }
        requires small { code < 2 ^ BITS }
        ensures set { IfOk result (λ _. (m : ℕ) → code_at self.new m ≡ (if nat_eq m n then code else code_at self.old m)) }
        ensures kept { OnErr result ((m : ℕ) → code_at self.new m ≡ code_at self.old m) }
    {
        let width = 64 / BITS;
        let old = self.words.get(n / width);
        let word = with_digit(old, BITS, n % width, code);
        if word != old {
            self.words.set(n / width, word)?;
        }
        Ok(())
    }
}
