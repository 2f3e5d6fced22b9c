//! The layer of leaves that has 32 bits for each.

ghost use Rattle.std.specs.Prelude.{◌≡◌, ◌<◌, ℕ, IfOk, nat_eq, if◌then◌else◌};
ghost use Rattle.path_columns.specs.Columns.{most_items};

use crate::leaf_codes::{number_by_code, number_code};
use crate::long_layer::LongLayer;
use crate::state::Value;
use foundation::NoMemory;
use path_columns::Codes;
use std::alloc::Global;

/// The numbers below this one, and behind its negative, have a code.
const HALF: u64 = 2147483648;

/// Values by number: numbers in 32 bits, and all other values in the next layer.
#[derive(Drop)]
pub(crate) struct WordLayer {
    /// The code of each leaf, 0 where the next layer has its value.
    codes: Codes<32>,
    /// The layer of 64 bits a leaf.
    rest: LongLayer,
}

impl WordLayer {
    ghost use Rattle.path_heap.specs.invariants.Layers.{in_word_layer};

    /// No value is set. It takes no memory.
    pub(crate) fn new(alloc: Global) -> WordLayer {
        WordLayer {
            codes: Codes::new(alloc),
            rest: LongLayer::new(alloc),
        }
    }

    /// The value of a leaf.
    pub(crate) fn get(&self, n: u64) -> Value
        ensures { result ≡ in_word_layer self.now n }
    {
        match number_by_code(HALF, self.codes.get(n)) {
            Some(value) => value,
            None => self.rest.get(n),
        }
    }

    /// Sets the value of a leaf.
    ///
    /// Errors: want of memory. Each other leaf then has what it had.
    pub(crate) fn set(&mut self, n: u64, value: Value) -> Result<(), NoMemory>
        requires { n < most_items }
        ensures set { IfOk result (λ _. (m : ℕ) → in_word_layer self.new m ≡ (if nat_eq m n then value else in_word_layer self.old m)) }
        ensures others { (m : ℕ) → (m ≡ n → ⊥) → in_word_layer self.new m ≡ in_word_layer self.old m }
    {
        match number_code(HALF, value) {
            Some(code) => {
                self.codes.set(n, code)?;
            }
            None => {
                self.codes.set(n, 0)?;
                self.rest.set(n, value)?;
            }
        }
        Ok(())
    }
}
