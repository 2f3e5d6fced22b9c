//! The layer of leaves that has a byte for each.

ghost use Rattle.std.specs.Prelude.{◌≡◌, ◌<◌, ℕ, IfOk, nat_eq, if◌then◌else◌};
ghost use Rattle.path_columns.specs.Columns.{most_items};

use crate::leaf_codes::{number_by_code, number_code};
use crate::state::Value;
use crate::word_layer::WordLayer;
use foundation::NoMemory;
use path_columns::Codes;
use std::alloc::Global;

/// The numbers below this one, and behind its negative, have a code.
const HALF: u64 = 128;

/// Values by number: numbers in a byte, and all other values in the next layer.
#[derive(Drop)]
pub(crate) struct ByteLayer {
    /// The code of each leaf, 0 where the next layer has its value.
    codes: Codes<8>,
    /// The layer of 32 bits a leaf.
    rest: WordLayer,
}

impl ByteLayer {
    ghost use Rattle.path_heap.specs.invariants.Layers.{in_byte_layer};

    /// No value is set. It takes no memory.
    pub(crate) fn new(alloc: Global) -> ByteLayer {
        ByteLayer {
            codes: Codes::new(alloc),
            rest: WordLayer::new(alloc),
        }
    }

    /// The value of a leaf.
    pub(crate) fn get(&self, n: u64) -> Value
        ensures { result ≡ in_byte_layer self.now n }
    {
        match number_by_code(HALF, self.codes.get(n)) {
            Some(value) => value,
            None => self.rest.get(n),
        }
    }

    /// Sets the value of a leaf.
    ///
    /// Errors: want of memory. Each other leaf then has what it had.
    pub(crate) fn set(&mut self, n: u64, value: Value) -> Result<(), NoMemory>
        requires { n < most_items }
        ensures set { IfOk result (λ _. (m : ℕ) → in_byte_layer self.new m ≡ (if nat_eq m n then value else in_byte_layer self.old m)) }
        ensures others { (m : ℕ) → (m ≡ n → ⊥) → in_byte_layer self.new m ≡ in_byte_layer self.old m }
    {
        match number_code(HALF, value) {
            Some(code) => {
                self.codes.set(n, code)?;
            }
            None => {
                self.codes.set(n, 0)?;
                self.rest.set(n, value)?;
            }
        }
        Ok(())
    }
}
