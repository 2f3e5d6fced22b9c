//! The layer of leaves that has two bits for each.

ghost use Rattle.std.specs.Prelude.{◌≡◌, ◌<◌, ℕ, IfOk, nat_eq, if◌then◌else◌};
ghost use Rattle.path_columns.specs.Columns.{most_items};
ghost use Rattle.path_heap.specs.declared.state.Value.TheVariants.{Unset};

use crate::byte_layer::ByteLayer;
use crate::leaf_codes::{pair_by_code, pair_code};
use crate::state::Value;
use foundation::NoMemory;
use path_columns::Codes;
use std::alloc::Global;

/// The code that says that the next layer has the value.
const NEXT: u64 = 3;

/// Values by number: unset leaves, 0 and 1 in two bits, and all other values in the next layer.
#[derive(Drop)]
pub(crate) struct PairLayer {
    /// The code of each leaf, 3 where the next layer has its value.
    codes: Codes<2>,
    /// The layer of a byte a leaf.
    rest: ByteLayer,
}

impl PairLayer {
    ghost use Rattle.path_heap.specs.invariants.Layers.{in_pair_layer};

    /// No value is set. It takes no memory.
    pub(crate) fn new(alloc: Global) -> PairLayer
        ensures { (n : ℕ) → in_pair_layer result n ≡ Unset }
    {
        PairLayer {
            codes: Codes::new(alloc),
            rest: ByteLayer::new(alloc),
        }
    }

    /// The value of a leaf.
    pub(crate) fn get(&self, n: u64) -> Value
        ensures { result ≡ in_pair_layer self.now n }
    {
        match pair_by_code(self.codes.get(n)) {
            Some(value) => value,
            None => self.rest.get(n),
        }
    }

    /// Sets the value of a leaf.
    ///
    /// Errors: want of memory. Each other leaf then has what it had.
    pub(crate) fn set(&mut self, n: u64, value: Value) -> Result<(), NoMemory>
        requires { n < most_items }
        ensures set { IfOk result (λ _. (m : ℕ) → in_pair_layer self.new m ≡ (if nat_eq m n then value else in_pair_layer self.old m)) }
        ensures others { (m : ℕ) → (m ≡ n → ⊥) → in_pair_layer self.new m ≡ in_pair_layer self.old m }
    {
        match pair_code(value) {
            Some(code) => {
                self.codes.set(n, code)?;
            }
            None => {
                self.codes.set(n, NEXT)?;
                self.rest.set(n, value)?;
            }
        }
        Ok(())
    }
}
