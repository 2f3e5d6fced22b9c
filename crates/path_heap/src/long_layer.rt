//! The layer of leaves that has 64 bits for each.

ghost use Rattle.std.specs.Prelude.{◌≡◌, ◌<◌, ℕ, IfOk, OnErr, nat_eq, if◌then◌else◌};
ghost use Rattle.path_columns.specs.Columns.{most_items};
ghost use Rattle.path_columns.specs.Slots.{item_at};

use crate::leaf_codes::{long_by_code, long_code};
use crate::state::Value;
use foundation::NoMemory;
use path_columns::Slots;
use std::alloc::Global;

/// Values by number: null, pointers and numbers in 64 bits, and all other values behind them.
#[derive(Drop)]
pub(crate) struct LongLayer {
    /// The code of each leaf, 0 where it is behind them.
    codes: Slots<u64>,
    /// All other values.
    rest: Slots<Value>,
}

impl LongLayer {
    ghost use Rattle.path_heap.specs.invariants.Layers.{in_long_layer};

    /// No value is set. It takes no memory.
    pub(crate) fn new(alloc: Global) -> LongLayer {
        LongLayer {
            codes: Slots::new(alloc, 0),
            rest: Slots::new(alloc, Value::Unset),
        }
    }

    /// The value of a leaf.
    pub(crate) fn get(&self, n: u64) -> Value
        ensures { result ≡ in_long_layer self.now n }
    {
        match long_by_code(self.codes.get(n)) {
            Some(value) => value,
            None => self.rest.get(n),
        }
    }

    /// Sets the value of a leaf.
    ///
    /// Errors: want of memory. Each other leaf then has what it had.
    pub(crate) fn set(&mut self, n: u64, value: Value) -> Result<(), NoMemory>
        requires { n < most_items }
        ensures set { IfOk result (λ _. (m : ℕ) → in_long_layer self.new m ≡ (if nat_eq m n then value else in_long_layer self.old m)) }
        ensures others { (m : ℕ) → (m ≡ n → ⊥) → in_long_layer self.new m ≡ in_long_layer self.old m }
    {
        match long_code(value) {
            Some(code) => {
                self.codes.set(n, code)?;
            }
            None => {
                clear(&mut self.codes, n)?;
                self.rest.set(n, value)?;
            }
        }
        Ok(())
    }
}

/// Sets the code of a leaf to 0, where it is not.
fn clear(codes: &mut Slots<u64>, n: u64) -> Result<(), NoMemory>
    requires { n < most_items }
    ensures set { IfOk result (λ _. (m : ℕ) → item_at codes.new m ≡ (if nat_eq m n then 0 else item_at codes.old m)) }
    ensures kept { OnErr result ((m : ℕ) → item_at codes.new m ≡ item_at codes.old m) }
{
    if codes.get(n) != 0 {
        codes.set(n, 0)?;
    }
    Ok(())
}
