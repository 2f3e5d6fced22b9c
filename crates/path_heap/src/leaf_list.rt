//! The values of all leaves, each in the room that it takes.

ghost use Rattle.std.specs.Prelude.{◌≡◌, ◌≤◌, ◌+◌, ◌++◌, [], IfOk, length, replicate, slice_set};
ghost use Rattle.path_columns.specs.Columns.{item_in, most_items};
ghost use Rattle.path_heap.specs.declared.state.Value.TheVariants.{Unset};

use crate::pair_layer::PairLayer;
use crate::state::Value;
use foundation::NoMemory;
use std::alloc::Global;
use std::marker::Model;

/// A list of values, most of which are unset. The first of some layers that can hold a value has it: an unset leaf, 0 and 1 take two
/// bits, a number below 128 a byte more, one of 31 bits and its sign four bytes, and a pointer or a number of 61 bits eight.
/// A contract sees the values, and the blank one.
#[derive(Drop)]
pub struct LeafList {
    layers: PairLayer,
    len: usize,
    ghost few: { len ≤ most_items },
}

impl Model for LeafList {
    ghost use Rattle.std.specs.Prelude.{◌≡◌, ◌≤◌, ℕ};
    ghost use Rattle.path_columns.specs.Paged.{listed};
    ghost use Rattle.path_columns.specs.Columns.{Column as ColumnOf};
    ghost use Rattle.path_heap.specs.declared.state.Value.{Value as ValueOf};
    ghost use Rattle.path_heap.specs.declared.state.Value.TheVariants.{Unset};
    ghost use Rattle.path_heap.specs.invariants.Layers.{in_pair_layer};

    ghost Value = { ColumnOf ValueOf };

    ghost view = { λ l. record { blank = Unset; items = listed (in_pair_layer l.layers) l.len } };

    ghost invariant = { λ l. (n : ℕ) → l.len ≤ n → in_pair_layer l.layers n ≡ Unset };
}

impl LeafList {
    /// The empty list. It takes no memory.
    pub fn new(alloc: Global) -> LeafList
        ensures { result ≡ record { blank = Unset; items = [] } }
    {
        LeafList {
            layers: PairLayer::new(alloc),
            len: 0,
        }
    }

    /// How many values the list has.
    pub fn len(&self) -> usize
        ensures { result ≡ length self.now.items }
    {
        self.len
    }

    /// The value at a place, and Unset past the end.
    pub fn get(&self, n: u64) -> Value
        ensures { result ≡ item_in self.now n }
    {
        self.layers.get(n)
    }

    /// Sets the value at a place; past the end nothing changes.
    ///
    /// Errors: want of memory.
    pub fn set(&mut self, n: u64, value: Value) -> Result<(), NoMemory>
        ensures blank { self.new.blank ≡ self.old.blank }
        ensures length { length self.new.items ≡ length self.old.items }
        ensures items { IfOk result (λ _. self.new.items ≡ slice_set self.old.items n value) }
    {
        if n as usize >= self.len {
            return Ok(());
        }
        self.layers.set(n, value)?;
        Ok(())
    }

    /// Puts so many unset leaves behind the others. It takes no memory.
    pub fn lengthen(&mut self, count: usize)
        requires room { length self.old.items + count ≤ most_items }
        ensures blank { self.new.blank ≡ self.old.blank }
        ensures items { self.new.items ≡ self.old.items ++ replicate count self.old.blank }
    {
        self.len += count;
    }
}

#[cfg(test)]
mod tests {
    use super::LeafList;
    use crate::state::Value;
    use std::test::Fail;

    /// Values at both ends of what each layer can hold.
    const VALUES: [Value; 21] = [
        Value::Unset,
        Value::Number(0),
        Value::Number(1),
        Value::Number(-1),
        Value::Number(127),
        Value::Number(-127),
        Value::Number(128),
        Value::Number(-128),
        Value::Number(0x7FFF_FFFF),
        Value::Number(-0x7FFF_FFFF),
        Value::Number(0x8000_0000),
        Value::Number(-0x8000_0000),
        Value::Number(0x1FFF_FFFF_FFFF_FFFF),
        Value::Number(0x2000_0000_0000_0000),
        Value::Number(-0x2000_0000_0000_0000),
        Value::Number(0xFFFF_FFFF_FFFF_FFFF),
        Value::Null,
        Value::Pointer(0),
        Value::Pointer(0x1FFF_FFFF_FFFF_FFFF),
        Value::Pointer(0x2000_0000_0000_0000),
        Value::Pointer(0xFFFF_FFFF_FFFF_FFFF),
    ];

    fn same(a: Value, b: Value) -> bool {
        match (a, b) {
            (Value::Unset, Value::Unset) => true,
            (Value::Null, Value::Null) => true,
            (Value::Number(x), Value::Number(y)) => x == y,
            (Value::Pointer(x), Value::Pointer(y)) => x == y,
            (_, _) => false,
        }
    }

    #[test]
    fn each_value_comes_back(rt: HostRuntime) -> Result<(), Fail> {
        let mut leaves = LeafList::new(rt.alloc());
        leaves.lengthen(100);
        for turn in 0..21usize {
            for place in 0..100usize {
                leaves.set(place as u64, VALUES[(place + turn) % 21])?;
            }
            for place in 0..100usize {
                assert!(rt; same(leaves.get(place as u64), VALUES[(place + turn) % 21]));
            }
        }
        assert!(rt; same(leaves.get(100), Value::Unset));
        Ok(())
    }
}
