//! The values of leaves.

ghost use Rattle.std.specs.Prelude.{◌≡◌, IfOk, slice_get};
ghost use Rattle.cxx_hierarchy.specs.Classes.{Classes};
ghost use Rattle.path_model.specs.Values.{Value as ValueOf, Leaf, Objects};
ghost use Rattle.path_model.specs.Effects.{leaf_set};
ghost use Rattle.path_heap.specs.Points.{PointsLeaf};
ghost use Rattle.path_heap.specs.Stands.{HeapStands, Means};
ghost use Rattle.path_heap.specs.invariants.Columns.{value_or_unset, Stored};

use crate::heap::Heap;
use crate::state::Value;
use foundation::NoMemory;

impl Heap {
    /// The value in the column of leaves.
    fn value_at(&self, k: u64) -> Value
        ensures { result ≡ value_or_unset (slice_get self.now.leaves.items k) }
    {
        self.leaves.get(k)
    }

    /// The value of a leaf.
    pub fn leaf(&self, k: u64) -> Value
        ensures { (h : Classes) (s : Objects) (l : Leaf) → HeapStands h self.now s → PointsLeaf h s.classes k l → Means h s.classes result (s.leaf l) }
    {
        self.value_at(k)
    }

    /// Sets the column of leaves.
    fn store(&mut self, k: u64, value: Value) -> Result<(), NoMemory>
        ensures { IfOk result (λ _. Stored self.old self.new k value) }
    {
        self.leaves.set(k, value)?;
        Ok(())
    }

    /// Gives a leaf a value.
    ///
    /// Errors: want of memory. The heap is then of no use.
    pub fn set_leaf(&mut self, k: u64, value: Value) -> Result<(), NoMemory>
        ensures { IfOk result (λ _. (h : Classes) (s : Objects) (l : Leaf) (v : ValueOf) → HeapStands h self.old s → PointsLeaf h s.classes k l → Means h s.classes value v → HeapStands h self.new (leaf_set s l v)) }
    {
        self.store(k, value)?;
        Ok(())
    }
}
