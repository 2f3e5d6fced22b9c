//! A new heap object.

ghost use Rattle.std.specs.Prelude.{◌≡◌, ◌<◌, ◌≤◌, IfOk, length};
ghost use Rattle.cxx_hierarchy.specs.Classes.{Classes};
ghost use Rattle.cxx_subobject.specs.Parts.{most_parts};
ghost use Rattle.path_plan.specs.Whole.{whole_part};
ghost use Rattle.path_numbers.specs.Numbers.{AreClassNumbers};
ghost use Rattle.path_model.specs.Values.{Objects};
ghost use Rattle.path_model.specs.Effects.{with_new_object};
ghost use Rattle.path_heap.specs.Points.{Points};
ghost use Rattle.path_heap.specs.Rooms.{most_objects, HasFewParts};
ghost use Rattle.path_heap.specs.Stands.{HeapStands};
ghost use Rattle.path_heap.specs.invariants.Columns.{Made};

use crate::heap::Heap;
use crate::state::ObjectRow;
use cxx_hierarchy::ClassId;
use foundation::NoMemory;
use path_numbers::Numbers;

impl Heap {
    /// Puts a heap object of class c, of so many numbers, behind the others.
    fn push(&mut self, c: ClassId, size: u32) -> Result<u64, NoMemory>
        requires few { length self.old.objects.items < most_objects }
        requires small { size ≤ most_parts }
        ensures { IfOk result (λ start. Made self.old self.new c size start) }
    {
        let start = self.parts.len() as u64;
        let row = ObjectRow {
            class: c,
            start,
            is_closed: false,
        };
        self.objects.push(row)?;
        let count = size as usize;
        self.parts.lengthen(count);
        self.leaves.lengthen(count);
        Ok(start)
    }

    /// Makes a heap object of a class, of which nothing has begun: the number of its whole.
    ///
    /// Errors: want of memory. The heap is then of no use.
    pub fn make(&mut self, numbers: &Numbers, c: ClassId) -> Result<u64, NoMemory>
        requires known { c.0 < length numbers.now }
        requires few { length self.old.objects.items < most_objects }
        requires small { HasFewParts numbers.now c }
        ensures stands { IfOk result (λ n. (h : Classes) (s : Objects) → AreClassNumbers h numbers.now → HeapStands h self.old s → HeapStands h self.new (with_new_object s c)) }
        ensures whole { IfOk result (λ n. (h : Classes) (s : Objects) → AreClassNumbers h numbers.now → HeapStands h self.old s → Points h (with_new_object s c).classes n (whole_part (length s.classes) c)) }
    {
        let size = numbers.in_full(c);
        let start = self.push(c, size)?;
        Ok(start)
    }
}
