//! What the heap tells of a part.

ghost use Rattle.std.specs.Prelude.{◌≡◌, ◌<◌, Some, Option, length, slice_get};
ghost use Rattle.cxx_hierarchy.specs.declared.records.ClassId.{ClassId};
ghost use Rattle.cxx_hierarchy.specs.Classes.{Classes};
ghost use Rattle.cxx_subobject.specs.Subobjects.{class_of};
ghost use Rattle.path_plan.specs.Places.{ObjectPart};
ghost use Rattle.path_plan.specs.Whole.{whole_part};
ghost use Rattle.path_model.specs.Values.{Objects};
ghost use Rattle.path_model.specs.Uses.{class_of_owner, view_of};
ghost use Rattle.path_model.specs.Rules.{is_in_heap_object};
ghost use Rattle.path_heap.specs.Points.{Points, PointsWhole, PointsView, StandsForPart};
ghost use Rattle.path_heap.specs.Stands.{HeapStands, HasBegun, phase_of};
ghost use Rattle.path_heap.specs.invariants.Columns.{cell_at, row_at, view_number};
ghost use Rattle.path_heap.specs.Running.{entry_at};
ghost use Rattle.path_heap.specs.invariants.Cuts.{IsObjectAt};

use crate::heap::Heap;
use crate::lists::object_at;
use crate::parts::{outer_at, whole_behind};
use crate::state::{Cell, NumberedPart, ObjectRow, Phase};
use cxx_hierarchy::ClassId;

impl Heap {
    /// The cell of a part.
    pub(crate) fn cell(&self, n: u64) -> Cell
        ensures { result ≡ cell_at self.now n }
    {
        self.parts.cell(n)
    }

    /// How far behind a complete object the innermost part of it stands that runs.
    pub(crate) fn top(&self, n: u64) -> Option<u16>
        ensures { result ≡ entry_at self.now.parts.tops n }
    {
        self.parts.top(n)
    }

    /// The number of the heap object whose part has a number.
    pub(crate) fn object_at(&self, n: u64) -> u32
        ensures { IsObjectAt self.now.objects.items n result }
    {
        object_at(&self.objects, n)
    }

    /// The row of a heap object.
    pub(crate) fn row(&self, k: u32) -> ObjectRow
        ensures { result ≡ row_at self.now k }
    {
        match self.objects.get(k as usize) {
            Some(row) => *row,
            // never met for a heap object: each has a row, by `HeapStands`
            None => ObjectRow {
                class: ClassId(0),
                start: 0,
                is_closed: true,
            },
        }
    }

    /// The number of the heap object of a part. No more than 4,194,304 objects are kept (`few` of the heap), so that a number is left behind it.
    pub fn object(&self, n: u64) -> u32
        ensures is { (h : Classes) (s : Objects) (p : ObjectPart) → HeapStands h self.now s → Points h s.classes n p → p.object ≡ result }
        ensures small { result < 4294967295 }
    {
        self.object_at(n)
    }

    /// The number of the whole of the heap object of a part.
    pub fn heap_object(&self, n: u64) -> u64
        ensures { (h : Classes) (s : Objects) (p : ObjectPart) (c : ClassId) → HeapStands h self.now s → Points h s.classes n p → slice_get s.classes p.object ≡ Some c → Points h s.classes result (whole_part p.object c) }
    {
        self.row(self.object_at(n)).start
    }

    /// The class of the heap object of a part.
    pub fn object_class(&self, n: u64) -> ClassId
        ensures { (h : Classes) (s : Objects) (p : ObjectPart) → HeapStands h self.now s → Points h s.classes n p → slice_get s.classes p.object ≡ Some result }
    {
        self.row(self.object_at(n)).class
    }

    /// How many heap objects have been made.
    pub fn count(&self) -> usize
        ensures { (h : Classes) (s : Objects) → HeapStands h self.now s → length s.classes ≡ result }
    {
        self.objects.len()
    }

    /// The phase of a part.
    pub fn phase(&self, n: u64) -> Phase
        ensures { (h : Classes) (s : Objects) (p : ObjectPart) → HeapStands h self.now s → Points h s.classes n p → s.phases.phase p ≡ phase_of result }
    {
        self.cell(n).phase
    }

    /// Whether the destruction of a part's heap object has ended.
    pub fn is_closed(&self, n: u64) -> bool
        ensures { (h : Classes) (s : Objects) (p : ObjectPart) → HeapStands h self.now s → Points h s.classes n p → s.is_closed p.object ≡ result }
    {
        self.row(self.object_at(n)).is_closed
    }

    /// The class of a part that has begun.
    pub fn class(&self, n: u64) -> ClassId
        ensures { (h : Classes) (s : Objects) (p : ObjectPart) → HeapStands h self.now s → Points h s.classes n p → HasBegun s p → class_of p.at ≡ Some result }
    {
        self.cell(n).class
    }

    /// The number of the complete object of a part that has begun.
    pub fn whole(&self, n: u64) -> u64
        ensures { (h : Classes) (s : Objects) (p : ObjectPart) → HeapStands h self.now s → Points h s.classes n p → HasBegun s p → PointsWhole h s.classes result p }
    {
        whole_behind(n, self.cell(n).back)
    }

    /// The class of the complete object of a part that has begun.
    pub fn owner_class(&self, n: u64) -> ClassId
        ensures { (h : Classes) (s : Objects) (p : ObjectPart) → HeapStands h self.now s → Points h s.classes n p → HasBegun s p → class_of_owner h s p ≡ Some result }
    {
        self.cell(n).owner
    }

    /// A part that has begun, with what its events name.
    pub fn part(&self, n: u64) -> NumberedPart
        ensures { (h : Classes) (s : Objects) (p : ObjectPart) → HeapStands h self.now s → Points h s.classes n p → HasBegun s p → StandsForPart h s.classes result p }
    {
        let cell = self.cell(n);
        NumberedPart {
            number: n,
            class: cell.class,
            whole: whole_behind(n, cell.back),
            owner: cell.owner,
        }
    }

    /// Whether the complete object of a part that has begun is the heap object itself, and no member.
    pub fn is_in_heap_object(&self, n: u64) -> bool
        ensures { (h : Classes) (s : Objects) (p : ObjectPart) → HeapStands h self.now s → Points h s.classes n p → HasBegun s p → is_in_heap_object p.owner ≡ result }
    {
        self.row(self.object_at(n)).start == whole_behind(n, self.cell(n).back)
    }

    /// The number of the view of the complete object of a part that has begun, and None where it has no view.
    pub fn view(&self, n: u64) -> Option<u64>
        ensures { (h : Classes) (s : Objects) (p : ObjectPart) → HeapStands h self.now s → Points h s.classes n p → HasBegun s p → PointsView h s.classes p result (view_of h s p) }
    {
        let own = self.cell(n);
        let whole = whole_behind(n, own.back);
        view_of_whole(
            self.cell(whole).phase,
            whole,
            outer_at(whole, self.top(whole)),
        )
    }
}

/// The number of a view: of the whole while it is complete, else of the innermost part that runs.
fn view_of_whole(phase: Phase, whole: u64, top: Option<u64>) -> Option<u64>
    ensures { result ≡ view_number phase whole top }
{
    match phase {
        Phase::Complete => Some(whole),
        Phase::Raw
        | Phase::InBases
        | Phase::ReadyBuilding
        | Phase::ReadyEnding
        | Phase::EndingBases
        | Phase::Ended => top,
    }
}
