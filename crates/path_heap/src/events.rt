//! The events of plans: a part takes a phase, and begins or ends to run.

ghost use Rattle.std.specs.Prelude.{◌≡◌, IfOk};
ghost use Rattle.cxx_hierarchy.specs.Classes.{Classes};
ghost use Rattle.cxx_program.specs.declared.program.TypedProgram.{TypedProgram};
ghost use Rattle.path_plan.specs.Places.{ObjectPart};
ghost use Rattle.path_plan.specs.Phases.{Begin, Ready, Done, Ending, Bases, End};
ghost use Rattle.path_plan.specs.Views.{Fits};
ghost use Rattle.path_model.specs.Values.{Objects};
ghost use Rattle.path_model.specs.Steps.{objects_after};
ghost use Rattle.path_heap.specs.Points.{StandsForPart};
ghost use Rattle.path_heap.specs.Running.{entry_at};
ghost use Rattle.path_heap.specs.Stands.{HeapStands};
ghost use Rattle.path_heap.specs.invariants.Columns.{Marked, Entered, Left, Closed};

use crate::heap::Heap;
use crate::lists::set;
use crate::parts::back_of;
use crate::state::{Cell, NumberedPart, ObjectRow, Phase};
use foundation::NoMemory;

impl Heap {
    /// The part is in this phase.
    fn mark(&mut self, part: NumberedPart, phase: Phase) -> Result<(), NoMemory>
        ensures { IfOk result (λ _. Marked self.old self.new part phase) }
    {
        let cell = Cell {
            class: part.class,
            owner: part.owner,
            back: back_of(part.number, part.whole),
            phase,
        };
        self.parts.set_cell(part.number, cell)?;
        Ok(())
    }

    /// The part is the innermost one that runs in its complete object.
    fn enter(&mut self, part: NumberedPart) -> Result<(), NoMemory>
        ensures { IfOk result (λ _. Entered self.old self.new part) }
    {
        let outer = self.top(part.whole);
        let back = back_of(part.number, part.whole);
        self.parts.set_around(part.number, outer)?;
        self.parts.set_top(part.whole, Some(back))?;
        Ok(())
    }

    /// How far behind the complete object the part stands that was the innermost one when this one began.
    fn back_around(&self, n: u64) -> Option<u16>
        ensures { result ≡ entry_at self.now.parts.around n }
    {
        self.parts.around(n)
    }

    /// The one around it is.
    fn leave(&mut self, part: NumberedPart) -> Result<(), NoMemory>
        ensures { IfOk result (λ _. Left self.old self.new part) }
    {
        let outer = self.back_around(part.number);
        self.parts.set_top(part.whole, outer)?;
        Ok(())
    }

    /// Closes the heap object of a part, where the part is its whole.
    fn close(&mut self, part: NumberedPart)
        ensures { Closed self.old self.new part }
    {
        let object = self.object_at(part.number);
        let row = self.row(object);
        if row.start == part.number {
            let closed = ObjectRow {
                class: row.class,
                start: row.start,
                is_closed: true,
            };
            set(&mut self.objects, object, closed);
        }
    }

    /// Construction begins.
    ///
    /// Errors: want of memory. The heap is then of no use.
    pub fn begin(&mut self, part: NumberedPart) -> Result<(), NoMemory>
        ensures { IfOk result (λ _. (h : Classes) (program : TypedProgram) (s : Objects) (p : ObjectPart) → HeapStands h self.old s → StandsForPart h s.classes part p → Fits h s.phases (Begin p) → HeapStands h self.new (objects_after program s (Begin p))) }
    {
        self.enter(part)?;
        self.mark(part, Phase::InBases)?;
        Ok(())
    }

    /// The bases are constructed.
    ///
    /// Errors: want of memory. The heap is then of no use.
    pub fn ready(&mut self, part: NumberedPart) -> Result<(), NoMemory>
        ensures { IfOk result (λ _. (h : Classes) (program : TypedProgram) (s : Objects) (p : ObjectPart) → HeapStands h self.old s → StandsForPart h s.classes part p → Fits h s.phases (Ready p) → HeapStands h self.new (objects_after program s (Ready p))) }
    {
        self.mark(part, Phase::ReadyBuilding)?;
        Ok(())
    }

    /// Construction is done.
    ///
    /// Errors: want of memory. The heap is then of no use.
    pub fn done(&mut self, part: NumberedPart) -> Result<(), NoMemory>
        ensures { IfOk result (λ _. (h : Classes) (program : TypedProgram) (s : Objects) (p : ObjectPart) → HeapStands h self.old s → StandsForPart h s.classes part p → Fits h s.phases (Done p) → HeapStands h self.new (objects_after program s (Done p))) }
    {
        self.leave(part)?;
        self.mark(part, Phase::Complete)?;
        Ok(())
    }

    /// Destruction begins.
    ///
    /// Errors: want of memory. The heap is then of no use.
    pub fn ending(&mut self, part: NumberedPart) -> Result<(), NoMemory>
        ensures { IfOk result (λ _. (h : Classes) (program : TypedProgram) (s : Objects) (p : ObjectPart) → HeapStands h self.old s → StandsForPart h s.classes part p → Fits h s.phases (Ending p) → HeapStands h self.new (objects_after program s (Ending p))) }
    {
        self.enter(part)?;
        self.mark(part, Phase::ReadyEnding)?;
        Ok(())
    }

    /// The bases are next to be destroyed.
    ///
    /// Errors: want of memory. The heap is then of no use.
    pub fn bases(&mut self, part: NumberedPart) -> Result<(), NoMemory>
        ensures { IfOk result (λ _. (h : Classes) (program : TypedProgram) (s : Objects) (p : ObjectPart) → HeapStands h self.old s → StandsForPart h s.classes part p → Fits h s.phases (Bases p) → HeapStands h self.new (objects_after program s (Bases p))) }
    {
        self.mark(part, Phase::EndingBases)?;
        Ok(())
    }

    /// Destruction has ended; with the whole of a heap object the object is closed.
    ///
    /// Errors: want of memory. The heap is then of no use.
    pub fn end(&mut self, part: NumberedPart) -> Result<(), NoMemory>
        ensures { IfOk result (λ _. (h : Classes) (program : TypedProgram) (s : Objects) (p : ObjectPart) → HeapStands h self.old s → StandsForPart h s.classes part p → Fits h s.phases (End p) → HeapStands h self.new (objects_after program s (End p))) }
    {
        self.leave(part)?;
        self.mark(part, Phase::Ended)?;
        self.close(part);
        Ok(())
    }
}
