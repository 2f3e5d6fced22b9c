//! Frames in boxes, so that a step moves a pointer and not the frame. A contract sees the frame itself.

ghost use Rattle.std.specs.Prelude.{◌≡◌, ◌∷◌, slice_set, List, IfOk};
ghost use Rattle.cxx_hierarchy.specs.declared.records.ClassId.{ClassId};
ghost use Rattle.cxx_program.specs.declared.program.TypedProgram.{TypedProgram};
ghost use Rattle.path_plan.specs.Phases.{PartEvent};
ghost use Rattle.path_numbers.specs.Numbers.{AreClassNumbers};
ghost use Rattle.path_bodies.specs.Places.{IsIndexOf};
ghost use Rattle.path_events.specs.Plans.{PlanStands};
ghost use Rattle.path_machine.specs.invariants.Changes.{DiffersInLocals, at_next, with_plan};

use crate::frames::{BodyFrame, PlanFrame};
use crate::lists::set;
use cxx_hierarchy::Hierarchy;
use foundation::NoMemory;
use path_bodies::BodyIndex;
use path_heap::Value;
use path_numbers::Numbers;
use std::alloc::Global;
use std::marker::Model;

/// A body that runs.
#[derive(Drop)]
pub struct BodyBox {
    it: Box<BodyFrame>,
}

impl Model for BodyBox {
    ghost use Rattle.path_machine.specs.declared.frames.BodyFrame.{BodyFrame};

    ghost Value = { BodyFrame };

    ghost view = { λ boxed. boxed.it.value };
}

impl BodyBox {
    /// The frame in a box.
    ///
    /// Errors: want of memory.
    pub fn new(alloc: Global, frame: BodyFrame) -> Result<BodyBox, NoMemory>
        ensures { IfOk result (λ boxed. boxed ≡ frame) }
    {
        let it = Box::new(alloc, frame)?;
        Ok(BodyBox { it })
    }

    /// The frame.
    pub fn get(&self) -> &BodyFrame
        ensures { result.now ≡ self.now }
    {
        &*self.it
    }

    /// Control goes on at a statement.
    pub fn go_to(&mut self, next: usize)
        ensures { self.new ≡ at_next self.old next }
    {
        self.it.next = next;
    }

    /// A local takes a value.
    pub fn put_local(&mut self, n: usize, value: Value)
        ensures same { DiffersInLocals self.old self.new }
        ensures locals { self.new.locals.items ≡ slice_set self.old.locals.items n value }
    {
        set(&mut self.it.locals, n, value);
    }
}

/// A heap object under construction or destruction.
#[derive(Drop)]
pub struct PlanBox {
    it: Box<PlanFrame>,
}

impl Model for PlanBox {
    ghost use Rattle.path_machine.specs.declared.frames.PlanFrame.{PlanFrame};

    ghost Value = { PlanFrame };

    ghost view = { λ boxed. boxed.it.value };
}

impl PlanBox {
    /// The frame in a box.
    ///
    /// Errors: want of memory.
    pub fn new(alloc: Global, frame: PlanFrame) -> Result<PlanBox, NoMemory>
        ensures { IfOk result (λ boxed. boxed ≡ frame) }
    {
        let it = Box::new(alloc, frame)?;
        Ok(PlanBox { it })
    }

    /// The frame.
    pub fn get(&self) -> &PlanFrame
        ensures { result.now ≡ self.now }
    {
        &*self.it
    }

    /// The plan goes on behind its upcoming event.
    ///
    /// Errors: want of memory. The plan is then of no use.
    pub fn advance(
        &mut self,
        h: &Hierarchy,
        numbers: &Numbers,
        index: &BodyIndex,
    ) -> Result<(), NoMemory>
        requires { AreClassNumbers h.now numbers.now }
        ensures same { IfOk result (λ _. self.new ≡ with_plan self.old self.new.plan) }
        ensures plan { IfOk result (λ _. (program : TypedProgram) (classes : List ClassId) (e : PartEvent) (rest : List PartEvent) → IsIndexOf program index.now → PlanStands h.now program classes self.old.plan (e ∷ rest) → PlanStands h.now program classes self.new.plan rest) }
    {
        let frame = &mut *self.it;
        frame.plan.advance(h, numbers, index)?;
        Ok(())
    }
}
