//! A plan: its upcoming event, and the parts that are open.

ghost use Rattle.std.specs.Prelude.{◌≡◌, ◌∷◌, List, Some, OnOk, IfOk, reverse};
ghost use Rattle.cxx_hierarchy.specs.declared.records.ClassId.{ClassId};
ghost use Rattle.cxx_hierarchy.specs.Classes.{Classes};
ghost use Rattle.cxx_program.specs.declared.program.TypedProgram.{TypedProgram};
ghost use Rattle.path_plan.specs.Phases.{PartEvent};
ghost use Rattle.path_numbers.specs.Numbers.{AreClassNumbers};
ghost use Rattle.path_bodies.specs.Places.{IsIndexOf};
ghost use Rattle.path_events.specs.Plans.{MeansNext, PlanStands, IsWholePlan};
ghost use Rattle.path_events.specs.invariants.Steps.{GivesNext, first_event, first_stage, at_stage, event_in, stack_behind};

use crate::built::built_step;
use crate::course::Course;
use crate::ended::ended_step;
use crate::frame::{Pending, Stage, Step};
use cxx_hierarchy::Hierarchy;
use foundation::NoMemory;
use path_bodies::BodyIndex;
use path_heap::NumberedPart;
use path_numbers::Numbers;
use path_plan::Form;
use std::alloc::Global;

/// What happens to a part (ISO C++03 12.6.2 p5, 12.4 p6).
#[derive(Clone, Copy)]
pub enum PlanEvent {
    /// Its construction begins.
    Begin(NumberedPart),
    /// Its bases are constructed.
    Ready(NumberedPart),
    /// The initializer of a member, by its number in the class, is next.
    Init(NumberedPart, u32),
    /// The body of its constructor or destructor is next.
    Body(NumberedPart),
    /// Its construction is done.
    Done(NumberedPart),
    /// Its destruction begins.
    Ending(NumberedPart),
    /// The destruction of its bases is next.
    Bases(NumberedPart),
    /// Its destruction has ended.
    End(NumberedPart),
}

/// The first event of a part.
fn first_event(is_building: bool, part: NumberedPart) -> PlanEvent
    ensures { result ≡ first_event is_building part }
{
    if is_building {
        PlanEvent::Begin(part)
    } else {
        PlanEvent::Ending(part)
    }
}

/// The stage behind it.
fn first_stage(is_building: bool) -> Stage
    ensures { result ≡ first_stage is_building }
{
    if is_building {
        Stage::Shared(0)
    } else {
        Stage::Body
    }
}

/// What a part gives next.
fn next_step(course: &Course, is_building: bool) -> Step
    requires { AreClassNumbers course.now.h.now course.now.numbers.now }
    ensures { GivesNext course.now is_building course.now.frame.stage result }
{
    if is_building {
        built_step(course)
    } else {
        ended_step(course)
    }
}

/// The part at another stage.
fn at_stage(frame: Pending, stage: Stage) -> Pending
    ensures { result ≡ at_stage frame stage }
{
    Pending {
        part: frame.part,
        form: frame.form,
        stage,
    }
}

/// The construction or the destruction of a heap object.
#[derive(Drop)]
pub struct Plan {
    pub(crate) is_building: bool,
    pub(crate) upcoming: Option<PlanEvent>,
    pub(crate) stack: Vec<Pending>,
}

impl Plan {
    /// The plan of a heap object, by its whole: all events of its construction, or else of its destruction.
    ///
    /// Errors: want of memory.
    pub fn new(
        alloc: Global,
        h: &Hierarchy,
        whole: NumberedPart,
        is_building: bool,
    ) -> Result<Plan, NoMemory>
        ensures { IfOk result (IsWholePlan h.now whole is_building) }
    {
        h.keeps();
        let mut stack = Vec::new(alloc);
        stack.push(Pending {
            part: whole,
            form: Form::InFull,
            stage: first_stage(is_building),
        })?;
        Ok(Plan {
            is_building,
            upcoming: Some(first_event(is_building, whole)),
            stack,
        })
    }

    /// The upcoming event, and None where there is none.
    pub fn upcoming(&self) -> Option<PlanEvent>
        ensures { (h : Classes) (program : TypedProgram) (classes : List ClassId) (events : List PartEvent) → PlanStands h program classes self.now events → MeansNext h program classes result events }
    {
        self.upcoming
    }

    /// Takes a step of the innermost part.
    fn take(&mut self, frame: Pending, step: Step) -> Result<(), NoMemory>
        ensures building { OnOk result (self.new.is_building ≡ self.old.is_building) }
        ensures upcoming { OnOk result (self.new.upcoming ≡ Some (event_in self.old.is_building step)) }
        ensures stack { OnOk result (reverse self.new.stack.items ≡ stack_behind self.old.is_building frame step (reverse self.old.stack.items)) }
    {
        match step {
            Step::Last(event) => self.upcoming = Some(event),
            Step::Event(event, stage) => {
                self.stack.push(at_stage(frame, stage))?;
                self.upcoming = Some(event);
            }
            Step::Open(part, form, stage) => {
                self.stack.push(at_stage(frame, stage))?;
                self.stack.push(Pending {
                    part,
                    form,
                    stage: first_stage(self.is_building),
                })?;
                self.upcoming = Some(first_event(self.is_building, part));
            }
        }
        Ok(())
    }

    /// Goes on behind the upcoming event.
    ///
    /// Errors: want of memory. The plan is then of no use.
    pub fn advance(
        &mut self,
        h: &Hierarchy,
        numbers: &Numbers,
        index: &BodyIndex,
    ) -> Result<(), NoMemory>
        requires { AreClassNumbers h.now numbers.now }
        ensures { IfOk result (λ _. (program : TypedProgram) (classes : List ClassId) (e : PartEvent) (rest : List PartEvent) → IsIndexOf program index.now → PlanStands h.now program classes self.old (e ∷ rest) → PlanStands h.now program classes self.new rest) }
    {
        h.keeps();
        match self.stack.pop() {
            None => self.upcoming = None,
            Some(frame) => {
                let course = Course {
                    h,
                    numbers,
                    index,
                    frame,
                };
                let step = next_step(&course, self.is_building);
                self.take(frame, step)?;
            }
        }
        Ok(())
    }
}
