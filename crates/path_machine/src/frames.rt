//! Frames of bodies and plans.

ghost use Rattle.std.specs.Prelude.{◌≡◌};
ghost use Rattle.path_machine.specs.Frames.{depth_in};

use crate::boxes::{BodyBox, PlanBox};
use cxx_program::{Conversion, Owner, Variable};
use path_events::Plan;
use path_heap::{NumberedPart, Value};

/// The variable of the frame below that takes a result, and how the result becomes one of its type.
#[derive(Drop)]
pub struct Target {
    pub variable: Variable,
    pub conversion: Conversion,
}

/// A body that runs.
#[derive(Drop)]
pub struct BodyFrame {
    pub owner: Owner,
    pub this: Value,
    pub locals: Vec<Value>,
    /// The number of its next statement.
    pub next: usize,
    /// How a result becomes one of the class of the declaration that was found.
    pub found: Conversion,
    pub target: Option<Target>,
    /// How many calls, `new` and `delete` are open, this one and those below.
    pub depth: u32,
}

/// A heap object under construction or destruction.
#[derive(Drop)]
pub struct PlanFrame {
    /// The whole of the object.
    pub whole: NumberedPart,
    pub is_building: bool,
    pub plan: Plan,
    pub target: Option<Target>,
    /// How many calls, `new` and `delete` are open, this one and those below.
    pub depth: u32,
}

/// A frame of a body or of a plan.
#[derive(Drop)]
pub enum Frame {
    Body(BodyBox),
    Plan(PlanBox),
}

impl Frame {
    /// How many calls, `new` and `delete` are open, this one and those below.
    pub fn depth(&self) -> u32
        ensures { result ≡ depth_in self.now }
    {
        match self {
            Frame::Body(frame) => frame.get().depth,
            Frame::Plan(frame) => frame.get().depth,
        }
    }
}
