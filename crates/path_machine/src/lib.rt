//! The machine of paths: it runs a typed program as the model says, step by step.
//!
//! It holds the model's state by numbers: the heap, the globals, and a frame for each body and each plan that has begun (`Machine`).
//! It does what path_model's step does: it asks the rules of a statement, then the limits, and then takes the step, or the next
//! event of a plan.
//!
//! This crate owns when a machine stands for a state of the model (`MachineStands`) and a frame for one of the model
//! (`FrameStands`), when a machine is at a step of a run (`IsAtStep`), and what a turn has to be (`TurnAgrees`). Each call of
//! `Machine` leaves a machine that stands for the state after the model's change of the same name: a frame more or less, a
//! variable or a leaf with another value, an object more, an event of a plan. The layer above may rely on `PathState`: `new`
//! stands at the start of the run, and each `step` does the next step of the run exactly, with its refusal or limit, or says
//! that the run has ended; after an end it says the same again.
#![tactic(auto)]

mod bodies;
pub mod boxes;
mod calls;
mod effects;
mod events;
pub mod frames;
mod giving;
pub mod heap_bytes;
pub mod lists;
pub mod machine;
mod moving;
mod next;
mod openings;
pub mod run;
mod scenes;
mod starting;
pub mod state;
mod statements;
mod sums;
mod taking;
pub mod telling;

pub use crate::boxes::{BodyBox, PlanBox};
pub use crate::frames::{BodyFrame, Frame, PlanFrame, Target};
pub use crate::machine::{MOST_HEAP_BYTES, Machine};
pub use crate::run::Run;
pub use crate::state::PathState;
pub use crate::telling::Telling;
