//! The events of a plan one at a time, over numbered parts.
//!
//! The model's plan of an object is the flat list of its events (`construction`, `destruction`; ISO C++03 12.6.2 p5, 12.4 p6). A
//! running machine needs one event after the other. `Plan` keeps a stack with one entry a part that is open: the part and the
//! stage that its construction or destruction has come to. The next event of the innermost part follows, or the next part inside
//! it opens; only bases and members that give no event are passed over.
//! This crate owns what is left of a part at a stage (`left_of`), when an event of the code is one of the model (`IsEvent`), and
//! when a plan stands for a list of events (`PlanStands`).
//!
//! The layer above may rely on the calls of `Plan`: `new` stands for all events of the object, `upcoming` is the first of them, and
//! `advance` leaves the rest. A plan still stands for its events when another object is made (the law `plans_outlive_new_objects`).
#![tactic(auto)]

pub mod built;
pub mod classes;
pub mod course;
pub mod ended;
pub mod frame;
pub mod kids;
pub mod laws;
pub mod plan;

pub use crate::frame::{Pending, Stage, Step};
pub use crate::laws::plans_outlive_new_objects;
pub use crate::plan::{Plan, PlanEvent};
