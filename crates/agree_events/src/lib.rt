//! What constructors and destructors do, event by event, over bytes (Itanium C++ ABI 2.6; ISO C++03 12.6.2, 12.4, 12.7).
//!
//! The rules of the language give the construction of an object as one list of events; code gives it as frames of parts, each
//! with what is left of the items of its class. The crate owns that relation. First without a byte: the parts whose plans go on
//! stand for the phases and stacks of a state, each event that fits leads on to the parts that it opens, and what is left of all
//! of them is what is left of the plan. Then over bytes: the ops of an event, run by the frame on top, lead from bytes, notes and
//! heap objects that stand for the objects of a state to those that stand for the objects after the event, and tell what it tells;
//! and its whole block leads to the frames of the parts that it opens, to the next element of an array, to a body, or to the frame
//! below.
//!
//! Its functions are laws, which do nothing.
#![tactic(auto)]

pub mod laws;

pub use crate::laws::{
    bodies_of_plans_close, bodies_run_between, events_keep_the_columns, first_parts_stand,
    left_parts_are_the_plan, parts_go_on, plans_agree,
};
