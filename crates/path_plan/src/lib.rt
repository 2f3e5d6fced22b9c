//! The plan of an object: what its construction and its destruction do, in order (ISO C++03 12.6.2 p5, 12.4 p6, 12.7).
//!
//! An object is made of parts (`ObjectPart`): its class subobjects, and those of its members and elements. A plan is the
//! flat list of the events that happen to them (`construction`, `destruction`), and each part has a phase. A complete
//! object acts as its view: the whole while it is complete, else the innermost part whose constructor or destructor runs.
//! This crate owns these definitions, when an event fits (`Fits`), what is settled (`Settled`), and the runs in which
//! plans of several objects wait for one another (`Reached`). It has definitions and laws, and no code but the enum `Form`.
//!
//! The layers above may rely on the laws: plans are coherent and complete or end the object, `plan` and `unplan` are
//! their points over the plans of parts, a destruction is a construction backwards, at each statement of a run all
//! objects are settled, and a stack of frames of pieces gives the flat list and the views one event at a time.
#![tactic(auto)]

pub mod form;
pub mod laws;

pub use crate::form::Form;
pub use crate::laws::{
    complete_or_view, constructions_by_frames, destructions_by_frames, parts_lie_in_the_whole,
    plans_are_coherent, plans_are_mirrored, plans_are_of_parts, runs_are_settled, worked_plans,
};
