//! What a run means, over objects and their subobjects.
//!
//! A state holds the heap objects made so far, the phase of each of their class subobjects, the value of each leaf, the
//! globals, and a frame for each body and each plan of an object that has begun. A pointer names a subobject of an object by
//! its path. No address, offset, table or thunk occurs here. This crate owns the definitions of a value and of a state, of the
//! uses that a statement makes, of the rules that refuse it (`statement_refusal`), of one step (`step`), which is a function, of the
//! limits outside the step, and of a whole run with what it tells (`run_of`).
//!
//! The layers above may rely on the laws: a refusal is the least rule that a use of the statement breaks, and the tests in the
//! order in which a machine can ask them (`staged`) answer it; the rules are what the standard says of subobjects, views and final
//! overriders; a run goes on from the state behind its first steps, and its classes' sizes decide only whether the heap is full.
//! In each state of a run the plans fit and go on, an object stands, is gone or has one plan at work on it, and at each statement
//! all objects are settled. A run of a typed program stays typed and never goes wrong. The crate has no call: the machines above
//! are proved to do these steps.
#![tactic(auto)]

pub mod laws;
pub mod laws_of_rules;
pub mod laws_of_runs;
pub mod laws_of_states;
pub mod laws_of_types;
pub mod outs;

pub use crate::laws::{refusal_is_least, stages_follow, tests_are_enough, tests_refuse};
pub use crate::laws_of_rules::{
    deletes_end_objects, downcasts_have_targets, results_are_in_range, views_decide,
};
pub use crate::laws_of_runs::{runs_go_on, sizes_decide_the_heap_alone, steps_are_counted};
pub use crate::laws_of_states::{
    bodies_stand_on_plans, objects_stand_or_are_gone, plans_fit, plans_go_on,
    statements_are_settled,
};
pub use crate::laws_of_types::runs_are_typed;
pub use crate::outs::{DumpLeaf, LeafList, Out, OutList, Turn, Value};
