//! What holds of every state that a run reaches, as far as the byte machine rests on it.
//!
//! Blocks of statements, calls and plans do what the subobject machine does, where its state is as the states of runs are: a ready
//! part lies in a complete object that has a view, values have their types, the next event of a plan fits, and a step is never
//! wrong. Here these premises are met for every state of every run of an accepted program (`Accepted.IsAccepted`).
//!
//! This crate owns when a program is accepted (`Accepted`), what is next in a state (`NextSteps`: a statement, the end of a body, an
//! event of a plan) and when a dump tells the leaves of an object in a state (`Dumps`). The layer above may rely on its laws, which
//! do nothing, and on the lemmas behind them: `are_seen`, `something_ahead`, `frames_there`, `body_on_top`, `next_statement`,
//! `next_end`, `end_moves`, `next_event`, `constructor_ends`, `destructor_ends` and `dumps_are_of_the_state`.
#![tactic(auto)]

pub mod laws;

pub use crate::laws::{
    dumps_are_of_the_state, events_happen, ready_parts_are_seen, runs_have_a_next_step,
};
