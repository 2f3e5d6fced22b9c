//! A whole run of a typed program on the machine of paths, with its text.
//!
//! It turns a `PathState` until an answer ends the run, and puts the lines of each step behind those before. A step whose lines
//! would pass the limit on the text leaves none of them, and ends the run.
//!
//! The layer above may rely on `run_paths`: its text and its end are those of the run, with a trace or without, with the limit on
//! its text (`told` of `text_told`), over whatever sound layout. Only want of memory is an error. Places and sizes come from the layout, and
//! all else from the model of a run (`path_model`).
#![tactic(auto)]

mod lines;
pub mod run;
mod sizes;
mod turn;

pub use crate::run::{PathRun, run_paths};
