//! The generated source: a program of any number of classes, and what is printed of its run.
//!
//! This crate owns the source that `gen N` runs, as a function of N (`specs/Generated.antt`): a virtual base, N
//! classes of which every second one has the class before it as a base, and a `main` that makes an object of each
//! class and prints what a virtual call answers. It owns the summary of a run too (`specs/Summary.antt`): the number
//! of classes, of steps and of printed lines, and the last of these lines.
//!
//! The layer above may rely on: `generate` gives exactly that source, `count_lines` and `last_line` read a printed
//! text, and `summary` gives exactly that summary. The crate knows no rule of the language and runs nothing.
#![tactic(auto)]

pub mod piece;
pub mod source;
pub mod telling;

pub use crate::source::generate;
pub use crate::telling::{count_lines, last_line, summary};
