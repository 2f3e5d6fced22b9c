//! Inputs in two parts: a text of lines, then a line `program`, then a source.
//!
//! This crate owns what divides an input (`specs/Division.antt`: `division`), and how many lines it has (`line_count`). A line ends
//! with a line feed alone; the last one may have none.
//!
//! The layer above may rely on: `divide` gives what stands before the first line that is `program` and what stands behind it, and None
//! exactly where no line is; `line_count` counts a last line without a line feed too. Neither takes memory.
#![tactic(auto)]

pub mod division;

pub use crate::division::{Parts, divide, line_count};
