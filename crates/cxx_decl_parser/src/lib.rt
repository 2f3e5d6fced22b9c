//! From a text to its declarations: the classes, variables and bodies of a source, and its `main`.
//!
//! This crate owns no definition: what a source is, and which tokens it stands for (`SourceReads`), stands in
//! cxx_syntax. The parts and items that hold no body are read by cxx_record_parser, blocks by cxx_body_parser.
//!
//! The layer above may rely on: `parse_source` gives the source of the tokens up to the end of the text, its records
//! are in order for the class pass, and it refuses exactly by the first event: E1, E21 or E2 at the first token with
//! which the tokens begin no source, L3 at the 65th block that is open, or E7 at a second `main`. Blocks are read by
//! recursion, at most 64 deep; all else is read by loops, and each token is looked at a fixed number of times.
#![tactic(auto)]

mod class_part;
mod function;
mod item;
pub mod source;

pub use crate::source::parse_source;
