//! The text of what the byte machine tells, read over its own memory, image and heap objects.
//!
//! This crate owns the leaves of an object by its class and a layout, with their names (`specs/LeafRows.antt`); the text of a dump
//! whose leaves and virtual pointers are read (`specs/RawDumps.antt`); and the text of each thing that a byte machine tells
//! (`specs/RawTexts.antt`). These definitions speak of addresses, bytes and class numbers alone.
//!
//! The layer above may rely on: `append_raw` puts that text at the end of a text, and leaves it as it was in want of memory; a call
//! is told by the number of a block, and `CalledFunctions` finds its function; `is_traced` says whether something is told in a trace
//! alone. The law `raw_texts_are_texts`: where memory, heap objects and notes stand for the objects of a state, and what the machine
//! tells reads as what a run tells of that state, both have one text, with a trace or without.
#![tactic(auto)]

pub mod called;
pub mod dump;
pub mod items;
pub mod laws;
pub mod led;
pub mod members;
pub mod raw_text;
pub mod rows;

pub use crate::called::CalledFunctions;
pub use crate::laws::raw_texts_are_texts;
pub use crate::raw_text::{append_raw, is_traced};
