//! Type information of classes (Itanium C++ ABI 2.9.5).
//!
//! Each class has a record by which a cast at run time walks its bases: none, the one public base at the start of the
//! object, or all direct bases with an offset and flags each, behind flags of the whole class.
//!
//! This crate owns that record as a definition over subobjects and places (`TypeInfos`), and `type_info`, which gives it.
//! The layer above may rely on: `type_info` is that record, over any sound layout.
#![tactic(auto)]

pub mod info;
pub mod repeats;
pub mod walk;

pub use crate::info::type_info;
