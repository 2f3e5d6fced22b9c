//! Primary bases and their holders (Itanium C++ ABI 1.1 and 2.4).
//!
//! A dynamic class has a virtual pointer. Where it has a primary base, it shares the pointer of that base, which
//! then lies at its start. A virtual base that is the primary base of subobjects lies at the first of them in
//! preorder, which holds it.
//!
//! This crate owns what dynamic, empty and nearly empty classes are (`IsDynamic`, `IsEmpty`, `IsNearlyEmpty`), which
//! base is the primary one (`IsPrimary`), and which subobject holds a virtual base (`holder_of`). The layer above,
//! which lays classes out in the order of their numbers, may rely on: each answer is its definition, by lists that
//! cover the classes before. `dynamic_flags` is the table of the dynamic classes, which takes each class once;
//! `primary_base` and `holder_of` make what they need themselves; `primary_among`, `is_nearly_empty` and `holder_among`
//! take the table or the list of subobjects, and no memory.
#![tactic(auto)]

pub mod flags;
pub mod holders;
pub mod kinds;
pub mod listing;
pub mod nearly_empty;
pub mod primaries;

pub use crate::flags::{dynamic_flags, flag_of};
pub use crate::holders::{holder_among, holder_of};
pub use crate::kinds::{is_dynamic, is_empty};
pub use crate::listing::list_if_virtual;
pub use crate::nearly_empty::is_nearly_empty;
pub use crate::primaries::{primary_among, primary_base};
use cxx_hierarchy::ClassId;

/// The primary base of a class: the base whose virtual pointer it shares (Itanium C++ ABI 2.4).
#[derive(Clone, Copy, Debug, PartialEq, Eq)]
pub enum Primary {
    None,
    Direct(ClassId),
    Virtual(ClassId),
}
