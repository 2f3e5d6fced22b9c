//! What lines are written by.

use cxx_hierarchy::Hierarchy;
use foundation::NoMemory;
use std::alloc::Global;

/// The classes, their layout, and where memory comes from.
#[derive(Drop)]
pub(crate) struct Writer<'a, L> {
    pub alloc: Global,
    pub h: &'a Hierarchy,
    pub layout: &'a L,
}

/// That a piece was put at the end of a text, or want of memory.
pub(crate) type Written = Result<(), NoMemory>;
