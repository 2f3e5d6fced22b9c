//! What the row of a class is made by.

use crate::vcalls::FunctionList;
use cxx_hierarchy::Hierarchy;
use cxx_overrider::signatures::Numbering;
use std::alloc::Global;

/// The classes, their layout, the numbers of their signatures, and the virtual functions that each class declares.
#[derive(Drop)]
pub(crate) struct RowSite<'a, L> {
    pub alloc: Global,
    pub h: &'a Hierarchy,
    pub layout: &'a L,
    pub numbering: &'a Numbering,
    pub own: &'a [FunctionList],
}
