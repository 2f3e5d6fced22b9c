//! What the words of tables are found by.

use abi_slots::Slots;
use cxx_hierarchy::Hierarchy;
use cxx_overrider::Overriders;
use std::alloc::Global;

/// What the words of tables are found by: the classes, their final overriders, their layout and their slots.
#[derive(Drop)]
pub(crate) struct TableSite<'a, L> {
    pub alloc: Global,
    pub h: &'a Hierarchy,
    pub overriders: &'a Overriders,
    pub layout: &'a L,
    pub slots: &'a Slots,
}
