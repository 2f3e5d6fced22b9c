//! What a part that is open is built or destroyed by.

use crate::frame::Pending;
use cxx_hierarchy::Hierarchy;
use path_bodies::BodyIndex;
use path_numbers::Numbers;

/// The classes, the numbers of their parts, which bodies and initializers are declared, and the part that is open.
#[derive(Clone, Copy)]
pub(crate) struct Course<'a> {
    pub h: &'a Hierarchy,
    pub numbers: &'a Numbers,
    pub index: &'a BodyIndex,
    pub frame: Pending,
}
