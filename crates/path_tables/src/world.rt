//! What a run looks at and does not change.

use cxx_hierarchy::Hierarchy;
use cxx_overrider::Overriders;
use path_numbers::Numbers;

/// The classes, the numbers of their parts, and their overriders.
#[derive(Clone, Copy)]
pub struct World<'a> {
    pub h: &'a Hierarchy,
    pub numbers: &'a Numbers,
    pub overriders: &'a Overriders,
}
