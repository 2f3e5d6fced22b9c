//! Where an expression stands.

use crate::scene::{Scene, Setting};
use cxx_hierarchy::Hierarchy;
use cxx_overrider::Overriders;

/// Where an expression stands: the classes and the final overriders of their functions, what its body stands in, the
/// variables that are in scope, and the place in bytes of the first token of its statement.
#[derive(Drop)]
pub struct Site<'a> {
    pub h: &'a Hierarchy,
    pub overriders: &'a Overriders,
    pub setting: &'a Setting,
    pub scene: &'a Scene,
    pub at: u32,
}
