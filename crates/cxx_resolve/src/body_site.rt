//! Where the statements of a body stand.

ghost use Rattle.std.specs.Prelude.{◌≡◌};

use cxx_expression::{Scene, Setting, Site};
use cxx_hierarchy::Hierarchy;
use cxx_overrider::Overriders;
use std::alloc::Global;

/// Where the statements of a body stand: the classes and the final overriders of their functions, and what the body stands
/// in.
#[derive(Drop)]
pub struct BodySite<'a> {
    pub alloc: Global,
    pub h: &'a Hierarchy,
    pub overriders: &'a Overriders,
    pub setting: &'a Setting,
}

impl<'a> BodySite<'a> {
    /// Where an expression stands in a statement, whose first token is at a place.
    pub fn site<'b>(&'b self, scene: &'b Scene, at: u32) -> Site<'b>
        ensures h { result.h.now ≡ self.now.h.now }
        ensures overriders { result.overriders.now ≡ self.now.overriders.now }
        ensures setting { result.setting.now ≡ self.now.setting.now }
        ensures scene { result.scene.now ≡ scene.now }
        ensures at { result.at ≡ at }
    {
        Site {
            h: self.h,
            overriders: self.overriders,
            setting: self.setting,
            scene,
            at,
        }
    }
}
