//! What is known while a class is laid out.

ghost use Rattle.std.specs.Prelude.{◌≡◌, ◌<◌, None, get_or};
ghost use Rattle.abi_layout.specs.Holding.{holds_base, held_base};
ghost use Rattle.abi_layout.specs.invariants.Scenes.{IsLayoutScene};

use crate::component::PartList;
use crate::holding::virtual_primary;
use crate::known::Known;
use abi_primary::Primary;
use abi_sound::ClassLayout;
use cxx_hierarchy::{ClassId, Hierarchy};
use cxx_subobject::{Subobject, is_same};

/// A class `c` of a hierarchy that is laid out; of the classes before it their rows, what else is known of them, and
/// what their members bring; of these and of the class itself the primary bases; its subobjects in preorder; and by
/// class number, which of these holds a virtual base.
#[derive(Clone, Copy)]
pub struct Scene<'a> {
    pub h: &'a Hierarchy,
    pub c: ClassId,
    pub rows: &'a [ClassLayout],
    pub known: &'a [Known],
    pub members: &'a [PartList],
    pub primaries: &'a [Primary],
    pub list: &'a [Subobject],
    pub holders: &'a [Option<usize>],
}

/// The number, in the list, of the subobject that holds a virtual base.
pub(crate) fn holder(holders: &[Option<usize>], v: ClassId) -> Option<usize>
    ensures { result ≡ get_or holders.now v.0 None }
{
    match holders.get(v.0 as usize) {
        Some(holder) => *holder,
        None => None,
    }
}

/// Whether a subobject holds a virtual base.
fn holds(scene: &Scene, s: &Subobject, v: ClassId) -> bool
    requires scene { IsLayoutScene scene.now.h.now scene.now.c scene.now.rows.now scene.now.known.now scene.now.members.now scene.now.primaries.now scene.now.list.now scene.now.holders.now }
    requires before { v.0 < scene.now.c.0 }
    ensures { result ≡ holds_base scene.now.h.now scene.now.primaries.now scene.now.c s.now v }
{
    match holder(scene.holders, v) {
        Some(n) => is_same(&scene.list[n], s),
        None => false,
    }
}

/// The virtual base that a subobject of class `d` holds, which is its primary base.
pub(crate) fn held_base(scene: &Scene, s: &Subobject, d: ClassId) -> Option<ClassId>
    requires scene { IsLayoutScene scene.now.h.now scene.now.c scene.now.rows.now scene.now.known.now scene.now.members.now scene.now.primaries.now scene.now.list.now scene.now.holders.now }
    requires before { d.0 < scene.now.c.0 }
    ensures { result ≡ held_base scene.now.h.now scene.now.primaries.now scene.now.c s.now d }
{
    match virtual_primary(scene.primaries, d) {
        Some(v) => { if holds(scene, s, v) { Some(v) } else { None } }
        None => None,
    }
}
