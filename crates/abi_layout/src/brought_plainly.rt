//! What a base brings where its class has no virtual base (Itanium C++ ABI 2.4): no subobject holds anything, so that
//! it does not matter which subobject the base is.

ghost use Rattle.std.specs.Prelude.{◌≡◌, ◌+◌, ◌<◌, ◌≤◌, ◌++◌, [], Contains, OnOk, map, slice_get};
ghost use Rattle.cxx_hierarchy.specs.Classes.{bases_of};
ghost use Rattle.cxx_subobject.specs.declared.Subobject.{Subobject};
ghost use Rattle.abi_emptybase.specs.Table.{moved_part};
ghost use Rattle.abi_layout.specs.Placements.{nvsize_in};
ghost use Rattle.abi_layout.specs.Brought.{base_brings, brought_by};
ghost use Rattle.abi_layout.specs.invariants.Known.{known_parts_of};
ghost use Rattle.abi_layout.specs.invariants.Scenes.{IsLayoutScene};

use crate::brought::base_place;
use crate::component::{PartList, push_moved};
use crate::scene::Scene;
use abi_emptybase::Part;
use cxx_hierarchy::{Base, ClassId};
use foundation::NoMemory;

/// Puts behind the others what a subobject of class `d`, whichever it is, brings by a direct base, this many bytes
/// further.
#[cycle(bring_plain)]
fn bring_plain_base(
    scene: &Scene,
    d: ClassId,
    base: &Base<ClassId>,
    at: u32,
    parts: &mut PartList,
) -> Result<(), NoMemory>
    requires scene { IsLayoutScene scene.now.h.now scene.now.c scene.now.rows.now scene.now.known.now scene.now.members.now scene.now.primaries.now scene.now.list.now scene.now.holders.now }
    requires plain { scene.now.list.now ≡ [] }
    requires before { d.0 < scene.now.c.0 }
    requires base { Contains (bases_of scene.now.h.now d) base.now }
    requires fits { at + nvsize_in (slice_get scene.now.rows.now d.0) ≤ 1000000 }
    ensures { OnOk result ((s : Subobject) → parts.new ≡ parts.old ++ map (moved_part at) (base_brings scene.now.h.now scene.now.rows.now (brought_by scene.now.h.now scene.now.rows.now scene.now.primaries.now (known_parts_of scene.now.known.now) scene.now.c) s d base.now)) }
{
    scene.h.keeps();
    if base.is_virtual {
        return Ok(());
    }
    let place = base_place(scene.h, scene.rows, d, base.class);
    bring_plain(scene, base.class, at + place, parts)?;
    Ok(())
}

/// Puts behind the others what a subobject of class `d`, whichever it is, brings, this many bytes further: itself, the
/// objects in its members, and its bases with what they bring.
#[cycle(bring_plain)]
pub(crate) fn bring_plain(
    scene: &Scene,
    d: ClassId,
    at: u32,
    parts: &mut PartList,
) -> Result<(), NoMemory>
    requires scene { IsLayoutScene scene.now.h.now scene.now.c scene.now.rows.now scene.now.known.now scene.now.members.now scene.now.primaries.now scene.now.list.now scene.now.holders.now }
    requires plain { scene.now.list.now ≡ [] }
    requires before { d.0 < scene.now.c.0 }
    requires fits { at + nvsize_in (slice_get scene.now.rows.now d.0) ≤ 1000000 }
    ensures { OnOk result ((s : Subobject) → parts.new ≡ parts.old ++ map (moved_part at) (brought_by scene.now.h.now scene.now.rows.now scene.now.primaries.now (known_parts_of scene.now.known.now) scene.now.c s d)) }
{
    scene.h.keeps();
    parts.push(Part {
        class: d.0,
        place: at,
    })?;
    push_moved(parts, scene.members[d.0 as usize].as_slice(), at)?;
    for base in scene.h.class(d).bases.as_slice() {
        bring_plain_base(scene, d, base, at, parts)?;
    }
    Ok(())
}
