//! What a base brings where it is placed (Itanium C++ ABI 2.4).

ghost use Rattle.std.specs.Prelude.{◌≡◌, ◌+◌, ◌<◌, ◌≤◌, ◌++◌, ◌∷◌, [], false, Contains, IfOk, OnOk, IsTrue, IfSome, map, length, slice_get};
ghost use Rattle.cxx_hierarchy.specs.Classes.{bases_of};
ghost use Rattle.cxx_subobject.specs.Subobjects.{shared_base};
ghost use Rattle.abi_emptybase.specs.Table.{moved_part};
ghost use Rattle.abi_sound.specs.Places.{direct_base_place};
ghost use Rattle.abi_layout.specs.Placements.{nvsize_in};
ghost use Rattle.abi_layout.specs.invariants.Known.{known_parts_of};
ghost use Rattle.abi_layout.specs.Holding.{held_base};
ghost use Rattle.abi_layout.specs.Brought.{base_brings, virtual_brings, brought_by};
ghost use Rattle.abi_layout.specs.invariants.Scenes.{IsLayoutScene};

use crate::component::{PartList, push_moved};
use crate::scene::{Scene, held_base, holder};
use abi_emptybase::Part;
use abi_sound::ClassLayout;
use abi_sound::places::{number_of_base, place_of_number};
use cxx_hierarchy::{Base, ClassId, Hierarchy};
use cxx_subobject::{Root, Subobject, put_below, put_shared};
use foundation::{NoMemory, Sequence};
use std::alloc::Global;

/// Whether a subobject is the one that a virtual base is.
fn is_shared_base(s: &Subobject, v: ClassId) -> bool
    ensures { IsTrue result → s.now ≡ shared_base v }
{
    match s.root {
        Root::Whole => false,
        Root::Shared(w) => match s.path.as_slice() {
            [c] => w.0 == v.0 && c.0 == v.0,
            _ => false,
        },
    }
}

/// The subobject behind the holder of a virtual base in the list, where it is that virtual base.
fn behind_holder<'a>(scene: &Scene<'a>, v: ClassId) -> Option<&'a Subobject>
    ensures { IfSome result (λ s. s.now ≡ shared_base v) }
{
    let number = holder(scene.holders, v)?.checked_add(1)?;
    let s = scene.list.get(number)?;
    if is_shared_base(s, v) { Some(s) } else { None }
}

/// The place of a direct non-virtual base in its class.
pub(crate) fn base_place(h: &Hierarchy, rows: &[ClassLayout], d: ClassId, b: ClassId) -> u32
    requires class { d.0 < length h.now }
    requires row { d.0 < length rows.now }
    ensures { result ≡ direct_base_place h.now rows.now d b }
{
    let number = number_of_base(h.class(d).bases.as_slice(), b);
    place_of_number(rows[d.0 as usize].base_places.as_slice(), number)
}

/// Puts behind the others what a subobject of class `d` brings by a direct base, this many bytes further.
#[cycle(bring)]
fn bring_base(
    alloc: Global,
    scene: &Scene,
    s: &Subobject,
    d: ClassId,
    base: &Base<ClassId>,
    at: u32,
    parts: &mut PartList,
) -> Result<(), NoMemory>
    requires scene { IsLayoutScene scene.now.h.now scene.now.c scene.now.rows.now scene.now.known.now scene.now.members.now scene.now.primaries.now scene.now.list.now scene.now.holders.now }
    requires before { d.0 < scene.now.c.0 }
    requires base { Contains (bases_of scene.now.h.now d) base.now }
    requires fits { at + nvsize_in (slice_get scene.now.rows.now d.0) ≤ 1000000 }
    ensures { OnOk result (parts.new ≡ parts.old ++ map (moved_part at) (base_brings scene.now.h.now scene.now.rows.now (brought_by scene.now.h.now scene.now.rows.now scene.now.primaries.now (known_parts_of scene.now.known.now) scene.now.c) s.now d base.now)) }
{
    scene.h.keeps();
    if base.is_virtual {
        return Ok(());
    }
    let mut inner = Subobject {
        root: Root::Whole,
        path: Sequence::new(alloc),
    };
    put_below(alloc, s, base.class, &mut inner)?;
    let place = base_place(scene.h, scene.rows, d, base.class);
    bring(alloc, scene, &inner, base.class, at + place, parts)?;
    Ok(())
}

/// Puts behind the others what a subobject of class `d` brings by a virtual base that it holds, this many bytes
/// further.
#[cycle(bring)]
fn bring_virtual(
    alloc: Global,
    scene: &Scene,
    s: &Subobject,
    d: ClassId,
    at: u32,
    parts: &mut PartList,
) -> Result<(), NoMemory>
    requires scene { IsLayoutScene scene.now.h.now scene.now.c scene.now.rows.now scene.now.known.now scene.now.members.now scene.now.primaries.now scene.now.list.now scene.now.holders.now }
    requires before { d.0 < scene.now.c.0 }
    requires fits { at + nvsize_in (slice_get scene.now.rows.now d.0) ≤ 1000000 }
    ensures { OnOk result (parts.new ≡ parts.old ++ map (moved_part at) (virtual_brings (brought_by scene.now.h.now scene.now.rows.now scene.now.primaries.now (known_parts_of scene.now.known.now) scene.now.c) (held_base scene.now.h.now scene.now.primaries.now scene.now.c s.now d))) }
{
    match held_base(scene, s, d) {
        Some(v) => {
            if let Some(listed) = behind_holder(scene, v) {
                bring(alloc, scene, listed, v, at, parts)?;
                return Ok(());
            }
            let mut inner = Subobject {
                root: Root::Whole,
                path: Sequence::new(alloc),
            };
            put_shared(alloc, v, &mut inner)?;
            bring(alloc, scene, &inner, v, at, parts)?;
            Ok(())
        }
        None => Ok(()),
    }
}

/// Puts behind the others what the subobject `s` of class `d` brings, this many bytes further: itself, the objects in
/// its members, its non-virtual bases with what they bring, and a virtual base that it holds, with what that brings.
#[cycle(bring)]
pub(crate) fn bring(
    alloc: Global,
    scene: &Scene,
    s: &Subobject,
    d: ClassId,
    at: u32,
    parts: &mut PartList,
) -> Result<(), NoMemory>
    requires scene { IsLayoutScene scene.now.h.now scene.now.c scene.now.rows.now scene.now.known.now scene.now.members.now scene.now.primaries.now scene.now.list.now scene.now.holders.now }
    requires before { d.0 < scene.now.c.0 }
    requires fits { at + nvsize_in (slice_get scene.now.rows.now d.0) ≤ 1000000 }
    ensures { OnOk result (parts.new ≡ parts.old ++ map (moved_part at) (brought_by scene.now.h.now scene.now.rows.now scene.now.primaries.now (known_parts_of scene.now.known.now) scene.now.c s.now d)) }
{
    scene.h.keeps();
    parts.push(Part {
        class: d.0,
        place: at,
    })?;
    push_moved(parts, scene.members[d.0 as usize].as_slice(), at)?;
    for base in scene.h.class(d).bases.as_slice() {
        bring_base(alloc, scene, s, d, base, at, parts)?;
    }
    bring_virtual(alloc, scene, s, d, at, parts)?;
    Ok(())
}
