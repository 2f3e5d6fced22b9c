//! Which bases of a class are placed in it, in which order, and what each is to it (Itanium C++ ABI 2.4).

ghost use Rattle.std.specs.Prelude.{◌≡◌, ◌<◌, ◌≤◌, ◌++◌, ◌∷◌, [], ◌&&◌, not, All, IfOk, OnOk, filter, map, slice_get};
ghost use Rattle.cxx_hierarchy.specs.declared.records.ClassId.{ClassId};
ghost use Rattle.cxx_hierarchy.specs.declared.records.Base.{Base};
ghost use Rattle.abi_emptybase.specs.Table.{moved_part};
ghost use Rattle.abi_primary.specs.Holder.{holder_of};
ghost use Rattle.abi_layout.specs.Brought.{brought_by};
ghost use Rattle.abi_layout.specs.Placements.{nvsize_in};
ghost use Rattle.abi_layout.specs.invariants.Known.{empties_in, known_parts_of};
ghost use Rattle.abi_layout.specs.invariants.Scenes.{IsLayoutScene};
ghost use Rattle.abi_layout.specs.PlacedBases.{class_of_placed, subobject_of, is_first_base, first_base, is_other_base, front_bases, is_free, component_of_row, placed_component};

use crate::brought::bring;
use crate::brought_plainly::bring_plain;
use crate::component::{Component, PartList};
use crate::scene::{Scene, holder};
use abi_primary::Primary;
use abi_sound::ClassLayout;
use cxx_hierarchy::{Base, ClassId};
use cxx_subobject::{Root, Subobject, shared_base};
use foundation::{NoMemory, Sequence};
use std::alloc::Global;

/// A base that is placed in its class: a direct non-virtual one, or a virtual one.
#[derive(Clone, Copy)]
pub enum PlacedBase {
    Own(ClassId),
    VirtualBase(ClassId),
}

/// The class of a placed base.
fn class_of_placed(base: PlacedBase) -> ClassId
    ensures { result ≡ class_of_placed base }
{
    match base {
        PlacedBase::Own(b) => b,
        PlacedBase::VirtualBase(v) => v,
    }
}

/// The subobject of class `c` that a placed base is.
fn subobject_of(alloc: Global, c: ClassId, base: PlacedBase) -> Result<Subobject, NoMemory>
    ensures { IfOk result (λ s. s ≡ subobject_of c base) }
{
    match base {
        PlacedBase::Own(b) => {
            let mut path = Sequence::new(alloc);
            path.push(c)?;
            path.push(b)?;
            Ok(Subobject {
                root: Root::Whole,
                path,
            })
        }
        PlacedBase::VirtualBase(v) => shared_base(alloc, v),
    }
}

/// Whether a direct base is the primary one, and non-virtual.
fn is_first_base(primary: Primary, base: &Base<ClassId>) -> bool
    ensures { result ≡ is_first_base primary base.now }
{
    match primary {
        Primary::Direct(b) => b.0 == base.class.0,
        Primary::None | Primary::Virtual(_) => false,
    }
}

/// The primary base.
fn first_base(alloc: Global, primary: Primary) -> Result<Vec<PlacedBase>, NoMemory>
    ensures { IfOk result (λ front. front.items ≡ first_base primary) }
{
    let mut front = Vec::new(alloc);
    match primary {
        Primary::None => Ok(front),
        Primary::Direct(b) => {
            front.push(PlacedBase::Own(b))?;
            Ok(front)
        }
        Primary::Virtual(v) => {
            front.push(PlacedBase::VirtualBase(v))?;
            Ok(front)
        }
    }
}

/// Puts a direct base behind the others, if it is non-virtual and not the primary base.
fn push_own(
    front: &mut Vec<PlacedBase>,
    primary: Primary,
    base: &Base<ClassId>,
) -> Result<(), NoMemory>
    ensures { OnOk result (front.new.items ≡ front.old.items ++ map (λ (base : Base ClassId). PlacedBase.Own base.class) (filter (is_other_base primary) (base.now ∷ []))) }
{
    if !base.is_virtual && !is_first_base(primary, base) {
        front.push(PlacedBase::Own(base.class))?;
    }
    Ok(())
}

/// The bases that are placed before the members: the primary base, then the other direct non-virtual ones in the order
/// of the class head.
pub(crate) fn front_bases(
    alloc: Global,
    primary: Primary,
    bases: &[Base<ClassId>],
) -> Result<Vec<PlacedBase>, NoMemory>
    ensures { IfOk result (λ front. front.items ≡ front_bases primary bases.now) }
{
    let mut front = first_base(alloc, primary)?;
    for base in bases {
        push_own(&mut front, primary, base)?;
    }
    Ok(front)
}

/// Whether no subobject holds a virtual base.
fn is_free(scene: &Scene, v: ClassId) -> bool
    requires scene { IsLayoutScene scene.now.h.now scene.now.c scene.now.rows.now scene.now.known.now scene.now.members.now scene.now.primaries.now scene.now.list.now scene.now.holders.now }
    requires before { v.0 < scene.now.c.0 }
    ensures { result ≡ is_free (holder_of scene.now.h.now scene.now.primaries.now scene.now.c v) }
{
    holder(scene.holders, v).is_none()
}

/// Puts a virtual base behind the others, if no subobject holds it.
fn push_free(free: &mut Vec<PlacedBase>, scene: &Scene, v: ClassId) -> Result<(), NoMemory>
    requires scene { IsLayoutScene scene.now.h.now scene.now.c scene.now.rows.now scene.now.known.now scene.now.members.now scene.now.primaries.now scene.now.list.now scene.now.holders.now }
    requires before { v.0 < scene.now.c.0 }
    ensures { OnOk result (free.new.items ≡ free.old.items ++ map (λ (w : ClassId). PlacedBase.VirtualBase w) (filter (λ w. is_free (holder_of scene.now.h.now scene.now.primaries.now scene.now.c w)) (v ∷ []))) }
{
    if is_free(scene, v) {
        free.push(PlacedBase::VirtualBase(v))?;
    }
    Ok(())
}

/// The virtual bases that no subobject holds.
pub(crate) fn free_bases(
    alloc: Global,
    scene: &Scene,
    virtuals: &[ClassId],
) -> Result<Vec<PlacedBase>, NoMemory>
    requires scene { IsLayoutScene scene.now.h.now scene.now.c scene.now.rows.now scene.now.known.now scene.now.members.now scene.now.primaries.now scene.now.list.now scene.now.holders.now }
    requires before { All (λ v. v.0 < scene.now.c.0) virtuals.now }
    ensures { IfOk result (λ free. free.items ≡ map (λ (w : ClassId). PlacedBase.VirtualBase w) (filter (λ w. is_free (holder_of scene.now.h.now scene.now.primaries.now scene.now.c w)) virtuals.now)) }
{
    let mut free = Vec::new(alloc);
    for v in virtuals {
        push_free(&mut free, scene, *v)?;
    }
    Ok(free)
}

/// What a base with this row is to its class.
fn component_of_row(row: &ClassLayout, is_empty: bool, parts: PartList) -> Component
    ensures { result ≡ component_of_row row.now is_empty parts }
{
    Component {
        is_empty,
        align: row.nvalign,
        takes: if is_empty { row.size } else { row.nvsize },
        width: None,
        parts,
    }
}

/// Puts behind the others what a placed base, of class `b`, brings.
fn bring_placed(
    alloc: Global,
    scene: &Scene,
    base: PlacedBase,
    b: ClassId,
    parts: &mut PartList,
) -> Result<(), NoMemory>
    requires scene { IsLayoutScene scene.now.h.now scene.now.c scene.now.rows.now scene.now.known.now scene.now.members.now scene.now.primaries.now scene.now.list.now scene.now.holders.now }
    requires before { b.0 < scene.now.c.0 }
    requires fits { nvsize_in (slice_get scene.now.rows.now b.0) ≤ 1000000 }
    ensures { OnOk result (parts.new ≡ parts.old ++ map (moved_part 0) (brought_by scene.now.h.now scene.now.rows.now scene.now.primaries.now (known_parts_of scene.now.known.now) scene.now.c (subobject_of scene.now.c base) b)) }
{
    if scene.list.is_empty() {
        bring_plain(scene, b, 0, parts)?;
    } else {
        let s = subobject_of(alloc, scene.c, base)?;
        bring(alloc, scene, &s, b, 0, parts)?;
    }
    Ok(())
}

/// What a placed base is to its class.
fn placed_component(alloc: Global, scene: &Scene, base: PlacedBase) -> Result<Component, NoMemory>
    requires scene { IsLayoutScene scene.now.h.now scene.now.c scene.now.rows.now scene.now.known.now scene.now.members.now scene.now.primaries.now scene.now.list.now scene.now.holders.now }
    requires before { (class_of_placed base).0 < scene.now.c.0 }
    requires fits { nvsize_in (slice_get scene.now.rows.now (class_of_placed base).0) ≤ 1000000 }
    ensures { IfOk result (λ component. component ≡ placed_component (empties_in scene.now.known.now) scene.now.h.now scene.now.rows.now scene.now.primaries.now (known_parts_of scene.now.known.now) scene.now.c base) }
{
    let b = class_of_placed(base);
    let mut parts = Sequence::new(alloc);
    bring_placed(alloc, scene, base, b, &mut parts)?;
    let row = &scene.rows[b.0 as usize];
    let known = &scene.known[b.0 as usize];
    Ok(component_of_row(row, known.is_empty, parts))
}

/// What placed bases are to their class.
pub(crate) fn placed_components(
    alloc: Global,
    scene: &Scene,
    bases: &[PlacedBase],
) -> Result<Vec<Component>, NoMemory>
    requires scene { IsLayoutScene scene.now.h.now scene.now.c scene.now.rows.now scene.now.known.now scene.now.members.now scene.now.primaries.now scene.now.list.now scene.now.holders.now }
    requires before { All (λ base. (class_of_placed base).0 < scene.now.c.0) bases.now }
    requires fits { (d : ClassId) → d.0 < scene.now.c.0 → nvsize_in (slice_get scene.now.rows.now d.0) ≤ 1000000 }
    ensures { IfOk result (λ components. components.items ≡ map (placed_component (empties_in scene.now.known.now) scene.now.h.now scene.now.rows.now scene.now.primaries.now (known_parts_of scene.now.known.now) scene.now.c) bases.now) }
{
    let mut components = Vec::new(alloc);
    for base in bases {
        components.push(placed_component(alloc, scene, *base)?)?;
    }
    Ok(components)
}
