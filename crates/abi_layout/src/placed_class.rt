//! The components of a class placed, by the layouts of the classes before it (Itanium C++ ABI 2.4).

ghost use Rattle.std.specs.Prelude.{◌≡◌, ◌<◌, ◌↔◌, ◌⊎◌, All, IfOk, IfErr, OnOk, IsTrue, Some};
ghost use Rattle.cxx_hierarchy.specs.Classes.{class_at};
ghost use Rattle.cxx_hierarchy.specs.declared.stop.Rule.{Rule};
ghost use Rattle.abi_layout.specs.invariants.Alignments.{AreFit};
ghost use Rattle.abi_layout.specs.invariants.Known.{AreAllSized, members_by, empties_in, pods_in};
ghost use Rattle.abi_layout.specs.invariants.Scenes.{IsLayoutScene};
ghost use Rattle.abi_layout.specs.PlacedBases.{class_of_placed, front_bases, free_bases, IsPossible};
ghost use Rattle.abi_layout.specs.Kinds.{empty_kind, pod_kind};
ghost use Rattle.abi_layout.specs.Placements.{parts_at};
ghost use Rattle.cxx_subobject.specs.VirtualBases.{virtual_bases};
ghost use Rattle.abi_layout.specs.invariants.OwnPlaces.{own_places};
ghost use Rattle.abi_layout.specs.Repeats.{SomeRepeats};
ghost use Rattle.abi_layout.specs.invariants.Arrangements.{IsWithinLimit, components_by};
ghost use Rattle.abi_layout.specs.invariants.ClassRows.{IsArrangedIn, IsRefusedIn, frees_in};

use crate::arrangement::{Arrangement, arrange};
use crate::base_places::own_places;
use crate::component::Component;
use crate::known::{is_empty_class, is_pod_class};
use crate::placed_bases::{PlacedBase, free_bases, front_bases, placed_components};
use crate::repeats::has_repeat;
use crate::rows::member_components;
use crate::scene::Scene;
use abi_primary::Primary;
use abi_sound::PlaceList;
use cxx_hierarchy::{ClassId, ClassRec, Rule, Stop};
use foundation::NoMemory;
use std::alloc::Global;

/// Whether one of the components brings one pair of class and place twice.
fn is_some_repeated(alloc: Global, components: &[Component]) -> Result<bool, NoMemory>
    requires { AreFit components.now }
    ensures { IfOk result (λ repeats. IsTrue repeats ↔ SomeRepeats components.now) }
{
    for component in components {
        if has_repeat(alloc, component.parts.as_slice())? {
            return Ok(true);
        }
    }
    Ok(false)
}

/// Looks for a component that brings one pair of class and place twice.
///
/// Errors: the refusal SharedPlace exactly where there is one, or want of memory.
fn refuse_repeated(alloc: Global, components: &[Component], at: u32) -> Result<(), Stop>
    requires { AreFit components.now }
    ensures apart { OnOk result (SomeRepeats components.now → ⊥) }
    ensures refused { IfErr result (λ e. (e ≡ Stop.NoMemory) ⊎ ((e ≡ Stop.Refused Rule.SharedPlace at) × SomeRepeats components.now)) }
{
    if is_some_repeated(alloc, components)? {
        return Err(Stop::Refused(Rule::SharedPlace, at));
    }
    Ok(())
}

/// Places the components of a class, by the layouts of the classes before it: the bases before the members, the
/// members, and the virtual bases behind them.
///
/// Errors: the limit L6 exactly where the size of the class is above 500,000 bytes; else the refusal SharedPlace
/// exactly where a base brings one pair of class and place twice; want of memory.
pub(crate) fn arrange_class(
    alloc: Global,
    scene: &Scene,
    class: &ClassRec<ClassId>,
    front: &[PlacedBase],
    free: &[PlacedBase],
    has_pointer: bool,
    is_pod: bool,
) -> Result<Arrangement, Stop>
    requires scene { IsLayoutScene scene.now.h.now scene.now.c scene.now.rows.now scene.now.known.now scene.now.members.now scene.now.primaries.now scene.now.list.now scene.now.holders.now }
    requires sized { AreAllSized scene.now.rows.now scene.now.known.now }
    requires class { class_at scene.now.h.now scene.now.c ≡ Some class.now }
    requires fronts { All (λ base. (class_of_placed base).0 < scene.now.c.0) front.now }
    requires frees { All (λ base. (class_of_placed base).0 < scene.now.c.0) free.now }
    ensures arranged { IfOk result (λ a. IsArrangedIn scene.now class.now has_pointer front.now free.now is_pod a) }
    ensures members { IfOk result (λ a. a.member_parts ≡ parts_at (members_by scene.now.rows.now scene.now.known.now class.now) a.member_places) }
    ensures within { IfOk result IsWithinLimit }
    ensures fronts_apart { OnOk result (SomeRepeats (components_by scene.now.h.now scene.now.rows.now scene.now.known.now scene.now.primaries.now scene.now.c front.now) → ⊥) }
    ensures frees_apart { OnOk result (SomeRepeats (components_by scene.now.h.now scene.now.rows.now scene.now.known.now scene.now.primaries.now scene.now.c free.now) → ⊥) }
    ensures refused { IfErr result (IsRefusedIn scene.now class.now has_pointer front.now free.now is_pod) }
{
    scene.h.keeps();
    let bases = placed_components(alloc, scene, front)?;
    let members = member_components(alloc, scene.rows, scene.known, class.members.as_slice())?;
    let frees = placed_components(alloc, scene, free)?;
    let arrangement = arrange(
        alloc,
        scene.c,
        has_pointer,
        is_pod,
        &bases,
        &members,
        &frees,
    )?;
    refuse_repeated(alloc, &bases, class.at)?;
    refuse_repeated(alloc, &frees, class.at)?;
    Ok(arrangement)
}

/// A class whose components are placed: where they are, the places of its direct non-virtual bases in the order of the
/// class head, the virtual bases behind the members, and of which kind it is.
#[derive(Drop)]
pub struct PlacedClass {
    pub arrangement: Arrangement,
    pub base_places: PlaceList,
    pub free: Vec<PlacedBase>,
    pub is_empty: bool,
    pub is_pod: bool,
}

/// Places the components of a class, whose primary base and virtual bases are these, by the classes before it.
///
/// Errors: the limit L6 exactly where the size of the class is above 500,000 bytes; else the refusal SharedPlace
/// exactly where a base brings one pair of class and place twice; want of memory.
pub(crate) fn place_class(
    alloc: Global,
    scene: &Scene,
    class: &ClassRec<ClassId>,
    primary: Primary,
    has_pointer: bool,
    virtuals: &[ClassId],
) -> Result<PlacedClass, Stop>
    requires scene { IsLayoutScene scene.now.h.now scene.now.c scene.now.rows.now scene.now.known.now scene.now.members.now scene.now.primaries.now scene.now.list.now scene.now.holders.now }
    requires sized { AreAllSized scene.now.rows.now scene.now.known.now }
    requires class { class_at scene.now.h.now scene.now.c ≡ Some class.now }
    requires primary { IsPossible scene.now.h.now scene.now.c primary }
    requires virtuals { virtuals.now ≡ virtual_bases scene.now.h.now scene.now.c }
    ensures arranged { IfOk result (λ o. IsArrangedIn scene.now class.now has_pointer (front_bases primary class.now.bases) (frees_in scene.now) (pod_kind (pods_in scene.now.known.now) class.now) o.arrangement) }
    ensures members { IfOk result (λ o. o.arrangement.member_parts ≡ parts_at (members_by scene.now.rows.now scene.now.known.now class.now) o.arrangement.member_places) }
    ensures within { IfOk result (λ o. IsWithinLimit o.arrangement) }
    ensures base_places { IfOk result (λ o. o.base_places ≡ own_places (front_bases primary class.now.bases) o.arrangement.front_places class.now.bases) }
    ensures free { IfOk result (λ o. o.free.items ≡ free_bases scene.now.h.now scene.now.primaries.now scene.now.c) }
    ensures is_empty { IfOk result (λ o. o.is_empty ≡ empty_kind (empties_in scene.now.known.now) class.now) }
    ensures is_pod { IfOk result (λ o. o.is_pod ≡ pod_kind (pods_in scene.now.known.now) class.now) }
    ensures fronts_apart { OnOk result (SomeRepeats (components_by scene.now.h.now scene.now.rows.now scene.now.known.now scene.now.primaries.now scene.now.c (front_bases primary class.now.bases)) → ⊥) }
    ensures frees_apart { OnOk result (SomeRepeats (components_by scene.now.h.now scene.now.rows.now scene.now.known.now scene.now.primaries.now scene.now.c (free_bases scene.now.h.now scene.now.primaries.now scene.now.c)) → ⊥) }
    ensures refused { IfErr result (IsRefusedIn scene.now class.now has_pointer (front_bases primary class.now.bases) (frees_in scene.now) (pod_kind (pods_in scene.now.known.now) class.now)) }
{
    scene.h.keeps();
    let is_empty = is_empty_class(scene.known, class);
    let is_pod = is_pod_class(scene.known, class);
    let bases = class.bases.as_slice();
    let front = front_bases(alloc, primary, bases)?;
    let free = free_bases(alloc, scene, virtuals)?;
    let arrangement = arrange_class(alloc, scene, class, &front, &free, has_pointer, is_pod)?;
    let base_places = own_places(alloc, &front, arrangement.front_places.as_slice(), bases)?;
    Ok(PlacedClass {
        arrangement,
        base_places,
        free,
        is_empty,
        is_pod,
    })
}
