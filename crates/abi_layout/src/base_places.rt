//! The places of the direct non-virtual bases of a class, and those along a path of them.

ghost use Rattle.std.specs.Prelude.{◌≡◌, ◌++◌, ◌∷◌, [], ◌<◌, ◌^◌, IfOk, OnOk, filter, length, map};
ghost use Rattle.cxx_hierarchy.specs.declared.records.Base.{Base};
ghost use Rattle.cxx_hierarchy.specs.declared.records.ClassId.{ClassId};
ghost use Rattle.cxx_hierarchy.specs.Declarations.{is_plain_base};
ghost use Rattle.abi_sound.specs.Places.{place_along};
ghost use Rattle.abi_layout.specs.invariants.OwnPlaces.{is_own, own_place, own_places};

use crate::placed_bases::PlacedBase;
use abi_sound::PlaceList;
use cxx_hierarchy::{Base, ClassId};
use foundation::{NoMemory, Sequence};
use std::alloc::Global;

/// Whether a placed base is the direct non-virtual one of a class.
fn is_own(b: ClassId, base: PlacedBase) -> bool
    ensures { result ≡ is_own b base }
{
    match base {
        PlacedBase::Own(d) => d.0 == b.0,
        PlacedBase::VirtualBase(_) => false,
    }
}

/// The place of a direct non-virtual base among the placed ones, 0 where it is none of them.
fn own_place(front: &[PlacedBase], places: &[u32], b: ClassId) -> u32
    ensures { result ≡ own_place front.now places.now b }
{
    match front {
        [] => 0,
        [base, front @ ..] => match places {
            [] => 0,
            [place, places @ ..] => {
                if is_own(b, *base) {
                    *place
                } else {
                    own_place(front, places, b)
                }
            }
        },
    }
}

/// Puts the place of a direct base behind the others, if it is not virtual.
fn push_place(
    list: &mut PlaceList,
    front: &[PlacedBase],
    places: &[u32],
    base: &Base<ClassId>,
) -> Result<(), NoMemory>
    ensures { OnOk result (list.new ≡ list.old ++ own_places front.now places.now (base.now ∷ [])) }
{
    if !base.is_virtual {
        list.push(own_place(front, places, base.class))?;
    }
    Ok(())
}

/// The places of the direct non-virtual bases, in the order of the class head.
pub(crate) fn own_places(
    alloc: Global,
    front: &[PlacedBase],
    places: &[u32],
    bases: &[Base<ClassId>],
) -> Result<PlaceList, NoMemory>
    ensures { IfOk result (λ list. list ≡ own_places front.now places.now bases.now) }
{
    let mut list = Sequence::new(alloc);
    for base in bases {
        push_place(&mut list, front, places, base)?;
    }
    Ok(list)
}
