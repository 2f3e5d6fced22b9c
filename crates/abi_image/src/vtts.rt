//! The words of VTTs.

ghost use Rattle.std.specs.Prelude.{◌≡◌, ◌<◌, ℕ, Some, IfOk, OnOk, length, map};
ghost use Rattle.abi_slots.specs.Images.{IsPoint};
ghost use Rattle.abi_image.specs.Conditions.{HaveOwnNames, HasTable, NameTables, AllNameTables};
ghost use Rattle.abi_image.specs.invariants.Drafts.{AllAt, AllBySize, Puts, address_in, vtt_size, sum_of_sizes};
ghost use Rattle.abi_image.specs.invariants.Points.{AreGroupPoints, HasPointAt, HaveGroupRoom};

use crate::draft::Draft;
use crate::finding::{Guesses, find_group, guess_numbers};
use crate::points::{AddressList, points_of_groups};
use abi_slots::{Group, VttList, VttWord};
use foundation::NoMemory;
use std::alloc::Global;

/// Where groups stand, their address points, and guesses for their names.
#[derive(Drop)]
pub struct GroupPlaces {
    pub at: Vec<u64>,
    pub points: Vec<AddressList>,
    pub guesses: Guesses,
}

/// The places of groups that stand at these addresses.
///
/// Errors: want of memory.
pub fn group_places(alloc: Global, groups: &[Group], at: Vec<u64>) -> Result<GroupPlaces, NoMemory>
    requires size { length at.items ≡ length groups.now }
    requires room { HaveGroupRoom groups.now at.items }
    ensures at { IfOk result (λ places. places.at.items ≡ at.items) }
    ensures points { IfOk result (λ places. AreGroupPoints groups.now places.at.items places.points.items) }
{
    let points = points_of_groups(alloc, groups, &at)?;
    let guesses = guess_numbers(alloc, groups)?;
    Ok(GroupPlaces {
        at,
        points,
        guesses,
    })
}

/// The address point that a word of a VTT is.
fn point_of(groups: &[Group], places: &GroupPlaces, word: &VttWord) -> u64
    requires places { AreGroupPoints groups.now places.now.at.items places.now.points.items }
    requires names { HaveOwnNames groups.now }
    requires table { HasTable groups.now word.now.group word.now.table }
    ensures { IsPoint groups.now (address_in places.now.at.items) word.now.group word.now.table result }
{
    let number = find_group(groups, &places.guesses, &word.group);
    let points = places.points[number].as_slice();
    points[word.table]
}

/// Puts the words of a VTT behind others.
fn push_vtt(
    draft: &mut Draft,
    groups: &[Group],
    places: &GroupPlaces,
    vtt: &[VttWord],
) -> Result<(), NoMemory>
    requires places { AreGroupPoints groups.now places.now.at.items places.now.points.items }
    requires names { HaveOwnNames groups.now }
    requires tables { NameTables groups.now vtt.now }
    ensures { OnOk result (Puts draft.old draft.new (length vtt.now) (λ image at. AllAt (HasPointAt image groups.now (address_in places.now.at.items)) vtt.now at)) }
{
    for word in vtt {
        draft.push(point_of(groups, places, word))?;
    }
    Ok(())
}

/// Puts the words of the VTTs of all classes behind others, one VTT after the other.
///
/// Errors: want of memory.
pub fn push_vtts(
    draft: &mut Draft,
    groups: &[Group],
    places: &GroupPlaces,
    vtts: &[VttList],
) -> Result<(), NoMemory>
    requires places { AreGroupPoints groups.now places.now.at.items places.now.points.items }
    requires names { HaveOwnNames groups.now }
    requires tables { AllNameTables groups.now vtts.now }
    ensures { OnOk result (Puts draft.old draft.new (sum_of_sizes (map vtt_size vtts.now)) (λ image at. AllBySize vtt_size (λ c vtt there. AllAt (HasPointAt image groups.now (address_in places.now.at.items)) vtt there) vtts.now at)) }
{
    for vtt in vtts {
        push_vtt(draft, groups, places, vtt.as_slice())?;
    }
    Ok(())
}
