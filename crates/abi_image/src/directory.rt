//! The directory of classes.

ghost use Rattle.std.specs.Prelude.{◌≡◌, ◌<◌, ◌*◌, ◌++◌, ◌∷◌, [], ℕ, List, IfNone, IfOk, IfSome, OnOk, length, replicate};
ghost use Rattle.cxx_hierarchy.specs.declared.records.ClassId.{ClassId};
ghost use Rattle.abi_slots.specs.declared.words.Group.{Group};
ghost use Rattle.abi_slots.specs.Images.{point_at, vtt_address, whole_name};
ghost use Rattle.abi_image.specs.invariants.Drafts.{HaveClassWords, Puts, address_in};
ghost use Rattle.abi_image.specs.invariants.Points.{AreGroupPoints, ArePointsOf, AreFirstPoints, is_whole_name};
ghost use Rattle.cxx_hierarchy.specs.Classes.{class_by_number};

use crate::draft::Draft;
use crate::vtts::GroupPlaces;
use abi_slots::{Group, GroupName, VttList};
use cxx_subobject::Root;
use foundation::NoMemory;
use std::alloc::Global;

/// Whether the view of a group is the whole of its complete object.
fn is_whole_name(name: &GroupName) -> bool
    ensures { result ≡ is_whole_name name.now }
{
    match (name.view.root, name.view.path.as_slice()) {
        (Root::Whole, [c]) => c.0 == name.complete.0,
        _ => false,
    }
}

/// The first address point of a group, or its own address where it has no table.
fn first_of(at: u64, points: &[u64]) -> u64
    ensures { (group : Group) → ArePointsOf at group.tables points.now → result ≡ point_at at group.tables 0 }
{
    match points {
        [point, ..] => *point,
        [] => at,
    }
}

/// The class below a number of which a name is that of its own group.
fn own_class(name: &GroupName, classes: usize) -> Option<usize>
    ensures own { IfSome result (λ c. (c < classes) × (name.now ≡ whole_name (class_by_number c))) }
    ensures none { IfNone result ((c : ClassId) → c.0 < classes → name.now ≡ whole_name c → ⊥) }
{
    let class = name.complete.0 as usize;
    if class >= classes {
        return None;
    }
    if is_whole_name(name) {
        Some(class)
    } else {
        None
    }
}

/// Notes the first address point of a group, if it is the own group of a class.
fn note_first(firsts: &mut Vec<u64>, group: &Group, at: u64, points: &[u64])
    ensures { (groups : List Group) (group_at : ℕ → ℕ) (classes : ℕ) → group_at (length groups) ≡ at → ArePointsOf at group.now.tables points.now → AreFirstPoints groups group_at classes firsts.old.items → AreFirstPoints (groups ++ group.now ∷ []) group_at classes firsts.new.items }
{
    match own_class(&group.name, firsts.len()) {
        Some(class) => firsts[class] = first_of(at, points),
        None => {}
    }
}

/// So many zeros.
fn zeros(alloc: Global, n: usize) -> Result<Vec<u64>, NoMemory>
    ensures { IfOk result (λ list. list.items ≡ replicate n 0) }
{
    Ok(vec![in alloc; 0; n]?)
}

/// The first address points of the own groups of so many classes, and 0 for a class without one.
///
/// Errors: want of memory.
pub fn first_points(
    alloc: Global,
    groups: &[Group],
    places: &GroupPlaces,
    classes: usize,
) -> Result<Vec<u64>, NoMemory>
    requires at { length places.now.at.items ≡ length groups.now }
    requires points { AreGroupPoints groups.now places.now.at.items places.now.points.items }
    ensures { IfOk result (λ firsts. AreFirstPoints groups.now (address_in places.now.at.items) classes firsts.items) }
{
    let mut firsts = zeros(alloc, classes)?;
    for (i, group) in groups.iter().enumerate() {
        note_first(
            &mut firsts,
            group,
            places.at[i],
            places.points[i].as_slice(),
        );
    }
    Ok(firsts)
}

/// The address of a VTT, 0 where it has no words.
fn vtt_address(at: u64, vtt: &VttList) -> u64
    ensures { result ≡ vtt_address at vtt.now }
{
    if vtt.len() == 0 { 0 } else { at }
}

/// Puts the two words of each class behind others.
///
/// Errors: want of memory.
pub fn push_directory(
    draft: &mut Draft,
    firsts: &[u64],
    vtts: &[VttList],
    vtt_at: &[u64],
) -> Result<(), NoMemory>
    requires firsts { length firsts.now ≡ length vtts.now }
    requires places { length vtt_at.now ≡ length vtts.now }
    ensures { OnOk result (Puts draft.old draft.new (2 * length vtts.now) (λ image at. HaveClassWords image firsts.now vtt_at.now vtts.now at)) }
{
    for (c, vtt) in vtts.iter().enumerate() {
        draft.push(firsts[c])?;
        draft.push(vtt_address(vtt_at[c], vtt))?;
    }
    Ok(())
}
