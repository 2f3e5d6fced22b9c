//! The subobjects of a class with their numbers.

ghost use Rattle.std.specs.Prelude.{◌≡◌, ◌<◌, [], ◌∷◌, Contains, IfOk, MatchOption, length, map};
ghost use Rattle.cxx_hierarchy.specs.declared.records.ClassId.{ClassId};
ghost use Rattle.cxx_subobject.specs.declared.Subobject.{Subobject};
ghost use Rattle.cxx_subobject.specs.Subobjects.{IsSubobject, whole_of, is_of_class};
ghost use Rattle.cxx_subobject.specs.Parts.{IsWithinLimits};
ghost use Rattle.cxx_search.specs.Searches.{is_within};
ghost use Rattle.path_numbers.specs.Numbers.{AreClassNumbers, subobject_number};
ghost use Rattle.path_tables.specs.Parts.{IsNumbered, IsPartList, IsFirstTaken};
ghost use Rattle.path_tables.specs.invariants.Places.{IsPlaceOfNumber};

use cxx_hierarchy::{ClassId, Hierarchy};
use cxx_subobject::{Root, Subobject, SubobjectList, class_of, contains, list_subobjects};
use foundation::{NoMemory, Sequence};
use path_numbers::Numbers;
use std::alloc::Global;

/// The subobjects of a class in preorder, and the number of each within a complete object.
#[derive(Drop)]
pub struct PartList {
    pub parts: SubobjectList,
    pub numbers: Vec<u32>,
}

/// The numbers of some subobjects.
fn numbers_of(
    alloc: Global,
    h: &Hierarchy,
    numbers: &Numbers,
    c: ClassId,
    parts: &[Subobject],
) -> Result<Vec<u32>, NoMemory>
    requires known { c.0 < length h.now }
    requires limits { (d : ClassId) → d.0 < length h.now → IsWithinLimits h.now d }
    requires numbers { AreClassNumbers h.now numbers.now }
    requires valid { (s : Subobject) → Contains parts.now s → IsSubobject h.now c s }
    ensures { IfOk result (λ list. list.items ≡ map (subobject_number h.now c) parts.now) }
{
    let mut list = Vec::new(alloc);
    for part in parts {
        list.push(numbers.number_in(h, c, part))?;
    }
    Ok(list)
}

/// The whole alone, of a class that is not there: it has no bases.
fn whole_alone(alloc: Global, c: ClassId) -> Result<PartList, NoMemory>
    ensures parts { IfOk result (λ list. list.parts ≡ whole_of c ∷ []) }
    ensures numbers { IfOk result (λ list. list.numbers.items ≡ 0 ∷ []) }
{
    let mut path = Vec::new(alloc);
    path.push(c)?;
    let mut parts = Vec::new(alloc);
    parts.push(Subobject {
        root: Root::Whole,
        path: Sequence::from_vec(path),
    })?;
    let mut numbers = Vec::new(alloc);
    numbers.push(0)?;
    Ok(PartList {
        parts: Sequence::from_vec(parts),
        numbers,
    })
}

/// The subobjects of a class, with their numbers.
///
/// Errors: want of memory.
pub fn list_parts(
    alloc: Global,
    h: &Hierarchy,
    numbers: &Numbers,
    c: ClassId,
) -> Result<PartList, NoMemory>
    requires limits { (d : ClassId) → d.0 < length h.now → IsWithinLimits h.now d }
    requires numbers { AreClassNumbers h.now numbers.now }
    ensures { IfOk result (IsPartList h.now c) }
{
    h.keeps();
    if c.0 >= h.len() {
        return whole_alone(alloc, c);
    }
    let parts = list_subobjects(alloc, h, c)?;
    let numbers = numbers_of(alloc, h, numbers, c, parts.as_slice())?;
    Ok(PartList { parts, numbers })
}

/// The place of a number in a list, if it stands there.
fn place_of(numbers: &[u32], x: u32) -> Option<usize>
    ensures { IsPlaceOfNumber numbers.now x result }
{
    for (i, number) in numbers.iter().enumerate() {
        if *number == x {
            return Some(i);
        }
    }
    None
}

/// The subobject of a number; None where no subobject has it.
pub fn part_at<'a>(h: &Hierarchy, c: ClassId, list: &'a PartList, x: u32) -> Option<&'a Subobject>
    requires { IsPartList h.now c list.now }
    ensures { MatchOption result ((s : Subobject) → IsNumbered h.now c x s → ⊥) (λ part. IsNumbered h.now c x part.now) }
{
    h.keeps();
    match place_of(&list.numbers, x) {
        Some(place) => Some(&list.parts.as_slice()[place]),
        None => None,
    }
}

/// Whether a subobject is of a class.
pub fn is_of_class(s: &Subobject, d: ClassId) -> bool
    ensures { result ≡ is_of_class d s.now }
{
    match class_of(s) {
        Some(class) => d.0 == class.0,
        None => false,
    }
}

/// Whether one subobject of a class lies in another.
pub fn is_within(h: &Hierarchy, c: ClassId, x: &Subobject, y: &Subobject) -> bool
    requires x { IsSubobject h.now c x.now }
    requires y { IsSubobject h.now c y.now }
    ensures { result ≡ is_within h.now x.now y.now }
{
    h.keeps();
    contains(h, c, x, y)
}

/// The place of the first subobject of a class.
pub fn first_of_class(parts: &[Subobject], d: ClassId) -> Option<usize>
    ensures { IsFirstTaken (is_of_class d) parts.now result }
{
    for (i, part) in parts.iter().enumerate() {
        if is_of_class(part, d) {
            return Some(i);
        }
    }
    None
}
