//! Answers between two subobjects of a class that are given by their numbers, worked out by the list of the class.

ghost use Rattle.std.specs.Prelude.{◌≡◌, Some, IfOk, get_or, find};
ghost use Rattle.cxx_hierarchy.specs.declared.records.ClassId.{ClassId};
ghost use Rattle.cxx_subobject.specs.declared.Subobject.{Subobject};
ghost use Rattle.cxx_subobject.specs.Preorder.{preorder};
ghost use Rattle.cxx_subobject.specs.Subobjects.{is_of_class};
ghost use Rattle.path_tables.specs.Parts.{IsNumbered, IsPartList, number_where_found, derived_in};
ghost use Rattle.path_tables.specs.Worlds.{IsWorld};
ghost use Rattle.path_tables.specs.Kept.{IsCastAnswer, IsFinalAnswer, IsWithinAnswer, IsDownAnswer};
ghost use Rattle.cxx_subobject.specs.declared.Root.TheVariants.{Shared};
ghost use Rattle.cxx_hierarchy.specs.Classes.{class_by_number};

use crate::casts::{Cast, cast_place};
use crate::finals::{Call, FinalAt, final_at};
use crate::kept::{CastKey, DownKey, FinalKey, WithinKey};
use crate::parts::{PartList, first_of_class, is_of_class, is_within, part_at};
use crate::world::World;
use cxx_hierarchy::{ClassId, Hierarchy};
use cxx_overrider::FunctionId;
use cxx_subobject::{Subobject, is_same, subobject_below};
use foundation::NoMemory;
use std::alloc::Global;

/// The number at a place of a list; 0 past its end.
fn number_in_list(numbers: &[u32], place: usize) -> u32
    ensures { result ≡ get_or numbers.now place 0 }
{
    numbers.get(place).copied().unwrap_or(0)
}

/// The number of the subobject at a place.
fn number_at(list: &PartList, place: usize) -> u32
    ensures { result ≡ get_or list.now.numbers.items place 0 }
{
    number_in_list(&list.numbers, place)
}

/// Where a cast leads, as the number of a subobject (ISO C++03 5.2.7 p8). None: it leads nowhere.
pub(crate) fn cast_number(h: &Hierarchy, list: &PartList, key: CastKey) -> Option<u32>
    requires { IsPartList h.now (class_by_number key.class) list.now }
    ensures { IsCastAnswer h.now key result }
{
    h.keeps();
    let c = ClassId(key.class);
    let x = part_at(h, c, list, key.view)?;
    let y = part_at(h, c, list, key.source)?;
    let cast = Cast {
        h,
        c,
        parts: list.parts.as_slice(),
        target: ClassId(key.target),
        view: x,
        source: y,
    };
    match cast_place(&cast) {
        Some(place) => Some(number_at(list, place)),
        None => None,
    }
}

/// The final overrider of a virtual function of the source's class in a view, with the number of its subobject (ISO C++03
/// 10.3 p2, 12.7 p3). None: the source does not lie in the view.
pub(crate) fn final_answer(
    alloc: Global,
    world: &World,
    list: &PartList,
    key: FinalKey,
) -> Result<Option<FinalAt>, NoMemory>
    requires world { IsWorld world.now }
    requires list { IsPartList world.now.h.now (class_by_number key.class) list.now }
    ensures { IfOk result (IsFinalAnswer world.now.h.now key) }
{
    let h = world.h;
    h.keeps();
    let c = ClassId(key.class);
    let f = FunctionId {
        class: ClassId(key.owner),
        index: key.index,
    };
    // never met for what is asked, nor the exits below: the numbers are those of subobjects, the
    // source is of the function's class, and the function is virtual, by `IsFinalAnswer`
    let Some(x) = part_at(h, c, list, key.view) else {
        return Ok(None);
    };
    let Some(y) = part_at(h, c, list, key.source) else {
        return Ok(None);
    };
    if !is_of_class(y, f.class) {
        return Ok(None);
    }
    if !world.overriders.is_virtual(f) {
        return Ok(None);
    }
    let call = Call {
        h,
        c,
        view: x,
        source: y,
        f,
    };
    final_at(alloc, world.overriders, world.numbers, &call)
}

/// Whether the subobject of one number lies in that of another.
pub(crate) fn within_answer(h: &Hierarchy, list: &PartList, key: WithinKey) -> bool
    requires { IsPartList h.now (class_by_number key.class) list.now }
    ensures { IsWithinAnswer h.now key result }
{
    h.keeps();
    let c = ClassId(key.class);
    match part_at(h, c, list, key.outer) {
        Some(outer) => match part_at(h, c, list, key.inner) {
            Some(inner) => is_within(h, c, outer, inner),
            // never met for the number of a subobject, as it is by `IsWithinAnswer`
            None => false,
        },
        // never met either
        None => false,
    }
}

/// The number of the subobject of the target class in which the source is the base that has this number there. A part of
/// another class may have the number too.
pub(crate) fn down_number(h: &Hierarchy, list: &PartList, key: DownKey) -> Option<u32>
    requires { IsPartList h.now (class_by_number key.class) list.now }
    ensures { IsDownAnswer h.now key result }
{
    h.keeps();
    if key.source < key.offset {
        return None;
    }
    let n = key.source - key.offset;
    match part_at(h, ClassId(key.class), list, n) {
        Some(t) => {
            if is_of_class(t, ClassId(key.target)) {
                Some(n)
            } else {
                None
            }
        }
        None => None,
    }
}

/// The number of the first subobject of a class, if there is one.
fn base_number(h: &Hierarchy, c: ClassId, list: &PartList, d: ClassId) -> Option<u32>
    requires { IsPartList h.now c list.now }
    ensures { result ≡ number_where_found h.now c (find (is_of_class d) (preorder h.now c)) }
{
    match first_of_class(list.parts.as_slice(), d) {
        Some(place) => Some(number_at(list, place)),
        None => None,
    }
}

/// The number of the subobject of the target class whose base i the source is, where i is a virtual base: all who reach it
/// share it, and the first is taken.
pub(crate) fn shared_down(
    h: &Hierarchy,
    c: ClassId,
    list: &PartList,
    source: u32,
    target: ClassId,
    i: &Subobject,
    _v: ClassId,
) -> Option<u32>
    requires list { IsPartList h.now c list.now }
    requires shared { i.now.root ≡ Shared _v }
    ensures { (y : Subobject) → IsNumbered h.now c source y → result ≡ number_where_found h.now c (derived_in h.now c target i.now y) }
{
    h.keeps();
    match part_at(h, c, list, source) {
        Some(y) => {
            if is_same(i, y) {
                base_number(h, c, list, target)
            } else {
                None
            }
        }
        None => None,
    }
}

/// The first subobject of a class, its path copied.
pub(crate) fn base_copied(
    alloc: Global,
    h: &Hierarchy,
    c: ClassId,
    list: &PartList,
    d: ClassId,
) -> Result<Option<Subobject>, NoMemory>
    requires { IsPartList h.now c list.now }
    ensures { IfOk result (λ base. base ≡ find (is_of_class d) (preorder h.now c)) }
{
    let parts = list.parts.as_slice();
    match first_of_class(parts, d) {
        Some(place) => Ok(Some(subobject_below(alloc, &parts[place], &[])?)),
        None => Ok(None),
    }
}
