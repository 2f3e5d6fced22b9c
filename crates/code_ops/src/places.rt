//! The ops that find the address of a place, and its tests.

ghost use Rattle.std.specs.Prelude.{◌≡◌, ◌++◌, ◌+◌, ◌*◌, ◌^◌, ◌<◌, ◌≤◌, Some, OnOk, length, slice_get};
ghost use Rattle.std.specs.Option.{option_copied};
ghost use Rattle.cxx_hierarchy.specs.declared.records.ClassId.{ClassId};
ghost use Rattle.cxx_hierarchy.specs.declared.records.FieldType.TheVariants.{Object};
ghost use Rattle.cxx_hierarchy.specs.Classes.{members_of};
ghost use Rattle.cxx_hierarchy.specs.Limits.{most_elements};
ghost use Rattle.cxx_subobject.specs.Subobjects.{class_of};
ghost use Rattle.abi_sound.specs.Places.{size_of_value};
ghost use Rattle.abi_sound.specs.Locations.{size_of_type, stride_in};
ghost use Rattle.path_model.specs.Outs.{class_or_first as class_or_first_of};
ghost use Rattle.path_model.specs.Order.{first_name_base};
ghost use Rattle.path_model.specs.Uses.{is_shared as is_shared_base};
ghost use Rattle.code_ops.specs.Operands.{pointed as pointed_of};
ghost use Rattle.code_ops.specs.PlaceOps.{element_distance, element_ops, path_ops, place_ops, passed_used, place_used, place_type, type_or_int, element_type_at};
ghost use Rattle.code_ops.specs.invariants.Fits.{FitsBase, FitsPath, FitsPlace, FitsPassed};
ghost use Rattle.code_ops.specs.invariants.Sites.{site_setup, site_places, site_scope, IsLaidSite};

use crate::operands::{class_or_first, operand_register, push_base};
use crate::reads::{is_shared, push_arrow, push_guards, push_views_if};
use crate::sites::{Site, pointed};
use crate::uses::UseList;
use crate::widths::width;
use abi_sound::{SoundLayout, member_place};
use byte_code::{Finish, FinishList};
use cxx_hierarchy::{ClassId, FieldType, Hierarchy, Member, ValueType};
use cxx_program::{PassedMember, TypedPlace};
use cxx_subobject::{Subobject, class_of};
use foundation::NoMemory;

/// The bytes of a number or a pointer.
fn value_size(ty: &ValueType<ClassId>) -> u32
    ensures { result ≡ size_of_value ty.now }
{
    match ty {
        ValueType::Number(scalar) => width(*scalar).bytes as u32,
        ValueType::Pointer(_) => 8,
    }
}

/// The bytes of what is of a type.
fn type_size<L: SoundLayout>(site: &Site<L>, ty: &FieldType<ClassId>) -> u32
    requires { (d : ClassId) → ty.now ≡ Object d → d.0 < length (L.rows site.now.layout.now) }
    ensures { result ≡ size_of_type (site_places L.rows site.now) ty.now }
{
    match ty {
        FieldType::Value(ty) => value_size(ty),
        FieldType::Object(class) => site.layout.layout(*class).size,
    }
}

/// The member of a number of a class.
pub(crate) fn member_at(h: &Hierarchy, d: ClassId, m: u32) -> Option<&Member<ClassId>>
    ensures { option_copied result ≡ slice_get (members_of h.now d) m }
{
    if d.0 >= h.len() {
        return None;
    }
    h.class(d).members.as_slice().get(m as usize)
}

/// The bytes of an element of a member of a class.
fn stride<L: SoundLayout>(site: &Site<L>, d: ClassId, m: u32) -> u32
    requires laid { IsLaidSite L.lays_out L.rows site.now }
    requires known { d.0 < length site.now.h.now }
    ensures { result ≡ stride_in (site_places L.rows site.now) (slice_get (members_of site.now.h.now d) m) }
{
    match member_at(site.h, d, m) {
        Some(member) => type_size(site, &member.ty),
        // never met in a typed program (`programs_are_typed` of cxx_typing): the member is declared
        None => 0,
    }
}

/// A place, and so many times a stride behind it.
fn element_offset(place: u32, index: u32, stride: u32) -> u64
    ensures is { result ≡ place + index * stride }
    ensures small { index < most_elements → result < 2 ^ 45 }
{
    place as u64 + index as u64 * stride as u64
}

/// How far an element lies behind the subobject that declares its member.
fn element_distance<L: SoundLayout>(
    site: &Site<L>,
    base: &Subobject,
    member: u32,
    index: u32,
) -> u64
    requires laid { IsLaidSite L.lays_out L.rows site.now }
    requires known { (d : ClassId) → class_of base.now ≡ Some d → d.0 < length site.now.h.now }
    ensures is { result ≡ element_distance (site_setup L.rows site.now) base.now member index }
    ensures small { index < most_elements → result < 2 ^ 45 }
{
    match class_of(base) {
        // never met: the path of a subobject is not empty (`class_of` of cxx_subobject)
        None => 0,
        Some(d) => {
            let place = member_place(site.layout, d, member);
            element_offset(place, index, stride(site, d, member))
        }
    }
}

/// Moves an address in a register from a part of class `c` to the element of a member of its subobject.
fn push_element<L: SoundLayout>(
    list: &mut FinishList,
    site: &Site<L>,
    c: ClassId,
    base: &Subobject,
    member: u32,
    index: u32,
    r: u32,
) -> Result<(), NoMemory>
    requires laid { IsLaidSite L.lays_out L.rows site.now }
    requires fits { FitsBase site.now.h.now c base.now }
    ensures { OnOk result (list.new ≡ list.old ++ element_ops (site_setup L.rows site.now) c base.now member index r) }
{
    push_base(list, site, c, base, r, r)?;
    let offset = element_distance(site, base, member, index);
    list.push(Finish::Add {
        to: r,
        base: r,
        offset,
    })?;
    Ok(())
}

/// Moves an address in a register through the class members of a path, and to the last name of a place.
fn push_path<L: SoundLayout>(
    list: &mut FinishList,
    site: &Site<L>,
    c: ClassId,
    passed: &[PassedMember],
    last: &TypedPlace,
    r: u32,
) -> Result<(), NoMemory>
    requires laid { IsLaidSite L.lays_out L.rows site.now }
    requires fits { FitsPath site.now.h.now c passed.now last.now.base }
    ensures { OnOk result (list.new ≡ list.old ++ path_ops (site_setup L.rows site.now) c passed.now last.now.base last.now.member last.now.index r) }
{
    match passed {
        [] => push_element(list, site, c, &last.base, last.member, last.index, r)?,
        [p, rest @ ..] => {
            push_element(list, site, c, &p.base, p.member, p.index, r)?;
            push_path(list, site, p.class, rest, last, r)?;
        }
    }
    Ok(())
}

/// Puts the address of a place into a register, from the one that has the pointer.
///
/// Errors: want of memory.
pub fn push_place<L: SoundLayout>(
    list: &mut FinishList,
    site: &Site<L>,
    place: &TypedPlace,
    to: u32,
    from: u32,
) -> Result<(), NoMemory>
    requires laid { IsLaidSite L.lays_out L.rows site.now }
    requires fits { FitsPlace site.now.h.now place.now }
    ensures { OnOk result (list.new ≡ list.old ++ place_ops (site_setup L.rows site.now) place.now to from) }
{
    list.push(Finish::Move { to, from })?;
    push_path(list, site, place.class, place.passed.as_slice(), place, to)?;
    Ok(())
}

/// How far a class member that is passed lies behind the part of class `c` from which it is reached, where no virtual base is on
/// the way.
fn passed_distance<L: SoundLayout>(site: &Site<L>, c: ClassId, p: &PassedMember) -> u64
    requires laid { IsLaidSite L.lays_out L.rows site.now }
    requires fits { FitsPassed site.now.h.now c p.now }
    ensures is { result ≡ (site_places L.rows site.now).place c p.now.base + element_distance (site_setup L.rows site.now) p.now.base p.now.member p.now.index }
    ensures small { result < 2 ^ 46 }
{
    site.layout.place(site.h, c, &p.base) as u64
        + element_distance(site, &p.base, p.member, p.index)
}

/// Puts uses of the class members behind others that are reached before the first step behind a virtual base.
fn push_passed_used<L: SoundLayout>(
    uses: &mut UseList,
    site: &Site<L>,
    c: ClassId,
    offset: u64,
    passed: &[PassedMember],
    last: &Subobject,
    r: u32,
) -> Result<(), NoMemory>
    requires laid { IsLaidSite L.lays_out L.rows site.now }
    requires fits { FitsPath site.now.h.now c passed.now last.now }
    requires small { offset + c.0 * 2 ^ 46 ≤ 2 ^ 60 }
    ensures { OnOk result (uses.new ≡ uses.old ++ passed_used (site_setup L.rows site.now) c offset passed.now r) }
{
    match passed {
        [] => {}
        [p, rest @ ..] => {
            if is_shared(&p.base) {
                return Ok(());
            }
            let there = offset + passed_distance(site, c, p);
            push_guards(uses, r, there, p.class)?;
            push_passed_used(uses, site, p.class, there, rest, last, r)?;
        }
    }
    Ok(())
}

/// Whether the first step of a place is behind a virtual base.
fn is_shared_first(place: &TypedPlace) -> bool
    ensures { result ≡ is_shared_base (first_name_base place.now.passed place.now.base) }
{
    match place.passed.as_slice().first() {
        Some(p) => is_shared(&p.base),
        None => is_shared(&place.base),
    }
}

/// Puts the uses of a place behind others, whose pointer is read into a register.
///
/// Errors: want of memory.
pub fn push_place_used<L: SoundLayout>(
    uses: &mut UseList,
    site: &Site<L>,
    place: &TypedPlace,
    r: u32,
) -> Result<(), NoMemory>
    requires laid { IsLaidSite L.lays_out L.rows site.now }
    requires fits { FitsPlace site.now.h.now place.now }
    ensures { OnOk result (uses.new ≡ uses.old ++ place_used (site_setup L.rows site.now) (site_scope site.now) place.now r) }
{
    let register = operand_register(r, place.pointer);
    push_arrow(uses, site, r, place.pointer, place.class)?;
    push_views_if(uses, is_shared_first(place), register, 0, place.class)?;
    let passed = place.passed.as_slice();
    push_passed_used(uses, site, place.class, 0, passed, &place.base, register)?;
    Ok(())
}

/// The type of the elements of a member, where they are numbers or pointers.
pub(crate) fn element_type(h: &Hierarchy, d: ClassId, m: u32) -> Option<&ValueType<ClassId>>
    ensures { option_copied result ≡ element_type_at h.now d m }
{
    let member = member_at(h, d, m)?;
    match &member.ty {
        FieldType::Object(_) => None,
        FieldType::Value(ty) => Some(ty),
    }
}

/// The class to which a leaf points, if it is a pointer.
fn leaf_class(leaf: Option<&ValueType<ClassId>>) -> Option<ClassId>
    ensures { result ≡ pointed_of (type_or_int (option_copied leaf.entry)) }
{
    match leaf {
        None => None,
        Some(_) => pointed(leaf),
    }
}

/// The class to which the leaf points that a place leads to, if it is a pointer.
pub fn place_class<L: SoundLayout>(site: &Site<L>, place: &TypedPlace) -> Option<ClassId>
    ensures { result ≡ pointed_of (place_type (site_setup L.rows site.now) place.now) }
{
    let d = class_or_first(class_of(&place.base));
    leaf_class(element_type(site.h, d, place.member))
}
