//! Places: members of what a pointer names, and members inside them.

ghost use Rattle.std.specs.Prelude.{◌≡◌, OnOk, IfOk};
ghost use Rattle.cxx_subobject.specs.Subobjects.{class_of};
ghost use Rattle.cxx_program.specs.Typed.{place_width};
ghost use Rattle.cxx_expression.specs.Checked.{Answers};
ghost use Rattle.cxx_expression.specs.Places.{member_in, member_of, checked_index, object_of, step_of, further, begun, steps_of, with_last, place_of, leaf_of, object_place_of};
ghost use Rattle.cxx_expression.specs.invariants.Known.{Knows};

use crate::copies::copy_field;
use crate::faults::{FaultList, Piece, note, refuse};
use crate::known::Known;
use crate::look_up::{Looked, looked_up, member_record, width_of_member};
use crate::site::Site;
use crate::typed::{FieldPlace, FoundMember, LeafPlace, ObjectPlace, PlaceStep, Pointer, Reached};
use crate::values::pointer_of;
use cxx_hierarchy::{ClassId, FieldType, Hierarchy, Rule};
use cxx_program::{PassedMember, TypedPlace};
use cxx_subobject::{Subobject, class_of};
use cxx_syntax::{PlacePart, PlaceText, Spot};
use foundation::{NoMemory, Sequence};
use std::alloc::Global;

/// The member of a number in the class of a subobject.
#[tactic(auto, unfolding(crate::specs::Places::member_in))]
fn member_in(
    h: &Hierarchy,
    name_at: u32,
    faults: &mut FaultList,
    s: Subobject,
    number: u32,
) -> Result<Piece<FoundMember>, NoMemory>
    ensures { Answers result faults.old faults.new (member_in h.now name_at s number (class_of s)) }
{
    // neither refusal is met for what `lookup` of cxx_lookup found: it is declared, in a subobject
    let Some(class) = class_of(&s) else {
        return refuse(faults, Rule::NoSuchMember, name_at);
    };
    let Some(member) = member_record(h, class, number) else {
        return refuse(faults, Rule::NoSuchMember, name_at);
    };
    Ok(Ok(FoundMember {
        base: s,
        number,
        ty: copy_field(&member.ty),
        count: member.count,
    }))
}

/// The data member that a name means in a class.
#[tactic(auto, unfolding(crate::specs::Places::member_of))]
fn member_of(
    site: &Site,
    known: &mut Known,
    faults: &mut FaultList,
    c: ClassId,
    x: &Spot,
) -> Result<Piece<FoundMember>, NoMemory>
    requires knows { Knows site.now.h.now known.old }
    ensures answers { Answers result faults.old faults.new (member_of site.now.h.now site.now.at c x.now) }
    ensures knows { OnOk result (Knows site.now.h.now known.new) }
{
    match looked_up(site.h, known, c, x.name.as_slice())? {
        Looked::Missing => refuse(faults, Rule::NoSuchMember, x.at),
        Looked::Ambiguous => refuse(faults, Rule::AmbiguousName, x.at),
        Looked::Member(s, number) => member_in(site.h, x.at, faults, s, number),
        Looked::Function(_, _) => refuse(faults, Rule::TypeMismatch, site.at),
    }
}

/// The index of an element of an array of a length.
#[tactic(auto, unfolding(crate::specs::Places::checked_index))]
fn index_of(
    at: u32,
    faults: &mut FaultList,
    count: Option<u32>,
    index: Option<(u64, u32)>,
) -> Result<Piece<u32>, NoMemory>
    ensures { Answers result faults.old faults.new (checked_index at count index) }
{
    match (count, index) {
        (None, None) => Ok(Ok(0)),
        (Some(length), Some((number, place))) => {
            if number < length as u64 {
                return Ok(Ok(number as u32));
            }
            note(faults, Rule::Index, place)?;
            Ok(Ok(0))
        }
        (None, Some(_)) | (Some(_), None) => refuse(faults, Rule::TypeMismatch, at),
    }
}

/// The class of an object.
#[tactic(auto, unfolding(crate::specs::Places::object_of))]
fn object_of(
    at: u32,
    faults: &mut FaultList,
    ty: &FieldType<ClassId>,
) -> Result<Piece<ClassId>, NoMemory>
    ensures { Answers result faults.old faults.new (object_of at ty.now) }
{
    match ty {
        FieldType::Object(class) => Ok(Ok(*class)),
        FieldType::Value(_) => refuse(faults, Rule::TypeMismatch, at),
    }
}

/// One name of a place, in an object of a class.
#[tactic(auto, unfolding(crate::specs::Places::step_of))]
fn step_of(
    site: &Site,
    known: &mut Known,
    faults: &mut FaultList,
    c: ClassId,
    part: &PlacePart,
) -> Result<Piece<PlaceStep>, NoMemory>
    requires knows { Knows site.now.h.now known.old }
    ensures answers { Answers result faults.old faults.new (step_of site.now.h.now site.now.at c part.now) }
    ensures knows { OnOk result (Knows site.now.h.now known.new) }
{
    let found = match member_of(site, known, faults, c, &part.name)? {
        Ok(found) => found,
        Err(fault) => return Ok(Err(fault)),
    };
    let index = match index_of(site.at, faults, found.count, part.index)? {
        Ok(index) => index,
        Err(fault) => return Ok(Err(fault)),
    };
    Ok(Ok(PlaceStep {
        base: found.base,
        member: found.number,
        index,
        ty: found.ty,
    }))
}

/// Nothing of an object of a class is reached yet.
fn begun(alloc: Global, class: ClassId) -> Reached
    ensures { result ≡ begun class }
{
    Reached {
        passed: Sequence::new(alloc),
        last: None,
        ty: FieldType::Object(class),
    }
}

/// One step more, in an object of a class.
fn further(reached: Reached, class: ClassId, step: PlaceStep) -> Result<Reached, NoMemory>
    ensures { IfOk result (λ next. next ≡ further reached class step) }
{
    let Reached {
        mut passed,
        last,
        ..
    } = reached;
    if let Some(last) = last {
        passed.push(PassedMember {
            base: last.base,
            member: last.member,
            index: last.index,
            class,
        })?;
    }
    let ty = copy_field(&step.ty);
    Ok(Reached {
        passed,
        last: Some(step),
        ty,
    })
}

/// What the names of a place reach in an object of a class.
#[tactic(auto, unfolding(crate::specs::Places::steps_of))]
fn steps_of(
    site: &Site,
    known: &mut Known,
    faults: &mut FaultList,
    class: ClassId,
    parts: &[PlacePart],
) -> Result<Piece<Reached>, NoMemory>
    requires knows { Knows site.now.h.now known.old }
    ensures answers { Answers result faults.old faults.new (steps_of site.now.h.now site.now.at (begun class) parts.now) }
    ensures knows { OnOk result (Knows site.now.h.now known.new) }
{
    let mut reached = begun(known.alloc, class);
    for part in parts {
        let inside = match object_of(site.at, faults, &reached.ty)? {
            Ok(inside) => inside,
            Err(fault) => return Ok(Err(fault)),
        };
        let step = match step_of(site, known, faults, inside, part)? {
            Ok(step) => step,
            Err(fault) => return Ok(Err(fault)),
        };
        reached = further(reached, inside, step)?;
    }
    Ok(Ok(reached))
}

/// The place that is reached, where it has a name.
fn with_last(pointer: Pointer, reached: Reached) -> Option<FieldPlace>
    ensures { result ≡ with_last pointer reached.passed reached.last }
{
    let Reached { passed, last, .. } = reached;
    let PlaceStep {
        base,
        member,
        index,
        ty,
    } = last?;
    let place = TypedPlace {
        pointer: pointer.operand,
        class: pointer.class,
        passed,
        base,
        member,
        index,
    };
    Some(FieldPlace { place, ty })
}

/// A place and its type.
#[tactic(auto, unfolding(crate::specs::Places::place_of))]
fn place_of(
    site: &Site,
    known: &mut Known,
    faults: &mut FaultList,
    text: &PlaceText,
) -> Result<Piece<FieldPlace>, NoMemory>
    requires knows { Knows site.now.h.now known.old }
    ensures answers { Answers result faults.old faults.new (place_of site.now.h.now site.now.setting.now site.now.scene.now site.now.at text.now) }
    ensures knows { OnOk result (Knows site.now.h.now known.new) }
{
    let pointer = match pointer_of(site, faults, &text.pointer)? {
        Ok(pointer) => pointer,
        Err(fault) => return Ok(Err(fault)),
    };
    let parts = text.parts.as_slice();
    let reached = match steps_of(site, known, faults, pointer.class, parts)? {
        Ok(reached) => reached,
        Err(fault) => return Ok(Err(fault)),
    };
    // the refusal is never met: tokens spell a name behind the arrow, by `PlaceReads` of cxx_syntax
    let Some(place) = with_last(pointer, reached) else {
        return refuse(faults, Rule::TypeMismatch, site.at);
    };
    Ok(Ok(place))
}

/// A place of a number or a pointer; `at` is the place of the statement's first token. Faults: E9, E10, E19, E20, E22.
#[tactic(auto, unfolding(crate::specs::Places::leaf_of))]
pub fn leaf_of(
    site: &Site,
    known: &mut Known,
    faults: &mut FaultList,
    text: &PlaceText,
) -> Result<Piece<LeafPlace>, NoMemory>
    requires knows { Knows site.now.h.now known.old }
    ensures answers { Answers result faults.old faults.new (leaf_of site.now.h.now site.now.setting.now site.now.scene.now site.now.at text.now) }
    ensures knows { OnOk result (Knows site.now.h.now known.new) }
{
    let found = match place_of(site, known, faults, text)? {
        Ok(found) => found,
        Err(fault) => return Ok(Err(fault)),
    };
    let FieldPlace { place, ty } = found;
    match ty {
        FieldType::Value(ty) => Ok(Ok(LeafPlace { place, ty })),
        FieldType::Object(_) => refuse(faults, Rule::TypeMismatch, site.at),
    }
}

/// The width of the member that a place leads to, where it is a bit-field (ISO C++03 9.6).
pub fn place_width(h: &Hierarchy, place: &TypedPlace) -> Option<u32>
    ensures { result ≡ place_width h.now place.now }
{
    let class = class_of(&place.base)?;
    width_of_member(h, class, place.member)
}

/// A place of an object.
#[tactic(auto, unfolding(crate::specs::Places::object_place_of))]
pub(crate) fn object_place_of(
    site: &Site,
    known: &mut Known,
    faults: &mut FaultList,
    text: &PlaceText,
) -> Result<Piece<ObjectPlace>, NoMemory>
    requires knows { Knows site.now.h.now known.old }
    ensures answers { Answers result faults.old faults.new (object_place_of site.now.h.now site.now.setting.now site.now.scene.now site.now.at text.now) }
    ensures knows { OnOk result (Knows site.now.h.now known.new) }
{
    let found = match place_of(site, known, faults, text)? {
        Ok(found) => found,
        Err(fault) => return Ok(Err(fault)),
    };
    let FieldPlace { place, ty } = found;
    match ty {
        FieldType::Object(class) => Ok(Ok(ObjectPlace { place, class })),
        FieldType::Value(_) => refuse(faults, Rule::TypeMismatch, site.at),
    }
}
