//! The initializers of a constructor.

ghost use Rattle.std.specs.Prelude.{◌≡◌, [], nat_eq, position, slice_get, OnOk};
ghost use Rattle.std.specs.List.{list_any};
ghost use Rattle.std.specs.Option.{option_copied};
ghost use Rattle.std.specs.Str.{bytes_eq};
ghost use Rattle.cxx_hierarchy.specs.declared.records.ClassId.{ClassId};
ghost use Rattle.cxx_hierarchy.specs.declared.records.Member.{Member};
ghost use Rattle.cxx_hierarchy.specs.Classes.{class_at, members_of, leaf_type_in, leaf_type};
ghost use Rattle.cxx_program.specs.declared.program.TypedInit.{TypedInit};
ghost use Rattle.cxx_resolve.specs.Stops.{Settles};
ghost use Rattle.cxx_resolve.specs.Turns.{given_in_turn};
ghost use Rattle.cxx_resolve.specs.Initializers.{member_number, constant_conversion, init_once, init_at, init_of};

use cxx_expression::{Value, constant_of, copy_type, fitted, width_of_member};
use cxx_hierarchy::{ClassId, ClassRec, FieldType, Hierarchy, Member, Rule, Stop, ValueType};
use cxx_program::{Conversion, TypedInit, TypedInitList};
use cxx_syntax::Init;
use foundation::Sequence;
use std::alloc::Global;

/// The record of a class, where there is one.
pub(crate) fn class_at(h: &Hierarchy, c: ClassId) -> Option<&ClassRec<ClassId>>
    ensures { option_copied result ≡ class_at h.now c }
{
    if c.0 < h.len() {
        return Some(h.class(c));
    }
    None
}

/// The data members that a class declares.
fn members_of(h: &Hierarchy, c: ClassId) -> &[Member<ClassId>]
    ensures { result.now ≡ members_of h.now c }
{
    match class_at(h, c) {
        Some(class) => class.members.as_slice(),
        // never met: a body is of a class of the source, by `bodies_of_records` of cxx_readings
        None => &[],
    }
}

/// The place of the member of a name.
fn position_of(members: &[Member<ClassId>], name: &[u8]) -> Option<usize>
    ensures { result ≡ position (λ (m : Member ClassId). bytes_eq m.name name.now) members.now }
{
    members
        .iter()
        .position(|member| member.name.as_slice() == name)
}

/// The number of the member that the class itself declares under a name.
fn member_number(h: &Hierarchy, c: ClassId, name: &[u8]) -> Option<u32>
    ensures { result ≡ member_number h.now c name.now }
{
    h.keeps();
    let place = position_of(members_of(h, c), name)?;
    Some(place as u32)
}

/// The type of a member that is a number or a pointer, and no array.
fn leaf_type_in(member: Option<&Member<ClassId>>) -> Option<ValueType<ClassId>>
    ensures { result ≡ leaf_type_in (option_copied member.entry) }
{
    let member = member?;
    match (&member.ty, member.count) {
        (FieldType::Value(ty), None) => Some(copy_type(ty)),
        (FieldType::Value(_), Some(_)) => None,
        (FieldType::Object(_), _) => None,
    }
}

/// The member of a number.
fn member_at(h: &Hierarchy, c: ClassId, number: u32) -> Option<&Member<ClassId>>
    ensures { option_copied result ≡ slice_get (members_of h.now c) number }
{
    members_of(h, c).get(number as usize)
}

/// The type of the member of a number, where it is a number or a pointer, and no array.
fn leaf_type(h: &Hierarchy, c: ClassId, number: u32) -> Option<ValueType<ClassId>>
    ensures { result ≡ leaf_type h.now c number }
{
    leaf_type_in(member_at(h, c, number))
}

/// How a constant becomes the first value of a variable of a type.
fn constant_conversion(value: &Value, ty: &ValueType<ClassId>) -> Option<Conversion>
    ensures { result ≡ constant_conversion value.now ty.now }
{
    match ty {
        ValueType::Number(scalar) => Some(Conversion::Number(*scalar)),
        ValueType::Pointer(_) => {
            if value.is_null {
                return Some(Conversion::Null);
            }
            None
        }
    }
}

/// Whether a member has a first value.
fn is_started(before: &[TypedInit], member: u32) -> bool
    ensures { result ≡ list_any (λ (x : TypedInit). nat_eq x.member member) before.now }
{
    before.iter().any(|init| init.member == member)
}

/// The first value of a member of this type and width, where it may have this one: a bit-field keeps its low bits
/// (ISO C++03 9.6).
fn init_once(
    member: u32,
    width: Option<u32>,
    value: &Value,
    ty: Option<ValueType<ClassId>>,
    again: bool,
) -> Option<TypedInit>
    ensures { result ≡ init_once member width value.now ty again }
{
    let ty = ty?;
    if again {
        return None;
    }
    let conversion = fitted(width, constant_conversion(value, &ty)?);
    let operand = value.operand;
    Some(TypedInit {
        member,
        operand,
        conversion,
    })
}

/// The first value of the member of a number, where there is one and it may have this value.
fn init_at(
    h: &Hierarchy,
    c: ClassId,
    before: &[TypedInit],
    value: &Value,
    number: Option<u32>,
) -> Option<TypedInit>
    ensures { result ≡ init_at h.now c before.now value.now number }
{
    let number = number?;
    let ty = leaf_type(h, c, number);
    let again = is_started(before, number);
    let width = width_of_member(h, c, number);
    init_once(number, width, value, ty, again)
}

/// One initializer more.
#[tactic(auto, unfolding(crate::specs::Initializers::init_of))]
fn init_of(h: &Hierarchy, c: ClassId, before: &[TypedInit], init: &Init) -> Result<TypedInit, Stop>
    ensures { Settles result (init_of h.now c before.now init.now) }
{
    let value = constant_of(&init.value);
    let number = member_number(h, c, init.name.name.as_slice());
    match init_at(h, c, before, &value, number) {
        Some(typed) => Ok(typed),
        None => Err(Stop::Refused(Rule::BadInitializer, init.name.at)),
    }
}

/// The initializers of a constructor, in their order.
pub(crate) fn inits_of(
    alloc: Global,
    h: &Hierarchy,
    c: ClassId,
    inits: &[Init],
) -> Result<TypedInitList, Stop>
    ensures { Settles result (given_in_turn (init_of h.now c) [] inits.now) }
{
    let mut typed = Sequence::new(alloc);
    for init in inits {
        let one = init_of(h, c, typed.as_slice(), init)?;
        typed.push(one)?;
    }
    Ok(typed)
}
