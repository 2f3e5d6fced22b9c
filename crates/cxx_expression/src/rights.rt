//! What stands to the right of `=`.

ghost use Rattle.std.specs.Prelude.{◌≡◌, ◌<◌, OnOk, length};
ghost use Rattle.cxx_overrider.specs.Overriders.{AreOverriders};
ghost use Rattle.cxx_search.specs.Searches.{is_abstract};
ghost use Rattle.cxx_expression.specs.Checked.{Answers};
ghost use Rattle.cxx_expression.specs.Rights.{operand_right, place_right, address_right, result_value, as_result, call_right, new_right, right_of, converted_value, converted_right};
ghost use Rattle.cxx_expression.specs.invariants.Known.{Knows};

use crate::calls::call_of;
use crate::casts::{cast_right, type_right};
use crate::classes::class_of;
use crate::conversions::conversion_of;
use crate::faults::{FaultList, Piece, refuse};
use crate::known::Known;
use crate::operators::{binary_right, not_right};
use crate::places::{leaf_of, object_place_of};
use crate::site::Site;
use crate::typed::{CallValue, RightValue};
use crate::values::operand_of;
use cxx_hierarchy::{ClassId, Hierarchy, ReturnType, Rule, ValueType};
use cxx_overrider::Overriders;
use cxx_program::{Converted, TypedCall, TypedRight};
use cxx_search::abstract_is_found;
use cxx_syntax::{CallText, Operand, PlaceText, Right, Spot};
use foundation::NoMemory;

/// What is known of a right side, where its type is.
type Answer = Result<Piece<RightValue>, NoMemory>;

/// An operand.
#[tactic(auto, unfolding(crate::specs::Rights::operand_right))]
fn operand_right(site: &Site, faults: &mut FaultList, operand: &Operand) -> Answer
    ensures { Answers result faults.old faults.new (operand_right site.now.setting.now site.now.scene.now site.now.at operand.now) }
{
    let value = match operand_of(site, faults, operand)? {
        Ok(value) => value,
        Err(fault) => return Ok(Err(fault)),
    };
    Ok(Ok(RightValue {
        right: Ok(TypedRight::Operand(value.operand)),
        ty: value.ty,
        is_null: value.is_null,
    }))
}

/// A place that is read.
#[tactic(auto, unfolding(crate::specs::Rights::place_right))]
fn place_right(site: &Site, known: &mut Known, faults: &mut FaultList, text: &PlaceText) -> Answer
    requires knows { Knows site.now.h.now known.old }
    ensures answers { Answers result faults.old faults.new (place_right site.now.h.now site.now.setting.now site.now.scene.now site.now.at text.now) }
    ensures knows { OnOk result (Knows site.now.h.now known.new) }
{
    let leaf = match leaf_of(site, known, faults, text)? {
        Ok(leaf) => leaf,
        Err(fault) => return Ok(Err(fault)),
    };
    Ok(Ok(RightValue {
        right: Ok(TypedRight::Read(leaf.place)),
        ty: leaf.ty,
        is_null: false,
    }))
}

/// The address of an object.
#[tactic(auto, unfolding(crate::specs::Rights::address_right))]
fn address_right(site: &Site, known: &mut Known, faults: &mut FaultList, text: &PlaceText) -> Answer
    requires knows { Knows site.now.h.now known.old }
    ensures answers { Answers result faults.old faults.new (address_right site.now.h.now site.now.setting.now site.now.scene.now site.now.at text.now) }
    ensures knows { OnOk result (Knows site.now.h.now known.new) }
{
    let object = match object_place_of(site, known, faults, text)? {
        Ok(object) => object,
        Err(fault) => return Ok(Err(fault)),
    };
    Ok(Ok(RightValue {
        right: Ok(TypedRight::Address(object.place, object.class)),
        ty: ValueType::Pointer(object.class),
        is_null: false,
    }))
}

/// A call, where it is there, with the type of its result.
fn result_value(call: Piece<TypedCall>, ty: ValueType<ClassId>) -> RightValue
    ensures { result ≡ result_value call ty }
{
    let right = match call {
        Err(fault) => Err(fault),
        Ok(call) => Ok(TypedRight::Call(call)),
    };
    RightValue {
        right,
        ty,
        is_null: false,
    }
}

/// A call whose result is used.
#[tactic(auto, unfolding(crate::specs::Rights::call_right))]
fn call_right(site: &Site, known: &mut Known, faults: &mut FaultList, text: &CallText) -> Answer
    requires made { AreOverriders site.now.h.now site.now.overriders.now }
    requires knows { Knows site.now.h.now known.old }
    ensures answers { Answers result faults.old faults.new (call_right site.now.h.now site.now.setting.now site.now.scene.now site.now.at text.now) }
    ensures knows { OnOk result (Knows site.now.h.now known.new) }
{
    let value = match call_of(site, known, faults, text)? {
        Ok(value) => value,
        Err(fault) => return Ok(Err(fault)),
    };
    let CallValue { call, returns } = value;
    match returns {
        ReturnType::Void => refuse(faults, Rule::TypeMismatch, site.at),
        ReturnType::Value(ty) => Ok(Ok(result_value(call, ty))),
    }
}

/// Whether a class is abstract.
fn is_abstract(h: &Hierarchy, o: &Overriders, c: ClassId) -> bool
    requires made { AreOverriders h.now o.now }
    ensures { result ≡ is_abstract h.now c }
{
    if c.0 >= h.len() {
        return false;
    }
    h.keeps();
    abstract_is_found();
    o.is_abstract(c)
}

/// A `new`.
#[tactic(auto, unfolding(crate::specs::Rights::new_right))]
fn new_right(h: &Hierarchy, o: &Overriders, faults: &mut FaultList, x: &Spot) -> Answer
    requires made { AreOverriders h.now o.now }
    ensures { Answers result faults.old faults.new (new_right h.now x.now) }
{
    let class = match class_of(h, faults, x)? {
        Ok(class) => class,
        Err(fault) => return Ok(Err(fault)),
    };
    if is_abstract(h, o, class) {
        return refuse(faults, Rule::Abstract, x.at);
    }
    Ok(Ok(RightValue {
        right: Ok(TypedRight::New(class)),
        ty: ValueType::Pointer(class),
        is_null: false,
    }))
}

/// The type of a right side, where it is known, and the right side, where all of it is typed; `at` is the place of the
/// statement's first token. Faults: those of the right side.
#[tactic(auto, unfolding(crate::specs::Rights::right_of))]
pub fn right_of(site: &Site, known: &mut Known, faults: &mut FaultList, right: &Right) -> Answer
    requires made { AreOverriders site.now.h.now site.now.overriders.now }
    requires knows { Knows site.now.h.now known.old }
    ensures answers { Answers result faults.old faults.new (right_of site.now.h.now site.now.setting.now site.now.scene.now site.now.at right.now) }
    ensures knows { OnOk result (Knows site.now.h.now known.new) }
{
    match right {
        Right::Operand(x) => operand_right(site, faults, x),
        Right::Binary(x, op, y) => { binary_right(site, known, faults, x, *op, y) }
        Right::Not(x) => not_right(site, faults, x),
        Right::Place(text) => place_right(site, known, faults, text),
        Right::Address(text) => address_right(site, known, faults, text),
        Right::Call(text) => call_right(site, known, faults, text),
        Right::New(x) => new_right(site.h, site.overriders, faults, x),
        Right::Cast(text) => cast_right(site, known, faults, text),
        Right::TypeEqual(x, name) => { type_right(site, known, faults, x, name) }
    }
}

/// What a right side is known to be becomes a value of a type; `at` is the place of the statement's first token. Faults: those
/// of the conversion.
#[tactic(auto, unfolding(crate::specs::Rights::converted_value))]
pub fn converted_value(
    site: &Site,
    known: &mut Known,
    faults: &mut FaultList,
    ty: &ValueType<ClassId>,
    value: RightValue,
) -> Result<Piece<Converted>, NoMemory>
    requires knows { Knows site.now.h.now known.old }
    ensures answers { Answers result faults.old faults.new (converted_value site.now.h.now site.now.at ty.now value) }
    ensures knows { OnOk result (Knows site.now.h.now known.new) }
{
    let conversion = match conversion_of(site, known, faults, &value.ty, value.is_null, ty)? {
        Ok(conversion) => conversion,
        Err(fault) => return Ok(Err(fault)),
    };
    let right = match value.right {
        Ok(right) => right,
        Err(fault) => return Ok(Err(fault)),
    };
    Ok(Ok(Converted { right, conversion }))
}

/// A right side that becomes a value of a type; `at` is the place of the statement's first token. Faults: those of the
/// right side and of its conversion.
#[tactic(auto, unfolding(crate::specs::Rights::converted_right))]
pub fn converted_right(
    site: &Site,
    known: &mut Known,
    faults: &mut FaultList,
    ty: &ValueType<ClassId>,
    right: &Right,
) -> Result<Piece<Converted>, NoMemory>
    requires made { AreOverriders site.now.h.now site.now.overriders.now }
    requires knows { Knows site.now.h.now known.old }
    ensures answers { Answers result faults.old faults.new (converted_right site.now.h.now site.now.setting.now site.now.scene.now site.now.at ty.now right.now) }
    ensures knows { OnOk result (Knows site.now.h.now known.new) }
{
    let value = match right_of(site, known, faults, right)? {
        Ok(value) => value,
        Err(fault) => return Ok(Err(fault)),
    };
    let converted = converted_value(site, known, faults, ty, value)?;
    Ok(converted)
}
