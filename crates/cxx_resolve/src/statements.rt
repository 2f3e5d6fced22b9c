//! Statements without a block in them.

ghost use Rattle.std.specs.Prelude.{◌≡◌, OnOk};
ghost use Rattle.cxx_overrider.specs.Overriders.{AreOverriders};
ghost use Rattle.cxx_expression.specs.Checked.{Answers};
ghost use Rattle.cxx_expression.specs.invariants.Known.{Knows};
ghost use Rattle.cxx_resolve.specs.Statements.{assign_of, write_of, copy_of, call_statement, delete_of, value_return, returned_kind, print_of, print_type_of, print_view_of, dump_of, plain_of};

use cxx_expression::{
    FaultList, Known, Piece, Returns, Site, conversion_of, converted_operand, converted_value,
    fitted, leaf_of, operand_of, pair_of, place_width, pointer_of, polymorphic_pointer, refuse,
    right_of, variable_of, whole_call,
};
use cxx_hierarchy::{ClassId, Rule, ValueType};
use cxx_program::{Argument, TypedKind};
use cxx_syntax::{CallText, Operand, PlaceText, PointerText, Right, Spot, StatementKind};
use foundation::NoMemory;

/// What a statement is typed to, or the fault that refuses it.
type Answer = Result<Piece<TypedKind>, NoMemory>;

/// An assignment to a variable.
#[tactic(auto, unfolding(crate::specs::Statements::assign_of))]
fn assign_of(
    site: &Site,
    known: &mut Known,
    faults: &mut FaultList,
    x: &Spot,
    right: &Right,
) -> Answer
    requires made { AreOverriders site.now.h.now site.now.overriders.now }
    requires knows { Knows site.now.h.now known.old }
    ensures answers { Answers result faults.old faults.new (assign_of site.now.h.now site.now.setting.now site.now.scene.now site.now.at x.now right.now) }
    ensures knows { OnOk result (Knows site.now.h.now known.new) }
{
    let variable = variable_of(site, faults, x)?;
    let value = right_of(site, known, faults, right)?;
    let ((variable, ty), value) = match pair_of(variable, value) {
        Ok(pair) => pair,
        Err(fault) => return Ok(Err(fault)),
    };
    let converted = match converted_value(site, known, faults, &ty, value)? {
        Ok(converted) => converted,
        Err(fault) => return Ok(Err(fault)),
    };
    Ok(Ok(TypedKind::Assign(variable, converted)))
}

/// A value that is written to a member: a bit-field keeps its low bits (ISO C++03 9.6).
#[tactic(auto, unfolding(crate::specs::Statements::write_of))]
fn write_of(
    site: &Site,
    known: &mut Known,
    faults: &mut FaultList,
    place: &PlaceText,
    operand: &Operand,
) -> Answer
    requires knows { Knows site.now.h.now known.old }
    ensures answers { Answers result faults.old faults.new (write_of site.now.h.now site.now.setting.now site.now.scene.now site.now.at place.now operand.now) }
    ensures knows { OnOk result (Knows site.now.h.now known.new) }
{
    let leaf = leaf_of(site, known, faults, place)?;
    let value = operand_of(site, faults, operand)?;
    let (leaf, value) = match pair_of(leaf, value) {
        Ok(pair) => pair,
        Err(fault) => return Ok(Err(fault)),
    };
    let conversion = match conversion_of(site, known, faults, &value.ty, value.is_null, &leaf.ty)? {
        Ok(conversion) => conversion,
        Err(fault) => return Ok(Err(fault)),
    };
    let operand = value.operand;
    let conversion = fitted(place_width(site.h, &leaf.place), conversion);
    Ok(Ok(TypedKind::Write(
        leaf.place,
        Argument {
            operand,
            conversion,
        },
    )))
}

/// A copy of an object into another.
#[tactic(auto, unfolding(crate::specs::Statements::copy_of))]
fn copy_of(site: &Site, faults: &mut FaultList, to: &PointerText, source: &PointerText) -> Answer
    ensures { Answers result faults.old faults.new (copy_of site.now.setting.now site.now.scene.now site.now.at to.now source.now) }
{
    let to = pointer_of(site, faults, to)?;
    let source = pointer_of(site, faults, source)?;
    let (to, source) = match pair_of(to, source) {
        Ok(pair) => pair,
        Err(fault) => return Ok(Err(fault)),
    };
    if to.class.0 != source.class.0 {
        return refuse(faults, Rule::TypeMismatch, site.at);
    }
    Ok(Ok(TypedKind::Copy(to.operand, source.operand, to.class)))
}

/// A call whose result is not used.
#[tactic(auto, unfolding(crate::specs::Statements::call_statement))]
fn call_statement(site: &Site, known: &mut Known, faults: &mut FaultList, text: &CallText) -> Answer
    requires made { AreOverriders site.now.h.now site.now.overriders.now }
    requires knows { Knows site.now.h.now known.old }
    ensures answers { Answers result faults.old faults.new (call_statement site.now.h.now site.now.setting.now site.now.scene.now site.now.at text.now) }
    ensures knows { OnOk result (Knows site.now.h.now known.new) }
{
    let call = match whole_call(site, known, faults, text)? {
        Ok(call) => call,
        Err(fault) => return Ok(Err(fault)),
    };
    Ok(Ok(TypedKind::Call(call)))
}

/// A `delete`.
#[tactic(auto, unfolding(crate::specs::Statements::delete_of))]
fn delete_of(site: &Site, faults: &mut FaultList, pointer: &PointerText) -> Answer
    ensures { Answers result faults.old faults.new (delete_of site.now.setting.now site.now.scene.now site.now.at pointer.now) }
{
    let pointer = match pointer_of(site, faults, pointer)? {
        Ok(pointer) => pointer,
        Err(fault) => return Ok(Err(fault)),
    };
    Ok(Ok(TypedKind::Delete(pointer.operand, pointer.class)))
}

/// A `return` of a value.
#[tactic(auto, unfolding(crate::specs::Statements::value_return))]
fn value_return(
    site: &Site,
    known: &mut Known,
    faults: &mut FaultList,
    ty: &ValueType<ClassId>,
    operand: &Operand,
) -> Answer
    requires knows { Knows site.now.h.now known.old }
    ensures answers { Answers result faults.old faults.new (value_return site.now.h.now site.now.setting.now site.now.scene.now site.now.at ty.now operand.now) }
    ensures knows { OnOk result (Knows site.now.h.now known.new) }
{
    let value = match converted_operand(site, known, faults, ty, operand)? {
        Ok(value) => value,
        Err(fault) => return Ok(Err(fault)),
    };
    Ok(Ok(TypedKind::Return(Some(value))))
}

/// A `return`.
#[tactic(auto, unfolding(crate::specs::Statements::returned_kind))]
fn return_of(site: &Site, known: &mut Known, faults: &mut FaultList, x: &Option<Operand>) -> Answer
    requires knows { Knows site.now.h.now known.old }
    ensures answers { Answers result faults.old faults.new (returned_kind site.now.h.now site.now.setting.now site.now.scene.now site.now.at x.now) }
    ensures knows { OnOk result (Knows site.now.h.now known.new) }
{
    match (&site.setting.returns, x) {
        (Returns::Nothing, None) => Ok(Ok(TypedKind::Return(None))),
        (Returns::Value(ty), Some(operand)) => { value_return(site, known, faults, ty, operand) }
        (Returns::Nowhere, _) | (Returns::Nothing, Some(_)) | (Returns::Value(_), None) => {
            refuse(faults, Rule::TypeMismatch, site.at)
        }
    }
}

/// A value that is printed.
#[tactic(auto, unfolding(crate::specs::Statements::print_of))]
fn print_of(site: &Site, faults: &mut FaultList, operand: &Operand) -> Answer
    ensures { Answers result faults.old faults.new (print_of site.now.setting.now site.now.scene.now site.now.at operand.now) }
{
    let value = match operand_of(site, faults, operand)? {
        Ok(value) => value,
        Err(fault) => return Ok(Err(fault)),
    };
    Ok(Ok(TypedKind::Print(value.operand)))
}

/// A `print` of a class's name.
#[tactic(auto, unfolding(crate::specs::Statements::print_type_of))]
fn print_type_of(site: &Site, known: &mut Known, faults: &mut FaultList, x: &PointerText) -> Answer
    requires knows { Knows site.now.h.now known.old }
    ensures answers { Answers result faults.old faults.new (print_type_of site.now.h.now site.now.setting.now site.now.scene.now site.now.at x.now) }
    ensures knows { OnOk result (Knows site.now.h.now known.new) }
{
    let pointer = match polymorphic_pointer(site, known, faults, x)? {
        Ok(pointer) => pointer,
        Err(fault) => return Ok(Err(fault)),
    };
    Ok(Ok(TypedKind::PrintType(pointer.operand, pointer.class)))
}

/// A `print` of the place of a whole object.
#[tactic(auto, unfolding(crate::specs::Statements::print_view_of))]
fn print_view_of(site: &Site, known: &mut Known, faults: &mut FaultList, x: &PointerText) -> Answer
    requires knows { Knows site.now.h.now known.old }
    ensures answers { Answers result faults.old faults.new (print_view_of site.now.h.now site.now.setting.now site.now.scene.now site.now.at x.now) }
    ensures knows { OnOk result (Knows site.now.h.now known.new) }
{
    let pointer = match polymorphic_pointer(site, known, faults, x)? {
        Ok(pointer) => pointer,
        Err(fault) => return Ok(Err(fault)),
    };
    Ok(Ok(TypedKind::PrintView(pointer.operand, pointer.class)))
}

/// A `dump`.
#[tactic(auto, unfolding(crate::specs::Statements::dump_of))]
fn dump_of(site: &Site, faults: &mut FaultList, pointer: &PointerText) -> Answer
    ensures { Answers result faults.old faults.new (dump_of site.now.setting.now site.now.scene.now site.now.at pointer.now) }
{
    let pointer = match pointer_of(site, faults, pointer)? {
        Ok(pointer) => pointer,
        Err(fault) => return Ok(Err(fault)),
    };
    Ok(Ok(TypedKind::Dump(pointer.operand, pointer.class)))
}

/// A statement that declares nothing and has no block in it.
#[tactic(auto, unfolding(crate::specs::Statements::plain_of))]
pub(crate) fn plain_of(
    site: &Site,
    known: &mut Known,
    faults: &mut FaultList,
    kind: &StatementKind,
) -> Answer
    requires made { AreOverriders site.now.h.now site.now.overriders.now }
    requires knows { Knows site.now.h.now known.old }
    ensures answers { Answers result faults.old faults.new (plain_of site.now.h.now site.now.setting.now site.now.scene.now site.now.at kind.now) }
    ensures knows { OnOk result (Knows site.now.h.now known.new) }
{
    match kind {
        StatementKind::Assign(x, right) => { assign_of(site, known, faults, x, right) }
        StatementKind::Write(place, x) => { write_of(site, known, faults, place, x) }
        StatementKind::Copy(to, source) => copy_of(site, faults, to, source),
        StatementKind::Call(text) => { call_statement(site, known, faults, text) }
        StatementKind::Delete(x) => delete_of(site, faults, x),
        StatementKind::Return(x) => return_of(site, known, faults, x),
        StatementKind::Print(x) => print_of(site, faults, x),
        StatementKind::PrintType(x) => print_type_of(site, known, faults, x),
        StatementKind::PrintView(x) => print_view_of(site, known, faults, x),
        StatementKind::Dump(x) => dump_of(site, faults, x),
        StatementKind::Declare(..) | StatementKind::If(..) | StatementKind::While(..) => {
            refuse(faults, Rule::TypeMismatch, site.at)
        }
    }
}
