//! Operands and pointers.

ghost use Rattle.std.specs.Prelude.{◌≡◌};
ghost use Rattle.cxx_expression.specs.Checked.{Answers};
ghost use Rattle.cxx_expression.specs.Values.{variable_of, named_value, this_pointer_value, within_long, spelled, truth, constant_of, operand_of, pointer_value, as_pointer, as_number, pointer_of, number_operand};

use crate::copies::copy_type;
use crate::faults::{FaultList, Piece, refuse};
use crate::scene::last_of;
use crate::site::Site;
use crate::typed::{Number, Pointer, Value};
use cxx_hierarchy::{ClassId, Rule, Scalar, ValueType};
use cxx_program::{TypedOperand, Variable};
use cxx_syntax::{Constant, Operand, PointerText, Spot};
use foundation::NoMemory;

/// The largest `int`.
const LARGEST_INT: u64 = 2147483647;

/// The largest number that a source has, which is the largest `long`.
const LARGEST: u64 = 9223372036854775807;

/// What an operand is typed to, or the fault that refuses it.
type Answer<T> = Result<Piece<T>, NoMemory>;

/// The variable of a name, and its type. Faults: E22.
#[tactic(auto, unfolding(crate::specs::Values::variable_of))]
pub fn variable_of(
    site: &Site,
    faults: &mut FaultList,
    x: &Spot,
) -> Result<Piece<(Variable, ValueType<ClassId>)>, NoMemory>
    ensures { Answers result faults.old faults.new (variable_of site.now.setting.now site.now.scene.now x.now) }
{
    if let Some(entry) = last_of(site.scene.entries.as_slice(), x.name.as_slice()) {
        return Ok(Ok((Variable::Local(entry.number), copy_type(&entry.ty))));
    }
    if let Some(entry) = last_of(site.setting.globals.as_slice(), x.name.as_slice()) {
        return Ok(Ok((Variable::Global(entry.number), copy_type(&entry.ty))));
    }
    refuse(faults, Rule::UnknownName, x.at)
}

/// The value of the variable of a name.
#[tactic(auto, unfolding(crate::specs::Values::named_value))]
fn named_value(site: &Site, faults: &mut FaultList, x: &Spot) -> Answer<Value>
    ensures { Answers result faults.old faults.new (named_value site.now.setting.now site.now.scene.now x.now) }
{
    let (variable, ty) = match variable_of(site, faults, x)? {
        Ok(variable) => variable,
        Err(fault) => return Ok(Err(fault)),
    };
    Ok(Ok(Value {
        operand: TypedOperand::Variable(variable),
        ty,
        is_null: false,
    }))
}

/// `this`, of the class, where there is one.
fn this_of(at: u32, faults: &mut FaultList, class: Option<ClassId>) -> Answer<Value>
    ensures { Answers result faults.old faults.new (this_pointer_value at class) }
{
    let Some(class) = class else {
        return refuse(faults, Rule::TypeMismatch, at);
    };
    Ok(Ok(Value {
        operand: TypedOperand::This,
        ty: ValueType::Pointer(class),
        is_null: false,
    }))
}

/// The number, or the largest one.
fn within_long(number: u64) -> u64
    ensures { result ≡ within_long number }
{
    if number <= LARGEST { number } else { LARGEST }
}

/// The number that is written.
fn spelled(negative: bool, number: u64) -> i64
    ensures { result ≡ spelled negative number }
{
    let value = within_long(number) as i64;
    if negative { -value } else { value }
}

/// `false` is 0 and `true` is 1.
fn truth(flag: bool) -> i64
    ensures { result ≡ truth flag }
{
    if flag { 1 } else { 0 }
}

/// A constant and its type.
pub fn constant_of(constant: &Constant) -> Value
    ensures { result ≡ constant_of constant.now }
{
    match constant {
        Constant::Number(negative, number, _) => Value {
            operand: TypedOperand::Number(spelled(*negative, *number)),
            ty: ValueType::Number(if *number <= LARGEST_INT {
                Scalar::Int
            } else {
                Scalar::Long
            }),
            is_null: *number == 0 && !*negative,
        },
        Constant::Truth(b, _) => Value {
            operand: TypedOperand::Number(truth(*b)),
            ty: ValueType::Number(Scalar::Bool),
            is_null: false,
        },
    }
}

/// An operand and its type; `at` is the place of the statement's first token. Faults: E22, and E19 at `this` in `main`.
#[tactic(auto, unfolding(crate::specs::Values::operand_of))]
pub fn operand_of(site: &Site, faults: &mut FaultList, operand: &Operand) -> Answer<Value>
    ensures { Answers result faults.old faults.new (operand_of site.now.setting.now site.now.scene.now site.now.at operand.now) }
{
    match operand {
        Operand::Name(x) => named_value(site, faults, x),
        Operand::This(_) => this_of(site.at, faults, site.setting.this_class),
        Operand::Constant(constant) => Ok(Ok(constant_of(constant))),
    }
}

/// A variable or `this`, and its type.
#[tactic(auto, unfolding(crate::specs::Values::pointer_value))]
fn pointer_value(site: &Site, faults: &mut FaultList, pointer: &PointerText) -> Answer<Value>
    ensures { Answers result faults.old faults.new (pointer_value site.now.setting.now site.now.scene.now site.now.at pointer.now) }
{
    match pointer {
        PointerText::Name(x) => named_value(site, faults, x),
        PointerText::This(_) => this_of(site.at, faults, site.setting.this_class),
    }
}

/// A value that must be a pointer.
fn as_pointer(at: u32, faults: &mut FaultList, value: &Value) -> Answer<Pointer>
    ensures { Answers result faults.old faults.new (as_pointer at value.now.operand value.now.ty) }
{
    match &value.ty {
        ValueType::Pointer(class) => Ok(Ok(Pointer {
            operand: value.operand,
            class: *class,
        })),
        ValueType::Number(_) => refuse(faults, Rule::TypeMismatch, at),
    }
}

/// A variable or `this`, which must be a pointer; `at` is the place of the statement's first token. Faults: E22, E19.
#[tactic(auto, unfolding(crate::specs::Values::pointer_of))]
pub fn pointer_of(site: &Site, faults: &mut FaultList, pointer: &PointerText) -> Answer<Pointer>
    ensures { Answers result faults.old faults.new (pointer_of site.now.setting.now site.now.scene.now site.now.at pointer.now) }
{
    let value = match pointer_value(site, faults, pointer)? {
        Ok(value) => value,
        Err(fault) => return Ok(Err(fault)),
    };
    as_pointer(site.at, faults, &value)
}

/// A value that must be a number.
fn as_number(at: u32, faults: &mut FaultList, value: &Value) -> Answer<Number>
    ensures { Answers result faults.old faults.new (as_number at value.now.operand value.now.ty) }
{
    match &value.ty {
        ValueType::Number(scalar) => Ok(Ok(Number {
            operand: value.operand,
            scalar: *scalar,
        })),
        ValueType::Pointer(_) => refuse(faults, Rule::TypeMismatch, at),
    }
}

/// An operand that must be a number; `at` is the place of the statement's first token. Faults: E22, E19.
#[tactic(auto, unfolding(crate::specs::Values::number_operand))]
pub fn number_of(site: &Site, faults: &mut FaultList, operand: &Operand) -> Answer<Number>
    ensures { Answers result faults.old faults.new (number_operand site.now.setting.now site.now.scene.now site.now.at operand.now) }
{
    let value = match operand_of(site, faults, operand)? {
        Ok(value) => value,
        Err(fault) => return Ok(Err(fault)),
    };
    as_number(site.at, faults, &value)
}
