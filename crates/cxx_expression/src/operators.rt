//! Operators of numbers.

ghost use Rattle.std.specs.Prelude.{◌≡◌, OnOk};
ghost use Rattle.cxx_expression.specs.Checked.{Answers};
ghost use Rattle.cxx_expression.specs.Operators.{right_value, truth_value, type_by, calculated, arithmetic_right, binary_right, not_right};
ghost use Rattle.cxx_expression.specs.invariants.Known.{Knows};

use crate::comparisons::equal_right;
use crate::faults::{FaultList, Piece, pair_of};
use crate::known::Known;
use crate::scalars::common_type;
use crate::site::Site;
use crate::typed::{Number, RightValue};
use crate::values::number_of;
use cxx_hierarchy::{Scalar, ValueType};
use cxx_program::{Arithmetic, TypedOperand, TypedRight};
use cxx_syntax::{BinaryOp, Operand};
use foundation::NoMemory;

/// A right side that is true or false.
pub(crate) fn truth_value(right: TypedRight) -> RightValue
    ensures { result ≡ truth_value right }
{
    RightValue {
        right: Ok(right),
        ty: ValueType::Number(Scalar::Bool),
        is_null: false,
    }
}

/// The type of what an operator gives, by the common type of its operands.
fn type_by(op: Arithmetic, scalar: Scalar) -> Scalar
    ensures { result ≡ type_by op scalar }
{
    match op {
        Arithmetic::Add | Arithmetic::Subtract | Arithmetic::Multiply => scalar,
        Arithmetic::Less | Arithmetic::LessEqual => Scalar::Bool,
        Arithmetic::Equal | Arithmetic::NotEqual => Scalar::Bool,
    }
}

/// An operator of two numbers.
pub(crate) fn calculated(
    op: Arithmetic,
    a: TypedOperand,
    s: Scalar,
    b: TypedOperand,
    t: Scalar,
) -> RightValue
    ensures { result ≡ calculated op a s b t }
{
    let common = common_type(s, t);
    RightValue {
        right: Ok(TypedRight::Arithmetic(op, common, a, b)),
        ty: ValueType::Number(type_by(op, common)),
        is_null: false,
    }
}

/// An operator that takes numbers alone.
#[tactic(auto, unfolding(crate::specs::Operators::arithmetic_right))]
fn arithmetic_right(
    site: &Site,
    faults: &mut FaultList,
    op: Arithmetic,
    x: &Operand,
    y: &Operand,
) -> Result<Piece<RightValue>, NoMemory>
    ensures { Answers result faults.old faults.new (arithmetic_right site.now.setting.now site.now.scene.now site.now.at op x.now y.now) }
{
    let left = number_of(site, faults, x)?;
    let right = number_of(site, faults, y)?;
    let (a, b) = match pair_of(left, right) {
        Ok(pair) => pair,
        Err(fault) => return Ok(Err(fault)),
    };
    Ok(Ok(calculated(op, a.operand, a.scalar, b.operand, b.scalar)))
}

/// An operator of two operands.
#[tactic(auto, unfolding(crate::specs::Operators::binary_right))]
pub(crate) fn binary_right(
    site: &Site,
    known: &mut Known,
    faults: &mut FaultList,
    x: &Operand,
    op: BinaryOp,
    y: &Operand,
) -> Result<Piece<RightValue>, NoMemory>
    requires knows { Knows site.now.h.now known.old }
    ensures answers { Answers result faults.old faults.new (binary_right site.now.h.now site.now.setting.now site.now.scene.now site.now.at x.now op y.now) }
    ensures knows { OnOk result (Knows site.now.h.now known.new) }
{
    let op = match op {
        BinaryOp::Add => Arithmetic::Add,
        BinaryOp::Subtract => Arithmetic::Subtract,
        BinaryOp::Multiply => Arithmetic::Multiply,
        BinaryOp::Less => Arithmetic::Less,
        BinaryOp::LessEqual => Arithmetic::LessEqual,
        BinaryOp::Equal => return equal_right(site, known, faults, false, x, y),
        BinaryOp::NotEqual => return equal_right(site, known, faults, true, x, y),
    };
    arithmetic_right(site, faults, op, x, y)
}

/// `!` of a number.
#[tactic(auto, unfolding(crate::specs::Operators::not_right))]
pub(crate) fn not_right(
    site: &Site,
    faults: &mut FaultList,
    x: &Operand,
) -> Result<Piece<RightValue>, NoMemory>
    ensures { Answers result faults.old faults.new (not_right site.now.setting.now site.now.scene.now site.now.at x.now) }
{
    let value = match number_of(site, faults, x)? {
        Ok(value) => value,
        Err(fault) => return Ok(Err(fault)),
    };
    Ok(Ok(truth_value(TypedRight::Not(value.operand))))
}
