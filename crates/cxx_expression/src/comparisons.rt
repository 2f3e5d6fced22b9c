//! `==` and `!=`.

ghost use Rattle.std.specs.Prelude.{◌≡◌, OnOk};
ghost use Rattle.cxx_expression.specs.Checked.{Answers};
ghost use Rattle.cxx_expression.specs.Operators.{same_pointer, one_converted, to_one_class, if_null, equality, pointers_right, null_right, compared, equal_right};
ghost use Rattle.cxx_expression.specs.invariants.Known.{Knows};

use crate::faults::{FaultList, Piece, pair_of, refuse};
use crate::known::Known;
use crate::look_up::{Based, base_up};
use crate::operators::{calculated, truth_value};
use crate::site::Site;
use crate::typed::{Pointer, RightValue, Value};
use crate::values::operand_of;
use cxx_hierarchy::{ClassId, Rule, ValueType};
use cxx_program::{Argument, Arithmetic, Conversion, TypedOperand, TypedRight};
use cxx_syntax::Operand;
use foundation::NoMemory;

/// Whether two pointers are the same, or differ, by their conversions.
fn same_pointer(
    differ: bool,
    a: TypedOperand,
    b: TypedOperand,
    conversions: (Conversion, Conversion),
) -> RightValue
    ensures { result ≡ same_pointer differ a b conversions }
{
    let (left, right) = conversions;
    truth_value(TypedRight::SamePointer(
        differ,
        Argument {
            operand: a,
            conversion: left,
        },
        Argument {
            operand: b,
            conversion: right,
        },
    ))
}

/// The conversions of two pointers to different classes, by what each class is as a base of the other.
fn one_converted(
    at: u32,
    faults: &mut FaultList,
    up: Based,
    down: Based,
) -> Result<Piece<(Conversion, Conversion)>, NoMemory>
    ensures { Answers result faults.old faults.new (one_converted at up down) }
{
    match (up, down) {
        (Based::Base(s), _) => Ok(Ok((Conversion::Base(s), Conversion::Same))),
        (Based::NotBase, Based::Base(s)) => Ok(Ok((Conversion::Same, Conversion::Base(s)))),
        (Based::TwoBases, _) | (Based::NotBase, Based::TwoBases) => refuse(
            faults,
            Rule::AmbiguousBase,
            at,
        ),
        (Based::NotBase, Based::NotBase) => refuse(faults, Rule::NotBase, at),
    }
}

/// How pointers to two classes become pointers to one.
#[tactic(auto, unfolding(crate::specs::Operators::to_one_class))]
fn to_one_class(
    site: &Site,
    known: &mut Known,
    faults: &mut FaultList,
    c: ClassId,
    d: ClassId,
) -> Result<Piece<(Conversion, Conversion)>, NoMemory>
    requires knows { Knows site.now.h.now known.old }
    ensures answers { Answers result faults.old faults.new (to_one_class site.now.h.now site.now.at c d) }
    ensures knows { OnOk result (Knows site.now.h.now known.new) }
{
    if c.0 == d.0 {
        return Ok(Ok((Conversion::Same, Conversion::Same)));
    }
    let up = base_up(site.h, known, c, d)?;
    let down = base_up(site.h, known, d, c)?;
    one_converted(site.at, faults, up, down)
}

fn equality(differ: bool) -> Arithmetic
    ensures { result ≡ equality differ }
{
    if differ {
        Arithmetic::NotEqual
    } else {
        Arithmetic::Equal
    }
}

/// Two pointers.
#[tactic(auto, unfolding(crate::specs::Operators::pointers_right))]
fn pointers_right(
    site: &Site,
    known: &mut Known,
    faults: &mut FaultList,
    differ: bool,
    a: Pointer,
    b: Pointer,
) -> Result<Piece<RightValue>, NoMemory>
    requires knows { Knows site.now.h.now known.old }
    ensures answers { Answers result faults.old faults.new (pointers_right site.now.h.now site.now.at differ a.operand a.class b.operand b.class) }
    ensures knows { OnOk result (Knows site.now.h.now known.new) }
{
    let conversions = match to_one_class(site, known, faults, a.class, b.class)? {
        Ok(conversions) => conversions,
        Err(fault) => return Ok(Err(fault)),
    };
    Ok(Ok(same_pointer(differ, a.operand, b.operand, conversions)))
}

/// A pointer, and a number that must be a null pointer constant.
#[tactic(auto, unfolding(crate::specs::Operators::null_right))]
fn null_right(
    at: u32,
    faults: &mut FaultList,
    is_null: bool,
    differ: bool,
    a: TypedOperand,
    b: TypedOperand,
    conversions: (Conversion, Conversion),
) -> Result<Piece<RightValue>, NoMemory>
    ensures { Answers result faults.old faults.new (null_right at is_null differ a b conversions) }
{
    if !is_null {
        return refuse(faults, Rule::TypeMismatch, at);
    }
    Ok(Ok(same_pointer(differ, a, b, conversions)))
}

/// Two numbers, two pointers, or a pointer and a null pointer constant.
#[tactic(auto, unfolding(crate::specs::Operators::compared))]
fn compared(
    site: &Site,
    known: &mut Known,
    faults: &mut FaultList,
    differ: bool,
    a: &Value,
    b: &Value,
) -> Result<Piece<RightValue>, NoMemory>
    requires knows { Knows site.now.h.now known.old }
    ensures answers { Answers result faults.old faults.new (compared site.now.h.now site.now.at differ a.now.operand a.now.ty a.now.is_null b.now.operand b.now.ty b.now.is_null) }
    ensures knows { OnOk result (Knows site.now.h.now known.new) }
{
    let (x, y) = (a.operand, b.operand);
    match (&a.ty, &b.ty) {
        (ValueType::Number(s), ValueType::Number(t)) => {
            Ok(Ok(calculated(equality(differ), x, *s, y, *t)))
        }
        (ValueType::Number(_), ValueType::Pointer(_)) => {
            let conversions = (Conversion::Null, Conversion::Same);
            null_right(site.at, faults, a.is_null, differ, x, y, conversions)
        }
        (ValueType::Pointer(_), ValueType::Number(_)) => {
            let conversions = (Conversion::Same, Conversion::Null);
            null_right(site.at, faults, b.is_null, differ, x, y, conversions)
        }
        (ValueType::Pointer(c), ValueType::Pointer(d)) => {
            let left = Pointer {
                operand: x,
                class: *c,
            };
            let right = Pointer {
                operand: y,
                class: *d,
            };
            pointers_right(site, known, faults, differ, left, right)
        }
    }
}

/// `==`, or `!=` where the operands are to differ.
#[tactic(auto, unfolding(crate::specs::Operators::equal_right))]
pub(crate) fn equal_right(
    site: &Site,
    known: &mut Known,
    faults: &mut FaultList,
    differ: bool,
    x: &Operand,
    y: &Operand,
) -> Result<Piece<RightValue>, NoMemory>
    requires knows { Knows site.now.h.now known.old }
    ensures answers { Answers result faults.old faults.new (equal_right site.now.h.now site.now.setting.now site.now.scene.now site.now.at differ x.now y.now) }
    ensures knows { OnOk result (Knows site.now.h.now known.new) }
{
    let left = operand_of(site, faults, x)?;
    let right = operand_of(site, faults, y)?;
    let (a, b) = match pair_of(left, right) {
        Ok(pair) => pair,
        Err(fault) => return Ok(Err(fault)),
    };
    compared(site, known, faults, differ, &a, &b)
}
