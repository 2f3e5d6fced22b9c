//! Conversions of numbers and pointers.

ghost use Rattle.std.specs.Prelude.{◌≡◌, OnOk};
ghost use Rattle.cxx_expression.specs.Checked.{Answers};
ghost use Rattle.cxx_expression.specs.Values.{path_to, conversion_by, class_conversion, conversion_of, fitted, converted_operand};
ghost use Rattle.cxx_expression.specs.invariants.Known.{Knows};

use crate::faults::{FaultList, Piece, refuse};
use crate::known::Known;
use crate::look_up::{Based, base_up};
use crate::site::Site;
use crate::values::operand_of;
use cxx_hierarchy::{ClassId, Rule, ValueType};
use cxx_program::{Argument, Conversion};
use cxx_subobject::Subobject;
use cxx_syntax::Operand;
use foundation::NoMemory;

/// A class as a proper base of another, or none where they are one class.
#[tactic(auto, unfolding(crate::specs::Values::path_to))]
pub(crate) fn path_to(
    site: &Site,
    known: &mut Known,
    faults: &mut FaultList,
    from: ClassId,
    to: ClassId,
) -> Result<Piece<Option<Subobject>>, NoMemory>
    requires knows { Knows site.now.h.now known.old }
    ensures answers { Answers result faults.old faults.new (path_to site.now.h.now site.now.at from to) }
    ensures knows { OnOk result (Knows site.now.h.now known.new) }
{
    if from.0 == to.0 {
        return Ok(Ok(None));
    }
    match base_up(site.h, known, from, to)? {
        Based::Base(s) => Ok(Ok(Some(s))),
        Based::TwoBases => refuse(faults, Rule::AmbiguousBase, site.at),
        Based::NotBase => refuse(faults, Rule::NotBase, site.at),
    }
}

fn conversion_by(path: Option<Subobject>) -> Conversion
    ensures { result ≡ conversion_by path }
{
    match path {
        None => Conversion::Same,
        Some(s) => Conversion::Base(s),
    }
}

/// How a pointer to a class becomes one to another; `at` is the place of the statement's first token. Faults: E15, E16.
#[tactic(auto, unfolding(crate::specs::Values::class_conversion))]
pub fn class_conversion(
    site: &Site,
    known: &mut Known,
    faults: &mut FaultList,
    from: ClassId,
    to: ClassId,
) -> Result<Piece<Conversion>, NoMemory>
    requires knows { Knows site.now.h.now known.old }
    ensures answers { Answers result faults.old faults.new (class_conversion site.now.h.now site.now.at from to) }
    ensures knows { OnOk result (Knows site.now.h.now known.new) }
{
    let path = match path_to(site, known, faults, from, to)? {
        Ok(path) => path,
        Err(fault) => return Ok(Err(fault)),
    };
    Ok(Ok(conversion_by(path)))
}

/// How a value becomes one of a type; `at` is the place of the statement's first token. Faults: E15, E16, E19.
#[tactic(auto, unfolding(crate::specs::Values::conversion_of))]
pub fn conversion_of(
    site: &Site,
    known: &mut Known,
    faults: &mut FaultList,
    from: &ValueType<ClassId>,
    is_null: bool,
    to: &ValueType<ClassId>,
) -> Result<Piece<Conversion>, NoMemory>
    requires knows { Knows site.now.h.now known.old }
    ensures answers { Answers result faults.old faults.new (conversion_of site.now.h.now site.now.at from.now is_null to.now) }
    ensures knows { OnOk result (Knows site.now.h.now known.new) }
{
    match (from, to) {
        (ValueType::Number(_), ValueType::Number(scalar)) => Ok(Ok(Conversion::Number(*scalar))),
        (ValueType::Number(_), ValueType::Pointer(_)) => {
            if is_null {
                return Ok(Ok(Conversion::Null));
            }
            refuse(faults, Rule::TypeMismatch, site.at)
        }
        (ValueType::Pointer(_), ValueType::Number(_)) => refuse(
            faults,
            Rule::TypeMismatch,
            site.at,
        ),
        (ValueType::Pointer(c), ValueType::Pointer(d)) => {
            class_conversion(site, known, faults, *c, *d)
        }
    }
}

/// The conversion of what goes into a member, where `width` is the number of its bits if it is a bit-field: of a number
/// these keep the low bits (ISO C++03 9.6).
pub fn fitted(width: Option<u32>, conversion: Conversion) -> Conversion
    ensures { result ≡ fitted width conversion }
{
    let Some(bits) = width else {
        return conversion;
    };
    match conversion {
        Conversion::Number(scalar) => Conversion::Bits(scalar, bits),
        other => other,
    }
}

/// An operand that becomes a value of a type; `at` is the place of the statement's first token. Faults: those of the operand
/// and of its conversion.
#[tactic(auto, unfolding(crate::specs::Values::converted_operand))]
pub fn converted_operand(
    site: &Site,
    known: &mut Known,
    faults: &mut FaultList,
    ty: &ValueType<ClassId>,
    operand: &Operand,
) -> Result<Piece<Argument>, NoMemory>
    requires knows { Knows site.now.h.now known.old }
    ensures answers { Answers result faults.old faults.new (converted_operand site.now.h.now site.now.setting.now site.now.scene.now site.now.at ty.now operand.now) }
    ensures knows { OnOk result (Knows site.now.h.now known.new) }
{
    let value = match operand_of(site, faults, operand)? {
        Ok(value) => value,
        Err(fault) => return Ok(Err(fault)),
    };
    let conversion = match conversion_of(site, known, faults, &value.ty, value.is_null, ty)? {
        Ok(conversion) => conversion,
        Err(fault) => return Ok(Err(fault)),
    };
    Ok(Ok(Argument {
        operand: value.operand,
        conversion,
    }))
}
