//! The arguments of a call.

ghost use Rattle.std.specs.Prelude.{◌≡◌, IfOk, OnOk, slice_get};
ghost use Rattle.cxx_expression.specs.Checked.{Answers};
ghost use Rattle.cxx_expression.specs.Calls.{plain_operand, argument_of, arguments_of};
ghost use Rattle.cxx_expression.specs.invariants.Known.{Knows};
ghost use Rattle.cxx_expression.specs.invariants.Arguments.{joined};

use crate::conversions::converted_operand;
use crate::copies::copy_type;
use crate::faults::{FaultList, Piece, pair_of};
use crate::known::Known;
use crate::site::Site;
use crate::values::operand_of;
use cxx_hierarchy::{ClassId, ValueType};
use cxx_program::{Argument, ArgumentList, Conversion};
use cxx_syntax::Operand;
use foundation::{NoMemory, Sequence};

/// An operand as it is.
#[tactic(auto, unfolding(crate::specs::Calls::plain_operand))]
fn plain_operand(
    site: &Site,
    faults: &mut FaultList,
    operand: &Operand,
) -> Result<Piece<Argument>, NoMemory>
    ensures { Answers result faults.old faults.new (plain_operand site.now.setting.now site.now.scene.now site.now.at operand.now) }
{
    let value = match operand_of(site, faults, operand)? {
        Ok(value) => value,
        Err(fault) => return Ok(Err(fault)),
    };
    Ok(Ok(Argument {
        operand: value.operand,
        conversion: Conversion::Same,
    }))
}

/// An argument, and the type of its parameter, where it has one.
#[tactic(auto, unfolding(crate::specs::Calls::argument_of))]
fn argument_of(
    site: &Site,
    known: &mut Known,
    faults: &mut FaultList,
    parameter: Option<ValueType<ClassId>>,
    operand: &Operand,
) -> Result<Piece<Argument>, NoMemory>
    requires knows { Knows site.now.h.now known.old }
    ensures answers { Answers result faults.old faults.new (argument_of site.now.h.now site.now.setting.now site.now.scene.now site.now.at parameter operand.now) }
    ensures knows { OnOk result (Knows site.now.h.now known.new) }
{
    match parameter {
        None => plain_operand(site, faults, operand),
        Some(ty) => converted_operand(site, known, faults, &ty, operand),
    }
}

/// Puts an argument behind those so far, where each of them is one.
fn joined(
    so_far: Piece<ArgumentList>,
    next: Piece<Argument>,
) -> Result<Piece<ArgumentList>, NoMemory>
    ensures { IfOk result (λ both. both ≡ joined so_far next) }
{
    let (mut list, argument) = match pair_of(so_far, next) {
        Ok(pair) => pair,
        Err(fault) => return Ok(Err(fault)),
    };
    list.push(argument)?;
    Ok(Ok(list))
}

/// The parameter of a number.
fn nth(parameters: &[ValueType<ClassId>], n: usize) -> Option<ValueType<ClassId>>
    ensures { result ≡ slice_get parameters.now n }
{
    match parameters.get(n) {
        None => None,
        Some(ty) => Some(copy_type(ty)),
    }
}

/// The arguments of a call, by the types of the parameters.
#[tactic(auto, unfolding(crate::specs::Calls::arguments_of))]
pub(crate) fn arguments_of(
    site: &Site,
    known: &mut Known,
    faults: &mut FaultList,
    parameters: &[ValueType<ClassId>],
    operands: &[Operand],
) -> Result<Piece<ArgumentList>, NoMemory>
    requires knows { Knows site.now.h.now known.old }
    ensures answers { Answers result faults.old faults.new (arguments_of site.now.h.now site.now.setting.now site.now.scene.now site.now.at parameters.now 0 operands.now) }
    ensures knows { OnOk result (Knows site.now.h.now known.new) }
{
    let mut list = Ok(Sequence::new(known.alloc));
    for (n, operand) in operands.iter().enumerate() {
        let parameter = nth(parameters, n);
        let argument = argument_of(site, known, faults, parameter, operand)?;
        list = joined(list, argument)?;
    }
    Ok(list)
}
