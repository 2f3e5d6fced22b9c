//! Calls with a class before `::`.

ghost use Rattle.std.specs.Prelude.{◌≡◌, OnOk};
ghost use Rattle.cxx_expression.specs.Checked.{Answers};
ghost use Rattle.cxx_expression.specs.Calls.{named_function, receiver_of, found_parameters, qualified_value, qualified_call};
ghost use Rattle.cxx_expression.specs.invariants.Known.{Knows};

use crate::arguments::arguments_of;
use crate::calls::function_of;
use crate::classes::class_of;
use crate::conversions::path_to;
use crate::faults::{FaultList, Piece, note, pair_of};
use crate::known::Known;
use crate::site::Site;
use crate::typed::{CallValue, FoundFunction, Receiver};
use crate::values::pointer_of;
use cxx_hierarchy::{ClassId, Rule, ValueType};
use cxx_program::{ArgumentList, TypedCall};
use cxx_syntax::{CallText, PointerText, Spot};
use foundation::NoMemory;

/// The function that a call names in a class.
#[tactic(auto, unfolding(crate::specs::Calls::named_function))]
fn named_function(
    site: &Site,
    known: &mut Known,
    faults: &mut FaultList,
    k: ClassId,
    call: &CallText,
) -> Result<Piece<FoundFunction>, NoMemory>
    requires knows { Knows site.now.h.now known.old }
    ensures answers { Answers result faults.old faults.new (named_function site.now.h.now site.now.at k call.now) }
    ensures knows { OnOk result (Knows site.now.h.now known.new) }
{
    let found = match function_of(site, known, faults, k, &call.name)? {
        Ok(found) => found,
        Err(fault) => return Ok(Err(fault)),
    };
    if found.is_pure {
        note(faults, Rule::Abstract, call.name.at)?;
    }
    if call.arguments.len() != found.parameters.len() {
        note(faults, Rule::TypeMismatch, site.at)?;
    }
    Ok(Ok(found))
}

/// The pointer of a call, and a class as a base of its class.
#[tactic(auto, unfolding(crate::specs::Calls::receiver_of))]
fn receiver_of(
    site: &Site,
    known: &mut Known,
    faults: &mut FaultList,
    k: ClassId,
    pointer: &PointerText,
) -> Result<Piece<Receiver>, NoMemory>
    requires knows { Knows site.now.h.now known.old }
    ensures answers { Answers result faults.old faults.new (receiver_of site.now.h.now site.now.setting.now site.now.scene.now site.now.at k pointer.now) }
    ensures knows { OnOk result (Knows site.now.h.now known.new) }
{
    let pointer = match pointer_of(site, faults, pointer)? {
        Ok(pointer) => pointer,
        Err(fault) => return Ok(Err(fault)),
    };
    let path = match path_to(site, known, faults, pointer.class, k)? {
        Ok(path) => path,
        Err(fault) => return Ok(Err(fault)),
    };
    Ok(Ok(Receiver { pointer, path }))
}

/// The types of the parameters of a function.
fn parameters_of(found: &Piece<FoundFunction>) -> &[ValueType<ClassId>]
    ensures { result.now ≡ found_parameters found.now }
{
    match found {
        Err(_) => &[],
        Ok(found) => found.parameters.as_slice(),
    }
}

/// What a call that is not dispatched returns, and the call, where its receiver and its arguments are there.
fn qualified_value(found: FoundFunction, passed: Piece<(Receiver, ArgumentList)>) -> CallValue
    ensures { result ≡ qualified_value found passed }
{
    let FoundFunction {
        base,
        function,
        returns,
        ..
    } = found;
    let call = match passed {
        Err(fault) => Err(fault),
        Ok((receiver, arguments)) => Ok(TypedCall {
            pointer: receiver.pointer.operand,
            class: receiver.pointer.class,
            qualifier: receiver.path,
            base,
            function,
            is_dispatched: false,
            arguments,
        }),
    };
    CallValue { call, returns }
}

/// A call of the function that a class means.
#[tactic(auto, unfolding(crate::specs::Calls::qualified_call))]
pub(crate) fn qualified_call(
    site: &Site,
    known: &mut Known,
    faults: &mut FaultList,
    call: &CallText,
    x: &Spot,
) -> Result<Piece<CallValue>, NoMemory>
    requires knows { Knows site.now.h.now known.old }
    ensures answers { Answers result faults.old faults.new (qualified_call site.now.h.now site.now.setting.now site.now.scene.now site.now.at call.now x.now) }
    ensures knows { OnOk result (Knows site.now.h.now known.new) }
{
    let k = match class_of(site.h, faults, x)? {
        Ok(k) => k,
        Err(fault) => return Ok(Err(fault)),
    };
    let found = named_function(site, known, faults, k, call)?;
    let parameters = parameters_of(&found);
    let operands = call.arguments.as_slice();
    let receiver = receiver_of(site, known, faults, k, &call.pointer)?;
    let list = arguments_of(site, known, faults, parameters, operands)?;
    let found = match found {
        Ok(found) => found,
        Err(fault) => return Ok(Err(fault)),
    };
    Ok(Ok(qualified_value(found, pair_of(receiver, list))))
}
