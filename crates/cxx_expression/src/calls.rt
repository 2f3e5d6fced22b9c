//! Calls without a class before `::`, and calls of either kind.

ghost use Rattle.std.specs.Prelude.{◌≡◌, OnOk, IfOk, map};
ghost use Rattle.cxx_hierarchy.specs.declared.records.ClassId.{ClassId};
ghost use Rattle.cxx_hierarchy.specs.declared.records.Param.{Param};
ghost use Rattle.cxx_subobject.specs.Subobjects.{class_of as class_of_subobject};
ghost use Rattle.cxx_overrider.specs.Overriders.{AreOverriders};
ghost use Rattle.cxx_overrider.specs.Virtuals.{function_at, is_virtual};
ghost use Rattle.cxx_expression.specs.Checked.{Answers};
ghost use Rattle.cxx_expression.specs.Calls.{types_of, function_in, function_of, target_of, target_parameters, plain_value, plain_call, call_of, whole_call};
ghost use Rattle.cxx_expression.specs.invariants.Known.{Knows};

use crate::arguments::arguments_of;
use crate::copies::{copy_return, copy_type};
use crate::faults::{FaultList, Piece, note, refuse};
use crate::known::Known;
use crate::look_up::{Looked, function_record, looked_up};
use crate::qualified::qualified_call;
use crate::site::Site;
use crate::typed::{CallValue, FoundFunction, Target};
use crate::values::pointer_of;
use cxx_hierarchy::{ClassId, Hierarchy, Param, Rule, ValueType};
use cxx_overrider::{FunctionId, Overriders};
use cxx_program::{ArgumentList, TypeList, TypedCall};
use cxx_search::names_are_signatures;
use cxx_subobject::{Subobject, class_of};
use cxx_syntax::{CallText, Spot};
use foundation::{NoMemory, Sequence};
use std::alloc::Global;

/// What is known of a call, where its function is.
type Answer = Result<Piece<CallValue>, NoMemory>;

/// The types of parameters.
fn types_of(alloc: Global, params: &[Param<ClassId>]) -> Result<TypeList, NoMemory>
    ensures { IfOk result (λ types. types ≡ types_of params.now) }
{
    let mut types = Sequence::new(alloc);
    for param in params {
        types.push(copy_type(&param.ty))?;
    }
    Ok(types)
}

/// The function of a number in the class of a subobject.
#[tactic(auto, unfolding(crate::specs::Calls::function_in))]
fn function_in(
    alloc: Global,
    h: &Hierarchy,
    name_at: u32,
    faults: &mut FaultList,
    s: Subobject,
    number: u32,
) -> Result<Piece<FoundFunction>, NoMemory>
    ensures { Answers result faults.old faults.new (function_in h.now name_at s number (class_of_subobject s)) }
{
    // neither refusal is met for what `lookup` of cxx_lookup found: it is declared, in a subobject
    let Some(class) = class_of(&s) else {
        return refuse(faults, Rule::NoSuchMember, name_at);
    };
    let Some(function) = function_record(h, class, number) else {
        return refuse(faults, Rule::NoSuchMember, name_at);
    };
    let parameters = types_of(alloc, function.params.as_slice())?;
    Ok(Ok(FoundFunction {
        base: s,
        function: FunctionId {
            class,
            index: number,
        },
        parameters,
        returns: copy_return(&function.ret),
        is_pure: function.is_pure,
    }))
}

/// The function that a name means in a class.
#[tactic(auto, unfolding(crate::specs::Calls::function_of))]
pub(crate) fn function_of(
    site: &Site,
    known: &mut Known,
    faults: &mut FaultList,
    c: ClassId,
    x: &Spot,
) -> Result<Piece<FoundFunction>, NoMemory>
    requires knows { Knows site.now.h.now known.old }
    ensures answers { Answers result faults.old faults.new (function_of site.now.h.now site.now.at c x.now) }
    ensures knows { OnOk result (Knows site.now.h.now known.new) }
{
    match looked_up(site.h, known, c, x.name.as_slice())? {
        Looked::Missing => refuse(faults, Rule::NoSuchMember, x.at),
        Looked::Ambiguous => refuse(faults, Rule::AmbiguousName, x.at),
        Looked::Function(s, number) => function_in(known.alloc, site.h, x.at, faults, s, number),
        Looked::Member(_, _) => refuse(faults, Rule::TypeMismatch, site.at),
    }
}

/// The pointer and the function of a call.
#[tactic(auto, unfolding(crate::specs::Calls::target_of))]
fn target_of(
    site: &Site,
    known: &mut Known,
    faults: &mut FaultList,
    call: &CallText,
) -> Result<Piece<Target>, NoMemory>
    requires knows { Knows site.now.h.now known.old }
    ensures answers { Answers result faults.old faults.new (target_of site.now.h.now site.now.setting.now site.now.scene.now site.now.at call.now) }
    ensures knows { OnOk result (Knows site.now.h.now known.new) }
{
    let pointer = match pointer_of(site, faults, &call.pointer)? {
        Ok(pointer) => pointer,
        Err(fault) => return Ok(Err(fault)),
    };
    let found = match function_of(site, known, faults, pointer.class, &call.name)? {
        Ok(found) => found,
        Err(fault) => return Ok(Err(fault)),
    };
    if call.arguments.len() != found.parameters.len() {
        note(faults, Rule::TypeMismatch, site.at)?;
    }
    Ok(Ok(Target { pointer, found }))
}

/// The types of the parameters of a call's function.
fn parameters_in(target: &Piece<Target>) -> &[ValueType<ClassId>]
    ensures { result.now ≡ target_parameters target.now }
{
    match target {
        Err(_) => &[],
        Ok(target) => target.found.parameters.as_slice(),
    }
}

/// What a call in the class of the pointer returns, and the call, where its arguments are there.
fn plain_value(target: Target, is_dispatched: bool, arguments: Piece<ArgumentList>) -> CallValue
    ensures { result ≡ plain_value target is_dispatched arguments }
{
    let Target { pointer, found } = target;
    let FoundFunction {
        base,
        function,
        returns,
        ..
    } = found;
    let call = match arguments {
        Err(fault) => Err(fault),
        Ok(arguments) => Ok(TypedCall {
            pointer: pointer.operand,
            class: pointer.class,
            qualifier: None,
            base,
            function,
            is_dispatched,
            arguments,
        }),
    };
    CallValue { call, returns }
}

/// Whether a function is virtual.
fn is_virtual(h: &Hierarchy, o: &Overriders, f: FunctionId) -> bool
    requires made { AreOverriders h.now o.now }
    ensures { result ≡ is_virtual h.now f }
{
    h.keeps();
    names_are_signatures();
    o.is_virtual(f)
}

/// A call of the function that the pointer's class means.
#[tactic(auto, unfolding(crate::specs::Calls::plain_call))]
fn plain_call(site: &Site, known: &mut Known, faults: &mut FaultList, call: &CallText) -> Answer
    requires made { AreOverriders site.now.h.now site.now.overriders.now }
    requires knows { Knows site.now.h.now known.old }
    ensures answers { Answers result faults.old faults.new (plain_call site.now.h.now site.now.setting.now site.now.scene.now site.now.at call.now) }
    ensures knows { OnOk result (Knows site.now.h.now known.new) }
{
    let target = target_of(site, known, faults, call)?;
    let parameters = parameters_in(&target);
    let operands = call.arguments.as_slice();
    let list = arguments_of(site, known, faults, parameters, operands)?;
    let target = match target {
        Ok(target) => target,
        Err(fault) => return Ok(Err(fault)),
    };
    let is_dispatched = is_virtual(site.h, site.overriders, target.found.function);
    Ok(Ok(plain_value(target, is_dispatched, list)))
}

/// What a call returns, where its function is known, and the call, where its receiver and its arguments are too.
#[tactic(auto, unfolding(crate::specs::Calls::call_of))]
pub(crate) fn call_of(
    site: &Site,
    known: &mut Known,
    faults: &mut FaultList,
    call: &CallText,
) -> Answer
    requires made { AreOverriders site.now.h.now site.now.overriders.now }
    requires knows { Knows site.now.h.now known.old }
    ensures answers { Answers result faults.old faults.new (call_of site.now.h.now site.now.setting.now site.now.scene.now site.now.at call.now) }
    ensures knows { OnOk result (Knows site.now.h.now known.new) }
{
    match &call.class {
        None => plain_call(site, known, faults, call),
        Some(x) => qualified_call(site, known, faults, call, x),
    }
}

/// A call with its receiver and its arguments; `at` is the place of the statement's first token. Faults: E3, E9, E10, E14,
/// E15, E16, E19, E22, and those of the arguments.
#[tactic(auto, unfolding(crate::specs::Calls::whole_call))]
pub fn whole_call(
    site: &Site,
    known: &mut Known,
    faults: &mut FaultList,
    call: &CallText,
) -> Result<Piece<TypedCall>, NoMemory>
    requires made { AreOverriders site.now.h.now site.now.overriders.now }
    requires knows { Knows site.now.h.now known.old }
    ensures answers { Answers result faults.old faults.new (whole_call site.now.h.now site.now.setting.now site.now.scene.now site.now.at call.now) }
    ensures knows { OnOk result (Knows site.now.h.now known.new) }
{
    let value = match call_of(site, known, faults, call)? {
        Ok(value) => value,
        Err(fault) => return Ok(Err(fault)),
    };
    Ok(value.call)
}
