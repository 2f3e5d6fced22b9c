//! The frame that a call opens.

ghost use Rattle.std.specs.Prelude.{◌≡◌, ◌∷◌, [], ◌++◌, ◌-◌, IfOk, IfSome, length, replicate};
ghost use Rattle.cxx_subobject.specs.Locations.{ObjectPart};
ghost use Rattle.path_model.specs.declared.outs.Out.TheVariants.{Call};
ghost use Rattle.path_model.specs.Outs.{location_of};
ghost use Rattle.path_model.specs.Values.{Objects};
ghost use Rattle.path_heap.specs.declared.state.Value.TheVariants.{Unset as UnsetCode};
ghost use Rattle.path_heap.specs.Points.{Points};
ghost use Rattle.path_heap.specs.Stands.{HeapStands};
ghost use Rattle.path_tables.specs.Asked.{AreAnswers};
ghost use Rattle.path_tables.specs.Worlds.{IsWorld};
ghost use Rattle.path_machine.specs.Frames.{target_of_code};
ghost use Rattle.path_machine.specs.invariants.Setups.{IsSetup};
ghost use Rattle.path_machine.specs.Tellings.{TellsMore};
ghost use Rattle.path_machine.specs.invariants.Openings.{AreCalledLocals, OpensCalled};

use crate::frames::{BodyFrame, Target};
use crate::run::Run;
use crate::telling::Telling;
use cxx_program::{Owner, TypedCall};
use foundation::NoMemory;
use path_effects::{argument_values, call_told, found_conversion};
use path_heap::{Heap, Value};
use path_tables::Answers;
use path_values::{Found, Scene};

/// So many locals: the given values, and unset ones behind them.
#[tactic(auto, using(crate::proofs::Locals::one_longer))]
fn start_locals(values: Vec<Value>, count: usize) -> Result<Vec<Value>, NoMemory>
    ensures { IfOk result (λ locals. locals.items ≡ values.items ++ replicate (count - length values.items) UnsetCode) }
{
    let mut locals = values;
    for _ in 0..count.saturating_sub(locals.len()) {
        locals.push(Value::Unset)?;
    }
    Ok(locals)
}

/// The locals of a body that a call enters: the values of the arguments, and unset ones behind them.
fn called_locals(
    run: &Run,
    heap: &Heap,
    scene: &Scene,
    call: &TypedCall,
    count: usize,
) -> Result<Vec<Value>, NoMemory>
    requires world { IsWorld run.now.world }
    ensures { IfOk result (λ locals. AreCalledLocals run.now.world.h.now heap.now scene.now call.now count locals.items) }
{
    let values = argument_values(
        run.alloc,
        &run.world,
        heap,
        scene,
        call.arguments.as_slice(),
    )?;
    let locals = start_locals(values, count)?;
    Ok(locals)
}

/// Tells a call, where there is a trace.
///
/// Errors: want of memory.
fn tell_call(run: &Run, heap: &Heap, outs: &mut Telling, found: Found) -> Result<(), NoMemory>
    requires world { IsWorld run.now.world }
    ensures { IfOk result (λ _. (s : Objects) (p : ObjectPart) → HeapStands run.now.world.h.now heap.now s → Points run.now.world.h.now s.classes found.this p → TellsMore outs.old outs.new (Call found.function (location_of s p) ∷ [])) }
{
    if !outs.trace {
        return Ok(());
    }
    outs.tell(call_told(run.alloc, &run.world, heap, found)?)
}

/// The frame that a call opens: the body of the function that runs, with the arguments (ISO C++03 5.2.2). None is a call that
/// no run meets. The call is told.
///
/// Errors: want of memory.
pub(crate) fn open_call(
    run: &Run,
    heap: &Heap,
    answers: &mut Answers,
    outs: &mut Telling,
    scene: &Scene,
    call: &TypedCall,
    target: Option<Target>,
    depth: u32,
) -> Result<Option<BodyFrame>, NoMemory>
    requires setup { IsSetup run.now }
    requires answers { AreAnswers run.now.world.h.now answers.old }
    ensures answers { AreAnswers run.now.world.h.now answers.new }
    ensures depth { IfOk result (λ opened. IfSome opened (λ frame. frame.depth ≡ depth)) }
    ensures opens { IfOk result (OpensCalled run.now heap.now scene.now call.now (target_of_code target) outs.old outs.new) }
{
    let Some(found) = path_effects::call(run.alloc, &run.world, heap, answers, scene, call)? else {
        return Ok(None);
    };
    let Some(body) = run.index.body(run.program, Owner::Function(found.function)) else {
        return Ok(None);
    };
    let conversion = found_conversion(
        run.alloc,
        &run.world,
        answers,
        found.function,
        call.function,
    )?;
    let locals = called_locals(run, heap, scene, call, body.locals.len())?;
    tell_call(run, heap, outs, found)?;
    Ok(Some(BodyFrame {
        owner: body.owner,
        this: Value::Pointer(found.this),
        locals,
        next: 0,
        found: conversion,
        target,
        depth,
    }))
}
