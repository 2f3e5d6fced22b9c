//! A variable that takes a right side.

ghost use Rattle.std.specs.Prelude.{◌≡◌, IfOk, ◌<◌, length};
ghost use Rattle.path_model.specs.Effects.{taker};
ghost use Rattle.path_tables.specs.Asked.{AreAnswers};
ghost use Rattle.path_heap.specs.Rooms.{most_objects};
ghost use Rattle.path_machine.specs.Frames.{target_of_code};
ghost use Rattle.path_machine.specs.invariants.Setups.{IsSetup};
ghost use Rattle.path_machine.specs.invariants.StatementSteps.{TakesPlain, TakesSide};

use crate::boxes::BodyBox;
use crate::calls::{call_body, new_object};
use crate::effects::go_on;
use crate::frames::Target;
use crate::machine::Machine;
use crate::next::Next;
use crate::run::Run;
use crate::scenes::scene_of;
use crate::telling::Telling;
use cxx_program::{Conversion, Converted, TypedRight, Variable};
use cxx_subobject::subobject_below;
use foundation::NoMemory;
use path_effects::right_value;
use path_tables::Answers;
use std::alloc::Global;

/// A copy of a conversion.
///
/// Errors: want of memory.
fn copy_conversion(alloc: Global, c: &Conversion) -> Result<Conversion, NoMemory>
    ensures { IfOk result (λ copied. copied ≡ c.now) }
{
    match c {
        Conversion::Number(t) => Ok(Conversion::Number(*t)),
        Conversion::Bits(t, bits) => Ok(Conversion::Bits(*t, *bits)),
        Conversion::Null => Ok(Conversion::Null),
        Conversion::Same => Ok(Conversion::Same),
        Conversion::Base(i) => Ok(Conversion::Base(subobject_below(alloc, i, &[])?)),
    }
}

/// The variable that waits for a result, with the conversion to its type.
fn waiting(alloc: Global, variable: Variable, c: &Conversion) -> Result<Option<Target>, NoMemory>
    ensures { IfOk result (λ target. target_of_code target ≡ taker variable c.now) }
{
    Ok(Some(Target {
        variable,
        conversion: copy_conversion(alloc, c)?,
    }))
}

/// A variable takes the value of a right side that is no call and no `new`.
fn take_value(
    run: &Run,
    machine: &mut Machine,
    answers: &mut Answers,
    frame: BodyBox,
    next: usize,
    variable: Variable,
    x: &Converted,
) -> Result<Next, NoMemory>
    requires setup { IsSetup run.now }
    requires answers { AreAnswers run.now.world.h.now answers.old }
    ensures answers { AreAnswers run.now.world.h.now answers.new }
    ensures agrees { IfOk result (TakesPlain run.now machine.old machine.new frame next variable x.now) }
{
    let scene = scene_of(machine, &frame);
    let value = right_value(run.alloc, &run.world, &machine.heap, answers, &scene, x)?;
    go_on(machine, frame, next)?;
    machine.assign(variable, value);
    Ok(Next::Goes)
}

/// A variable takes a right side; what a call or a `new` gives comes to it later.
///
/// Errors: want of memory.
pub(crate) fn take(
    run: &Run,
    machine: &mut Machine,
    answers: &mut Answers,
    outs: &mut Telling,
    frame: BodyBox,
    next: usize,
    variable: Variable,
    x: &Converted,
) -> Result<Next, NoMemory>
    requires setup { IsSetup run.now }
    requires few { length machine.old.heap.objects.items < most_objects }
    requires answers { AreAnswers run.now.world.h.now answers.old }
    ensures answers { AreAnswers run.now.world.h.now answers.new }
    ensures agrees { IfOk result (TakesSide run.now machine.old machine.new frame next variable x.now outs.old outs.new) }
{
    match &x.right {
        TypedRight::Call(call) => {
            let target = waiting(run.alloc, variable, &x.conversion)?;
            let done = call_body(run, machine, answers, outs, frame, next, call, target)?;
            Ok(done)
        }
        TypedRight::New(class) => {
            let target = waiting(run.alloc, variable, &x.conversion)?;
            let done = new_object(run, machine, frame, next, *class, target)?;
            Ok(done)
        }
        _ => {
            let done = take_value(run, machine, answers, frame, next, variable, x)?;
            Ok(done)
        }
    }
}
