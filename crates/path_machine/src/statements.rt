//! Statements that no rule refuses, kind by kind.

ghost use Rattle.std.specs.Prelude.{ℕ, List, IfOk};
ghost use Rattle.cxx_hierarchy.specs.declared.records.ClassId.{ClassId};
ghost use Rattle.cxx_hierarchy.specs.Classes.{Classes};
ghost use Rattle.cxx_program.specs.declared.program.TypedProgram.{TypedProgram};
ghost use Rattle.path_model.specs.Values.{value_of_operand};
ghost use Rattle.path_model.specs.States.{RunningBody, Frame as FrameOf, ProgramState, sight};
ghost use Rattle.path_model.specs.Effects.{telling, value_out};
ghost use Rattle.path_heap.specs.Stands.{Means};
ghost use Rattle.path_tables.specs.Asked.{AreAnswers};
ghost use Rattle.path_machine.specs.invariants.Steps.{IsTaken, gone_on, IsTakenIn, StepAgreesIn};
ghost use Rattle.path_machine.specs.invariants.Setups.{IsSetup};
ghost use Rattle.path_machine.specs.invariants.StatementSteps.{WritesPlace, CopiesObject, GivesResult, LeavesBody, LeavesFunction, PrintsType, PrintsView, PrintsDump};

use crate::boxes::BodyBox;
use crate::effects::{go_on, tell};
use crate::giving::give;
use crate::machine::Machine;
use crate::next::Next;
use crate::run::Run;
use crate::scenes::scene_of;
use crate::telling::Telling;
use cxx_hierarchy::ClassId;
use cxx_program::{Argument, Owner, TypedOperand, TypedPlace};
use foundation::NoMemory;
use path_effects::{argument_value, copy, dump_told, type_told, value_told, view_told, write};
use path_heap::Value;
use path_tables::Answers;
use path_values::{Scene, convert, value};

/// A leaf takes a value (ISO C++03 5.17).
///
/// Errors: want of memory.
pub(crate) fn write_place(
    run: &Run,
    machine: &mut Machine,
    frame: BodyBox,
    next: usize,
    place: &TypedPlace,
    x: &Argument,
) -> Result<Next, NoMemory>
    requires setup { IsSetup run.now }
    ensures { IfOk result (WritesPlace run.now machine.old machine.new frame next place.now x.now) }
{
    let body = frame.get();
    let scene = Scene {
        globals: machine.globals.as_slice(),
        this: body.this,
        locals: body.locals.as_slice(),
    };
    write(&run.world, &mut machine.heap, &scene, place, x)?;
    go_on(machine, frame, next)?;
    Ok(Next::Goes)
}

/// `*to = *from` (ISO C++03 12.8).
///
/// Errors: want of memory.
pub(crate) fn copy_object(
    run: &Run,
    machine: &mut Machine,
    answers: &mut Answers,
    frame: BodyBox,
    next: usize,
    to: &TypedOperand,
    from: &TypedOperand,
    class: ClassId,
) -> Result<Next, NoMemory>
    requires setup { IsSetup run.now }
    requires answers { AreAnswers run.now.world.h.now answers.old }
    ensures answers { AreAnswers run.now.world.h.now answers.new }
    ensures agrees { IfOk result (CopiesObject run.now machine.old machine.new frame next to.now from.now class) }
{
    let body = frame.get();
    let scene = Scene {
        globals: machine.globals.as_slice(),
        this: body.this,
        locals: body.locals.as_slice(),
    };
    copy(
        run.alloc,
        &run.world,
        &mut machine.heap,
        answers,
        &scene,
        to,
        from,
        class,
    )?;
    go_on(machine, frame, next)?;
    Ok(Next::Goes)
}

/// A result comes to the variable that waits for it.
fn give_result(run: &Run, machine: &mut Machine, frame: &BodyBox, a: &Argument)
    requires setup { IsSetup run.now }
    ensures { GivesResult run.now machine.old machine.new frame.now a.now }
{
    let scene = scene_of(machine, frame);
    let result = argument_value(&run.world, &machine.heap, &scene, a);
    let body = frame.get();
    let found = convert(&run.world, &machine.heap, result, &body.found);
    give(&run.world, machine, found, &body.target);
}

/// A `return` leaves the body; that of `main` ends the run (ISO C++03 6.6.3, 3.6.1).
pub(crate) fn leave(run: &Run, machine: &mut Machine, frame: BodyBox, x: &Option<Argument>) -> Next
    requires setup { IsSetup run.now }
    ensures { LeavesBody run.now machine.old machine.new frame x.now result }
{
    match frame.get().owner {
        Owner::Main => Next::Ends,
        Owner::Function(_) => leave_function(run, machine, &frame, x),
        // never met: these bodies have no `return`, by `runs_are_typed` of path_model
        Owner::Constructor(_) | Owner::Destructor(_) => Next::Wrong,
    }
}

/// A `return` of a function: the frame below takes the result, if there is one.
fn leave_function(run: &Run, machine: &mut Machine, frame: &BodyBox, x: &Option<Argument>) -> Next
    requires setup { IsSetup run.now }
    ensures { LeavesFunction run.now machine.old machine.new frame.now x.now result }
{
    match x {
        Some(a) => give_result(run, machine, frame, a),
        None => {}
    }
    Next::Goes
}

/// The value of an operand.
pub(crate) fn operand(machine: &Machine, frame: &BodyBox, x: &TypedOperand) -> Value
    ensures { (h : Classes) (sizes : ClassId → ℕ) (program : TypedProgram) (s : ProgramState) (f : RunningBody) (below : List FrameOf) → IsTaken h sizes program machine.now frame.now s f below → Means h s.objects.classes result (value_of_operand (sight s f) x.now) }
{
    let scene = scene_of(machine, frame);
    value(&scene, x)
}

/// `print` of a value.
///
/// Errors: want of memory.
pub(crate) fn print_value(
    run: &Run,
    machine: &mut Machine,
    outs: &mut Telling,
    frame: BodyBox,
    next: usize,
    x: &TypedOperand,
) -> Result<Next, NoMemory>
    requires setup { IsSetup run.now }
    ensures { IfOk result (λ done. (s : ProgramState) (f : RunningBody) (below : List FrameOf) →
        IsTakenIn run.now machine.old frame s f below →
        StepAgreesIn run.now (telling (gone_on s f next below) (value_out s.objects (value_of_operand (sight s f) x.now))) machine.new outs.old outs.new done) }
{
    let v = operand(machine, &frame, x);
    let out = value_told(run.alloc, &run.world, &machine.heap, v)?;
    tell(machine, outs, frame, next, out)
}

/// `print(typeid(*pointer))` (ISO C++03 5.2.8).
///
/// Errors: want of memory.
pub(crate) fn print_type(
    run: &Run,
    machine: &mut Machine,
    outs: &mut Telling,
    frame: BodyBox,
    next: usize,
    x: &TypedOperand,
) -> Result<Next, NoMemory>
    requires setup { IsSetup run.now }
    ensures { IfOk result (PrintsType run.now machine.old machine.new frame next x.now outs.old outs.new) }
{
    let v = operand(machine, &frame, x);
    let out = type_told(&machine.heap, v);
    tell(machine, outs, frame, next, out)
}

/// `print(dynamic_cast<void*>(pointer))` (ISO C++03 5.2.7 p7).
///
/// Errors: want of memory.
pub(crate) fn print_view(
    run: &Run,
    machine: &mut Machine,
    outs: &mut Telling,
    frame: BodyBox,
    next: usize,
    x: &TypedOperand,
) -> Result<Next, NoMemory>
    requires setup { IsSetup run.now }
    ensures { IfOk result (PrintsView run.now machine.old machine.new frame next x.now outs.old outs.new) }
{
    let v = operand(machine, &frame, x);
    let out = view_told(run.alloc, &run.world, &machine.heap, v)?;
    tell(machine, outs, frame, next, out)
}

/// `dump(pointer)`.
///
/// Errors: want of memory.
pub(crate) fn print_dump(
    run: &Run,
    machine: &mut Machine,
    outs: &mut Telling,
    frame: BodyBox,
    next: usize,
    x: &TypedOperand,
) -> Result<Next, NoMemory>
    requires setup { IsSetup run.now }
    ensures { IfOk result (λ done. PrintsDump run.now machine.old machine.new frame next x.now outs.old outs.new done) }
{
    let v = operand(machine, &frame, x);
    let out = dump_told(run.alloc, &run.world, &machine.heap, v)?;
    tell(machine, outs, frame, next, out)
}
