//! The steps of bodies: the next statement, or the end of a body.

ghost use Rattle.std.specs.Prelude.{◌≡◌, ◌+◌, ◌<◌, ◌^◌, ℕ, List, IfOk, IfSome, option_copied, slice_get, length};
ghost use Rattle.cxx_hierarchy.specs.declared.records.ClassId.{ClassId};
ghost use Rattle.cxx_hierarchy.specs.Classes.{Classes};
ghost use Rattle.cxx_overrider.specs.Functions.{return_of};
ghost use Rattle.cxx_program.specs.declared.program.TypedProgram.{TypedProgram};
ghost use Rattle.path_heap.specs.Rooms.{most_objects};
ghost use Rattle.path_machine.specs.declared.telling.Telling.{Telling};
ghost use Rattle.path_model.specs.Rules.{returns_value};
ghost use Rattle.path_model.specs.States.{RunningBody, Frame as FrameOf, ProgramState, target_conversion};
ghost use Rattle.path_model.specs.Effects.{block_at};
ghost use Rattle.path_model.specs.Steps.{before_kind, body_closed, constructor_closed};
ghost use Rattle.path_tables.specs.Asked.{AreAnswers};
ghost use Rattle.path_machine.specs.declared.machine.Machine.{Machine as MachineOf};
ghost use Rattle.path_machine.specs.Frames.{target_of_code};
ghost use Rattle.cxx_program.specs.declared.operand.Conversion.TheVariants.{Same as ToSame};
ghost use Rattle.path_machine.specs.invariants.Steps.{IsTaken};
ghost use Rattle.path_machine.specs.invariants.Plans.{plan_in};
ghost use Rattle.path_machine.specs.invariants.Setups.{IsSetup};
ghost use Rattle.path_machine.specs.invariants.StatementSteps.{ChoosesBetween, DeclaresLocal, DoesEffect, DoesStatement, ClosesBy, StepsBody, RefusesStatement, ClosesFunction};

use crate::boxes::{BodyBox, PlanBox};
use crate::calls::{call_body, delete_object};
use crate::effects::{branch, go_on};
use crate::events::event_step;
use crate::frames::{Frame, Target};
use crate::machine::Machine;
use crate::next::Next;
use crate::run::Run;
use crate::scenes::scene_of;
use crate::statements::{
    copy_object, leave, operand, print_dump, print_type, print_value, print_view, write_place,
};
use crate::sums::{put_value, taken_number};
use crate::taking::take;
use crate::telling::Telling;
use cxx_hierarchy::{Hierarchy, ReturnType};
use cxx_overrider::FunctionId;
use cxx_overrider::signatures::declaration;
use cxx_program::{
    Conversion, Converted, Owner, TypedBody, TypedKind, TypedOperand, TypedStatement, Variable,
};
use foundation::NoMemory;
use path_heap::Value;
use path_model::refusal_is_least;
use path_refusals::{Moment, refusal};
use path_rules::Undefined;
use path_tables::Answers;

/// The first statement of a block from n to its end, or where control goes on behind an empty one.
fn block_at(n: usize, end: usize, behind: usize) -> usize
    ensures { result ≡ block_at n end behind }
{
    if n == end { behind } else { n }
}

/// The condition of an `if`, of number `after` - 1.
fn choose(
    machine: &mut Machine,
    frame: BodyBox,
    after: usize,
    next: usize,
    x: &TypedOperand,
    other: usize,
    behind: usize,
) -> Result<Next, NoMemory>
    ensures { IfOk result (ChoosesBetween machine.old machine.new frame next x.now (block_at after other next) (block_at other behind next)) }
{
    let v = operand(machine, &frame, x);
    let yes = block_at(after, other, next);
    let no = block_at(other, behind, next);
    let done = branch(machine, frame, v, yes, no)?;
    Ok(done)
}

/// The condition of a `while`, of number n.
fn repeat(
    machine: &mut Machine,
    frame: BodyBox,
    after: usize,
    next: usize,
    x: &TypedOperand,
    behind: usize,
    n: usize,
) -> Result<Next, NoMemory>
    ensures { IfOk result (ChoosesBetween machine.old machine.new frame next x.now (block_at after behind n) next) }
{
    let v = operand(machine, &frame, x);
    let yes = block_at(after, behind, n);
    let done = branch(machine, frame, v, yes, next)?;
    Ok(done)
}

/// A declaration with or without a right side (ISO C++03 6.7).
fn declare(
    run: &Run,
    machine: &mut Machine,
    answers: &mut Answers,
    outs: &mut Telling,
    frame: BodyBox,
    next: usize,
    n: usize,
    x: &Option<Converted>,
) -> Result<Next, NoMemory>
    requires setup { IsSetup run.now }
    requires few { length machine.old.heap.objects.items < most_objects }
    requires answers { AreAnswers run.now.world.h.now answers.old }
    ensures answers { AreAnswers run.now.world.h.now answers.new }
    ensures agrees { IfOk result (DeclaresLocal run.now machine.old machine.new frame next n x.now outs.old outs.new) }
{
    match x {
        None => {
            go_on(machine, frame, next)?;
            Ok(Next::Goes)
        }
        Some(x) => {
            let done = take(
                run,
                machine,
                answers,
                outs,
                frame,
                next,
                Variable::Local(n),
                x,
            )?;
            Ok(done)
        }
    }
}

/// What a statement does that no rule refuses; `after` is the number of the statement behind it in the text.
fn effect(
    run: &Run,
    machine: &mut Machine,
    answers: &mut Answers,
    outs: &mut Telling,
    frame: BodyBox,
    after: usize,
    statement: &TypedStatement,
) -> Result<Next, NoMemory>
    requires setup { IsSetup run.now }
    requires few { length machine.old.heap.objects.items < most_objects }
    requires answers { AreAnswers run.now.world.h.now answers.old }
    ensures answers { AreAnswers run.now.world.h.now answers.new }
    ensures agrees { IfOk result (DoesEffect run.now machine.old machine.new frame after statement.now outs.old outs.new) }
{
    let next = statement.next;
    let n = frame.get().next;
    match &statement.kind {
        TypedKind::Declare(m, x) => {
            let done = declare(run, machine, answers, outs, frame, next, *m, x)?;
            Ok(done)
        }
        TypedKind::Assign(variable, x) => {
            let done = take(run, machine, answers, outs, frame, next, *variable, x)?;
            Ok(done)
        }
        TypedKind::Write(place, x) => {
            let done = write_place(run, machine, frame, next, place, x)?;
            Ok(done)
        }
        TypedKind::Copy(to, from, c) => {
            let done = copy_object(run, machine, answers, frame, next, to, from, *c)?;
            Ok(done)
        }
        TypedKind::Call(call) => {
            let done = call_body(run, machine, answers, outs, frame, next, call, None)?;
            Ok(done)
        }
        TypedKind::Delete(x, _) => {
            let done = delete_object(run, machine, frame, next, x)?;
            Ok(done)
        }
        TypedKind::If(x, other, behind) => {
            let done = choose(machine, frame, after, next, x, *other, *behind)?;
            Ok(done)
        }
        TypedKind::While(x, behind) => {
            let done = repeat(machine, frame, after, next, x, *behind, n)?;
            Ok(done)
        }
        TypedKind::Return(x) => {
            let done = leave(run, machine, frame, x);
            Ok(done)
        }
        TypedKind::Print(x) => {
            let done = print_value(run, machine, outs, frame, next, x)?;
            Ok(done)
        }
        TypedKind::PrintType(x, _) => {
            let done = print_type(run, machine, outs, frame, next, x)?;
            Ok(done)
        }
        TypedKind::PrintView(x, _) => {
            let done = print_view(run, machine, outs, frame, next, x)?;
            Ok(done)
        }
        TypedKind::Dump(x, _) => {
            let done = print_dump(run, machine, outs, frame, next, x)?;
            Ok(done)
        }
    }
}

/// A declaration makes its variable unset before its right side is read (ISO C++03 3.3.1).
fn before_kind(frame: BodyBox, kind: &TypedKind) -> BodyBox
    ensures { (h : Classes) (sizes : ClassId → ℕ) (program : TypedProgram) (machine : MachineOf) (s : ProgramState) (f : RunningBody) (below : List FrameOf) → IsTaken h sizes program machine frame s f below → IsTaken h sizes program machine result s (before_kind f kind.now) below }
{
    let mut frame = frame;
    match kind {
        TypedKind::Declare(n, _) => {
            frame.put_local(*n, Value::Unset);
            frame
        }
        _ => frame,
    }
}

/// How a result becomes a value of who waits for it.
fn wanted_by<'a>(target: &'a Option<Target>, same: &'a Conversion) -> &'a Conversion
    requires { same.now ≡ ToSame }
    ensures { result.now ≡ target_conversion (target_of_code target.now) }
{
    match target {
        Some(target) => &target.conversion,
        None => same,
    }
}

/// The rule that refuses the statement of a frame, if one does.
fn refused(
    run: &Run,
    machine: &Machine,
    answers: &mut Answers,
    frame: &BodyBox,
    kind: &TypedKind,
) -> Result<Option<Undefined>, NoMemory>
    requires setup { IsSetup run.now }
    requires answers { AreAnswers run.now.world.h.now answers.old }
    ensures answers { AreAnswers run.now.world.h.now answers.new }
    ensures is { IfOk result (λ rule. RefusesStatement run.now machine.now frame.now kind.now rule) }
{
    let same = Conversion::Same;
    let scene = scene_of(machine, frame);
    let body = frame.get();
    let target = wanted_by(&body.target, &same);
    let moment = Moment {
        alloc: run.alloc,
        world: run.world,
        heap: &machine.heap,
    };
    let rule = refusal(&moment, answers, &scene, &body.found, target, kind)?;
    Ok(rule)
}

/// A statement: refused, or with its effect.
#[inline(never)]
fn asked_step(
    run: &Run,
    machine: &mut Machine,
    answers: &mut Answers,
    outs: &mut Telling,
    frame: BodyBox,
    after: usize,
    statement: &TypedStatement,
) -> Result<Next, NoMemory>
    requires setup { IsSetup run.now }
    requires few { length machine.old.heap.objects.items < most_objects }
    requires answers { AreAnswers run.now.world.h.now answers.old }
    ensures answers { AreAnswers run.now.world.h.now answers.new }
    ensures agrees { IfOk result (DoesStatement run.now machine.old machine.new frame after statement.now outs.old outs.new) }
{
    match refused(run, machine, answers, &frame, &statement.kind)? {
        Some(rule) => Ok(Next::Refuses(rule, statement.line)),
        None => {
            let done = effect(run, machine, answers, outs, frame, after, statement)?;
            Ok(done)
        }
    }
}

/// A statement: an assignment of the result of two numbers, or another one.
fn statement_step(
    run: &Run,
    machine: &mut Machine,
    answers: &mut Answers,
    outs: &mut Telling,
    frame: BodyBox,
    after: usize,
    statement: &TypedStatement,
) -> Result<Next, NoMemory>
    requires setup { IsSetup run.now }
    requires few { length machine.old.heap.objects.items < most_objects }
    requires answers { AreAnswers run.now.world.h.now answers.old }
    ensures answers { AreAnswers run.now.world.h.now answers.new }
    ensures agrees { IfOk result (DoesStatement run.now machine.old machine.new frame after statement.now outs.old outs.new) }
{
    match taken_number(machine, &frame, &statement.kind) {
        Some(taken) => {
            let done = put_value(machine, frame, statement.next, taken.0, taken.1)?;
            Ok(done)
        }
        None => {
            let done = asked_step(run, machine, answers, outs, frame, after, statement)?;
            Ok(done)
        }
    }
}

/// Whether a function has a result.
fn has_result(h: &Hierarchy, g: FunctionId) -> bool
    ensures { result ≡ returns_value (return_of h.now g) }
{
    h.keeps();
    if g.class.0 >= h.len() {
        return false;
    }
    match declaration(h, g) {
        None => false,
        Some(function) => match &function.ret {
            ReturnType::Void => false,
            ReturnType::Value(_) => true,
        },
    }
}

/// The closing step of a function's body (ISO C++03 6.6.3 p2).
fn close_function(h: &Hierarchy, g: FunctionId, line: u32) -> Next
    ensures { ClosesFunction h.now g line result }
{
    refusal_is_least();
    if has_result(h, g) {
        Next::Refuses(Undefined::MissingReturn, line)
    } else {
        Next::Goes
    }
}

/// A frame that may be there, where it is that of a plan.
fn plan_in(frame: Option<Frame>) -> Option<PlanBox>
    ensures { result ≡ plan_in frame }
{
    match frame {
        None => None,
        Some(frame) => match frame {
            Frame::Body(_) => None,
            Frame::Plan(plan) => Some(plan),
        },
    }
}

/// The closing step of a constructor's body is the event behind it.
fn close_constructor(run: &Run, machine: &mut Machine, outs: &mut Telling) -> Result<Next, NoMemory>
    requires setup { IsSetup run.now }
    ensures { IfOk result (ClosesBy run.now machine.old machine.new (constructor_closed run.now.program.now) outs.old outs.new) }
{
    let top = machine.pop();
    match plan_in(top) {
        Some(plan) => {
            let done = event_step(run, machine, outs, plan)?;
            Ok(done)
        }
        // never met: a constructor runs on its plan, by `bodies_stand_on_plans` of path_model
        None => Ok(Next::Wrong),
    }
}

/// The closing step of a body: that of a brace on this line.
fn close(
    run: &Run,
    machine: &mut Machine,
    outs: &mut Telling,
    owner: Owner,
    line: u32,
) -> Result<Next, NoMemory>
    requires setup { IsSetup run.now }
    ensures { IfOk result (ClosesBy run.now machine.old machine.new (λ s. body_closed run.now.world.h.now run.now.program.now s owner line) outs.old outs.new) }
{
    match owner {
        Owner::Main => Ok(Next::Ends),
        Owner::Function(g) => Ok(close_function(run.world.h, g, line)),
        Owner::Constructor(_) => {
            let done = close_constructor(run, machine, outs)?;
            Ok(done)
        }
        Owner::Destructor(_) => Ok(Next::Goes),
    }
}

/// A statement of a body by its number.
fn statement_at(body: &TypedBody, n: usize) -> Option<&TypedStatement>
    ensures is { option_copied result ≡ slice_get body.now.statements n }
    ensures room { IfSome result (λ _. n + 1 < 2 ^ 64) }
{
    body.statements.as_slice().get(n)
}

/// The step of a body whose frame was taken from the top.
///
/// Errors: want of memory. The machine is then of no use.
pub(crate) fn body_step(
    run: &Run,
    machine: &mut Machine,
    answers: &mut Answers,
    outs: &mut Telling,
    frame: BodyBox,
) -> Result<Next, NoMemory>
    requires setup { IsSetup run.now }
    requires few { length machine.old.heap.objects.items < most_objects }
    requires answers { AreAnswers run.now.world.h.now answers.old }
    ensures answers { AreAnswers run.now.world.h.now answers.new }
    ensures agrees { IfOk result (StepsBody run.now machine.old machine.new frame outs.old outs.new) }
{
    let here = frame.get();
    match run.index.body(run.program, here.owner) {
        // never met: a body that runs is one of the program, by `runs_are_typed` of path_model
        None => Ok(Next::Wrong),
        Some(body) => match statement_at(body, here.next) {
            None => {
                let done = close(run, machine, outs, here.owner, body.close_line)?;
                Ok(done)
            }
            Some(statement) => {
                let after = here.next + 1;
                let begun = before_kind(frame, &statement.kind);
                let done = statement_step(run, machine, answers, outs, begun, after, statement)?;
                Ok(done)
            }
        },
    }
}
