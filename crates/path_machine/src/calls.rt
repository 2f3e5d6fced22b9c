//! Calls, `new` and `delete`: what opens a frame.

ghost use Rattle.std.specs.Prelude.{◌≡◌, IfOk, ◌<◌, length};
ghost use Rattle.path_tables.specs.Asked.{AreAnswers};
ghost use Rattle.path_heap.specs.Rooms.{most_objects};
ghost use Rattle.path_machine.specs.Frames.{target_of_code};
ghost use Rattle.path_machine.specs.invariants.Steps.{size_in};
ghost use Rattle.path_machine.specs.invariants.Setups.{IsSetup};
ghost use Rattle.path_machine.specs.invariants.Openings.{OpensBody, OpensNew, OpensDelete, EndsWhole, BeginsPlan};

use crate::boxes::{BodyBox, PlanBox};
use crate::effects::go_on;
use crate::frames::{Frame, PlanFrame, Target};
use crate::machine::Machine;
use crate::next::Next;
use crate::openings::open_call;
use crate::run::Run;
use crate::scenes::scene_of;
use crate::telling::Telling;
use cxx_hierarchy::{ClassId, LimitNo};
use cxx_program::{TypedCall, TypedOperand};
use foundation::NoMemory;
use path_effects::deleted;
use path_events::Plan;
use path_heap::{NumberedPart, whole_at};
use path_tables::Answers;

/// How many calls, `new` and `delete` may be open.
const MOST_OPEN: u32 = 4096;

/// The size of an object of a class, in bytes.
fn size_of(run: &Run, class: ClassId) -> u32
    ensures { result ≡ size_in run.now.sizes.now class }
{
    match run.sizes.get(class.0 as usize) {
        Some(size) => *size,
        None => 0,
    }
}

/// A call opens the body of the function that runs (ISO C++03 5.2.2).
///
/// Errors: want of memory.
pub(crate) fn call_body(
    run: &Run,
    machine: &mut Machine,
    answers: &mut Answers,
    outs: &mut Telling,
    frame: BodyBox,
    next: usize,
    call: &TypedCall,
    target: Option<Target>,
) -> Result<Next, NoMemory>
    requires setup { IsSetup run.now }
    requires answers { AreAnswers run.now.world.h.now answers.old }
    ensures answers { AreAnswers run.now.world.h.now answers.new }
    ensures agrees { IfOk result (OpensBody run.now machine.old machine.new frame next call.now (target_of_code target) outs.old outs.new) }
{
    let open = frame.get().depth;
    if open >= MOST_OPEN {
        return Ok(Next::Limited(LimitNo::L10));
    }
    let depth = open + 1;
    let scene = scene_of(machine, &frame);
    match open_call(
        run,
        &machine.heap,
        answers,
        outs,
        &scene,
        call,
        target,
        depth,
    )? {
        // never met: a call that goes on has a body to run, by `runs_are_typed` of path_model
        None => Ok(Next::Wrong),
        Some(opened) => {
            let entered = BodyBox::new(run.alloc, opened)?;
            go_on(machine, frame, next)?;
            machine.push(Frame::Body(entered))?;
            Ok(Next::Goes)
        }
    }
}

/// `new` makes a heap object and begins its construction (ISO C++03 5.3.4).
///
/// Errors: want of memory.
pub(crate) fn new_object(
    run: &Run,
    machine: &mut Machine,
    frame: BodyBox,
    next: usize,
    class: ClassId,
    target: Option<Target>,
) -> Result<Next, NoMemory>
    requires setup { IsSetup run.now }
    requires few { length machine.old.heap.objects.items < most_objects }
    ensures { IfOk result (OpensNew run.now machine.old machine.new frame next class (target_of_code target)) }
{
    // never met: a typed `new` names a class of the hierarchy, by `runs_are_typed` of path_model
    if class.0 >= run.world.h.len() {
        return Ok(Next::Wrong);
    }
    let size = size_of(run, class);
    if machine.is_full(size) {
        return Ok(Next::Limited(LimitNo::L8));
    }
    let open = frame.get().depth;
    if open >= MOST_OPEN {
        return Ok(Next::Limited(LimitNo::L10));
    }
    let depth = open + 1;
    let number = machine.make(run.world.numbers, class, size)?;
    go_on(machine, frame, next)?;
    begin_plan(run, machine, whole_at(number, class), true, target, depth)?;
    Ok(Next::Goes)
}

/// `delete` begins the destruction of a heap object; of null it does nothing (ISO C++03 5.3.5).
///
/// Errors: want of memory.
pub(crate) fn delete_object(
    run: &Run,
    machine: &mut Machine,
    frame: BodyBox,
    next: usize,
    pointer: &TypedOperand,
) -> Result<Next, NoMemory>
    requires setup { IsSetup run.now }
    ensures { IfOk result (OpensDelete run.now machine.old machine.new frame next pointer.now) }
{
    let scene = scene_of(machine, &frame);
    match deleted(&machine.heap, &scene, pointer) {
        None => {
            go_on(machine, frame, next)?;
            Ok(Next::Goes)
        }
        Some(whole) => end_object(run, machine, frame, next, whole),
    }
}

/// Begins the destruction of a heap object, by its whole.
///
/// Errors: want of memory.
fn end_object(
    run: &Run,
    machine: &mut Machine,
    frame: BodyBox,
    next: usize,
    whole: NumberedPart,
) -> Result<Next, NoMemory>
    requires setup { IsSetup run.now }
    ensures { IfOk result (EndsWhole run.now machine.old machine.new frame next whole) }
{
    let open = frame.get().depth;
    if open >= MOST_OPEN {
        return Ok(Next::Limited(LimitNo::L10));
    }
    let depth = open + 1;
    go_on(machine, frame, next)?;
    begin_plan(run, machine, whole, false, None, depth)?;
    Ok(Next::Goes)
}

/// Puts the plan of construction or destruction of a heap object on top.
///
/// Errors: want of memory.
fn begin_plan(
    run: &Run,
    machine: &mut Machine,
    whole: NumberedPart,
    is_building: bool,
    target: Option<Target>,
    depth: u32,
) -> Result<(), NoMemory>
    requires setup { IsSetup run.now }
    ensures { IfOk result (λ _. BeginsPlan run.now machine.old machine.new whole is_building (target_of_code target) depth) }
{
    let plan = Plan::new(run.alloc, run.world.h, whole, is_building)?;
    let frame = PlanFrame {
        whole,
        is_building,
        plan,
        target,
        depth,
    };
    let boxed = PlanBox::new(run.alloc, frame)?;
    machine.push(Frame::Plan(boxed))?;
    Ok(())
}
