//! The events of plans.

ghost use Rattle.std.specs.Prelude.{◌≡◌, ℕ, IfOk, replicate, length};
ghost use Rattle.cxx_hierarchy.specs.declared.records.ClassId.{ClassId};
ghost use Rattle.path_model.specs.States.{ProgramState, member_init};
ghost use Rattle.path_model.specs.Steps.{init_value, body_owner};
ghost use Rattle.path_heap.specs.declared.state.Value.TheVariants.{Unset};
ghost use Rattle.path_heap.specs.Stands.{Means};
ghost use Rattle.path_events.specs.declared.plan.PlanEvent.TheVariants.{Init as InitCode};
ghost use Rattle.path_machine.specs.Machines.{MachineStands};
ghost use Rattle.path_machine.specs.invariants.Setups.{IsSetup};
ghost use Rattle.path_machine.specs.invariants.Events.{body_part, Happens, TellsEvent, Resumes, Enters, StepsPlan};

use crate::boxes::{BodyBox, PlanBox};
use crate::frames::{BodyFrame, Frame};
use crate::giving::give;
use crate::machine::Machine;
use crate::next::Next;
use crate::run::Run;
use crate::telling::Telling;
use cxx_program::{Conversion, Owner, TypedBody};
use foundation::NoMemory;
use path_effects::{built_told, ending_told};
use path_events::PlanEvent;
use path_heap::{NumberedPart, Value};
use path_values::{constant, convert};

/// The value that the initializer of a member gives (ISO C++03 12.6.2).
fn initial_value(run: &Run, machine: &Machine, part: NumberedPart, member: u32) -> Value
    requires setup { IsSetup run.now }
    ensures { (sizes : ClassId → ℕ) (s : ProgramState) → MachineStands run.now.world.h.now sizes run.now.program.now machine.now s → Means run.now.world.h.now s.objects.classes result (init_value (member_init run.now.program.now part.class member)) }
{
    match run.index.initializer(run.program, part.class, member) {
        Some(init) => convert(
            &run.world,
            &machine.heap,
            constant(&init.operand),
            &init.conversion,
        ),
        None => Value::Unset,
    }
}

/// An initializer sets a member of a part (ISO C++03 12.6.2).
///
/// Errors: want of memory.
fn initialize(
    run: &Run,
    machine: &mut Machine,
    part: NumberedPart,
    member: u32,
) -> Result<(), NoMemory>
    requires setup { IsSetup run.now }
    ensures { IfOk result (λ _. Happens run.now.world.h.now run.now.program.now machine.old machine.new (InitCode part member)) }
{
    let value = initial_value(run, machine, part, member);
    let leaf = machine
        .heap
        .leaf_number(run.world.numbers, run.world.h, part.number, member, 0);
    machine.heap.set_leaf(leaf, value)?;
    Ok(())
}

/// Does an event to the heap: a part takes a phase, or an initializer sets a member. A body changes nothing before it is
/// entered.
///
/// Errors: want of memory.
fn happen(run: &Run, machine: &mut Machine, event: PlanEvent) -> Result<(), NoMemory>
    requires setup { IsSetup run.now }
    ensures { IfOk result (λ _. Happens run.now.world.h.now run.now.program.now machine.old machine.new event) }
{
    match event {
        PlanEvent::Begin(part) => machine.heap.begin(part)?,
        PlanEvent::Ready(part) => machine.heap.ready(part)?,
        PlanEvent::Init(part, member) => initialize(run, machine, part, member)?,
        PlanEvent::Body(_) => {}
        PlanEvent::Done(part) => machine.heap.done(part)?,
        PlanEvent::Ending(part) => machine.heap.ending(part)?,
        PlanEvent::Bases(part) => machine.heap.bases(part)?,
        PlanEvent::End(part) => machine.heap.end(part)?,
    }
    Ok(())
}

/// Tells the event, where it tells something.
///
/// Errors: want of memory.
fn tell_event(
    run: &Run,
    machine: &Machine,
    outs: &mut Telling,
    event: PlanEvent,
) -> Result<(), NoMemory>
    requires setup { IsSetup run.now }
    ensures { IfOk result (λ _. TellsEvent run.now.world.h.now run.now.program.now machine.now event outs.old outs.new) }
{
    if !outs.trace {
        return Ok(());
    }
    match event {
        PlanEvent::Done(part) => {
            outs.tell(built_told(run.alloc, &run.world, &machine.heap, part)?)?
        }
        PlanEvent::Ending(part) => {
            outs.tell(ending_told(run.alloc, &run.world, &machine.heap, part)?)?
        }
        PlanEvent::Begin(_)
        | PlanEvent::Ready(_)
        | PlanEvent::Init(_, _)
        | PlanEvent::Body(_)
        | PlanEvent::Bases(_)
        | PlanEvent::End(_) => {}
    }
    Ok(())
}

/// Whose body a plan runs.
fn body_owner(is_building: bool, part: NumberedPart) -> Owner
    ensures { result ≡ body_owner is_building part.class }
{
    if is_building {
        Owner::Constructor(part.class)
    } else {
        Owner::Destructor(part.class)
    }
}

/// The part whose body is next, if one is.
fn body_part(event: PlanEvent) -> Option<NumberedPart>
    ensures { result ≡ body_part event }
{
    match event {
        PlanEvent::Body(part) => Some(part),
        PlanEvent::Begin(_)
        | PlanEvent::Ready(_)
        | PlanEvent::Init(_, _)
        | PlanEvent::Done(_)
        | PlanEvent::Ending(_)
        | PlanEvent::Bases(_)
        | PlanEvent::End(_) => None,
    }
}

/// The locals of a body without parameters.
///
/// Errors: want of memory.
fn no_values(run: &Run, body: &TypedBody) -> Result<Vec<Value>, NoMemory>
    ensures { IfOk result (λ values. values.items ≡ replicate (length body.now.locals) Unset) }
{
    Ok(vec![in run.alloc; Value::Unset; body.locals.len()]?)
}

/// Enters the body of a constructor or a destructor, on top of its plan.
///
/// Errors: want of memory.
fn enter_body(
    run: &Run,
    machine: &mut Machine,
    frame: PlanBox,
    part: NumberedPart,
) -> Result<Next, NoMemory>
    requires setup { IsSetup run.now }
    ensures { IfOk result (Enters run.now.world.h.now run.now.program.now machine.old machine.new frame part) }
{
    let mut frame = frame;
    let begun = frame.get();
    let owner = body_owner(begun.is_building, part);
    let depth = begun.depth;
    match run.index.body(run.program, owner) {
        // never met: each body that a plan opens is declared, by `plans_go_on` of path_model
        None => Ok(Next::Wrong),
        Some(body) => {
            let locals = no_values(run, body)?;
            frame.advance(run.world.h, run.world.numbers, run.index)?;
            machine.push(Frame::Plan(frame))?;
            let entered = BodyFrame {
                owner: body.owner,
                this: Value::Pointer(part.number),
                locals,
                next: 0,
                found: Conversion::Same,
                target: None,
                depth,
            };
            let boxed = BodyBox::new(run.alloc, entered)?;
            machine.push(Frame::Body(boxed))?;
            Ok(Next::Goes)
        }
    }
}

/// The plan goes on: a body is entered in the step of the event before it, and behind the last event the pointer to the
/// object comes to who waits for it.
///
/// Errors: want of memory.
fn resume(run: &Run, machine: &mut Machine, frame: PlanBox) -> Result<Next, NoMemory>
    requires setup { IsSetup run.now }
    ensures { IfOk result (Resumes run.now.world.h.now run.now.program.now machine.old machine.new frame) }
{
    let begun = frame.get();
    match begun.plan.upcoming() {
        None => {
            give(
                &run.world,
                machine,
                Value::Pointer(begun.whole.number),
                &begun.target,
            );
            Ok(Next::Goes)
        }
        Some(event) => match body_part(event) {
            Some(part) => {
                let next = enter_body(run, machine, frame, part)?;
                Ok(next)
            }
            None => {
                machine.push(Frame::Plan(frame))?;
                Ok(Next::Goes)
            }
        },
    }
}

/// The next event of a plan that was taken from the top. It is no body: the step of the event before enters that.
///
/// Errors: want of memory.
pub(crate) fn event_step(
    run: &Run,
    machine: &mut Machine,
    outs: &mut Telling,
    frame: PlanBox,
) -> Result<Next, NoMemory>
    requires setup { IsSetup run.now }
    ensures { IfOk result (StepsPlan run.now.world.h.now run.now.program.now machine.old machine.new frame outs.old outs.new) }
{
    let mut frame = frame;
    let begun = frame.get();
    match begun.plan.upcoming() {
        // never met: a plan at work has an event to come, by `plans_go_on` of path_model
        None => Ok(Next::Wrong),
        Some(event) => {
            tell_event(run, machine, outs, event)?;
            happen(run, machine, event)?;
            frame.advance(run.world.h, run.world.numbers, run.index)?;
            let next = resume(run, machine, frame)?;
            Ok(next)
        }
    }
}
