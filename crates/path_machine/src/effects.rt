//! What a statement that no rule refuses does to the machine.

ghost use Rattle.std.specs.Prelude.{ℕ, List, IfOk};
ghost use Rattle.cxx_hierarchy.specs.declared.records.ClassId.{ClassId};
ghost use Rattle.cxx_hierarchy.specs.Classes.{Classes};
ghost use Rattle.cxx_program.specs.declared.program.TypedProgram.{TypedProgram};
ghost use Rattle.path_model.specs.States.{RunningBody, Frame as FrameOf, ProgramState};
ghost use Rattle.path_machine.specs.Machines.{MachineStands};
ghost use Rattle.path_machine.specs.invariants.Steps.{IsTaken, gone_on};
ghost use Rattle.path_machine.specs.invariants.StatementSteps.{BranchesOn, TellsOut};

use crate::boxes::BodyBox;
use crate::frames::Frame;
use crate::machine::Machine;
use crate::next::Next;
use crate::telling::Telling;
use foundation::NoMemory;
use path_heap::Value;
use path_model::Out;
use path_values::is_zero;

/// Puts the frame back, with control at a statement.
pub(crate) fn go_on(machine: &mut Machine, frame: BodyBox, next: usize) -> Result<(), NoMemory>
    ensures { IfOk result (λ _. (h : Classes) (sizes : ClassId → ℕ) (program : TypedProgram) (s : ProgramState) (f : RunningBody) (below : List FrameOf) → IsTaken h sizes program machine.old frame s f below → MachineStands h sizes program machine.new (gone_on s f next below)) }
{
    let mut frame = frame;
    frame.go_to(next);
    machine.push(Frame::Body(frame))?;
    Ok(())
}

/// A condition: control goes on at one of two statements.
pub(crate) fn branch(
    machine: &mut Machine,
    frame: BodyBox,
    condition: Value,
    yes: usize,
    no: usize,
) -> Result<Next, NoMemory>
    ensures { IfOk result (BranchesOn machine.old machine.new frame condition yes no) }
{
    let at = if is_zero(condition) { no } else { yes };
    go_on(machine, frame, at)?;
    Ok(Next::Goes)
}

/// A statement that prints.
pub(crate) fn tell(
    machine: &mut Machine,
    outs: &mut Telling,
    frame: BodyBox,
    next: usize,
    out: Option<Out>,
) -> Result<Next, NoMemory>
    ensures { IfOk result (TellsOut machine.old machine.new frame next out outs.old outs.new) }
{
    match out {
        Some(out) => {
            outs.tell(out)?;
            go_on(machine, frame, next)?;
            Ok(Next::Goes)
        }
        // never met: what is not refused can be told, by `runs_are_typed` of path_model
        None => Ok(Next::Wrong),
    }
}
