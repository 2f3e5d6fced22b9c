//! Where the machine goes: the step of the frame on top.

ghost use Rattle.std.specs.Prelude.{IfOk, ◌<◌, length};
ghost use Rattle.path_tables.specs.Asked.{AreAnswers};
ghost use Rattle.path_heap.specs.Rooms.{most_objects};
ghost use Rattle.path_machine.specs.invariants.Setups.{IsSetup};
ghost use Rattle.path_machine.specs.invariants.StatementSteps.{MovesOn};

use crate::bodies::body_step;
use crate::events::event_step;
use crate::frames::Frame;
use crate::machine::Machine;
use crate::next::Next;
use crate::run::Run;
use crate::telling::Telling;
use foundation::NoMemory;
use path_tables::Answers;

/// The step of the frame on top.
///
/// Errors: want of memory. The machine is then of no use.
pub(crate) fn move_on(
    run: &Run,
    machine: &mut Machine,
    answers: &mut Answers,
    outs: &mut Telling,
) -> Result<Next, NoMemory>
    requires setup { IsSetup run.now }
    requires few { length machine.old.heap.objects.items < most_objects }
    requires answers { AreAnswers run.now.world.h.now answers.old }
    ensures answers { AreAnswers run.now.world.h.now answers.new }
    ensures agrees { IfOk result (MovesOn run.now machine.old machine.new outs.old outs.new) }
{
    let top = machine.pop();
    match top {
        // never met: a run that has not ended has a frame, by `runs_are_typed` of path_model
        None => Ok(Next::Wrong),
        Some(frame) => match frame {
            Frame::Body(frame) => {
                let next = body_step(run, machine, answers, outs, frame)?;
                Ok(next)
            }
            Frame::Plan(frame) => {
                let next = event_step(run, machine, outs, frame)?;
                Ok(next)
            }
        },
    }
}
