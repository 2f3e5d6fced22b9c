//! What the statement of a frame sees.

ghost use Rattle.std.specs.Prelude.{ℕ, List};
ghost use Rattle.cxx_hierarchy.specs.declared.records.ClassId.{ClassId};
ghost use Rattle.cxx_hierarchy.specs.Classes.{Classes};
ghost use Rattle.cxx_program.specs.declared.program.TypedProgram.{TypedProgram};
ghost use Rattle.path_model.specs.States.{RunningBody, Frame as FrameOf, ProgramState, sight};
ghost use Rattle.path_values.specs.Scenes.{SceneStands};
ghost use Rattle.path_machine.specs.invariants.Steps.{IsTaken};

use crate::boxes::BodyBox;
use crate::machine::Machine;
use path_values::Scene;

/// The globals, and `this` and the locals of a frame.
pub(crate) fn scene_of<'a>(machine: &'a Machine, frame: &'a BodyBox) -> Scene<'a>
    ensures { (h : Classes) (sizes : ClassId → ℕ) (program : TypedProgram) (s : ProgramState) (f : RunningBody) (below : List FrameOf) → IsTaken h sizes program machine.now frame.now s f below → SceneStands h machine.now.heap result (sight s f) }
{
    let body = frame.get();
    Scene {
        globals: machine.globals.as_slice(),
        this: body.this,
        locals: body.locals.as_slice(),
    }
}
