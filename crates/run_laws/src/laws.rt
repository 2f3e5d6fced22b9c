//! The law of steps: how many a run has taken.

ghost use Rattle.std.specs.Prelude.{◌≡◌, ℕ, Bool, None, List};
ghost use Rattle.byte_code.specs.declared.code.Code.{Code};
ghost use Rattle.byte_code.specs.declared.code.ImageBytes.{ImageBytes};
ghost use Rattle.byte_machine.specs.Running.{Fixed};
ghost use Rattle.byte_machine.specs.Turn.{ByteState};
ghost use Rattle.code_ops.specs.Setups.{Setup};
ghost use Rattle.abi_slots.specs.declared.code_numbers.CodeRow.{CodeRow};
ghost use Rattle.text_told.specs.declared.ending.End.{End};
ghost use Rattle.abi_refine.specs.Reaches.{Lines, ReachesWith, Executes};
ghost use Rattle.abi_refine.specs.Executions.{IsExecution};
ghost use Rattle.run_laws.specs.Steps.{turn_count, step_count, TakesSteps, HasTaken};

/// From a state that has no answer yet, each turn after which the run goes on is one step (`turns`).
///
/// The turn that ends the run is one step more, also where the text passes its limit; it is none where the run is out of steps
/// (`run`).
///
/// The machine of an execution has taken these steps and has the others left. Where it is out of steps it has taken all
/// (`execution`).
pub fn turns_are_steps()
    ensures turns { (f : Fixed) (code : Code) (lines : Lines) (b b' : ByteState) (text : List ℕ) (turns : ReachesWith f code lines b b' text) → b.answer ≡ None → TakesSteps (turn_count turns) b b' }
    ensures run { (f : Fixed) (code : Code) (lines : Lines) (b b' : ByteState) (text : List ℕ) (end_is : End) (run : Executes f code lines b b' text end_is) → b.answer ≡ None → TakesSteps (step_count run) b b' }
    ensures execution { (x : Setup) (steps : ℕ) (trace : Bool) (numbers : List CodeRow) (code : Code) (image : ImageBytes) (b : ByteState) (text : List ℕ) (end_is : End) (run : IsExecution x steps trace numbers code image b text end_is) →
        HasTaken steps (step_count run.executes) b end_is }
{}
