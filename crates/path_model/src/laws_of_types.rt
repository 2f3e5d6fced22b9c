//! Laws of the runs of typed programs.
//!
//! They rest on a hierarchy that no condition refuses and on a program whose types fit, and stand for the tests that a
//! machine would else do while it runs.

ghost use Rattle.std.specs.Prelude.{◌≡◌, ℕ, true};
ghost use Rattle.cxx_hierarchy.specs.declared.records.ClassId.{ClassId};
ghost use Rattle.cxx_hierarchy.specs.Classes.{Classes};
ghost use Rattle.cxx_hierarchy.specs.Hierarchies.{IsHierarchy};
ghost use Rattle.cxx_overrider.specs.Faults.{HasNoFault};
ghost use Rattle.cxx_program.specs.declared.program.TypedProgram.{TypedProgram};
ghost use Rattle.cxx_program.specs.Typed.{IsTypedProgram};
ghost use Rattle.path_model.specs.States.{is_body};
ghost use Rattle.path_model.specs.TypedStates.{IsTypedState};
ghost use Rattle.path_model.specs.Runs.{move, IsWrong, WentWrong, run_of, state_at};

/// Each state of a run of a typed program that has a `main` is typed: variables, leaves, `this` and results hold values of
/// their types. No step is wrong, and so no run ends because it went wrong.
pub fn runs_are_typed()
    ensures typed { (h : Classes) (sizes : ClassId → ℕ) (program : TypedProgram) (n : ℕ) → IsHierarchy h → HasNoFault h → IsTypedProgram h program → is_body program.main ≡ true → IsTypedState h program (state_at h sizes program n) }
    ensures right { (h : Classes) (sizes : ClassId → ℕ) (program : TypedProgram) (n : ℕ) → IsHierarchy h → HasNoFault h → IsTypedProgram h program → is_body program.main ≡ true → move h sizes program (state_at h sizes program n) ≡ IsWrong → ⊥ }
    ensures never_wrong { (h : Classes) (sizes : ClassId → ℕ) (program : TypedProgram) (steps : ℕ) → IsHierarchy h → HasNoFault h → IsTypedProgram h program → is_body program.main ≡ true → (run_of h sizes program steps).ending ≡ WentWrong → ⊥ }
{}
