//! Laws of runs. Each function is a law: its contract holds of all programs, sizes of classes and budgets of steps.

ghost use Rattle.std.specs.Prelude.{◌≡◌, ◌≤◌, ◌↔◌, ℕ, ◌+◌};
ghost use Rattle.cxx_hierarchy.specs.declared.records.ClassId.{ClassId};
ghost use Rattle.cxx_hierarchy.specs.declared.stop.LimitNo.TheVariants.{L8};
ghost use Rattle.cxx_hierarchy.specs.Classes.{Classes};
ghost use Rattle.cxx_program.specs.declared.program.TypedProgram.{TypedProgram};
ghost use Rattle.path_model.specs.Runs.{IsRunning, LimitMet, OutOfSteps, behind, outs_at, run_from, run_of, state_at};

/// A run whose first n steps are taken tells what they tell, and goes on from the state behind them with the steps that
/// are left.
pub fn runs_go_on()
    ensures { (h : Classes) (sizes : ClassId → ℕ) (program : TypedProgram) (n m : ℕ) → IsRunning h sizes program n → run_of h sizes program (n + m) ≡ behind n (outs_at h sizes program n) (run_from h sizes program m (state_at h sizes program n)) }
{}

/// A run takes no more steps than its budget, and is out of steps exactly where it takes all of them and has not ended.
pub fn steps_are_counted()
    ensures most { (h : Classes) (sizes : ClassId → ℕ) (program : TypedProgram) (n : ℕ) → (run_of h sizes program n).steps ≤ n }
    ensures all { (h : Classes) (sizes : ClassId → ℕ) (program : TypedProgram) (n : ℕ) → ((run_of h sizes program n).ending ≡ OutOfSteps) ↔ IsRunning h sizes program n }
{}

/// The sizes of classes decide nothing but whether the heap is full: where it is full in neither of two runs, both are one.
pub fn sizes_decide_the_heap_alone()
    ensures { (h : Classes) (sizes other : ClassId → ℕ) (program : TypedProgram) (n : ℕ) → ((run_of h sizes program n).ending ≡ LimitMet L8 → ⊥) → ((run_of h other program n).ending ≡ LimitMet L8 → ⊥) → run_of h sizes program n ≡ run_of h other program n }
{}
