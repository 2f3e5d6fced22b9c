//! Laws of the states of a run: what its plans keep, and that its objects are settled (ISO C++03 12.6.2 p5, 12.7, 12.4 p6).
//!
//! They hold of every state of every run, whatever the program, the sizes of classes and the number of steps.

ghost use Rattle.std.specs.Prelude.{◌≡◌, ℕ, true, false, Some, List, [], ◌∷◌, Contains, slice_get};
ghost use Rattle.cxx_hierarchy.specs.declared.records.ClassId.{ClassId};
ghost use Rattle.cxx_hierarchy.specs.Classes.{Classes};
ghost use Rattle.cxx_hierarchy.specs.Hierarchies.{IsHierarchy};
ghost use Rattle.cxx_program.specs.declared.program.Owner.TheVariants.{Constructor, Destructor};
ghost use Rattle.cxx_program.specs.declared.program.TypedProgram.{TypedProgram};
ghost use Rattle.path_plan.specs.Places.{ObjectPart, IsPartWithin};
ghost use Rattle.path_plan.specs.Phases.{Ended, PartEvent, Body, part_of};
ghost use Rattle.path_plan.specs.Whole.{StandsWhole, IsGone, whole_part};
ghost use Rattle.path_model.specs.States.{RunningBody, Planned, Frame, InPlan, owned_body, is_body};
ghost use Rattle.path_model.specs.Typed.{AllSettled};
ghost use Rattle.path_model.specs.Steps.{body_owner, class_of_part};
ghost use Rattle.path_model.specs.Runs.{state_at};
ghost use Rattle.path_model.specs.LawTerms.{WasMade, IsPlanAtWork, IsFreeOfPlans, IsBodyOnTop, FitsAfter, FitsBehindBody, MainIsMain, StandsOnConstruction, StandsOnDestruction, IsStillOpen, WasClosed};

/// The next event of the plan on top fits, and so does that of a plan whose body is on top. The events of a plan are
/// those of parts of its frame's heap object, which was made.
pub fn plans_fit()
    ensures next { (h : Classes) (sizes : ClassId → ℕ) (program : TypedProgram) (n : ℕ) (f : Planned) (e : PartEvent) (es : List PartEvent) (below : List Frame) → IsHierarchy h → (state_at h sizes program n).frames ≡ InPlan f ∷ below → f.events ≡ e ∷ es → FitsAfter h sizes program n e }
    ensures behind_body { (h : Classes) (sizes : ClassId → ℕ) (program : TypedProgram) (n : ℕ) (g : RunningBody) (f : Planned) (e : PartEvent) (es : List PartEvent) (below : List Frame) → IsHierarchy h → FitsBehindBody h sizes program n g f e es below }
    ensures made { (h : Classes) (sizes : ClassId → ℕ) (program : TypedProgram) (n : ℕ) (f : Planned) → IsHierarchy h → IsPlanAtWork h sizes program n f → (c : ClassId) × WasMade h sizes program n f.object c }
    ensures inside { (h : Classes) (sizes : ClassId → ℕ) (program : TypedProgram) (n : ℕ) (f : Planned) (e : PartEvent) → IsHierarchy h → IsPlanAtWork h sizes program n f → Contains f.events e → (c : ClassId) × WasMade h sizes program n f.object c × IsPartWithin h (part_of e) (whole_part f.object c) }
{}

/// Where a body is on top, every heap object that was made is settled.
pub fn statements_are_settled()
    ensures { (h : Classes) (sizes : ClassId → ℕ) (program : TypedProgram) (n : ℕ) (f : RunningBody) (below : List Frame) → IsHierarchy h → IsBodyOnTop h sizes program n f below → AllSettled h (state_at h sizes program n).objects }
{}

/// A closed object is gone: all its parts have ended. An open one stands, complete in all its parts, unless a plan is at
/// work on it. An object with a plan is open, and one whose whole has ended is closed.
pub fn objects_stand_or_are_gone()
    ensures gone { (h : Classes) (sizes : ClassId → ℕ) (program : TypedProgram) (n : ℕ) (k : ℕ) (c : ClassId) → IsHierarchy h → WasMade h sizes program n k c → WasClosed h sizes program n k → IsGone h k c (state_at h sizes program n).objects.phases }
    ensures stands { (h : Classes) (sizes : ClassId → ℕ) (program : TypedProgram) (n : ℕ) (k : ℕ) (c : ClassId) → IsHierarchy h → WasMade h sizes program n k c → IsStillOpen h sizes program n k → IsFreeOfPlans h sizes program n k → StandsWhole h k c (state_at h sizes program n).objects.phases }
    ensures at_work { (h : Classes) (sizes : ClassId → ℕ) (program : TypedProgram) (n : ℕ) (f : Planned) → IsHierarchy h → IsPlanAtWork h sizes program n f → IsStillOpen h sizes program n f.object }
    ensures ended { (h : Classes) (sizes : ClassId → ℕ) (program : TypedProgram) (n : ℕ) (k : ℕ) (c : ClassId) → IsHierarchy h → WasMade h sizes program n k c → (state_at h sizes program n).objects.phases.phase (whole_part k c) ≡ Ended → WasClosed h sizes program n k }
{}

/// No plan makes a run go wrong: a plan always has an event to come, and first one that is no body; each body that it
/// will open is declared; and an object has one plan at most.
pub fn plans_go_on()
    ensures some_event { (h : Classes) (sizes : ClassId → ℕ) (program : TypedProgram) (n : ℕ) (f : Planned) → IsPlanAtWork h sizes program n f → f.events ≡ [] → ⊥ }
    ensures no_body_first { (h : Classes) (sizes : ClassId → ℕ) (program : TypedProgram) (n : ℕ) (f : Planned) (p : ObjectPart) (es : List PartEvent) → IsPlanAtWork h sizes program n f → f.events ≡ Body p ∷ es → ⊥ }
    ensures body_there { (h : Classes) (sizes : ClassId → ℕ) (program : TypedProgram) (n : ℕ) (f : Planned) (p : ObjectPart) → IsPlanAtWork h sizes program n f → Contains f.events (Body p) → is_body (owned_body program (body_owner f.is_building (class_of_part p))) ≡ true }
    ensures once { (h : Classes) (sizes : ClassId → ℕ) (program : TypedProgram) (n : ℕ) (i j : ℕ) (f g : Planned) → IsHierarchy h → slice_get (state_at h sizes program n).frames i ≡ Some (InPlan f) → slice_get (state_at h sizes program n).frames j ≡ Some (InPlan g) → f.object ≡ g.object → i ≡ j }
{}

/// The body of a constructor on top stands on the plan of its object, whose next event says that the part is done; the
/// body of a destructor stands on the plan of a destruction. `main` is to have the body of `main`.
pub fn bodies_stand_on_plans()
    ensures constructor { (h : Classes) (sizes : ClassId → ℕ) (program : TypedProgram) (n : ℕ) (g : RunningBody) (c : ClassId) (below : List Frame) → MainIsMain program → IsBodyOnTop h sizes program n g below → g.owner ≡ Constructor c → StandsOnConstruction below c }
    ensures destructor { (h : Classes) (sizes : ClassId → ℕ) (program : TypedProgram) (n : ℕ) (g : RunningBody) (c : ClassId) (below : List Frame) → MainIsMain program → IsBodyOnTop h sizes program n g below → g.owner ≡ Destructor c → StandsOnDestruction below }
{}
