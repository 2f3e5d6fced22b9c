//! Laws of the states that runs reach. Each function is a law: its contract holds of every state of every run of an accepted
//! program, for all sizes of classes.

ghost use Rattle.std.specs.Prelude.{◌≡◌, ℕ, Some, List, [], ◌∷◌, Contains};
ghost use Rattle.cxx_hierarchy.specs.declared.records.ClassId.{ClassId};
ghost use Rattle.cxx_hierarchy.specs.Classes.{Classes};
ghost use Rattle.cxx_hierarchy.specs.Hierarchies.{IsHierarchy};
ghost use Rattle.cxx_program.specs.declared.program.TypedBody.{TypedBody};
ghost use Rattle.cxx_program.specs.declared.program.TypedProgram.{TypedProgram};
ghost use Rattle.path_model.specs.declared.outs.DumpLeaf.{DumpLeaf};
ghost use Rattle.path_model.specs.declared.outs.Out.{Out};
ghost use Rattle.path_model.specs.declared.outs.Out.TheVariants.{Dump as DumpOut};
ghost use Rattle.path_model.specs.Runs.{Moves, move, state_at};
ghost use Rattle.path_model.specs.States.{ProgramState, RunningBody, Planned, Frame, InBody, InPlan, owned_body};
ghost use Rattle.agree_relation.specs.Worlds.{World, IsProgramWorld, world_classes};
ghost use Rattle.agree_statements.specs.Statements.{AreSeen};
ghost use Rattle.agree_runs.specs.Accepted.{IsAccepted};
ghost use Rattle.agree_runs.specs.Dumps.{TellsDump};
ghost use Rattle.agree_runs.specs.NextSteps.{HappensNext, IsAhead};
ghost use Rattle.agree_runs.specs.EndLaws.{ConstructorEndsHappen, DestructorEndsHappen};

/// Where a body is on top, the complete object of each ready part has a view, and what a ready part is a base of, by a path through
/// no virtual base, has begun (ISO C++03 12.7).
pub fn ready_parts_are_seen()
    ensures { (h : Classes) (sizes : ClassId → ℕ) (program : TypedProgram) (n : ℕ) (f : RunningBody) (below : List Frame) → IsHierarchy h → (state_at h sizes program n).frames ≡ InBody f ∷ below → AreSeen h (state_at h sizes program n).objects }
{}

/// In each state something is next: a statement, the end of a body, or an event of a plan (`ahead`). So there is a frame (`frames`),
/// and a body on top is one of the program (`body`).
pub fn runs_have_a_next_step()
    ensures ahead { (w : World) (sizes : ClassId → ℕ) (n : ℕ) → IsProgramWorld w → IsAhead w sizes (state_at (world_classes w) sizes w.setup.program n) }
    ensures frames { (h : Classes) (sizes : ClassId → ℕ) (program : TypedProgram) (n : ℕ) → IsAccepted h program → (state_at h sizes program n).frames ≡ [] → ⊥ }
    ensures body { (h : Classes) (sizes : ClassId → ℕ) (program : TypedProgram) (n : ℕ) (f : RunningBody) (below : List Frame) → IsAccepted h program → (state_at h sizes program n).frames ≡ InBody f ∷ below → (body : TypedBody) × (owned_body program f.owner ≡ Some body) }
{}

/// The next event of a plan on top is the step of the run (`next`). So is that of the plan below the body of a constructor which is at
/// its end (`constructor`); the plan below the body of a destructor goes on there (`destructor`).
pub fn events_happen()
    ensures next { (h : Classes) (sizes : ClassId → ℕ) (program : TypedProgram) (n : ℕ) (p : Planned) (path : List Frame) → IsAccepted h program → (state_at h sizes program n).frames ≡ InPlan p ∷ path → HappensNext h sizes program (state_at h sizes program n) p path }
    ensures constructor { (h : Classes) (sizes : ClassId → ℕ) (program : TypedProgram) → ConstructorEndsHappen h sizes program }
    ensures destructor { (h : Classes) (sizes : ClassId → ℕ) (program : TypedProgram) → DestructorEndsHappen h sizes program }
{}

/// What a step tells as a dump are the leaves of an open and complete heap object in the state behind the step, and nothing else is
/// told in it.
pub fn dumps_are_of_the_state()
    ensures { (h : Classes) (sizes : ClassId → ℕ) (program : TypedProgram) (s new : ProgramState) (outs : List Out) (number : ℕ) (c : ClassId) (leaves : List DumpLeaf) → move h sizes program s ≡ Moves new outs → Contains outs (DumpOut number c leaves) → TellsDump h new.objects outs number c leaves }
{}
