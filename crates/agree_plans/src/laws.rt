//! The laws of turns of plans. The functions do nothing: their contracts are what they say.

ghost use Rattle.std.specs.Prelude.{ℕ};
ghost use Rattle.cxx_hierarchy.specs.declared.records.ClassId.{ClassId};
ghost use Rattle.cxx_hierarchy.specs.Classes.{Classes};
ghost use Rattle.cxx_program.specs.Typed.{IsTypedProgram};
ghost use Rattle.cxx_program.specs.declared.program.TypedProgram.{TypedProgram};
ghost use Rattle.path_model.specs.Runs.{move, state_at};
ghost use Rattle.agree_relation.specs.Worlds.{World, IsProgramWorld};
ghost use Rattle.agree_plans.specs.Courses.{IsOrderlyState};
ghost use Rattle.agree_plans.specs.PlanLaws.{PlansAgree, ConstructorEndsAgree, DestructorEndsAgree};

/// Every state of a run of a typed program is in order: on a plan on top the next event is none that the end of a body does, and
/// nobody waits for a destruction.
pub fn plans_keep_their_order()
    ensures { (h : Classes) (program : TypedProgram) → IsTypedProgram h program → (sizes : ClassId → ℕ) (n : ℕ) → IsOrderlyState program (state_at h sizes program n) }
{}

/// Where a plan is on top of a state, the block at which the frame on top begins is that of the plan's next event: it stands in the
/// code, and agrees with the move, be the next event of the same plan, a body, or the return to who waits for the heap object.
pub fn events_agree()
    ensures { (w : World) (world : IsProgramWorld w) → PlansAgree w world }
{}

/// Where a body of a plan is on top and at its end, the block there stands in the code: of a constructor it does the event that the
/// part is done, and agrees with the move (`constructor`); of a destructor it opens the parts that follow (`destructor`).
pub fn ends_of_bodies_agree()
    ensures constructor { (w : World) (world : IsProgramWorld w) → ConstructorEndsAgree w world }
    ensures destructor { (w : World) (world : IsProgramWorld w) → DestructorEndsAgree w world }
{}
