//! A law of plans. The function does nothing: its contract is what it says.

ghost use Rattle.std.specs.Prelude.{◌++◌, ◌∷◌, [], List};
ghost use Rattle.cxx_hierarchy.specs.declared.records.ClassId.{ClassId};
ghost use Rattle.cxx_hierarchy.specs.Classes.{Classes};
ghost use Rattle.cxx_program.specs.declared.program.TypedProgram.{TypedProgram};
ghost use Rattle.path_plan.specs.Phases.{PartEvent};
ghost use Rattle.path_events.specs.declared.plan.Plan.{Plan};
ghost use Rattle.path_events.specs.Plans.{PlanStands};

/// A plan still stands for its events when an object comes behind the others.
pub fn plans_outlive_new_objects()
    ensures { (h : Classes) (program : TypedProgram) (classes : List ClassId) (c : ClassId) (plan : Plan) (events : List PartEvent) → PlanStands h program classes plan events → PlanStands h program (classes ++ c ∷ []) plan events }
{}
