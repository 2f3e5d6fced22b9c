//! Laws of the refusal of a step. Each function is a law: its contract holds of all hierarchies, states and statements.

ghost use Rattle.std.specs.Prelude.{◌≡◌, true, false, if◌then◌else◌, Some, None, List, ◌++◌};
ghost use Rattle.std.specs.Option.{option_or};
ghost use Rattle.cxx_hierarchy.specs.declared.records.ClassId.{ClassId};
ghost use Rattle.cxx_hierarchy.specs.Classes.{Classes};
ghost use Rattle.cxx_hierarchy.specs.Hierarchies.{IsHierarchy};
ghost use Rattle.cxx_subobject.specs.declared.Subobject.{Subobject};
ghost use Rattle.cxx_subobject.specs.Subobjects.{IsSubobject, class_of, whole_of};
ghost use Rattle.cxx_subobject.specs.Locations.{ObjectPart};
ghost use Rattle.cxx_overrider.specs.declared.FunctionId.{FunctionId};
ghost use Rattle.cxx_overrider.specs.Functions.{return_of};
ghost use Rattle.cxx_program.specs.declared.statement.PassedMember.{PassedMember};
ghost use Rattle.cxx_program.specs.declared.statement.TypedKind.{TypedKind};
ghost use Rattle.path_rules.specs.declared.Undefined.{Undefined};
ghost use Rattle.path_rules.specs.declared.Undefined.TheVariants.{MissingReturn};
ghost use Rattle.path_plan.specs.Phases.{is_complete};
ghost use Rattle.path_plan.specs.Views.{Settled};
ghost use Rattle.path_model.specs.Values.{Objects, Sight, inner_part};
ghost use Rattle.path_model.specs.Places.{passed_part};
ghost use Rattle.path_model.specs.Uses.{StatementUse, Wanted};
ghost use Rattle.path_model.specs.Rules.{breaks, statement_refusal, uses_of, is_broken, is_unready, is_outside, IsLeast, closing_refusal, returns_value};
ghost use Rattle.path_model.specs.Typed.{AllSettled, IsPassed, IsStatementAt};
ghost use Rattle.path_model.specs.Order.{Asked, asks, first_broken, staged};

/// The tests of a statement, in the order in which a machine can ask them, answer its refusal.
pub fn tests_refuse()
    ensures { (h : Classes) (s : Sight) (w : Wanted) (kind : TypedKind) → IsHierarchy h → AllSettled h s.objects → IsStatementAt h s w kind → statement_refusal h s w kind ≡ staged h s w kind }
{}

/// Tests in two stages answer what the first stage answers, and else what the second does; and every rule that a use breaks is
/// one that is asked of it.
pub fn stages_follow()
    ensures stages { (h : Classes) (s : Objects) (first second : List Asked) → first_broken h s (first ++ second) ≡ option_or (first_broken h s first) (first_broken h s second) }
    ensures asked { (h : Classes) (s : Objects) (rule : Undefined) (u : StatementUse) → breaks h s rule u ≡ true → asks rule u ≡ true }
{}

/// A refusal is the rule of the smallest number that some use of the statement breaks; without one no use breaks a rule.
/// The closing step of a function's body is refused exactly where the function has a result.
pub fn refusal_is_least()
    ensures statement { (h : Classes) (s : Sight) (w : Wanted) (kind : TypedKind) → IsLeast (is_broken h s.objects (uses_of h s w kind)) (statement_refusal h s w kind) }
    ensures closing { (h : Classes) (s : Objects) (g : FunctionId) → closing_refusal h s g ≡ (if returns_value (return_of h g) then Some MissingReturn else None) }
{}

/// What a machine need not ask of a part that is ready, in an object that is settled: its proper bases are complete, a
/// class member in what is complete is complete, and a class member that is ready is its own view.
pub fn tests_are_enough()
    ensures base { (h : Classes) (s : Objects) (p : ObjectPart) (c : ClassId) (i : Subobject) → class_of p.at ≡ Some c → Settled h p.object s.phases → IsSubobject h c i → (i ≡ whole_of c → ⊥) → is_unready s p ≡ false → is_complete (s.phases.phase (inner_part p i)) ≡ true }
    ensures member { (h : Classes) (s : Objects) (p : ObjectPart) (c : ClassId) (x : PassedMember) → class_of p.at ≡ Some c → Settled h p.object s.phases → IsPassed h c x → is_complete (s.phases.phase (inner_part p x.base)) ≡ true → is_complete (s.phases.phase (passed_part p x)) ≡ true }
    ensures view { (h : Classes) (s : Objects) (p : ObjectPart) (c : ClassId) (x : PassedMember) → IsHierarchy h → class_of p.at ≡ Some c → Settled h p.object s.phases → IsPassed h c x → is_unready s (passed_part p x) ≡ false → is_outside h s (passed_part p x) ≡ false }
{}
