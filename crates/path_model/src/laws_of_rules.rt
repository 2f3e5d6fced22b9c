//! What the rules that refuse a step mean, in the terms of subobjects, overriders and numbers in place of searches and tests.
//! Each function is a law: its contract holds of all hierarchies and states.

ghost use Rattle.std.specs.Prelude.{◌≡◌, ◌↔◌, ℤ, ◌+ℤ◌, ◌-ℤ◌, ◌*ℤ◌, Bool, true, false, Some, [], slice_get};
ghost use Rattle.cxx_hierarchy.specs.declared.records.ClassId.{ClassId};
ghost use Rattle.cxx_hierarchy.specs.declared.records.Scalar.{Scalar};
ghost use Rattle.cxx_hierarchy.specs.Scalars.{is_signed, IsInRange};
ghost use Rattle.cxx_hierarchy.specs.Classes.{Classes};
ghost use Rattle.cxx_hierarchy.specs.Hierarchies.{IsHierarchy};
ghost use Rattle.cxx_subobject.specs.declared.Subobject.{Subobject};
ghost use Rattle.cxx_subobject.specs.Subobjects.{IsSubobject, class_of, join, whole_of};
ghost use Rattle.cxx_subobject.specs.Inside.{IsInside};
ghost use Rattle.cxx_subobject.specs.Locations.{ObjectPart};
ghost use Rattle.cxx_overrider.specs.declared.FunctionId.{FunctionId};
ghost use Rattle.cxx_program.specs.declared.statement.Arithmetic.TheVariants.{Add, Subtract, Multiply};
ghost use Rattle.path_rules.specs.declared.Undefined.TheVariants.{OutsideView, PureCall, BadDowncast, NonVirtualDelete, NotHeapObject, NotComplete, Overflow};
ghost use Rattle.path_plan.specs.Places.{part};
ghost use Rattle.path_plan.specs.Phases.{Complete};
ghost use Rattle.path_model.specs.Values.{Objects, Number, Pointer};
ghost use Rattle.path_model.specs.Uses.{Views, Takes, Downs, Deletes, Dumps, Overflows, class_of_owner, view_of};
ghost use Rattle.path_model.specs.Rules.{breaks};
ghost use Rattle.path_model.specs.LawTerms.{IsFinalPure};

/// A use that needs the view is right where its subobject is the view or a base of it; a dispatched call is refused where the
/// final overrider in the view is pure (ISO C++03 10.3, 10.4 p6, 12.7).
pub fn views_decide()
    ensures within { (h : Classes) (s : Objects) (p : ObjectPart) (x : Subobject) → IsHierarchy h → view_of h s p ≡ Some x → ((breaks h s OutsideView (Views (Pointer p)) ≡ false) ↔ IsInside h x p.at) }
    ensures pure_call { (h : Classes) (c : ClassId) (s : Objects) (p : ObjectPart) (x : Subobject) (f : FunctionId) → IsHierarchy h → view_of h s p ≡ Some x → IsSubobject h c x → ((breaks h s PureCall (Takes (Pointer p) f) ≡ true) ↔ IsFinalPure h c x p.at f) }
{}

/// A static downcast is right where the subobject is that base of some subobject of the target class (ISO C++03 5.2.9 p8).
pub fn downcasts_have_targets()
    ensures { (h : Classes) (s : Objects) (p : ObjectPart) (d target : ClassId) (i : Subobject) → IsHierarchy h → class_of_owner h s p ≡ Some d → ((breaks h s BadDowncast (Downs (Pointer p) target i) ≡ false) ↔ ((t : Subobject) × IsSubobject h d t × (class_of t ≡ Some target) × (join t i ≡ p.at))) }
{}

/// A `delete` is right where its pointer leads to the whole, unless the destructor is virtual, of a heap object, and where that
/// is complete (ISO C++03 5.3.5); a `dump` asks for the last alone.
pub fn deletes_end_objects()
    ensures whole { (h : Classes) (s : Objects) (p : ObjectPart) (d : ClassId) → class_of_owner h s p ≡ Some d → ((breaks h s NonVirtualDelete (Deletes (Pointer p) false) ≡ false) ↔ (p.at ≡ whole_of d)) }
    ensures by_virtual { (h : Classes) (s : Objects) (p : ObjectPart) → breaks h s NonVirtualDelete (Deletes (Pointer p) true) ≡ false }
    ensures heap_object { (h : Classes) (s : Objects) (p : ObjectPart) (is_virtual : Bool) → ((breaks h s NotHeapObject (Deletes (Pointer p) is_virtual) ≡ false) ↔ (p.owner ≡ [])) }
    ensures complete { (h : Classes) (s : Objects) (p : ObjectPart) (d : ClassId) (is_virtual : Bool) → slice_get s.classes p.object ≡ Some d → ((breaks h s NotComplete (Deletes (Pointer p) is_virtual) ≡ false) ↔ (s.phases.phase (part p.object [] (whole_of d)) ≡ Complete)) }
    ensures dumped { (h : Classes) (s : Objects) (p : ObjectPart) (d : ClassId) → slice_get s.classes p.object ≡ Some d → ((breaks h s NotComplete (Dumps (Pointer p)) ≡ false) ↔ (s.phases.phase (part p.object [] (whole_of d)) ≡ Complete)) }
{}

/// A sum, a difference or a product of two numbers of a signed type is right where it is a number of the type (ISO C++03 5 p5).
pub fn results_are_in_range()
    ensures sum { (h : Classes) (s : Objects) (t : Scalar) (a b : ℤ) → is_signed t ≡ true → IsInRange t a → IsInRange t b → ((breaks h s Overflow (Overflows Add t (Number a) (Number b)) ≡ false) ↔ IsInRange t (a +ℤ b)) }
    ensures difference { (h : Classes) (s : Objects) (t : Scalar) (a b : ℤ) → is_signed t ≡ true → IsInRange t a → IsInRange t b → ((breaks h s Overflow (Overflows Subtract t (Number a) (Number b)) ≡ false) ↔ IsInRange t (a -ℤ b)) }
    ensures product { (h : Classes) (s : Objects) (t : Scalar) (a b : ℤ) → is_signed t ≡ true → IsInRange t a → IsInRange t b → ((breaks h s Overflow (Overflows Multiply t (Number a) (Number b)) ≡ false) ↔ IsInRange t (a *ℤ b)) }
{}
