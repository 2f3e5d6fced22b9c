//! Laws of final overriders and of the returns of overriding functions (ISO C++03 10.3).

ghost use Rattle.std.specs.Prelude.{◌≡◌, ◌⊎◌, Some};
ghost use Rattle.cxx_hierarchy.specs.Classes.{Classes};
ghost use Rattle.cxx_hierarchy.specs.Hierarchies.{IsHierarchy};
ghost use Rattle.cxx_hierarchy.specs.declared.records.ClassId.{ClassId};
ghost use Rattle.cxx_hierarchy.specs.declared.records.ReturnType.{ReturnType};
ghost use Rattle.cxx_subobject.specs.declared.Subobject.{Subobject};
ghost use Rattle.cxx_subobject.specs.Subobjects.{IsSubobject, class_of, join, whole_of};
ghost use Rattle.cxx_subobject.specs.Inside.{IsInside};
ghost use Rattle.cxx_overrider.specs.declared.FunctionId.{FunctionId};
ghost use Rattle.cxx_overrider.specs.declared.Overrider.{Overrider};
ghost use Rattle.cxx_overrider.specs.Functions.{Signature, signature_of, return_of};
ghost use Rattle.cxx_overrider.specs.Overriding.{IsVirtualIn, IsCandidate, IsFinalOverrider, IsFinalIn};
ghost use Rattle.cxx_overrider.specs.Covariance.{Overrides, FitsReturn};
ghost use Rattle.cxx_overrider.specs.Faults.{IsFirstFault, HasNoFault, IsFirstFaultIn, HasNoFaultIn};
ghost use Rattle.cxx_hierarchy.specs.declared.stop.Stop.{Stop};

/// In a hierarchy that no condition refuses each virtual function of a subobject has a final overrider (10.3 p2); in
/// any hierarchy it has one at most.
pub fn one_final()
    ensures some { (h : Classes) (c : ClassId) (s : Subobject) (f : FunctionId) → IsHierarchy h → HasNoFault h → IsVirtualIn h c s f → (o : Overrider) × IsFinalOverrider h c s f o }
    ensures one { (h : Classes) (c : ClassId) (s : Subobject) (f : FunctionId) (o p : Overrider) → IsFinalOverrider h c s f o → IsFinalOverrider h c s f p → o ≡ p }
{}

/// The subobject of a final overrider contains that of every candidate.
pub fn final_contains_all()
    ensures { (h : Classes) (c : ClassId) (s : Subobject) (f : FunctionId) (signature : Signature) (o p : Overrider) → IsHierarchy h → IsFinalOverrider h c s f o → signature_of h f ≡ Some signature → IsCandidate h c s signature p → IsInside h o.at p.at }
{}

/// A subobject of the final overrider's class in which the function's subobject lies is the final overrider's own.
pub fn one_final_of_class()
    ensures { (h : Classes) (c : ClassId) (s t : Subobject) (f : FunctionId) (o : Overrider) → IsHierarchy h → IsFinalOverrider h c s f o → IsSubobject h c t → class_of t ≡ Some o.function.class → IsInside h t s → t ≡ o.at }
{}

/// The final overrider of a function is that of each virtual function of the signature in its own subobject, too.
pub fn final_same()
    ensures { (h : Classes) (c : ClassId) (s t : Subobject) (f g : FunctionId) (o : Overrider) → IsHierarchy h → HasNoFault h → IsFinalOverrider h c s f o → IsVirtualIn h c t g → IsInside h o.at t → signature_of h g ≡ signature_of h f → IsFinalOverrider h c t g o }
{}

/// Among the functions in a subobject `x` of class `d` the final overrider is that in an object of class `d` alone, as a
/// part of `x`; it is one; and for the whole object it is the final overrider.
pub fn final_in_view()
    ensures view { (h : Classes) (c d : ClassId) (x s : Subobject) (f : FunctionId) (o : Overrider) → IsHierarchy h → IsSubobject h c x → class_of x ≡ Some d → IsFinalOverrider h d s f o → IsFinalIn h c x (join x s) f (record { at = join x o.at; function = o.function }) }
    ensures one { (h : Classes) (c : ClassId) (x s : Subobject) (f : FunctionId) (o p : Overrider) → IsHierarchy h → IsFinalIn h c x s f o → IsFinalIn h c x s f p → o ≡ p }
    ensures whole { (h : Classes) (c : ClassId) (s : Subobject) (f : FunctionId) (o : Overrider) → IsHierarchy h → IsFinalOverrider h c s f o → IsFinalIn h c (whole_of c) s f o }
{}

/// In a hierarchy that no condition refuses the return of an overriding function is that of the overridden one, or
/// points to a class that has the other one's class as a base exactly once (10.3 p5).
pub fn returns_fit()
    ensures { (h : Classes) (f g : FunctionId) (t u : ReturnType ClassId) → IsHierarchy h → HasNoFault h → Overrides h f g → return_of h f ≡ Some t → return_of h g ≡ Some u → FitsReturn h f.class t u }
{}

/// The class-meaning pass has an answer: each class has a first fault, or none; and so has the hierarchy.
pub fn some_answer()
    ensures class { (h : Classes) (c : ClassId) → IsHierarchy h → ((stop : Stop) × IsFirstFaultIn h c stop) ⊎ HasNoFaultIn h c }
    ensures hierarchy { (h : Classes) → IsHierarchy h → ((c : ClassId) × (stop : Stop) × IsFirstFault h c stop) ⊎ HasNoFault h }
{}
