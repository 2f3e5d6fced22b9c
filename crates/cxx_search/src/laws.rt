//! Laws of the searches: each finds exactly what its relation says. The functions do nothing: their contracts are what
//! they say.

ghost use Rattle.std.specs.Prelude.{◌≡◌, ◌↔◌, ℕ, ◌<◌, true, Option, Some, length, Contains, slice_get};
ghost use Rattle.cxx_hierarchy.specs.declared.records.ClassId.{ClassId};
ghost use Rattle.cxx_hierarchy.specs.Classes.{Classes};
ghost use Rattle.cxx_hierarchy.specs.Hierarchies.{IsHierarchy};
ghost use Rattle.cxx_subobject.specs.declared.Subobject.{Subobject};
ghost use Rattle.cxx_subobject.specs.Subobjects.{IsSubobject, class_of, whole_of};
ghost use Rattle.cxx_subobject.specs.VirtualFlags.{HasVirtualBases};
ghost use Rattle.cxx_subobject.specs.Inside.{IsInside, IsPublicWalk};
ghost use Rattle.cxx_overrider.specs.declared.FunctionId.{FunctionId};
ghost use Rattle.cxx_overrider.specs.Functions.{Signature, destructor, signature_of};
ghost use Rattle.cxx_overrider.specs.declared.Overrider.{Overrider};
ghost use Rattle.cxx_overrider.specs.Overriding.{IsVirtual, IsFinalOverrider, IsFinalIn, IsAbstract};
ghost use Rattle.cxx_overrider.specs.Faults.{HasNoFault};
ghost use Rattle.cxx_overrider.specs.Virtuals.{same_name, declared, is_virtual, own};
ghost use Rattle.cxx_search.specs.Searches.{is_within, is_public_in, final_in, is_abstract, destructor_of, has_virtual_base, cast_in};
ghost use Rattle.cxx_search.specs.Casts.{IsCast};

/// The search for one subobject in another says whether it lies there.
pub fn within_is_inside()
    ensures { (h : Classes) (x y : Subobject) → IsHierarchy h → ((is_within h x y ≡ true) ↔ IsInside h x y) }
{}

/// The search along public edges says whether a walk of public edges leads there (ISO C++03 11.2).
pub fn public_is_walk()
    ensures { (h : Classes) (c : ClassId) (x y : Subobject) → IsHierarchy h → class_of x ≡ Some c → ((is_public_in h x y ≡ true) ↔ IsPublicWalk h x y) }
{}

/// The tests of names and of virtual functions say what they test (ISO C++03 10.3 p2). `declared` has exactly the functions of
/// the class, each once: those that have a signature, the destructor among them; and `own` has exactly the virtual ones.
pub fn names_are_signatures()
    ensures name { (h : Classes) (f g : FunctionId) → ((same_name h f g ≡ true) ↔ ((s : Signature) × (signature_of h f ≡ Some s) × (signature_of h g ≡ Some s))) }
    ensures declared { (h : Classes) (c : ClassId) (f : FunctionId) → IsHierarchy h → (Contains (declared h c) f ↔ ((f.class ≡ c) × (s : Signature) × (signature_of h f ≡ Some s))) }
    ensures once { (h : Classes) (c : ClassId) (i j : ℕ) (f : FunctionId) → IsHierarchy h → slice_get (declared h c) i ≡ Some f → slice_get (declared h c) j ≡ Some f → i ≡ j }
    ensures destructor { (h : Classes) (c : ClassId) → c.0 < length h → signature_of h (destructor_of h c) ≡ Some destructor }
    ensures is_virtual { (h : Classes) (f : FunctionId) → IsHierarchy h → ((is_virtual h f ≡ true) ↔ IsVirtual h f) }
    ensures own { (h : Classes) (c : ClassId) (f : FunctionId) → IsHierarchy h → (Contains (own h c) f ↔ ((f.class ≡ c) × IsVirtual h f)) }
{}

/// The search for a final overrider in a view finds the one that is, and none where there is none; in the view of the whole
/// object it is the final overrider. In a hierarchy that no condition refuses each virtual function of a subobject in the
/// view has one (ISO C++03 10.3 p2, 12.7 p3).
pub fn final_is_found()
    ensures view { (h : Classes) (c : ClassId) (x y : Subobject) (f : FunctionId) (o : Overrider) → IsHierarchy h → IsSubobject h c x → ((final_in h x y f ≡ Some o) ↔ IsFinalIn h c x y f o) }
    ensures whole { (h : Classes) (c : ClassId) (y : Subobject) (f : FunctionId) (o : Overrider) → IsHierarchy h → ((final_in h (whole_of c) y f ≡ Some o) ↔ IsFinalOverrider h c y f o) }
    ensures some { (h : Classes) (c : ClassId) (x y : Subobject) (f : FunctionId) → IsHierarchy h → HasNoFault h → IsSubobject h c x → IsInside h x y → class_of y ≡ Some f.class → IsVirtual h f → (o : Overrider) × (final_in h x y f ≡ Some o) }
{}

/// The search for a pure final overrider says whether a class is abstract (ISO C++03 10.4 p2).
pub fn abstract_is_found()
    ensures { (h : Classes) (c : ClassId) → IsHierarchy h → ((is_abstract h c ≡ true) ↔ IsAbstract h c) }
{}

/// The test for a virtual base says whether a class has one (ISO C++03 10.1).
pub fn virtual_bases_are_found()
    ensures { (h : Classes) (c : ClassId) → IsHierarchy h → ((has_virtual_base h c ≡ true) ↔ HasVirtualBases h c) }
{}

/// The search for what a cast leads to in a view gives the answer of the cast, and that is one (ISO C++03 5.2.7 p8).
pub fn casts_are_found()
    ensures found { (h : Classes) (c target : ClassId) (x y : Subobject) (answer : Option Subobject) → IsHierarchy h → IsSubobject h c x → ((cast_in h target x y ≡ answer) ↔ IsCast h target x y answer) }
    ensures one { (h : Classes) (target : ClassId) (x y : Subobject) (a b : Option Subobject) → IsCast h target x y a → IsCast h target x y b → a ≡ b }
{}
