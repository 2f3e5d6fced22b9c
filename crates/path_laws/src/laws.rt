//! Laws of leaves: which ones a part has, which places lead to them, and what a copy gives them; and of classes with virtual functions.
//! Each function is a law: its contract holds of all hierarchies and states.

ghost use Rattle.std.specs.Prelude.{◌≡◌, ◌↔◌, true, Some};
ghost use Rattle.cxx_hierarchy.specs.declared.records.ClassId.{ClassId};
ghost use Rattle.cxx_hierarchy.specs.Classes.{Classes};
ghost use Rattle.cxx_hierarchy.specs.Hierarchies.{IsHierarchy};
ghost use Rattle.cxx_subobject.specs.Subobjects.{IsSubobject, class_of};
ghost use Rattle.cxx_subobject.specs.Locations.{ObjectPart};
ghost use Rattle.cxx_program.specs.declared.statement.TypedPlace.{TypedPlace};
ghost use Rattle.cxx_program.specs.Typed.{IsPolymorphic};
ghost use Rattle.cxx_expression.specs.Lookups.{is_polymorphic};
ghost use Rattle.path_model.specs.Values.{Leaf, Objects};
ghost use Rattle.path_model.specs.Places.{leaf_at, leaves_of};
ghost use Rattle.path_model.specs.Effects.{copied};
ghost use Rattle.path_laws.specs.Leaves.{LiesIn, ListsLeaves, IsLeafPlace, SameWay};

/// `leaves_of` has each leaf that lies in a part once, and no other: those of its subobjects, shared ones among them, and of their members
/// and elements at every depth. The part may be a whole heap object, a member object, or any base of one.
pub fn leaves_are_listed()
    ensures { (h : Classes) (d c : ClassId) (p : ObjectPart) → IsHierarchy h → IsSubobject h d p.at → class_of p.at ≡ Some c → ListsLeaves h p (leaves_of h c p) }
{}

/// A leaf lies in a part exactly where a place leads to it from there (`leaves`), and one place alone does: the members and elements on the
/// way are the same, and so are the subobjects in which they are (`one`).
pub fn places_lead_to_leaves()
    ensures leaves { (h : Classes) (c : ClassId) (p : ObjectPart) (l : Leaf) → class_of p.at ≡ Some c → (LiesIn h p l ↔ ((place : TypedPlace) × IsLeafPlace h c place × (leaf_at p place ≡ l))) }
    ensures one { (h : Classes) (d c : ClassId) (p : ObjectPart) (x y : TypedPlace) → IsHierarchy h → IsSubobject h d p.at → class_of p.at ≡ Some c → IsLeafPlace h c x → IsLeafPlace h c y → leaf_at p x ≡ leaf_at p y → SameWay x y }
{}

/// A copy gives each leaf of the part `to` the old value of its counterpart: at each place `to` has what `from` had there, unset leaves too,
/// and also where both share a base (`taken`). A leaf that does not lie in `to` keeps its value (`kept`), and all else of the objects stays
/// (`others`). The leaves of a shared base lie in `to`, be it a whole or a base of one (ISO C++03 12.8 p13).
pub fn copies_give_old_values()
    ensures taken { (h : Classes) (d c : ClassId) (to from : ObjectPart) (s : Objects) (place : TypedPlace) → IsHierarchy h → IsSubobject h d to.at → class_of to.at ≡ Some c → IsLeafPlace h c place →
        (copied h c to from s).leaf (leaf_at to place) ≡ s.leaf (leaf_at from place) }
    ensures kept { (h : Classes) (c : ClassId) (to from : ObjectPart) (s : Objects) (l : Leaf) → class_of to.at ≡ Some c → (LiesIn h to l → ⊥) → (copied h c to from s).leaf l ≡ s.leaf l }
    ensures others { (h : Classes) (c : ClassId) (to from : ObjectPart) (s : Objects) → ((copied h c to from s).classes ≡ s.classes) × ((copied h c to from s).is_closed ≡ s.is_closed) × ((copied h c to from s).phases ≡ s.phases) }
{}

/// The body pass finds a virtual function exactly where the class or a base of it declares one, at any depth; a virtual destructor is one
/// (ISO C++03 10.3 p1). So no use is refused by E18 where the class has one.
pub fn polymorphic_is_found()
    ensures { (h : Classes) (c : ClassId) → IsHierarchy h → ((is_polymorphic h c ≡ true) ↔ IsPolymorphic h c) }
{}
