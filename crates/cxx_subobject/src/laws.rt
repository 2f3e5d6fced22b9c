//! Laws of subobjects, for the layers above. The functions do nothing: their contracts are what they say.

ghost use Rattle.std.specs.Prelude.{◌≡◌, ◌↔◌, ◌<◌, ℕ, Some, List, Contains, slice_get};
ghost use Rattle.cxx_hierarchy.specs.declared.records.ClassId.{ClassId};
ghost use Rattle.cxx_hierarchy.specs.declared.records.FieldType.{FieldType};
ghost use Rattle.cxx_hierarchy.specs.Classes.{Classes};
ghost use Rattle.cxx_hierarchy.specs.Hierarchies.{IsHierarchy};
ghost use Rattle.cxx_hierarchy.specs.VirtualBases.{HasVirtualBase};
ghost use Rattle.cxx_subobject.specs.declared.Subobject.{Subobject};
ghost use Rattle.cxx_subobject.specs.declared.locations.Hop.{Hop};
ghost use Rattle.cxx_subobject.specs.Subobjects.{IsSubobject, class_of, join};
ghost use Rattle.cxx_subobject.specs.Inside.{IsInside};
ghost use Rattle.cxx_subobject.specs.VirtualBases.{virtual_bases};
ghost use Rattle.cxx_subobject.specs.Locations.{LeadsTo, IsHopsTo};

/// Subobjects of subobjects: `join` gives a subobject of the whole, of the inner one's class; it is associative; and
/// what lies in a subobject is one part of it.
pub fn joins_are_subobjects()
    ensures valid { (h : Classes) → (c d : ClassId) → (s t : Subobject) → IsSubobject h c s → class_of s ≡ Some d → IsSubobject h d t → IsSubobject h c (join s t) }
    ensures class { (h : Classes) → (d : ClassId) → (s t : Subobject) → class_of s ≡ Some d → IsSubobject h d t → class_of (join s t) ≡ class_of t }
    ensures associative { (h : Classes) → (d e : ClassId) → (s t u : Subobject) → IsSubobject h d t → IsSubobject h e u → join (join s t) u ≡ join s (join t u) }
    ensures injective { (h : Classes) → IsHierarchy h → (c d : ClassId) → (s t u : Subobject) → IsSubobject h c s → class_of s ≡ Some d → IsSubobject h d t → IsSubobject h d u → join s t ≡ join s u → t ≡ u }
    ensures one_part { (h : Classes) → IsHierarchy h → (c : ClassId) → (s t : Subobject) → IsSubobject h c s → (a b : IsInside h s t) → a.part ≡ b.part }
{}

/// The list of the virtual bases of a class has exactly these, each once, and each of a smaller number than the class.
pub fn virtual_bases_are_listed()
    ensures listed { (h : Classes) → IsHierarchy h → (c v : ClassId) → HasVirtualBase h c v → Contains (virtual_bases h c) v }
    ensures valid { (h : Classes) → (c v : ClassId) → Contains (virtual_bases h c) v → HasVirtualBase h c v }
    ensures once { (h : Classes) → (c : ClassId) → (i j : ℕ) → (v : ClassId) → slice_get (virtual_bases h c) i ≡ Some v → slice_get (virtual_bases h c) j ≡ Some v → i ≡ j }
    ensures below { (h : Classes) → IsHierarchy h → (c v : ClassId) → Contains (virtual_bases h c) v → v.0 < c.0 }
{}

/// Hops that lead inwards are those of a complete object, a subobject of it, and for a leaf an element of a member.
pub fn hops_are_of_owners()
    ensures { (h : Classes) → (c : ClassId) → (hops : List Hop) → (type : FieldType ClassId) → LeadsTo h c hops type ↔ IsHopsTo h c hops type }
{}
