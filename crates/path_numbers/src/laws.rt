//! Laws of the numbering: of all hierarchies and all objects of a run. The functions do nothing: their contracts are what
//! they say.

ghost use Rattle.std.specs.Prelude.{◌≡◌, ◌+◌, ◌++◌, ◌∷◌, [], ℕ, Some, List, slice_get};
ghost use Rattle.cxx_hierarchy.specs.declared.records.ClassId.{ClassId};
ghost use Rattle.cxx_hierarchy.specs.declared.records.Base.{Base};
ghost use Rattle.cxx_hierarchy.specs.Classes.{Classes, bases_of};
ghost use Rattle.cxx_hierarchy.specs.Hierarchies.{IsHierarchy};
ghost use Rattle.cxx_subobject.specs.declared.Subobject.{Subobject};
ghost use Rattle.cxx_subobject.specs.Subobjects.{IsSubobject};
ghost use Rattle.cxx_subobject.specs.Parts.{parts_of};
ghost use Rattle.path_plan.specs.Places.{part};
ghost use Rattle.path_plan.specs.declared.form.Form.{Form};
ghost use Rattle.path_plan.specs.declared.form.Form.TheVariants.{InFull};
ghost use Rattle.path_plan.specs.Plans.{virtual_order};
ghost use Rattle.path_numbers.specs.Sizes.{IsSizes, sizes_of, base_offset, shared_offset};
ghost use Rattle.path_numbers.specs.Nodes.{Node, Under, IsGood};
ghost use Rattle.path_numbers.specs.Hops.{Hop, IsConstantWay, arrive};
ghost use Rattle.path_numbers.specs.Heap.{IsAt};
ghost use Rattle.path_numbers.specs.Numbers.{base_number, shared_number, subobject_number};
ghost use Rattle.path_numbers.specs.Laws.{IsLeafOf, IsOwnedBy, Arrives};

/// The sizes meet one equation a class, and a complete object takes as many numbers as it has parts and leaves.
pub fn sizes_are_of_parts()
    ensures sizes { (h : Classes) → IsHierarchy h → IsSizes h (sizes_of h) }
    ensures parts { (h : Classes) (c : ClassId) → IsHierarchy h → sizes_of h InFull c ≡ parts_of h c }
{}

/// Over all objects of a run a number names one part, a part has one number, and a number names one leaf of one part. What
/// is a part stays one, with its number, when an object comes behind the others.
pub fn numbers_name_parts()
    ensures part { (h : Classes) (classes : List ClassId) (y z : Node) → IsHierarchy h → IsAt h (sizes_of h) classes y → IsAt h (sizes_of h) classes z → y.number ≡ z.number → y ≡ z }
    ensures number { (h : Classes) (classes : List ClassId) (y z : Node) → IsHierarchy h → IsAt h (sizes_of h) classes y → IsAt h (sizes_of h) classes z → y.part ≡ z.part → y ≡ z }
    ensures leaf { (h : Classes) (classes : List ClassId) (a b : IsLeafOf h classes) → IsHierarchy h → a.number ≡ b.number → (a.node ≡ b.node) × (a.member ≡ b.member) × (a.element ≡ b.element) }
    ensures more { (h : Classes) (classes : List ClassId) (c : ClassId) (y : Node) → IsAt h (sizes_of h) classes y → IsAt h (sizes_of h) (classes ++ c ∷ []) y }
{}

/// A way from a part into its bases and members arrives at a part under it, as many numbers on as the way says.
pub fn ways_arrive()
    ensures { (h : Classes) (f : Form) (c g : ClassId) (hops : List Hop) (n : ℕ) (x : Node) → IsConstantWay h (sizes_of h) f c hops n g → x.class ≡ c → (f ≡ InFull → x.form ≡ InFull) → Arrives h x (arrive x.part hops) n g }
{}

/// Each part of an object belongs to a complete object, of which it is a subobject; and of a complete object each subobject
/// is a part, whose number lies behind its own by the number of the subobject.
pub fn parts_are_subobjects()
    ensures owner { (h : Classes) (x y : Node) → IsHierarchy h → IsGood x → x.form ≡ InFull → Under h (sizes_of h) y x → IsOwnedBy h x y }
    ensures some { (h : Classes) (x : Node) (s : Subobject) → IsHierarchy h → IsGood x → x.form ≡ InFull → IsSubobject h x.class s → (y : Node) × Under h (sizes_of h) y x × (y.part ≡ part x.part.object x.part.owner s) }
    ensures number { (h : Classes) (x y : Node) (s : Subobject) → IsHierarchy h → IsGood x → x.form ≡ InFull → IsSubobject h x.class s → Under h (sizes_of h) y x → y.part ≡ part x.part.object x.part.owner s → y.number ≡ x.number + subobject_number h x.class s }
{}

/// The offset of a base or virtual base by its class is that by its place.
pub fn offsets_are_by_class()
    ensures base { (h : Classes) (c : ClassId) (i : ℕ) (base : Base ClassId) → IsHierarchy h → slice_get (bases_of h c) i ≡ Some base → base_number h c base.class ≡ base_offset h (sizes_of h) c i }
    ensures shared { (h : Classes) (c v : ClassId) (j : ℕ) → slice_get (virtual_order h c) j ≡ Some v → shared_number h c v ≡ shared_offset h (sizes_of h) c j }
{}
