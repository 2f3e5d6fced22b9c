//! The laws of addresses. The functions do nothing: their contracts are what they say.

ghost use Rattle.std.specs.Prelude.{◌≡◌, ℕ, ◌+◌, ◌<◌, ◌≤◌, ◌^◌, ◌⊎◌, true, false, Some, None, List, [], ◌++◌, Contains, length, map, nat_eq, slice_get};
ghost use Rattle.std.specs.List.{find};
ghost use Rattle.cxx_hierarchy.specs.declared.records.Base.{Base};
ghost use Rattle.cxx_hierarchy.specs.declared.records.ClassId.{ClassId};
ghost use Rattle.cxx_hierarchy.specs.declared.records.ValueType.{ValueType};
ghost use Rattle.cxx_hierarchy.specs.declared.records.FieldType.TheVariants.{Value, Object};
ghost use Rattle.cxx_hierarchy.specs.Classes.{Classes, bases_of, width_of_member};
ghost use Rattle.cxx_hierarchy.specs.Hierarchies.{IsHierarchy};
ghost use Rattle.cxx_hierarchy.specs.VirtualBases.{HasVirtualBase};
ghost use Rattle.cxx_subobject.specs.declared.Root.TheVariants.{Whole};
ghost use Rattle.cxx_subobject.specs.declared.Subobject.{Subobject};
ghost use Rattle.cxx_subobject.specs.Subobjects.{IsSubobject, subobject, whole_of, class_of};
ghost use Rattle.cxx_subobject.specs.Locations.{IsElement, ObjectPart};
ghost use Rattle.path_plan.specs.Places.{part, base_part, shared_part, element, same_part};
ghost use Rattle.path_model.specs.Values.{Leaf, inner_part};
ghost use Rattle.path_model.specs.Places.{owner_class};
ghost use Rattle.path_model.specs.TypedStates.{IsPartMade, IsLeafMade};
ghost use Rattle.abi_primary.specs.Kinds.{IsDynamic};
ghost use Rattle.abi_sound.specs.declared.class_layout.ClassLayout.{ClassLayout};
ghost use Rattle.abi_sound.specs.Places.{Places, places_of, size_of_value};
ghost use Rattle.abi_sound.specs.Locations.{AreDisjoint, bits_of_value};
ghost use Rattle.byte_memory.specs.declared.memory.Region.{Region};
ghost use Rattle.byte_memory.specs.declared.memory.MemoryFault.TheVariants.{Closed};
ghost use Rattle.byte_memory.specs.Regions.{fault_at, holds_bytes, shut, starts};
ghost use Rattle.byte_memory.specs.Store.{Store, IsRoom, open_of};
ghost use Rattle.agree_parts.specs.Heaps.{Heap, empty_heap, grown};
ghost use Rattle.agree_parts.specs.Addresses.{address, leaf_bits};
ghost use Rattle.agree_parts.specs.Placed.{IsObject, AreObjectsPlaced, AreObjectsLaid, LieIn, BitsLieIn, IsFree};
ghost use Rattle.agree_parts.specs.Regions.{AreRegions};
ghost use Rattle.agree_parts.specs.PartLaws.{LeafBytesLieInside, PartsLieInWholes, PartsOfViewsLieInWholes, BasesLieInParts, ElementsLieInParts, LeavesLieInParts, LeafBitsLieInParts, VirtualBasesLieInWholes, LeavesMissPointers, PointersOfOthersLieApart, PointersOfOneLieApart, ChainsShareAnAddress, OpenObjectsClose, LeafBitsLieNear};

/// A part of an object belongs to a complete object of some class, of which it is a subobject (`owner`): where it is the whole
/// of a class, of that class (`whole`), and an element of a member is one itself (`element`). That class and the part's are known
/// ones (`complete`, `class`), and the object is there (`object`).
pub fn parts_are_of_known_classes()
    ensures owner { (h : Classes) (g : Heap) (p : ObjectPart) (c : ClassId) → IsPartMade h g.classes p c → (d : ClassId) × (owner_class h g.classes p.object p.owner ≡ Some d) × IsSubobject h d p.at }
    ensures whole { (h : Classes) (g : Heap) (p : ObjectPart) (c : ClassId) → IsPartMade h g.classes p c → p.at ≡ whole_of c → owner_class h g.classes p.object p.owner ≡ Some c }
    ensures element { (h : Classes) (g : Heap) (p : ObjectPart) (c d : ClassId) (m i : ℕ) → IsPartMade h g.classes p c → IsElement h c m i (Object d) → owner_class h g.classes p.object (element p m i d).owner ≡ Some d }
    ensures complete { (h : Classes) (rows : List ClassLayout) (g : Heap) (p : ObjectPart) (c d : ClassId) → AreObjectsLaid h rows g → IsPartMade h g.classes p c → owner_class h g.classes p.object p.owner ≡ Some d → d.0 < length h }
    ensures class { (h : Classes) (rows : List ClassLayout) (g : Heap) (p : ObjectPart) (c : ClassId) → AreObjectsLaid h rows g → IsPartMade h g.classes p c → c.0 < length h }
    ensures object { (h : Classes) (rows : List ClassLayout) (g : Heap) (p : ObjectPart) (c : ClassId) → AreObjectsLaid h rows g → IsPartMade h g.classes p c → (d : ClassId) × (start : ℕ) × IsObject g p.object d start }
{}

/// The whole of an object is a part, and so are the direct bases of a part, the subobjects of its class, the virtual bases of
/// that, and the elements of its members that are objects.
pub fn parts_of_parts_are_parts()
    ensures object { (h : Classes) (g : Heap) (k : ℕ) (c : ClassId) → slice_get g.classes k ≡ Some c → IsPartMade h g.classes (part k [] (whole_of c)) c }
    ensures complete { (h : Classes) (g : Heap) (p : ObjectPart) (c d : ClassId) → IsPartMade h g.classes p c → owner_class h g.classes p.object p.owner ≡ Some d → IsPartMade h g.classes (part p.object p.owner (whole_of d)) d }
    ensures base { (h : Classes) (g : Heap) (p : ObjectPart) (c : ClassId) (b : Base ClassId) → IsPartMade h g.classes p c → Contains (bases_of h c) b → IsPartMade h g.classes (base_part p b) b.class }
    ensures shared { (h : Classes) (g : Heap) (p : ObjectPart) (c v : ClassId) → IsPartMade h g.classes p c → HasVirtualBase h c v → IsPartMade h g.classes (shared_part p v) v }
    ensures inner { (h : Classes) (g : Heap) (p : ObjectPart) (c d : ClassId) (s : Subobject) → IsPartMade h g.classes p c → IsSubobject h c s → class_of s ≡ Some d → IsPartMade h g.classes (inner_part p s) d }
    ensures element { (h : Classes) (g : Heap) (p : ObjectPart) (c d : ClassId) (m i : ℕ) → IsPartMade h g.classes p c → IsElement h c m i (Object d) → IsPartMade h g.classes (element p m i d) d }
{}

/// A part begins inside its object (`part`), and its address is neither 0 nor past 2^41 (`positive`, `limit`); the bits of a leaf
/// lie inside, and so do the bytes that they touch (`leaf`, `bytes`), and the 8 bytes of a virtual pointer (`pointer`).
pub fn parts_lie_inside()
    ensures part { (h : Classes) (rows : List ClassLayout) (g : Heap) (p : ObjectPart) (c : ClassId) → AreObjectsLaid h rows g → IsPartMade h g.classes p c → LieIn (places_of h rows) g p.object (address h (places_of h rows) g p) 1 }
    ensures positive { (h : Classes) (rows : List ClassLayout) (g : Heap) (p : ObjectPart) (c : ClassId) → AreObjectsLaid h rows g → IsPartMade h g.classes p c → 0 < address h (places_of h rows) g p }
    ensures limit { (h : Classes) (rows : List ClassLayout) (g : Heap) (p : ObjectPart) (c : ClassId) → AreObjectsLaid h rows g → IsPartMade h g.classes p c → address h (places_of h rows) g p < 2 ^ 41 }
    ensures leaf { (h : Classes) (rows : List ClassLayout) (g : Heap) (a : Leaf) (t : ValueType ClassId) → AreObjectsLaid h rows g → IsLeafMade h g.classes a t → BitsLieIn (places_of h rows) g a.part.object (leaf_bits h (places_of h rows) g a) }
    ensures bytes { (h : Classes) (rows : List ClassLayout) (g : Heap) → LeafBytesLieInside h rows g }
    ensures pointer { (h : Classes) (rows : List ClassLayout) (g : Heap) (p : ObjectPart) (c : ClassId) → AreObjectsLaid h rows g → IsPartMade h g.classes p c → IsDynamic h c → LieIn (places_of h rows) g p.object (address h (places_of h rows) g p) 8 }
{}

/// Two parts of one class at one address are one part (`one`), so that their addresses are compared in place of them (`test`).
pub fn one_place_is_one_part()
    ensures one { (h : Classes) (rows : List ClassLayout) (g : Heap) (p q : ObjectPart) (c : ClassId) → AreObjectsLaid h rows g → IsPartMade h g.classes p c → IsPartMade h g.classes q c → address h (places_of h rows) g p ≡ address h (places_of h rows) g q → p ≡ q }
    ensures test { (h : Classes) (rows : List ClassLayout) (g : Heap) (p q : ObjectPart) (c : ClassId) → AreObjectsLaid h rows g → IsPartMade h g.classes p c → IsPartMade h g.classes q c → nat_eq (address h (places_of h rows) g p) (address h (places_of h rows) g q) ≡ same_part p q }
{}

/// How far a part lies from another. From the whole of its complete object it is the place in that object's class (`complete`),
/// also of a subobject of a view (`view`). From a part to a direct non-virtual base, to an element that is an object, and to a
/// leaf it is told by the part's class alone (`base`, `element`, `leaf`), and so are the bits of that (`bits`); so it is to any subobject of the part that lies in no
/// virtual base (`inner`), and from the whole of a complete object to every subobject (`whole`), as to a virtual base (`shared`).
pub fn places_are_sums()
    ensures complete { (h : Classes) (rows : List ClassLayout) (g : Heap) → PartsLieInWholes h rows g }
    ensures view { (h : Classes) (rows : List ClassLayout) (g : Heap) → PartsOfViewsLieInWholes h rows g }
    ensures base { (h : Classes) (rows : List ClassLayout) (g : Heap) → BasesLieInParts h rows g }
    ensures element { (h : Classes) (rows : List ClassLayout) (g : Heap) → ElementsLieInParts h rows g }
    ensures leaf { (h : Classes) (rows : List ClassLayout) (g : Heap) → LeavesLieInParts h rows g }
    ensures bits { (h : Classes) (rows : List ClassLayout) (g : Heap) → LeafBitsLieInParts h rows g }
    ensures inner { (h : Classes) (rows : List ClassLayout) (g : Heap) (p : ObjectPart) (c : ClassId) (s : Subobject) → IsPartMade h g.classes p c → IsSubobject h c s → s.root ≡ Whole →
        address h (places_of h rows) g (inner_part p s) ≡ address h (places_of h rows) g p + (places_of h rows).place c s }
    ensures whole { (h : Classes) (rows : List ClassLayout) (g : Heap) (p : ObjectPart) (c : ClassId) (s : Subobject) → IsPartMade h g.classes p c → IsSubobject h c s → p.at ≡ whole_of c →
        address h (places_of h rows) g (inner_part p s) ≡ address h (places_of h rows) g p + (places_of h rows).place c s }
    ensures shared { (h : Classes) (rows : List ClassLayout) (g : Heap) → VirtualBasesLieInWholes h rows g }
{}

/// Two leaves have no bit in common (`leaves`), nor have a leaf and a virtual pointer (`leaf_and_pointer`). The virtual pointers
/// of two complete objects have none in common (`of_others`), and those of one have none where neither subobject is in the chain
/// of the other (`of_one`); all of a chain lies at one address (`chain`).
pub fn leaves_and_pointers_lie_apart()
    ensures leaves { (h : Classes) (rows : List ClassLayout) (g : Heap) (a b : Leaf) (t u : ValueType ClassId) → AreObjectsLaid h rows g → IsLeafMade h g.classes a t → IsLeafMade h g.classes b u → (a ≡ b → ⊥) →
        AreDisjoint (leaf_bits h (places_of h rows) g a) (leaf_bits h (places_of h rows) g b) }
    ensures leaf_and_pointer { (h : Classes) (rows : List ClassLayout) (g : Heap) → LeavesMissPointers h rows g }
    ensures of_others { (h : Classes) (rows : List ClassLayout) (g : Heap) → PointersOfOthersLieApart h rows g }
    ensures of_one { (h : Classes) (rows : List ClassLayout) (g : Heap) → PointersOfOneLieApart h rows g }
    ensures chain { (h : Classes) (rows : List ClassLayout) (g : Heap) → ChainsShareAnAddress h rows g }
{}

/// Objects lie apart where there is none (`none`), and after one more was made behind the others (`placed`). It has the next
/// number (`object`); parts and leaves of the others lie where they lay (`address`, `leaf`), and in the same objects (`inside`);
/// and what is a part now was one, or is one of the new object (`made`).
pub fn one_more_object()
    ensures none { (h : Classes) (l : Places) → AreObjectsPlaced h l empty_heap }
    ensures placed { (h : Classes) (l : Places) (g : Heap) (c : ClassId) (start : ℕ) → AreObjectsPlaced h l g → IsFree h l g c start → AreObjectsPlaced h l (grown g c start) }
    ensures object { (h : Classes) (l : Places) (g : Heap) (c : ClassId) (start : ℕ) → AreObjectsPlaced h l g → IsObject (grown g c start) (length g.classes) c start }
    ensures address { (h : Classes) (l : Places) (g : Heap) (c d : ClassId) (start : ℕ) (p : ObjectPart) → AreObjectsPlaced h l g → IsPartMade h g.classes p d → address h l (grown g c start) p ≡ address h l g p }
    ensures leaf { (h : Classes) (l : Places) (g : Heap) (c : ClassId) (start : ℕ) (a : Leaf) (t : ValueType ClassId) → AreObjectsPlaced h l g → IsLeafMade h g.classes a t → leaf_bits h l (grown g c start) a ≡ leaf_bits h l g a }
    ensures inside { (l : Places) (g : Heap) (c : ClassId) (start k at n : ℕ) → LieIn l g k at n → LieIn l (grown g c start) k at n }
    ensures made { (h : Classes) (g : Heap) (c d : ClassId) (start : ℕ) (p : ObjectPart) → IsPartMade h (grown g c start).classes p d → IsPartMade h g.classes p d ⊎ (p.object ≡ length g.classes) }
{}

/// Bytes in an object find the region of that object (`region`), and so does the address where it starts (`start`).
pub fn objects_are_found()
    ensures region { (h : Classes) (l : Places) (g : Heap) (regions : List Region) (k at n : ℕ) → AreObjectsPlaced h l g → AreRegions l g regions → 0 < n → LieIn l g k at n → find (holds_bytes at n) regions ≡ slice_get regions k }
    ensures start { (h : Classes) (rows : List ClassLayout) (g : Heap) (regions : List Region) (k start : ℕ) (c : ClassId) → AreObjectsLaid h rows g → AreRegions (places_of h rows) g regions → IsObject g k c start → find (starts start) regions ≡ slice_get regions k }
{}

/// The regions of a memory as those of the objects: each object has one, of its start and its size (`region`). Bytes in an object
/// can be reached while its region is open (`opened`), and are refused as closed else (`closed`); an open one can be closed at the
/// object's start (`closes`).
pub fn regions_are_objects()
    ensures region { (l : Places) (g : Heap) (regions : List Region) (k : ℕ) (c : ClassId) (start : ℕ) → AreRegions l g regions → IsObject g k c start → (r : Region) × (slice_get regions k ≡ Some r) × (r.start ≡ start) × (r.size ≡ l.size c) }
    ensures opened { (h : Classes) (l : Places) (g : Heap) (regions : List Region) (r : Region) (k at n : ℕ) → AreObjectsPlaced h l g → AreRegions l g regions → 0 < n → LieIn l g k at n → slice_get regions k ≡ Some r → r.is_open ≡ true → fault_at regions at n ≡ None }
    ensures closed { (h : Classes) (l : Places) (g : Heap) (regions : List Region) (r : Region) (k at n : ℕ) → AreObjectsPlaced h l g → AreRegions l g regions → 0 < n → LieIn l g k at n → slice_get regions k ≡ Some r → r.is_open ≡ false → fault_at regions at n ≡ Some (Closed at) }
    ensures closes { (h : Classes) (rows : List ClassLayout) (g : Heap) → OpenObjectsClose h rows g }
{}

/// Regions stay those of the objects: without any (`none`), after one more was opened for one more object (`grown`), for which a
/// memory with room is free (`free`), and after one was closed (`shut`).
pub fn regions_go_along()
    ensures none { (l : Places) → AreRegions l empty_heap [] }
    ensures grown { (h : Classes) (l : Places) (g : Heap) (c : ClassId) (memory : Store) (at : ℕ) → AreObjectsPlaced h l g → AreRegions l g memory.regions → AreRegions l (grown g c at) (open_of memory at (l.size c)).regions }
    ensures free { (h : Classes) (l : Places) (g : Heap) (c : ClassId) (memory : Store) (at : ℕ) → c.0 < length h → AreRegions l g memory.regions → IsRoom memory at (l.size c) → IsFree h l g c at }
    ensures shut { (l : Places) (g : Heap) (regions : List Region) (at : ℕ) → AreRegions l g regions → AreRegions l g (map (shut at) regions) }
{}

/// A number or a pointer takes 1 to 8 bytes (`some`, `word`); a leaf has 1 to 64 bits (`bits`), which lie in the 8 bytes from its
/// address on (`near`), and fill its bytes where it is no bit-field (`whole`; Itanium C++ ABI 2.2, LP64; ISO C++03 9.6).
pub fn values_are_narrow()
    ensures some { (t : ValueType ClassId) → 0 < size_of_value t }
    ensures word { (t : ValueType ClassId) → size_of_value t ≤ 8 }
    ensures bits { (h : Classes) (c : ClassId) (m i : ℕ) (t : ValueType ClassId) → IsHierarchy h → IsElement h c m i (Value t) → (0 < bits_of_value (width_of_member h c m) t) × (bits_of_value (width_of_member h c m) t ≤ 64) }
    ensures near { (h : Classes) (rows : List ClassLayout) (g : Heap) → LeafBitsLieNear h rows g }
    ensures whole { (h : Classes) (rows : List ClassLayout) (g : Heap) (a : Leaf) (c : ClassId) (t : ValueType ClassId) → AreObjectsLaid h rows g → IsPartMade h g.classes a.part c → IsElement h c a.member a.index (Value t) →
        width_of_member h c a.member ≡ None → (places_of h rows).first c a.member ≡ 0 }
{}
