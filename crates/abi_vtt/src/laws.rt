//! Where sub-VTTs stand, and where tables are found that a VTT has no word for.

ghost use Rattle.std.specs.Prelude.{◌≡◌, ℕ, ◌+◌, ◌*◌, true, false, Some, List, slice_get};
ghost use Rattle.cxx_hierarchy.specs.Classes.{Classes};
ghost use Rattle.cxx_hierarchy.specs.Hierarchies.{IsHierarchy};
ghost use Rattle.cxx_hierarchy.specs.VirtualBases.{IsDirectBase, HasVirtualBase};
ghost use Rattle.cxx_hierarchy.specs.declared.records.ClassId.{ClassId};
ghost use Rattle.cxx_subobject.specs.declared.Subobject.{Subobject};
ghost use Rattle.cxx_subobject.specs.Subobjects.{IsSubobject, whole_of, shared_base, class_of};
ghost use Rattle.abi_primary.specs.Kinds.{IsDynamic};
ghost use Rattle.abi_sound.specs.declared.class_layout.ClassLayout.{ClassLayout};
ghost use Rattle.abi_sound.specs.Places.{Places};
ghost use Rattle.abi_slots.specs.declared.words.Group.{Group};
ghost use Rattle.abi_slots.specs.Views.{View, next, heads, Serves};
ghost use Rattle.abi_slots.specs.Groups.{IsGroup};
ghost use Rattle.abi_slots.specs.Images.{point_words};
ghost use Rattle.abi_slots.specs.Seen.{PlacedTables};
ghost use Rattle.abi_vtt.specs.Vtts.{VttEntry, item, needs_word, extended_by, ends_in_primary, vtt_items};
ghost use Rattle.abi_vtt.specs.Blocks.{block, StandsIn, block_distance, shared_distance, item_number, table_run, run_distance, IsFirstRun, IsFoundByClass};
ghost use Rattle.abi_vtt.specs.VttLaws.{FirstRunsHavePoints, WholeVttsStand, BaseVttsStand, SharedVttsStand};

/// The law on which construction rests, in any hierarchy and for any places. In the VTT of a class its own sub-VTT stands
/// first (`whole`). Wherever the sub-VTT of a view stands, that of a direct non-virtual base with virtual bases stands a
/// number of words behind it that the two classes determine (`base`); and that of a virtual base with virtual bases stands
/// at a number that the class of the VTT and this base determine (`shared`). In a sub-VTT the word of the view itself is
/// first (`first`), and the word for a base subobject stands at a number that the view's class and this subobject
/// determine (`word`).
pub fn sub_vtts()
    ensures whole { (h : Classes) (l : Places) (c : ClassId) → StandsIn (vtt_items h l c) 0 (block h l (whole_of c) c) }
    ensures base { (h : Classes) (l : Places) (x : Subobject) (d b v : ClassId) (all : List VttEntry) (n : ℕ) → IsHierarchy h → IsDirectBase h d false b → HasVirtualBase h b v → StandsIn all n (block h l x d) → StandsIn all (n + block_distance h l d b) (block h l (extended_by x b) b) }
    ensures shared { (h : Classes) (l : Places) (c v w : ClassId) → IsHierarchy h → HasVirtualBase h c v → HasVirtualBase h v w → StandsIn (vtt_items h l c) (shared_distance h l c v) (block h l (shared_base v) v) }
    ensures first { (h : Classes) (l : Places) (x : Subobject) (d : ClassId) → IsHierarchy h → slice_get (block h l x d) 0 ≡ Some (item x (whole_of d)) }
    ensures word { (h : Classes) (l : Places) (x : Subobject) (d : ClassId) (s : Subobject) → IsHierarchy h → IsSubobject h d s → needs_word h l s ≡ true → slice_get (block h l x d) (item_number h l d s) ≡ Some (item x s) }
{}

/// The tables of the non-virtual part of a view are the first of its group: which they are depends on the view's class alone
/// (`tables`), and so does how many words behind the first address point each of their address points stands (`distance`). The
/// first is the view's own (`itself`). So in an image the address point of each stands at a constant distance behind that of
/// the view itself, over any sound layout (`points`).
pub fn first_run()
    ensures tables { (h : Classes) (l : Places) (x : View) → IsHierarchy h → IsFirstRun (heads h l x) (table_run h l x.class) }
    ensures itself { (h : Classes) (l : Places) (d : ClassId) → IsHierarchy h → IsDynamic h d → slice_get (table_run h l d) 0 ≡ Some (whole_of d) }
    ensures distance { (h : Classes) (l : Places) (group : Group) (n : ℕ) (t : Subobject) → IsHierarchy h → (of : IsGroup h l group) → slice_get (table_run h l of.class) n ≡ Some t → point_words group.tables n ≡ point_words group.tables 0 + run_distance h l of.class n }
    ensures points { (h : Classes) (rows : List ClassLayout) (group : Group) (placed : PlacedTables) → FirstRunsHavePoints h rows group placed }
{}

/// Each table of a view is found by the class of the view alone: the table of a dynamic subobject is one of the first run or
/// has a word in the view's sub-VTT, where the subobject is not the non-virtual primary base of its deriver (`table`), in
/// particular that of each head (`head`). Such a primary base comes next to its deriver in the chain (`primary`).
pub fn each_found()
    ensures table { (h : Classes) (l : Places) (x : Subobject) (d e : ClassId) (s : Subobject) → IsHierarchy h → IsSubobject h d s → class_of s ≡ Some e → IsDynamic h e → ends_in_primary l s.path ≡ false → IsFoundByClass h l x d s }
    ensures head { (h : Classes) (l : Places) (x : View) (t s : Subobject) → IsHierarchy h → Serves h l x t s → IsFoundByClass h l x.at_sub x.class t }
    ensures primary { (h : Classes) (l : Places) (x : View) (s : Subobject) → IsHierarchy h → IsSubobject h x.class s → ends_in_primary l s.path ≡ true → (u : Subobject) × IsSubobject h x.class u × (next l x u ≡ Some s) }
{}

/// The law on which construction rests, in an image that has the tables of a source. At the address of the VTT of a class
/// stands the sub-VTT of the whole (`whole`); behind the address of the sub-VTT of a view, at a number of bytes that
/// depends on classes alone, stands that of a direct non-virtual base with virtual bases (`base`); and so does, behind the
/// address of the VTT, that of a virtual base with virtual bases (`shared`). Each word there is the address point of the
/// table that serves its subobject in the group of its view (`HasItem`).
pub fn vtt_in_image()
    ensures whole { (h : Classes) (l : Places) → WholeVttsStand h l }
    ensures base { (h : Classes) (l : Places) → BaseVttsStand h l }
    ensures shared { (h : Classes) (l : Places) → SharedVttsStand h l }
{}
