//! The laws. The functions do nothing: their contracts are what they say.

ghost use Rattle.std.specs.Prelude.{◌≡◌, ℕ, ◌<◌, Option, Some, None, List, [], Contains, length};
ghost use Rattle.cxx_hierarchy.specs.declared.records.ClassId.{ClassId};
ghost use Rattle.cxx_hierarchy.specs.declared.records.ValueType.{ValueType};
ghost use Rattle.cxx_hierarchy.specs.Classes.{Classes};
ghost use Rattle.cxx_hierarchy.specs.Hierarchies.{IsHierarchy};
ghost use Rattle.cxx_subobject.specs.declared.Subobject.{Subobject};
ghost use Rattle.cxx_subobject.specs.Subobjects.{IsSubobject, class_of, whole_of};
ghost use Rattle.cxx_subobject.specs.VirtualBases.{virtual_bases};
ghost use Rattle.cxx_overrider.specs.declared.FunctionId.{FunctionId};
ghost use Rattle.cxx_overrider.specs.declared.Overrider.{Overrider};
ghost use Rattle.cxx_overrider.specs.Functions.{named, signature_of, return_of, pointee};
ghost use Rattle.cxx_overrider.specs.Overriding.{IsVirtual};
ghost use Rattle.cxx_search.specs.Searches.{final_in, destructor_of};
ghost use Rattle.abi_sound.specs.declared.class_layout.ClassLayout.{ClassLayout};
ghost use Rattle.abi_sound.specs.Places.{places_of};
ghost use Rattle.abi_slots.specs.declared.code_numbers.CodeRow.{CodeRow};
ghost use Rattle.abi_slots.specs.declared.code_numbers.BlockKind.TheVariants.{Plain};
ghost use Rattle.abi_slots.specs.declared.words.CodeKind.TheVariants.{Deleting};
ghost use Rattle.abi_slots.specs.declared.words.Group.{Group};
ghost use Rattle.abi_slots.specs.CodeRows.{block_kind};
ghost use Rattle.abi_slots.specs.Groups.{return_for};
ghost use Rattle.abi_slots.specs.Listing.{entry_key, own_keys};
ghost use Rattle.abi_slots.specs.Slots.{first_key};
ghost use Rattle.abi_slots.specs.Views.{View};
ghost use Rattle.abi_slots.specs.Seen.{PlacedTables};
ghost use Rattle.byte_memory.specs.Store.{Store};
ghost use Rattle.byte_code.specs.declared.code.ImageBytes.{ImageBytes};
ghost use Rattle.agree_dispatch.specs.Standing.{ArePointed, IsViewAt, LieAlike};
ghost use Rattle.agree_dispatch.specs.Results.{RunsFor};
ghost use Rattle.agree_dispatch.specs.StandingLaws.{IsSeenOfGroup, WordsLeadToBases, WordsLeadToWholes, WordsTellTypes, EntriesRunOverriders, ListingReturnsAlike, PlainResultWords, SharedResultWords, PlainResultsMove, SharedResultsMove};

/// When a view stands (`IsViewAt`). The parts of a view of an object lie where that view has them (`itself`); so do those of the
/// whole of an object of its class alone, where that has no virtual base (`alone`). And what an image gives for the view of a
/// group whose tables stand in it is given of the placed tables of that view (`seen`).
pub fn views_stand()
    ensures itself { (h : Classes) (rows : List ClassLayout) (d c : ClassId) (at : ℕ) (y : Subobject) → LieAlike h (places_of h rows) d at y (record { complete = d; at_sub = y; class = c }) }
    ensures alone { (h : Classes) (rows : List ClassLayout) (d c : ClassId) (at : ℕ) (y : Subobject) → IsHierarchy h → IsSubobject h d y → class_of y ≡ Some c → virtual_bases h c ≡ [] → LieAlike h (places_of h rows) d at y (record { complete = c; at_sub = whole_of c; class = c }) }
    ensures seen { (h : Classes) (rows : List ClassLayout) (group : Group) (x : View) (placed : PlacedTables) → IsSeenOfGroup h rows group x placed }
{}

/// From a dynamic subobject of a view that stands, words of its table lead to each virtual base of its class (`vbase`), to the
/// whole of the view (`top`), and to the number of the view's class (`type_of`).
pub fn words()
    ensures vbase { (h : Classes) (rows : List ClassLayout) (image : ImageBytes) (memory : Store) → WordsLeadToBases h rows image memory }
    ensures top { (h : Classes) (rows : List ClassLayout) (image : ImageBytes) (memory : Store) → WordsLeadToWholes h rows image memory }
    ensures type_of { (h : Classes) (rows : List ClassLayout) (image : ImageBytes) (memory : Store) → WordsTellTypes h rows image memory }
{}

/// Which keys the virtual functions of a class have: one that is plain, or of a destructor the deleting one beside another.
pub fn keys()
    ensures first { (h : Classes) (f : FunctionId) → IsHierarchy h → IsVirtual h f → Contains (own_keys h f.class) (first_key h f) }
    ensures deleting { (h : Classes) (c : ClassId) → IsHierarchy h → c.0 < length h → IsVirtual h (destructor_of h c) → Contains (own_keys h c) (entry_key (destructor_of h c) Deleting) }
    ensures plain { (h : Classes) (f : FunctionId) (name : List ℕ) (types : List (ValueType ClassId)) → signature_of h f ≡ Some (named name types) → block_kind (first_key h f).kind ≡ Plain }
{}

/// At the entry of a virtual function, in the table of a subobject of a view that stands and whose class declares it, stands 0
/// where the final overrider in the view is pure; else it runs the overrider, `this` is moved to its subobject, and the result as
/// the function says that was found (`runs`). The overrider is the function itself, or overrides it (`overrides`).
pub fn entries()
    ensures runs { (h : Classes) (rows : List ClassLayout) (image : ImageBytes) (memory : Store) → EntriesRunOverriders h rows image memory }
    ensures overrides { (h : Classes) (d : ClassId) (y s : Subobject) (f : FunctionId) (o : Overrider) → IsHierarchy h → IsSubobject h d y → class_of s ≡ Some f.class → IsVirtual h f → final_in h y s f ≡ Some o → RunsFor h o.function f }
{}

/// An entry may be listed for a function of a class of the primary chain. The result is moved from the overrider's class to that of
/// the listed one, which is the same as to that of the function that was found.
pub fn same_returning()
    ensures { (h : Classes) (rows : List ClassLayout) → ListingReturnsAlike h rows }
{}

/// The two words by which a result is moved: none is named, and the constant is the place in the class, where the path lies in no
/// virtual base (`plain`); the number of the base's word, which is not 0, and how far it is from there, where it does (`shared`). A
/// result that is no pointer, or is of a destructor, stays (`none`).
pub fn result_words()
    ensures plain { (h : Classes) (rows : List ClassLayout) → PlainResultWords h rows }
    ensures shared { (h : Classes) (rows : List ClassLayout) → SharedResultWords h rows }
    ensures none { (h : Classes) (rows : List ClassLayout) (g f : FunctionId) → pointee (return_of h f) ≡ None → return_for h (places_of h rows) g f ≡ None }
{}

/// A moved result points to the subobject of the class that the found function returns: of any part, where the path lies in no
/// virtual base (`plain`); else of a subobject of a view that stands (`shared`).
pub fn results()
    ensures plain { (h : Classes) (rows : List ClassLayout) (image : ImageBytes) (memory : Store) → PlainResultsMove h rows image memory }
    ensures shared { (h : Classes) (rows : List ClassLayout) (image : ImageBytes) (memory : Store) → SharedResultsMove h rows image memory }
{}
