//! The law of dispatch, that one table serves a subobject, and what an image gives for a view.

ghost use Rattle.std.specs.Prelude.{◌≡◌, Some, List};
ghost use Rattle.cxx_hierarchy.specs.Classes.{Classes};
ghost use Rattle.cxx_hierarchy.specs.Hierarchies.{IsHierarchy};
ghost use Rattle.cxx_subobject.specs.declared.Subobject.{Subobject};
ghost use Rattle.cxx_subobject.specs.Subobjects.{IsSubobject};
ghost use Rattle.abi_sound.specs.declared.class_layout.ClassLayout.{ClassLayout};
ghost use Rattle.abi_sound.specs.Places.{places_of};
ghost use Rattle.abi_sound.specs.Sound.{IsSoundLayout};
ghost use Rattle.abi_slots.specs.declared.words.Group.{Group};
ghost use Rattle.abi_slots.specs.Views.{View, IsView, place, next, Serves};
ghost use Rattle.abi_slots.specs.Seen.{PlacedTables};
ghost use Rattle.abi_slots.specs.GroupLaws.{SubobjectsAreServed, EntriesDispatch, BaseWordsConvert, TopWordsLead, ImagesAreSeen, SharePointersOrLieApart, SharedPointersHaveOnePoint};

/// The law of dispatch, over any sound layout. Each dynamic subobject of the view of a group is served by a table of the
/// group. From that table, for the class of the subobject: the word of each virtual function that it declares runs the
/// final overrider in the view, and the adjustments lead to the overrider's place (`entry`); the word of each of its
/// virtual bases leads there (`base`); and the words before the address point lead to the view and name its class (`top`).
pub fn dispatch()
    ensures served { (h : Classes) (rows : List ClassLayout) (group : Group) → SubobjectsAreServed h rows group }
    ensures entry { (h : Classes) (rows : List ClassLayout) (group : Group) → EntriesDispatch h rows group }
    ensures base { (h : Classes) (rows : List ClassLayout) (group : Group) → BaseWordsConvert h rows group }
    ensures top { (h : Classes) (rows : List ClassLayout) (group : Group) → TopWordsLead h rows group }
{}

/// A subobject of a view is in the chain of one head alone, over any sound layout: one table of a group serves it.
pub fn one_head()
    ensures { (h : Classes) (rows : List ClassLayout) (x : View) (t u s : Subobject) → IsHierarchy h → IsSoundLayout h rows → IsView h x → Serves h (places_of h rows) x t s → Serves h (places_of h rows) x u s → t ≡ u }
{}

/// What the image of a group gives for its view, over any sound layout, where the group's tables stand in it. Each dynamic
/// subobject has one address point. From there the entry of each function that its class declares runs the final overrider
/// in the view, and the adjustments lead to the overrider's place; the word of each virtual base of its class leads there;
/// and the words before the address point lead to the view and to the record of its class.
pub fn seen()
    ensures { (h : Classes) (rows : List ClassLayout) (group : Group) → ImagesAreSeen h rows group }
{}

/// Two dynamic subobjects of a view share a virtual pointer, or their virtual pointers have no byte in common (`apart`). Those
/// that share one have one address point in an image (`point`); and what comes next in a chain lies at the same place (`next`).
pub fn one_pointer()
    ensures apart { (h : Classes) (rows : List ClassLayout) (x : View) → SharePointersOrLieApart h rows x }
    ensures point { (h : Classes) (rows : List ClassLayout) (x : View) (placed : PlacedTables) → SharedPointersHaveOnePoint h rows x placed }
    ensures next { (h : Classes) (rows : List ClassLayout) (x : View) (s t : Subobject) → IsHierarchy h → IsSoundLayout h rows → IsView h x → IsSubobject h x.class s → next (places_of h rows) x s ≡ Some t → place (places_of h rows) x t ≡ place (places_of h rows) x s }
{}
