//! The laws. The functions do nothing: their contracts are what they say.

ghost use Rattle.path_plan.specs.Places.{part};
ghost use Rattle.agree_parts.specs.Heaps.{Heap};
ghost use Rattle.byte_memory.specs.Store.{Store};
ghost use Rattle.agree_relation.specs.Worlds.{World};
ghost use Rattle.agree_views.specs.WordLaws.{ViewWordsLeadToBases, ViewWordsLeadToViews, ViewWordsTellTypes, ViewEntriesRunOverriders, PlainPartResultsMove, SharedPartResultsMove};

/// From a dynamic part of a view that stands, words of its table lead to each virtual base of its class (`vbase`), to the view
/// (`top`), and to the number of the view's class (`type_of`).
pub fn words_of_views()
    ensures vbase { (w : World) (g : Heap) (memory : Store) → ViewWordsLeadToBases w g memory }
    ensures top { (w : World) (g : Heap) (memory : Store) → ViewWordsLeadToViews w g memory }
    ensures type_of { (w : World) (g : Heap) (memory : Store) → ViewWordsTellTypes w g memory }
{}

/// At the entry of a virtual function, in the table of a part of a view that stands and whose class declares it, stands 0 where
/// the final overrider in the view is pure; else it runs the overrider, `this` is moved to its part, and the result as the
/// function says that was found.
pub fn entries_of_views()
    ensures { (w : World) (g : Heap) (memory : Store) → ViewEntriesRunOverriders w g memory }
{}

/// A result of n that is moved where f was called points to the subobject of the class of f's result: of any part, where the path
/// lies in no virtual base (`plain`); else of a part of a view that stands (`shared`).
pub fn results_of_parts()
    ensures plain { (w : World) (g : Heap) (memory : Store) → PlainPartResultsMove w g memory }
    ensures shared { (w : World) (g : Heap) (memory : Store) → SharedPartResultsMove w g memory }
{}
