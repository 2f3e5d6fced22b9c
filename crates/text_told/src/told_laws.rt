//! A law of runs by two layouts.

ghost use Rattle.std.specs.Prelude.{◌≡◌, ℕ, false};
ghost use Rattle.cxx_hierarchy.specs.Classes.{Classes};
ghost use Rattle.cxx_program.specs.declared.program.TypedProgram.{TypedProgram};
ghost use Rattle.abi_sound.specs.Places.{Places};
ghost use Rattle.text_told.specs.OutTexts.{printed};
ghost use Rattle.text_told.specs.Told.{told};
ghost use Rattle.text_told.specs.ToldLaws.{KeepsHeapRoom, PrintsNoPlace};

/// A run by two layouts has one text and one end, where neither fills the heap and all that is printed are numbers and names of types.
///
/// What both runs tell is one list whatever is printed, by the law `sizes_decide_the_heap_alone` of path_model: layouts decide
/// places and bytes alone, and here none is printed.
pub fn layouts_tell_one_text()
    ensures { (h : Classes) (one other : Places) (program : TypedProgram) (steps : ℕ) → KeepsHeapRoom h one program steps → KeepsHeapRoom h other program steps → PrintsNoPlace h one program steps → told h one program false steps ≡ told h other program false steps }
{}
