//! The law of dumps: what a run tells is what is read back.

ghost use Rattle.std.specs.Prelude.{◌≡◌, ◌<◌, ◌≤◌, ℕ, Some, List, length, slice_get};
ghost use Rattle.cxx_hierarchy.specs.declared.records.ClassId.{ClassId};
ghost use Rattle.cxx_hierarchy.specs.Classes.{Classes};
ghost use Rattle.cxx_hierarchy.specs.Hierarchies.{IsHierarchy};
ghost use Rattle.cxx_program.specs.declared.program.TypedProgram.{TypedProgram};
ghost use Rattle.path_model.specs.declared.outs.DumpLeaf.{DumpLeaf};
ghost use Rattle.path_model.specs.declared.outs.Out.TheVariants.{Dump};
ghost use Rattle.path_model.specs.Values.{Objects};
ghost use Rattle.path_model.specs.Effects.{object_out};
ghost use Rattle.abi_sound.specs.declared.class_layout.ClassLayout.{ClassLayout};
ghost use Rattle.abi_sound.specs.Places.{Places};
ghost use Rattle.text_told.specs.OutTexts.{out_text};
ghost use Rattle.abi_inspect.specs.SeenTexts.{IsFitting, dump_of_seen};
ghost use Rattle.abi_inspect.specs.Values.{most_dumped_number};
ghost use Rattle.agree_dumps.specs.SeenDumps.{ValuesFit, seen_of};
ghost use Rattle.agree_dumps.specs.DumpLaws.{RunsTellDumps};

/// What a state tells as the dump of a heap object has the text of the values that it shows, where each value fits its leaf (`text`), over
/// any places. They fit the lines of the class, where the number of the object is one that a dump can name (`fitting`).
///
/// What a run of an accepted program tells as a dump, by the places of a sound layout, is the dump of what it shows, with no further
/// premise (`runs`): what it stores fits, a place lies in its object, and the heap has fewer objects than a dump can number.
pub fn dumps_have_one_text()
    ensures text { (h : Classes) (l : Places) (s : Objects) (k n : ℕ) (c : ClassId) (leaves : List DumpLeaf) → IsHierarchy h → object_out h s k (slice_get s.classes k) ≡ Some (Dump n c leaves) → ValuesFit h l leaves →
        out_text h l (Dump n c leaves) ≡ dump_of_seen h l (seen_of h l n c leaves) }
    ensures fitting { (h : Classes) (l : Places) (s : Objects) (k n : ℕ) (c : ClassId) (leaves : List DumpLeaf) → IsHierarchy h → object_out h s k (slice_get s.classes k) ≡ Some (Dump n c leaves) → ValuesFit h l leaves → c.0 < length h → n ≤ most_dumped_number →
        IsFitting h l (seen_of h l n c leaves) }
    ensures runs { (h : Classes) (rows : List ClassLayout) (program : TypedProgram) → RunsTellDumps h rows program }
{}
