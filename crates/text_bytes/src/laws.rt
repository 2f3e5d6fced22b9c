//! What the byte machine tells has the text of what a run tells.

ghost use Rattle.agree_relation.specs.Worlds.{World, IsProgramWorld};
ghost use Rattle.text_bytes.specs.TextLaws.{RawOutsHaveOneText, ShownOutsHaveOneText, RawOutsHaveTexts};

/// Where memory, heap objects and notes stand for the objects of a state, and what the machine tells reads as what a run tells of
/// that state, both have one text: of each thing that is told (`one`), and of what is shown with a trace or without (`shown`). What
/// the machine tells has a text then (`there`).
pub fn raw_texts_are_texts()
    ensures one { (w : World) (world : IsProgramWorld w) → RawOutsHaveOneText w world }
    ensures shown { (w : World) (world : IsProgramWorld w) → ShownOutsHaveOneText w world }
    ensures there { (w : World) (world : IsProgramWorld w) → RawOutsHaveTexts w world }
{}
