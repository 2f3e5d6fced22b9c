//! The law of notes: they can only make the machine refuse.

ghost use Rattle.std.specs.Prelude.{ℕ, List};
ghost use Rattle.byte_code.specs.declared.code.Code.{Code};
ghost use Rattle.byte_machine.specs.declared.turn.MachineTurn.{MachineTurn};
ghost use Rattle.byte_machine.specs.declared.turn.RawOut.{RawOut};
ghost use Rattle.byte_machine.specs.Running.{Fixed};
ghost use Rattle.byte_machine.specs.Turn.{ByteState, Turns};
ghost use Rattle.byte_laws.specs.Notes.{IsSameButNotes, ArePlacedAlike, AgreeUnlessRefused, TurnAll, ComeTo};

/// Two states differ in their notes alone, and what `new` makes lies at the same places. Where no check refuses their turns, the
/// states behind differ in notes alone, and both turns tell and answer the same (`turn`).
///
/// So many turns come to the same but for notes, or a check refuses in one of both, and that one told a front of what the other
/// told (`turns`).
pub fn notes_only_refuse()
    ensures turn { (f : Fixed) (code : Code) (b c b' c' : ByteState) (outs told told' : List RawOut) (turn turn' : MachineTurn) → IsSameButNotes b c → Turns f code b outs b' told turn → Turns f code c outs c' told' turn' → ArePlacedAlike b' c' →
        AgreeUnlessRefused b' c' told told' turn turn' }
    ensures turns { (f : Fixed) (code : Code) (n : ℕ) (b c b' c' : ByteState) (outs told told' : List RawOut) → IsSameButNotes b c → TurnAll f code n b outs b' told → TurnAll f code n c outs c' told' → ArePlacedAlike b' c' →
        ComeTo b' c' told told' }
{}
