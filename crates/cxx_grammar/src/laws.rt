//! Laws: a list of tokens is read to one end, and each that a text gives is.

ghost use Rattle.std.specs.Prelude.{◌≡◌, ◌⊎◌, List};
ghost use Rattle.cxx_hierarchy.specs.declared.stop.Stop.{Stop};
ghost use Rattle.cxx_grammar.specs.declared.sort.Lexeme.{Lexeme};
ghost use Rattle.cxx_grammar.specs.declared.sort.Sort.{Sort};
ghost use Rattle.cxx_grammar.specs.Grammar.{In, Symbol, block_form, source_form};
ghost use Rattle.cxx_grammar.specs.Event.{State, sorts, Event, DerivesPrefix};

/// A list has one first event at most, and none where a source or a block stands at its front.
#[tactic(auto, using(crate::proofs::OneEvent::event_same, crate::proofs::OneEvent::no_source_event, crate::proofs::OneEvent::no_block_event))]
pub fn one_event()
    ensures once { (form : List Symbol) (s : State) (ts : List Lexeme) (d e : Stop) → Event form s ts d → Event form s ts e → d ≡ e }
    ensures source { (s : State) (ts rest : List Lexeme) (e : Stop) → DerivesPrefix source_form s ts rest → Event source_form s ts e → ⊥ }
    ensures block { (s : State) (ts rest : List Lexeme) (e : Stop) → DerivesPrefix block_form s ts rest → Event block_form s ts e → ⊥ }
{}

/// A list that ends where no token stands begins with a source or has a first event, and so with a block.
pub fn some_event()
    ensures source { (s : State) (ts : List Lexeme) → In Sort.Bad (sorts ts) → ((rest : List Lexeme) × DerivesPrefix source_form s ts rest) ⊎ ((e : Stop) × Event source_form s ts e) }
    ensures block { (s : State) (ts : List Lexeme) → In Sort.Bad (sorts ts) → ((rest : List Lexeme) × DerivesPrefix block_form s ts rest) ⊎ ((e : Stop) × Event block_form s ts e) }
{}
