//! Laws: the tokens of a text are those of a source, or they have a first event; and what a source says of its bodies and names.

ghost use Rattle.std.specs.Prelude.{◌≡◌, ◌≤◌, List, Option, Some, ℕ, length, slice_get};
ghost use Rattle.cxx_text.specs.declared.token.Token.{Token};
ghost use Rattle.cxx_text.specs.declared.token.Kind.TheVariants.{Word};
ghost use Rattle.cxx_text.specs.OneToken.{IsToken};
ghost use Rattle.cxx_text.specs.Cover.{AreTokens};
ghost use Rattle.cxx_grammar.specs.declared.sort.Lexeme.{Lexeme};
ghost use Rattle.cxx_grammar.specs.Lexemes.{lexemes, source_start};
ghost use Rattle.cxx_hierarchy.specs.declared.records.ClassRec.{ClassRec};
ghost use Rattle.cxx_syntax.specs.declared.source_text.SourceText.{SourceText};
ghost use Rattle.cxx_syntax.specs.Parts.{Spelled};
ghost use Rattle.cxx_syntax.specs.Sources.{SourceReads, ReadsOrStops};
ghost use Rattle.cxx_syntax.specs.Owners.{AreBodiesOf};
ghost use Rattle.foundation.specs.Limits.{source_limit};

/// The tokens of a text of at most 262,144 bytes are those of a source, or they have a first event.
pub fn some_source_text()
    ensures { (text : List ℕ) (ts : List Token) (bad : Option ℕ) → length text ≤ source_limit → AreTokens text ts bad → ReadsOrStops text (lexemes text source_start ts bad) }
{}

/// The bodies of a source are those of its records: record by record, one for each function that is not pure, each
/// constructor and each destructor, in the order of declaration. Only constructors have initializers.
pub fn bodies_of_records()
    ensures { (text : List ℕ) (s : SourceText) (ts rest : List Lexeme) → SourceReads text s ts rest → AreBodiesOf s.records s.bodies }
{}

/// The name of each class of a source is a word (ISO C++03 2.10).
pub fn classes_have_words()
    ensures { (text : List ℕ) (s : SourceText) (ts : List Token) (bad : Option ℕ) (rest : List Lexeme) → AreTokens text ts bad → SourceReads text s (lexemes text source_start ts bad) rest →
        (n : ℕ) (r : ClassRec Spelled) → slice_get s.records n ≡ Some r → IsToken r.name Word 0 }
{}
