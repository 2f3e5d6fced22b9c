//! Laws: a list of tokens is that of one body, and of one source, at most.

ghost use Rattle.std.specs.Prelude.{◌≡◌, List, ℕ};
ghost use Rattle.cxx_grammar.specs.declared.sort.Lexeme.{Lexeme};
ghost use Rattle.cxx_syntax.specs.declared.tree.BodyTree.{BodyTree};
ghost use Rattle.cxx_syntax.specs.SameTrees.{SameBody};
ghost use Rattle.cxx_syntax.specs.declared.source_text.SourceText.{SourceText};
ghost use Rattle.cxx_syntax.specs.Sources.{SourceReads};
ghost use Rattle.cxx_syntax.specs.SameSources.{SameSource};
ghost use Rattle.cxx_syntax.specs.Statements.{BodyReads};

/// The tokens at the front of a list are those of one body at most, and that body says one thing.
#[tactic(auto, using(crate::proofs::SameStatements::body_same))]
pub fn one_body()
    ensures { (text : List ℕ) (a b : BodyTree) (ts r s : List Lexeme) → BodyReads text a ts r → BodyReads text b ts s → SameBody a b × (r ≡ s) }
{}

/// The tokens at the front of a list are those of one source at most, and that source says one thing.
#[tactic(auto)]
pub fn one_source_text()
    ensures { (text : List ℕ) (s t : SourceText) (ts a b : List Lexeme) → SourceReads text s ts a → SourceReads text t ts b → SameSource s t × (a ≡ b) }
{}
