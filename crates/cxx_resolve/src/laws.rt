//! Laws of what a source resolves to, for the layers above. Each does nothing.

ghost use Rattle.std.specs.Prelude.{◌≡◌, ◌≤◌, ℕ, List, Err, length};
ghost use Rattle.cxx_grammar.specs.declared.sort.Lexeme.{Lexeme};
ghost use Rattle.cxx_hierarchy.specs.declared.stop.Stop.TheVariants.{NoMemory};
ghost use Rattle.cxx_hierarchy.specs.Classes.{Classes};
ghost use Rattle.cxx_syntax.specs.declared.source_text.SourceText.{SourceText};
ghost use Rattle.cxx_syntax.specs.SameSources.{SameSource};
ghost use Rattle.cxx_syntax.specs.Sources.{SourceReads};
ghost use Rattle.cxx_resolve.specs.Programs.{program_of, HasFewStatements};
ghost use Rattle.cxx_resolve.specs.Results.{ResultsAreTaken};

use cxx_expression::results_are_asked;

/// Sources that say the same resolve to one answer.
pub fn one_program()
    ensures { (h : Classes) (a b : SourceText) → SameSource a b → program_of h a ≡ program_of h b }
{}

/// Each source resolves to a program, or to a refusal or a limit: the rules leave no other case.
pub fn some_program()
    ensures { (h : Classes) (source : SourceText) → program_of h source ≡ Err NoMemory → ⊥ }
{}

/// Each body of a source that tokens spell has fewer statements than there are tokens.
pub fn statements_are_few()
    ensures { (text : List ℕ) (s : SourceText) (ts rest : List Lexeme) (n : ℕ) → SourceReads text s ts rest → length ts ≤ n → HasFewStatements n s }
{}

/// The faults of a statement that takes the result of a call include those of the result, where the function is found: E19 for
/// a void one, and those of its conversion.
#[tactic(auto, using(crate::proofs::Results::results_are_taken))]
pub fn results_are_taken()
    ensures { ResultsAreTaken }
{
    results_are_asked();
}
