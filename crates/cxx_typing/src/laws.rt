//! Laws of what a source resolves to. Each does nothing.

ghost use Rattle.std.specs.Prelude.{◌≡◌, List, Ok, ℕ};
ghost use Rattle.cxx_grammar.specs.declared.sort.Lexeme.{Lexeme};
ghost use Rattle.cxx_hierarchy.specs.Classes.{Classes};
ghost use Rattle.cxx_hierarchy.specs.Hierarchies.{IsHierarchy};
ghost use Rattle.cxx_hierarchy.specs.Resolved.{resolved};
ghost use Rattle.cxx_syntax.specs.declared.source_text.SourceText.{SourceText};
ghost use Rattle.cxx_syntax.specs.Sources.{SourceReads};
ghost use Rattle.cxx_program.specs.declared.program.TypedProgram.{TypedProgram};
ghost use Rattle.cxx_program.specs.Typed.{IsTypedProgram};
ghost use Rattle.cxx_resolve.specs.Programs.{program_of};
ghost use Rattle.cxx_typing.specs.Scopes.{PureAreVirtual};
ghost use Rattle.cxx_typing.specs.Pieces.{StatementsAreTyped};
ghost use Rattle.cxx_typing.specs.Sources.{IsSourceOf};

use cxx_expression::answered;

/// Each statement that resolves without a fault is typed: the plain ones, declarations, and conditions.
pub fn statements_are_typed()
    ensures { StatementsAreTyped }
{
    answered();
}

/// A source that resolves without a fault gives a typed program, where its classes are those of its records, its pure
/// functions are virtual, and its bodies are those of its records.
pub fn programs_are_typed()
    ensures { (h : Classes) (source : SourceText) (program : TypedProgram) → IsSourceOf h source → program_of h source ≡ Ok program → IsTypedProgram h program }
{
    statements_are_typed();
}

/// In a source that tokens spell, each pure function is virtual (ISO C++03 10.4 p2).
pub fn pure_functions_are_virtual()
    ensures { (text : List ℕ) (source : SourceText) (all rest : List Lexeme) → SourceReads text source all rest → IsHierarchy (resolved source.records) → PureAreVirtual (resolved source.records) }
{}
