//! Variables outside the classes.

ghost use Rattle.std.specs.Prelude.{◌≡◌, ◌≤◌, ◌∷◌, ◌++◌, [], List, true, length, IfOk};
ghost use Rattle.cxx_hierarchy.specs.declared.stop.Stop.{Stop};
ghost use Rattle.cxx_grammar.specs.declared.sort.Lexeme.{Lexeme};
ghost use Rattle.cxx_grammar.specs.declared.sort.Sort.{Sort};
ghost use Rattle.cxx_grammar.specs.Event.{State};
ghost use Rattle.cxx_grammar.specs.invariants.Run.{Follows};
ghost use Rattle.cxx_grammar.specs.Table.{Only, AName};
ghost use Rattle.cxx_syntax.specs.Statements.{IsFirst, ValueReads};
ghost use Rattle.cxx_syntax.specs.Sources.{ItemReads, is_no_main};
ghost use Rattle.cxx_record_parser.specs.invariants.Readers.{begins_value, value_rest};

use crate::value::value;
use cxx_grammar::{Lexeme, Sort, name_of, take, take_name};
use cxx_hierarchy::{Name, Stop, ValueType};
use cxx_syntax::{Item, source_text};
use std::alloc::Global;

/// Reads `name ";"` after the value of a variable.
///
/// Errors: E1, E21 or E2 at the first token that fits no form, or want of memory.
pub fn global<'a>(
    alloc: Global,
    text: &[u8],
    first: Lexeme,
    ty: ValueType<Name>,
    rest: &'a [Lexeme],
) -> Result<(Item, &'a [Lexeme]), Stop>
    ensures reads { IfOk result (λ x. (ts : List Lexeme) → IsFirst first ts → ValueReads text.now ty ts rest.now → ItemReads text.now x.0 ts x.1.now) }
    ensures variable { IfOk result (λ x. is_no_main x.0 ≡ true) }
    ensures shorter { IfOk result (λ x. length x.1.now ≤ length rest.now) }
    ensures follows { (s : State) → Follows (λ x. x.1.now) s (AName ∷ Only Sort.Semicolon ∷ []) rest.now s [] result }
{
    let (word, rest) = take_name(rest)?;
    let (_end, rest) = take(rest, Sort::Semicolon)?;
    let name = name_of(alloc, text, &word)?;
    let variable = source_text::Global {
        name,
        ty,
        ty_at: first.at,
        at: word.at,
    };
    Ok((Item::Global(variable), rest))
}

/// Reads a variable, the first token of which was read.
///
/// Errors: E1, E21 or E2 at the first token that fits no form, or want of memory.
pub fn value_item<'a>(
    alloc: Global,
    text: &[u8],
    first: Lexeme,
    rest: &'a [Lexeme],
) -> Result<(Item, &'a [Lexeme]), Stop>
    requires { begins_value first.sort ≡ true }
    ensures reads { IfOk result (λ x. ItemReads text.now x.0 (first ∷ rest.now) x.1.now) }
    ensures variable { IfOk result (λ x. is_no_main x.0 ≡ true) }
    ensures shorter { IfOk result (λ x. length x.1.now ≤ length rest.now) }
    ensures follows { (s : State) → Follows (λ x. x.1.now) s (value_rest first.sort ++ (Only Sort.Semicolon ∷ [])) rest.now s [] result }
{
    let (ty, rest) = value(alloc, text, first, rest)?;
    let (item, rest) = global(alloc, text, first, ty, rest)?;
    Ok((item, rest))
}
