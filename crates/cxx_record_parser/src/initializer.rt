//! The initializers of a constructor.

ghost use Rattle.std.specs.Prelude.{◌≤◌, ◌∷◌, [], length, IfOk};
ghost use Rattle.cxx_hierarchy.specs.declared.stop.Stop.{Stop};
ghost use Rattle.cxx_grammar.specs.declared.sort.Lexeme.{Lexeme};
ghost use Rattle.cxx_grammar.specs.declared.sort.Sort.{Sort};
ghost use Rattle.cxx_grammar.specs.Event.{State};
ghost use Rattle.cxx_grammar.specs.invariants.Run.{Follows};
ghost use Rattle.cxx_grammar.specs.Table.{ABlock, AnInit, ConstructorEnd};
ghost use Rattle.cxx_syntax.specs.Parts.{InitReads, InitsRead};

use cxx_grammar::{Lexeme, Sort, is_same, next, take, take_name};
use cxx_hierarchy::Stop;
use cxx_syntax::{Init, InitList, constant, spot};
use std::alloc::Global;

// init
fn init<'a>(alloc: Global, text: &[u8], rest: &'a [Lexeme]) -> Result<(Init, &'a [Lexeme]), Stop>
    ensures reads { IfOk result (λ x. InitReads text.now x.0 rest.now x.1.now) }
    ensures shorter { IfOk result (λ x. length x.1.now ≤ length rest.now) }
    ensures follows { (s : State) → Follows (λ x. x.1.now) s (AnInit ∷ []) rest.now s [] result }
{
    let (word, rest) = take_name(rest)?;
    let (_open, rest) = take(rest, Sort::OpenParen)?;
    let (value, rest) = constant(rest)?;
    let (_close, rest) = take(rest, Sort::CloseParen)?;
    let name = spot(alloc, text, &word)?;
    Ok((Init { name, value }, rest))
}

/// Reads `[":" init {"," init}]` before a block (ISO C++03 12.6.2).
///
/// Errors: E1, E21 or E2 at the first token that fits no form, or want of memory.
pub fn inits<'a>(
    alloc: Global,
    text: &[u8],
    rest: &'a [Lexeme],
) -> Result<(InitList, &'a [Lexeme]), Stop>
    ensures reads { IfOk result (λ x. InitsRead text.now x.0 rest.now x.1.now) }
    ensures shorter { IfOk result (λ x. length x.1.now ≤ length rest.now) }
    ensures follows { (s : State) → Follows (λ x. x.1.now) s (ConstructorEnd ∷ []) rest.now s (ABlock ∷ []) result }
{
    let mut items = InitList::new(alloc);
    let (sign, after) = next(rest)?;
    if !is_same(sign.sort, Sort::Colon) {
        return Ok((items, rest));
    }
    let (item, after) = init(alloc, text, after)?;
    items.push(item)?;
    let mut left = after;
    loop {
        let (sign, after) = next(left)?;
        if !is_same(sign.sort, Sort::Comma) {
            return Ok((items, left));
        }
        let (item, after) = init(alloc, text, after)?;
        items.push(item)?;
        left = after;
    }
}
