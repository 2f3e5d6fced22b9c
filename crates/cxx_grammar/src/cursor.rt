//! The front of a list of lexemes.

ghost use Rattle.std.specs.Prelude.{◌≡◌, ◌∷◌, [], IfOk, IfErr};
ghost use Rattle.cxx_hierarchy.specs.declared.stop.Stop.{Stop};
ghost use Rattle.cxx_hierarchy.specs.declared.stop.Rule.{Rule};
ghost use Rattle.cxx_grammar.specs.Event.{State, refusal};
ghost use Rattle.cxx_grammar.specs.Front.{Is, IsName, IsNumber};
ghost use Rattle.cxx_grammar.specs.Lexemes.{bytes_of};
ghost use Rattle.cxx_grammar.specs.invariants.Run.{Follows};
ghost use Rattle.cxx_grammar.specs.Table.{Only, AName, ANumber};

use crate::lexing::bytes_between;
use crate::sort::{Lexeme, Sort, is_same};
use cxx_hierarchy::{Name, Rule, Stop};
use std::alloc::Global;

/// What a lexeme is refused for that continues no reading.
pub fn refusal(lexeme: &Lexeme) -> Stop
    ensures { result ≡ refusal lexeme.now }
{
    let rule = match lexeme.sort {
        Sort::Bad => Rule::Lex,
        Sort::LeftOut => Rule::LeftOut,
        _ => Rule::Syntax,
    };
    Stop::Refused(rule, lexeme.at)
}

/// The first lexeme, and what follows it. The list of a text ends with a lexeme that no reader takes.
pub fn next(rest: &[Lexeme]) -> Result<(Lexeme, &[Lexeme]), Stop>
    ensures ok { IfOk result (λ x. rest.now ≡ x.0 ∷ x.1.now) }
    ensures err { IfErr result (λ e. (rest.now ≡ []) × (e ≡ Stop.Refused Rule.Syntax 0)) }
{
    match rest {
        [] => Err(Stop::Refused(Rule::Syntax, 0)),
        [first, after @ ..] => Ok((*first, after)),
    }
}

/// The first lexeme, of a given sort, and what follows it.
pub fn take(rest: &[Lexeme], sort: Sort) -> Result<(Lexeme, &[Lexeme]), Stop>
    ensures reads { IfOk result (λ x. Is sort x.0 rest.now x.1.now) }
    ensures follows { (s : State) → Follows (λ x. x.1.now) s (Only sort ∷ []) rest.now s [] result }
{
    let (first, after) = next(rest)?;
    if is_same(first.sort, sort) {
        Ok((first, after))
    } else {
        Err(refusal(&first))
    }
}

/// The first lexeme, a name, and what follows it.
pub fn take_name(rest: &[Lexeme]) -> Result<(Lexeme, &[Lexeme]), Stop>
    ensures reads { IfOk result (λ x. IsName x.0 rest.now x.1.now) }
    ensures follows { (s : State) → Follows (λ x. x.1.now) s (AName ∷ []) rest.now s [] result }
{
    let (first, after) = next(rest)?;
    match first.sort {
        Sort::Name | Sort::OwnName => Ok((first, after)),
        _ => Err(refusal(&first)),
    }
}

/// The first lexeme, a number, and what follows it.
pub fn take_number(rest: &[Lexeme]) -> Result<(Lexeme, &[Lexeme]), Stop>
    ensures reads { IfOk result (λ x. IsNumber x.0 rest.now x.1.now) }
    ensures follows { (s : State) → Follows (λ x. x.1.now) s (ANumber ∷ []) rest.now s [] result }
{
    let (first, after) = next(rest)?;
    match first.sort {
        Sort::Number | Sort::Zero => Ok((first, after)),
        _ => Err(refusal(&first)),
    }
}

/// The name that a lexeme spells. The error is want of memory.
pub fn name_of(alloc: Global, text: &[u8], lexeme: &Lexeme) -> Result<Name, Stop>
    ensures ok { IfOk result (λ n. n ≡ bytes_of text.now lexeme.now) }
    ensures err { IfErr result (λ e. e ≡ Stop.NoMemory) }
{
    let bytes = Vec::from_slice(alloc, bytes_between(text, lexeme.at, lexeme.end))?;
    Ok(Name::from_vec(bytes))
}
