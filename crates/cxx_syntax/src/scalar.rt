//! Scalars.

ghost use Rattle.std.specs.Prelude.{◌≡◌, ◌≤◌, ◌<◌, ◌-◌, ◌+◌, ◌∷◌, [], List, Bool, true, false, length, IfOk, IfErr};
ghost use Rattle.cxx_hierarchy.specs.declared.stop.Stop.{Stop};
ghost use Rattle.cxx_grammar.specs.declared.sort.Lexeme.{Lexeme};
ghost use Rattle.cxx_grammar.specs.declared.sort.Sort.{Sort};
ghost use Rattle.cxx_grammar.specs.Event.{State};
ghost use Rattle.cxx_grammar.specs.invariants.Run.{Follows};
ghost use Rattle.cxx_grammar.specs.Table.{AName, UnsignedName, LongName, scalar_rest, is_scalar_word};
ghost use Rattle.cxx_syntax.specs.Statements.{ScalarReads};

use cxx_grammar::{Lexeme, Sort, is_same, next, take};
use cxx_hierarchy::{Scalar, Stop};

/// Whether a word begins a scalar.
pub fn is_scalar_word(sort: Sort) -> bool
    ensures { result ≡ is_scalar_word sort }
{
    match sort {
        Sort::Boolean
        | Sort::Char
        | Sort::Short
        | Sort::Int
        | Sort::Long
        | Sort::Signed
        | Sort::Unsigned => true,
        _ => false,
    }
}

// ["long"] after "long"
#[tactic(auto, using(cxx_grammar::proofs::Tails::only_long))]
fn long(first: Lexeme, rest: &[Lexeme]) -> Result<(Scalar, &[Lexeme]), Stop>
    requires { first.sort ≡ Sort.Long }
    ensures reads { IfOk result (λ x. ScalarReads x.0 (first ∷ rest.now) x.1.now) }
    ensures shorter { IfOk result (λ x. length x.1.now ≤ length rest.now) }
    ensures follows { (s : State) → Follows (λ x. x.1.now) s (LongName ∷ []) rest.now s (AName ∷ []) result }
{
    let (word, after) = next(rest)?;
    if is_same(word.sort, Sort::Long) {
        return Ok((Scalar::LongLong, after));
    }
    Ok((Scalar::Long, rest))
}

// ["long"] after "unsigned" "long"
#[tactic(auto, using(cxx_grammar::proofs::Tails::only_long))]
fn unsigned_long(
    first: Lexeme,
    second: Lexeme,
    rest: &[Lexeme],
) -> Result<(Scalar, &[Lexeme]), Stop>
    requires first { first.sort ≡ Sort.Unsigned }
    requires second { second.sort ≡ Sort.Long }
    ensures reads { IfOk result (λ x. ScalarReads x.0 (first ∷ second ∷ rest.now) x.1.now) }
    ensures shorter { IfOk result (λ x. length x.1.now ≤ length rest.now) }
    ensures follows { (s : State) → Follows (λ x. x.1.now) s (LongName ∷ []) rest.now s (AName ∷ []) result }
{
    let (word, after) = next(rest)?;
    if is_same(word.sort, Sort::Long) {
        return Ok((Scalar::ULongLong, after));
    }
    Ok((Scalar::ULong, rest))
}

// The rest of a scalar after "unsigned".
fn unsigned(first: Lexeme, rest: &[Lexeme]) -> Result<(Scalar, &[Lexeme]), Stop>
    requires { first.sort ≡ Sort.Unsigned }
    ensures reads { IfOk result (λ x. ScalarReads x.0 (first ∷ rest.now) x.1.now) }
    ensures shorter { IfOk result (λ x. length x.1.now ≤ length rest.now) }
    ensures follows { (s : State) → Follows (λ x. x.1.now) s (UnsignedName ∷ []) rest.now s (AName ∷ []) result }
{
    let (word, after) = next(rest)?;
    match word.sort {
        Sort::Char => Ok((Scalar::UChar, after)),
        Sort::Short => Ok((Scalar::UShort, after)),
        Sort::Int => Ok((Scalar::UInt, after)),
        Sort::Long => unsigned_long(first, word, after),
        _ => Ok((Scalar::UInt, rest)),
    }
}

/// A scalar, the first word of which was read.
pub fn scalar(first: Lexeme, rest: &[Lexeme]) -> Result<(Scalar, &[Lexeme]), Stop>
    requires { is_scalar_word first.sort ≡ true }
    ensures reads { IfOk result (λ x. ScalarReads x.0 (first ∷ rest.now) x.1.now) }
    ensures shorter { IfOk result (λ x. length x.1.now ≤ length rest.now) }
    ensures follows { (s : State) → Follows (λ x. x.1.now) s (scalar_rest first.sort) rest.now s (AName ∷ []) result }
{
    match first.sort {
        Sort::Boolean => Ok((Scalar::Bool, rest)),
        Sort::Char => Ok((Scalar::Char, rest)),
        Sort::Short => Ok((Scalar::Short, rest)),
        Sort::Int => Ok((Scalar::Int, rest)),
        Sort::Signed => {
            let (_char, after) = take(rest, Sort::Char)?;
            Ok((Scalar::SChar, after))
        }
        Sort::Unsigned => unsigned(first, rest),
        _ => long(first, rest),
    }
}
