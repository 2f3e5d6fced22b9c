//! Values, parameters and the length of an array.

ghost use Rattle.std.specs.Prelude.{◌≡◌, ◌≤◌, ◌∷◌, [], List, Bool, true, false, length, min, IfOk, IfErr};
ghost use Rattle.cxx_hierarchy.specs.declared.stop.Stop.{Stop};
ghost use Rattle.cxx_grammar.specs.declared.sort.Lexeme.{Lexeme};
ghost use Rattle.cxx_grammar.specs.declared.sort.Sort.{Sort};
ghost use Rattle.cxx_grammar.specs.Event.{State};
ghost use Rattle.cxx_grammar.specs.invariants.Run.{Follows};
ghost use Rattle.cxx_grammar.specs.Table.{Only, AName, AParam, ParamsEnd, FieldEnd};
ghost use Rattle.cxx_syntax.specs.Statements.{ValueReads};
ghost use Rattle.cxx_syntax.specs.Parts.{max_count, CountReads, ParamReads, ParamsRead};
ghost use Rattle.cxx_record_parser.specs.invariants.Readers.{begins_value, value_rest};

use cxx_grammar::{
    Lexeme, Sort, is_name, is_same, name_of, next, refusal, take, take_name, take_number,
};
use cxx_hierarchy::{Name, Param, ParamList, Stop, ValueType};
use cxx_syntax::is_scalar_word;
use cxx_syntax::scalar::scalar;
use foundation::Sequence;
use std::alloc::Global;

/// Whether a token begins a value.
pub fn begins_value(sort: Sort) -> bool
    ensures { result ≡ begins_value sort }
{
    match sort {
        Sort::Name | Sort::OwnName => true,
        _ => is_scalar_word(sort),
    }
}

/// Reads a value, the first token of which was read: a scalar, or a class and `*`.
///
/// Errors: E1, E21 or E2 at the first token that fits no form, or want of memory.
pub fn value<'a>(
    alloc: Global,
    text: &[u8],
    first: Lexeme,
    rest: &'a [Lexeme],
) -> Result<(ValueType<Name>, &'a [Lexeme]), Stop>
    requires { begins_value first.sort ≡ true }
    ensures reads { IfOk result (λ x. ValueReads text.now x.0 (first ∷ rest.now) x.1.now) }
    ensures shorter { IfOk result (λ x. length x.1.now ≤ length rest.now) }
    ensures follows { (s : State) → Follows (λ x. x.1.now) s (value_rest first.sort) rest.now s (AName ∷ []) result }
{
    if is_name(first.sort) {
        let (_star, after) = take(rest, Sort::Star)?;
        let class = name_of(alloc, text, &first)?;
        return Ok((ValueType::Pointer(class), after));
    }
    let (number, after) = scalar(first, rest)?;
    Ok((ValueType::Number(number), after))
}

// param
fn param<'a>(
    alloc: Global,
    text: &[u8],
    rest: &'a [Lexeme],
) -> Result<(Param<Name>, &'a [Lexeme]), Stop>
    ensures reads { IfOk result (λ x. ParamReads text.now x.0 rest.now x.1.now) }
    ensures shorter { IfOk result (λ x. length x.1.now ≤ length rest.now) }
    ensures follows { (s : State) → Follows (λ x. x.1.now) s (AParam ∷ []) rest.now s [] result }
{
    let (first, after) = next(rest)?;
    if !begins_value(first.sort) {
        return Err(refusal(&first));
    }
    let (ty, after) = value(alloc, text, first, after)?;
    let (word, after) = take_name(after)?;
    let name = name_of(alloc, text, &word)?;
    Ok((
        Param {
            name,
            ty,
            ty_at: first.at,
            at: word.at,
        },
        after,
    ))
}

/// Reads `[param {"," param}] ")"`; the answer has the `)` too.
///
/// Errors: E1, E21 or E2 at the first token that fits no form, or want of memory.
pub fn params<'a>(
    alloc: Global,
    text: &[u8],
    rest: &'a [Lexeme],
) -> Result<(ParamList<Name>, Lexeme, &'a [Lexeme]), Stop>
    ensures reads { IfOk result (λ x. ParamsRead text.now x.0 rest.now (x.1 ∷ x.2.now)) }
    ensures close { IfOk result (λ x. x.1.sort ≡ Sort.CloseParen) }
    ensures shorter { IfOk result (λ x. length x.2.now ≤ length rest.now) }
    ensures follows { (s : State) → Follows (λ x. x.2.now) s (ParamsEnd ∷ []) rest.now s [] result }
{
    let mut items = Sequence::new(alloc);
    let (first, after) = next(rest)?;
    if is_same(first.sort, Sort::CloseParen) {
        return Ok((items, first, after));
    }
    let (item, after) = param(alloc, text, rest)?;
    items.push(item)?;
    let mut left = after;
    loop {
        let (sign, after) = next(left)?;
        if is_same(sign.sort, Sort::CloseParen) {
            return Ok((items, sign, after));
        }
        if !is_same(sign.sort, Sort::Comma) {
            return Err(refusal(&sign));
        }
        let (item, after) = param(alloc, text, after)?;
        items.push(item)?;
        left = after;
    }
}

/// A length or a width as a record holds it, which is 4,294,967,295 at most.
pub(crate) fn held(value: u64) -> u32
    ensures { result ≡ min value max_count }
{
    value.min(4294967295) as u32
}

/// Reads `["[" number "]"]` before `;`: the length of an array, in elements.
///
/// Errors: E1, E21 or E2 at the first token that fits no form.
pub fn count(rest: &[Lexeme]) -> Result<(Option<u32>, &[Lexeme]), Stop>
    ensures reads { IfOk result (λ x. CountReads x.0 rest.now x.1.now) }
    ensures shorter { IfOk result (λ x. length x.1.now ≤ length rest.now) }
    ensures follows { (s : State) → Follows (λ x. x.1.now) s (FieldEnd ∷ []) rest.now s (Only Sort.Semicolon ∷ []) result }
{
    let (sign, after) = next(rest)?;
    if is_same(sign.sort, Sort::OpenBracket) {
        let (number, after) = take_number(after)?;
        let (_close, after) = take(after, Sort::CloseBracket)?;
        return Ok((Some(held(number.value)), after));
    }
    Ok((None, rest))
}
