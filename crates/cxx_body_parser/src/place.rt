//! Places, and calls of member functions.

ghost use Rattle.std.specs.Prelude.{◌≡◌, ◌≤◌, ◌∷◌, [], List, true, false, length, IfOk, IfErr};
ghost use Rattle.cxx_hierarchy.specs.declared.stop.Stop.{Stop};
ghost use Rattle.cxx_grammar.specs.declared.sort.Lexeme.{Lexeme};
ghost use Rattle.cxx_grammar.specs.declared.sort.Sort.{Sort};
ghost use Rattle.cxx_grammar.specs.Front.{Is, IsName};
ghost use Rattle.cxx_grammar.specs.Event.{State};
ghost use Rattle.cxx_grammar.specs.invariants.Run.{Follows, FollowsBy};
ghost use Rattle.cxx_grammar.specs.Table.{Use, Read, AName, ArgumentsEnd, Named, Tail, Member, Only, APointer, is_pointer, end_tasks};
ghost use Rattle.cxx_syntax.specs.Operands.{PartReads, PartsRead, PlaceReads, CallReads, ArgumentsRead};
ghost use Rattle.cxx_body_parser.specs.invariants.Through.{ThroughReads, tasks_after};

use crate::texts::{Reading, Text};
use cxx_grammar::{Lexeme, Sort, is_same, next, refusal, take, take_name, take_number};
use cxx_hierarchy::Stop;
use cxx_syntax::operand::{operand, pointer, pointer_at};
use cxx_syntax::{CallText, OperandList, PlacePart, PlacePartList, PlaceText, spot};

/// What stands behind a pointer and `->`.
#[derive(Drop)]
pub(crate) enum Through {
    Place(PlaceText),
    Call(CallText),
}

// ["[" number "]"] after a name
#[tactic(auto, using(cxx_syntax::specs::Operands::a_part, cxx_syntax::specs::Operands::no_index, cxx_syntax::specs::Operands::an_index, cxx_grammar::proofs::Tails::no_index))]
fn part<'a>(text: &Text, name: &Lexeme, rest: &'a [Lexeme]) -> Reading<'a, PlacePart>
    ensures reads { IfOk result (λ x. (ts : List Lexeme) → IsName name.now ts rest.now → PartReads text.now.bytes.now x.0 ts x.1.now) }
    ensures shorter { IfOk result (λ x. length x.1.now ≤ length rest.now) }
    ensures follows { (s : State) (u : Use) → Follows (λ x. x.1.now) s (Named u ∷ []) rest.now s (Tail u ∷ []) result }
{
    let name = spot(text.alloc, text.bytes, name)?;
    let (sign, after) = next(rest)?;
    if is_same(sign.sort, Sort::OpenBracket) {
        let (number, after) = take_number(after)?;
        let (_close, after) = take(after, Sort::CloseBracket)?;
        Ok((
            PlacePart {
                name,
                index: Some((number.value, number.at)),
            },
            after,
        ))
    } else {
        Ok((PlacePart { name, index: None }, rest))
    }
}

// The parts of a place, the first name of which was read.
#[tactic(auto, using(cxx_grammar::proofs::Tails::place_ends))]
fn parts<'a>(text: &Text, name: &Lexeme, rest: &'a [Lexeme]) -> Reading<'a, PlacePartList>
    ensures reads { IfOk result (λ x. (ts : List Lexeme) → IsName name.now ts rest.now → PartsRead text.now.bytes.now x.0 ts x.1.now) }
    ensures shorter { IfOk result (λ x. length x.1.now ≤ length rest.now) }
    ensures follows { (s : State) (u : Use) → Follows (λ x. x.1.now) s (Named u ∷ []) rest.now s (end_tasks u) result }
{
    let (first, after) = part(text, name, rest)?;
    let mut items = PlacePartList::new(text.alloc);
    items.push(first)?;
    let mut left = after;
    loop {
        let (dot, after) = next(left)?;
        if !is_same(dot.sort, Sort::Dot) {
            return Ok((items, left));
        }
        let (name, after) = take_name(after)?;
        let (item, after) = part(text, &name, after)?;
        items.push(item)?;
        left = after;
    }
}

// [operand {"," operand}] ")"
fn arguments<'a>(
    text: &Text,
    rest: &'a [Lexeme],
) -> Result<(OperandList, Lexeme, &'a [Lexeme]), Stop>
    ensures reads { IfOk result (λ x. ArgumentsRead text.now.bytes.now x.0 rest.now (x.1 ∷ x.2.now)) }
    ensures close { IfOk result (λ x. x.1.sort ≡ Sort.CloseParen) }
    ensures shorter { IfOk result (λ x. length x.2.now ≤ length rest.now) }
    ensures follows { (s : State) → Follows (λ x. x.2.now) s (ArgumentsEnd ∷ []) rest.now s [] result }
{
    let mut items = OperandList::new(text.alloc);
    let (first, after) = next(rest)?;
    if is_same(first.sort, Sort::CloseParen) {
        return Ok((items, first, after));
    }
    let (item, after) = operand(text.alloc, text.bytes, rest)?;
    items.push(item)?;
    let mut left = after;
    loop {
        let (sign, after) = next(left)?;
        if is_same(sign.sort, Sort::CloseParen) {
            return Ok((items, sign, after));
        }
        if !is_same(sign.sort, Sort::Comma) {
            return Err(refusal(&sign));
        }
        let (item, after) = operand(text.alloc, text.bytes, after)?;
        items.push(item)?;
        left = after;
    }
}

// What stands behind a pointer and `->`, up to what follows a place or to the end of a call.
#[tactic(auto, using(cxx_grammar::proofs::Tails::no_call))]
pub(crate) fn behind_pointer<'a>(
    text: &Text,
    first: &Lexeme,
    rest: &'a [Lexeme],
) -> Reading<'a, Through>
    requires { is_pointer first.now.sort ≡ true }
    ensures reads { IfOk result (λ x. (ts : List Lexeme) (arrow : Lexeme) → Is Sort.Arrow arrow ts rest.now → ThroughReads text.now.bytes.now x.0 (first.now ∷ ts) x.1.now) }
    ensures shorter { IfOk result (λ x. length x.1.now ≤ length rest.now) }
    ensures follows { (s : State) (u : Use) → FollowsBy (λ x. x.1.now) s (AName ∷ Member u ∷ []) rest.now (λ x. tasks_after u x.0) result }
{
    let pointer = pointer_at(text.alloc, text.bytes, first)?;
    let (word, rest) = take_name(rest)?;
    let (sign, after) = next(rest)?;
    if is_same(sign.sort, Sort::OpenParen) {
        let (arguments, _close, after) = arguments(text, after)?;
        let name = spot(text.alloc, text.bytes, &word)?;
        return Ok((
            Through::Call(CallText {
                pointer,
                class: None,
                name,
                arguments,
            }),
            after,
        ));
    }
    if is_same(sign.sort, Sort::DoubleColon) {
        let (member, after) = take_name(after)?;
        let (_open, after) = take(after, Sort::OpenParen)?;
        let (values, _end, after) = arguments(text, after)?;
        let class = spot(text.alloc, text.bytes, &word)?;
        let callee = spot(text.alloc, text.bytes, &member)?;
        return Ok((
            Through::Call(CallText {
                pointer,
                class: Some(class),
                name: callee,
                arguments: values,
            }),
            after,
        ));
    }
    let (parts, after) = parts(text, &word, rest)?;
    Ok((Through::Place(PlaceText { pointer, parts }), after))
}

// place, of which the address is taken
pub(crate) fn place<'a>(text: &Text, rest: &'a [Lexeme]) -> Reading<'a, PlaceText>
    ensures reads { IfOk result (λ x. PlaceReads text.now.bytes.now x.0 rest.now x.1.now) }
    ensures shorter { IfOk result (λ x. length x.1.now ≤ length rest.now) }
    ensures follows { (s : State) → Follows (λ x. x.1.now) s (APointer ∷ Only Sort.Arrow ∷ AName ∷ Named Read ∷ []) rest.now s (Only Sort.Semicolon ∷ []) result }
{
    let (pointer, rest) = pointer(text.alloc, text.bytes, rest)?;
    let (_arrow, rest) = take(rest, Sort::Arrow)?;
    let (name, rest) = take_name(rest)?;
    let (parts, rest) = parts(text, &name, rest)?;
    Ok((PlaceText { pointer, parts }, rest))
}
