//! What stands to the right of `=`.

ghost use Rattle.std.specs.Prelude.{◌≡◌, ◌≤◌, ◌∷◌, [], List, Some, true, false, length, IfOk, IfErr, IfSome, IfNone};
ghost use Rattle.cxx_hierarchy.specs.declared.stop.Stop.{Stop};
ghost use Rattle.cxx_grammar.specs.declared.sort.Lexeme.{Lexeme};
ghost use Rattle.cxx_grammar.specs.declared.sort.Sort.{Sort};
ghost use Rattle.cxx_grammar.specs.Event.{State};
ghost use Rattle.cxx_grammar.specs.invariants.Run.{Follows};
ghost use Rattle.cxx_grammar.specs.Table.{Only, AName, APointer, AConstant, AfterOperand, AfterPointer, RightEnd, is_pointer, is_constant, is_operator};
ghost use Rattle.cxx_syntax.specs.Operands.{OperandReads, RightReads, operator_of, cast_kind};
ghost use Rattle.cxx_body_parser.specs.invariants.Through.{right_through};

use crate::place::{Through, behind_pointer, place};
use crate::texts::{Reading, Text};
use cxx_grammar::{Lexeme, Sort, is_same, next, refusal, take, take_name};
use cxx_syntax::operand::{constant_at, operand, operand_at, pointer};
use cxx_syntax::{BinaryOp, CastKind, CastText, Operand, Right, spot};

// The operator of two operands that a sort is.
fn operator_of(sort: Sort) -> Option<BinaryOp>
    ensures value { result ≡ operator_of sort }
    ensures some { IfSome result (λ o. is_operator sort ≡ true) }
    ensures none { IfNone result (is_operator sort ≡ false) }
{
    match sort {
        Sort::Plus => Some(BinaryOp::Add),
        Sort::Minus => Some(BinaryOp::Subtract),
        Sort::Star => Some(BinaryOp::Multiply),
        Sort::Less => Some(BinaryOp::Less),
        Sort::LessEqual => Some(BinaryOp::LessEqual),
        Sort::Equal => Some(BinaryOp::Equal),
        Sort::NotEqual => Some(BinaryOp::NotEqual),
        _ => None,
    }
}

// A place or a call as a right side.
fn right_of(read: Through) -> Right
    ensures { result ≡ right_through read }
{
    match read {
        Through::Place(place) => Right::Place(place),
        Through::Call(call) => Right::Call(call),
    }
}

// [op operand] after an operand
#[tactic(auto, using(cxx_grammar::proofs::Tails::no_operator))]
fn binary<'a>(text: &Text, left: Operand, rest: &'a [Lexeme]) -> Reading<'a, Right>
    ensures reads { IfOk result (λ x. (ts : List Lexeme) → OperandReads text.now.bytes.now left ts rest.now → RightReads text.now.bytes.now x.0 ts x.1.now) }
    ensures shorter { IfOk result (λ x. length x.1.now ≤ length rest.now) }
    ensures follows { (s : State) → Follows (λ x. x.1.now) s (AfterOperand ∷ []) rest.now s (Only Sort.Semicolon ∷ []) result }
{
    let (sign, after) = next(rest)?;
    match operator_of(sign.sort) {
        None => Ok((Right::Operand(left), rest)),
        Some(operator) => {
            let (value, after) = operand(text.alloc, text.bytes, after)?;
            Ok((Right::Binary(left, operator, value), after))
        }
    }
}

// A right side that begins with a name or with `this`.
fn pointer_right<'a>(text: &Text, first: Lexeme, rest: &'a [Lexeme]) -> Reading<'a, Right>
    requires { is_pointer first.sort ≡ true }
    ensures reads { IfOk result (λ x. RightReads text.now.bytes.now x.0 (first ∷ rest.now) x.1.now) }
    ensures shorter { IfOk result (λ x. length x.1.now ≤ length rest.now) }
    ensures follows { (s : State) → Follows (λ x. x.1.now) s (AfterPointer ∷ []) rest.now s (Only Sort.Semicolon ∷ []) result }
{
    let (sign, after) = next(rest)?;
    if is_same(sign.sort, Sort::Arrow) {
        let (read, after) = behind_pointer(text, &first, after)?;
        return Ok((right_of(read), after));
    }
    let left = operand_at(text.alloc, text.bytes, &first)?;
    let (value, after) = binary(text, left, rest)?;
    Ok((value, after))
}

// A right side that begins with a constant.
fn constant_right<'a>(text: &Text, first: Lexeme, rest: &'a [Lexeme]) -> Reading<'a, Right>
    requires { is_constant first.sort ≡ true }
    ensures reads { IfOk result (λ x. RightReads text.now.bytes.now x.0 (first ∷ rest.now) x.1.now) }
    ensures shorter { IfOk result (λ x. length x.1.now ≤ length rest.now) }
    ensures follows { (s : State) → Follows (λ x. x.1.now) s (AConstant ∷ AfterOperand ∷ []) (first ∷ rest.now) s (Only Sort.Semicolon ∷ []) result }
{
    let (constant, after) = constant_at(first, rest)?;
    let (value, after) = binary(text, Operand::Constant(constant), after)?;
    Ok((value, after))
}

// "!" operand
fn not_right<'a>(text: &Text, first: Lexeme, rest: &'a [Lexeme]) -> Reading<'a, Right>
    requires { first.sort ≡ Sort.Bang }
    ensures reads { IfOk result (λ x. RightReads text.now.bytes.now x.0 (first ∷ rest.now) x.1.now) }
    ensures shorter { IfOk result (λ x. length x.1.now ≤ length rest.now) }
    ensures follows { (s : State) → Follows (λ x. x.1.now) s (RightEnd ∷ []) (first ∷ rest.now) s (Only Sort.Semicolon ∷ []) result }
{
    let (value, rest) = operand(text.alloc, text.bytes, rest)?;
    Ok((Right::Not(value), rest))
}

// "&" place
fn address_right<'a>(text: &Text, first: Lexeme, rest: &'a [Lexeme]) -> Reading<'a, Right>
    requires { first.sort ≡ Sort.Ampersand }
    ensures reads { IfOk result (λ x. RightReads text.now.bytes.now x.0 (first ∷ rest.now) x.1.now) }
    ensures shorter { IfOk result (λ x. length x.1.now ≤ length rest.now) }
    ensures follows { (s : State) → Follows (λ x. x.1.now) s (RightEnd ∷ []) (first ∷ rest.now) s (Only Sort.Semicolon ∷ []) result }
{
    let (value, rest) = place(text, rest)?;
    Ok((Right::Address(value), rest))
}

// "new" name
fn new_right<'a>(text: &Text, first: Lexeme, rest: &'a [Lexeme]) -> Reading<'a, Right>
    requires { first.sort ≡ Sort.New }
    ensures reads { IfOk result (λ x. RightReads text.now.bytes.now x.0 (first ∷ rest.now) x.1.now) }
    ensures shorter { IfOk result (λ x. length x.1.now ≤ length rest.now) }
    ensures follows { (s : State) → Follows (λ x. x.1.now) s (RightEnd ∷ []) (first ∷ rest.now) s (Only Sort.Semicolon ∷ []) result }
{
    let (word, rest) = take_name(rest)?;
    let class = spot(text.alloc, text.bytes, &word)?;
    Ok((Right::New(class), rest))
}

// ("static_cast" | "dynamic_cast") "<" name "*" ">" "(" pointer ")"
fn cast_right<'a>(
    text: &Text,
    first: Lexeme,
    kind: CastKind,
    rest: &'a [Lexeme],
) -> Reading<'a, Right>
    requires { cast_kind first.sort ≡ Some kind }
    ensures reads { IfOk result (λ x. RightReads text.now.bytes.now x.0 (first ∷ rest.now) x.1.now) }
    ensures shorter { IfOk result (λ x. length x.1.now ≤ length rest.now) }
    ensures follows { (s : State) → Follows (λ x. x.1.now) s (Only Sort.Less ∷ AName ∷ Only Sort.Star ∷ Only Sort.Greater ∷ Only Sort.OpenParen ∷ APointer ∷ Only Sort.CloseParen ∷ Only Sort.Semicolon ∷ []) rest.now s (Only Sort.Semicolon ∷ []) result }
{
    let (_less, rest) = take(rest, Sort::Less)?;
    let (word, rest) = take_name(rest)?;
    let (_star, rest) = take(rest, Sort::Star)?;
    let (_greater, rest) = take(rest, Sort::Greater)?;
    let (_open, rest) = take(rest, Sort::OpenParen)?;
    let (pointer, rest) = pointer(text.alloc, text.bytes, rest)?;
    let (_close, rest) = take(rest, Sort::CloseParen)?;
    let target = spot(text.alloc, text.bytes, &word)?;
    Ok((
        Right::Cast(CastText {
            kind,
            target,
            pointer,
        }),
        rest,
    ))
}

// "(" name "*" ")" pointer
fn plain_cast_right<'a>(text: &Text, first: Lexeme, rest: &'a [Lexeme]) -> Reading<'a, Right>
    requires { first.sort ≡ Sort.OpenParen }
    ensures reads { IfOk result (λ x. RightReads text.now.bytes.now x.0 (first ∷ rest.now) x.1.now) }
    ensures shorter { IfOk result (λ x. length x.1.now ≤ length rest.now) }
    ensures follows { (s : State) → Follows (λ x. x.1.now) s (RightEnd ∷ []) (first ∷ rest.now) s (Only Sort.Semicolon ∷ []) result }
{
    let (word, rest) = take_name(rest)?;
    let (_star, rest) = take(rest, Sort::Star)?;
    let (_close, rest) = take(rest, Sort::CloseParen)?;
    let (pointer, rest) = pointer(text.alloc, text.bytes, rest)?;
    let target = spot(text.alloc, text.bytes, &word)?;
    Ok((
        Right::Cast(CastText {
            kind: CastKind::Plain,
            target,
            pointer,
        }),
        rest,
    ))
}

// "typeid" "(" "*" pointer ")" "==" "typeid" "(" name ")"
fn type_right<'a>(text: &Text, first: Lexeme, rest: &'a [Lexeme]) -> Reading<'a, Right>
    requires { first.sort ≡ Sort.Typeid }
    ensures reads { IfOk result (λ x. RightReads text.now.bytes.now x.0 (first ∷ rest.now) x.1.now) }
    ensures shorter { IfOk result (λ x. length x.1.now ≤ length rest.now) }
    ensures follows { (s : State) → Follows (λ x. x.1.now) s (RightEnd ∷ []) (first ∷ rest.now) s (Only Sort.Semicolon ∷ []) result }
{
    let (_open, rest) = take(rest, Sort::OpenParen)?;
    let (_star, rest) = take(rest, Sort::Star)?;
    let (pointer, rest) = pointer(text.alloc, text.bytes, rest)?;
    let (_close, rest) = take(rest, Sort::CloseParen)?;
    let (_equal, rest) = take(rest, Sort::Equal)?;
    let (_typeid, rest) = take(rest, Sort::Typeid)?;
    let (_begin, rest) = take(rest, Sort::OpenParen)?;
    let (word, rest) = take_name(rest)?;
    let (_end, rest) = take(rest, Sort::CloseParen)?;
    let class = spot(text.alloc, text.bytes, &word)?;
    Ok((Right::TypeEqual(pointer, class), rest))
}

// right, the first token of which was read
#[tactic(auto, using(cxx_grammar::proofs::Tails::pointer_right, cxx_grammar::proofs::Tails::constant_right_at))]
fn right_at<'a>(text: &Text, first: Lexeme, rest: &'a [Lexeme]) -> Reading<'a, Right>
    ensures reads { IfOk result (λ x. RightReads text.now.bytes.now x.0 (first ∷ rest.now) x.1.now) }
    ensures shorter { IfOk result (λ x. length x.1.now ≤ length rest.now) }
    ensures follows { (s : State) → Follows (λ x. x.1.now) s (RightEnd ∷ []) (first ∷ rest.now) s (Only Sort.Semicolon ∷ []) result }
{
    match first.sort {
        Sort::Name | Sort::OwnName | Sort::This => pointer_right(text, first, rest),
        Sort::Number | Sort::Zero | Sort::Minus | Sort::True | Sort::False => constant_right(
            text, first, rest,
        ),
        Sort::Bang => not_right(text, first, rest),
        Sort::Ampersand => address_right(text, first, rest),
        Sort::New => new_right(text, first, rest),
        Sort::StaticCast => cast_right(text, first, CastKind::Static, rest),
        Sort::DynamicCast => cast_right(text, first, CastKind::Dynamic, rest),
        Sort::OpenParen => plain_cast_right(text, first, rest),
        Sort::Typeid => type_right(text, first, rest),
        _ => Err(refusal(&first)),
    }
}

// right, up to its ";"
pub(crate) fn right<'a>(text: &Text, rest: &'a [Lexeme]) -> Reading<'a, Right>
    ensures reads { IfOk result (λ x. RightReads text.now.bytes.now x.0 rest.now x.1.now) }
    ensures shorter { IfOk result (λ x. length x.1.now ≤ length rest.now) }
    ensures follows { (s : State) → Follows (λ x. x.1.now) s (RightEnd ∷ []) rest.now s (Only Sort.Semicolon ∷ []) result }
{
    let (first, after) = next(rest)?;
    let (value, after) = right_at(text, first, after)?;
    Ok((value, after))
}
