//! Statements without blocks.

ghost use Rattle.std.specs.Prelude.{◌≡◌, ◌≤◌, ◌<◌, ◌∷◌, ◌++◌, [], ℕ, List, true, length, IfOk};
ghost use Rattle.cxx_hierarchy.specs.declared.stop.Stop.{Stop};
ghost use Rattle.cxx_grammar.specs.declared.sort.Lexeme.{Lexeme};
ghost use Rattle.cxx_grammar.specs.declared.sort.Sort.{Sort};
ghost use Rattle.cxx_grammar.specs.Sorts.{is_name};
ghost use Rattle.cxx_grammar.specs.Event.{State};
ghost use Rattle.cxx_grammar.specs.invariants.Run.{Follows};
ghost use Rattle.cxx_hierarchy.specs.declared.records.ValueType.{ValueType};
ghost use Rattle.cxx_grammar.specs.Table.{Only, AName, AnOperand, APointer, InitEnd, ResultEnd, RightEnd, AfterName, Member, Written, PrintEnd, is_pointer, is_scalar_word, scalar_rest, end_tasks};
ghost use Rattle.cxx_syntax.specs.Operands.{PlaceReads, CallReads};
ghost use Rattle.cxx_syntax.specs.Statements.{ValueReads, InitReads, ResultReads, IsFirst, BeginsAt, StatementReads};
ghost use Rattle.cxx_body_parser.specs.invariants.Heads.{PrintReads, ConditionReads};

use crate::place::{Through, behind_pointer};
use crate::right::right;
use crate::texts::{Reading, Text};
use cxx_grammar::{Lexeme, Sort, is_same, name_of, next, refusal, take, take_name};
use cxx_hierarchy::{Name, Stop, ValueType};
use cxx_syntax::operand::{operand, pointer};
use cxx_syntax::scalar::scalar;
use cxx_syntax::{CallText, Operand, PlaceText, Right, Statement, StatementKind, spot};

// The statement of a kind that begins at a token.
pub(crate) fn statement_at(first: Lexeme, kind: StatementKind) -> Statement
    ensures { BeginsAt result first kind }
{
    Statement {
        kind,
        at: first.at,
        line: first.line,
    }
}

// ["=" right] before ";"
#[tactic(auto, using(cxx_grammar::proofs::Tails::no_init))]
fn init<'a>(text: &Text, rest: &'a [Lexeme]) -> Reading<'a, Option<Right>>
    ensures reads { IfOk result (λ x. InitReads text.now.bytes.now x.0 rest.now x.1.now) }
    ensures shorter { IfOk result (λ x. length x.1.now ≤ length rest.now) }
    ensures follows { (s : State) → Follows (λ x. x.1.now) s (InitEnd ∷ []) rest.now s (Only Sort.Semicolon ∷ []) result }
{
    let (sign, after) = next(rest)?;
    if is_same(sign.sort, Sort::Assign) {
        let (value, after) = right(text, after)?;
        return Ok((Some(value), after));
    }
    Ok((None, rest))
}

// name ["=" right] ";" after a value
fn declared<'a>(
    text: &Text,
    first: Lexeme,
    ty: ValueType<Name>,
    rest: &'a [Lexeme],
) -> Reading<'a, Statement>
    ensures reads { IfOk result (λ x. (ts : List Lexeme) → IsFirst first ts → ValueReads text.now.bytes.now ty ts rest.now → StatementReads text.now.bytes.now x.0 ts x.1.now) }
    ensures shorter { IfOk result (λ x. length x.1.now ≤ length rest.now) }
    ensures follows { (s : State) → Follows (λ x. x.1.now) s (AName ∷ InitEnd ∷ []) rest.now s ([]) result }
{
    let (word, rest) = take_name(rest)?;
    let (init, rest) = init(text, rest)?;
    let (_end, rest) = take(rest, Sort::Semicolon)?;
    let name = spot(text.alloc, text.bytes, &word)?;
    Ok((
        statement_at(first, StatementKind::Declare(ty, first.at, name, init)),
        rest,
    ))
}

// scalar name ["=" right] ";" after its first word
pub(crate) fn scalar_declaration<'a>(
    text: &Text,
    first: Lexeme,
    rest: &'a [Lexeme],
) -> Reading<'a, Statement>
    requires { is_scalar_word first.sort ≡ true }
    ensures reads { IfOk result (λ x. StatementReads text.now.bytes.now x.0 (first ∷ rest.now) x.1.now) }
    ensures shorter { IfOk result (λ x. length x.1.now ≤ length rest.now) }
    ensures follows { (s : State) → Follows (λ x. x.1.now) s (scalar_rest first.sort ++ (InitEnd ∷ [])) rest.now s ([]) result }
{
    let (number, rest) = scalar(first, rest)?;
    let (statement, rest) = declared(text, first, ValueType::Number(number), rest)?;
    Ok((statement, rest))
}

// The first token of a statement, and the sign behind it.
#[derive(Clone, Copy)]
struct Front {
    first: Lexeme,
    sign: Lexeme,
}

// name "*" name ["=" right] ";" after the sign
fn pointer_declaration<'a>(text: &Text, front: Front, rest: &'a [Lexeme]) -> Reading<'a, Statement>
    requires first { is_name front.first.sort ≡ true }
    requires sign { front.sign.sort ≡ Sort.Star }
    ensures reads { IfOk result (λ x. StatementReads text.now.bytes.now x.0 (front.first ∷ front.sign ∷ rest.now) x.1.now) }
    ensures shorter { IfOk result (λ x. length x.1.now ≤ length rest.now) }
    ensures follows { (s : State) → Follows (λ x. x.1.now) s (AName ∷ InitEnd ∷ []) rest.now s ([]) result }
{
    let class = name_of(text.alloc, text.bytes, &front.first)?;
    let (statement, rest) = declared(text, front.first, ValueType::Pointer(class), rest)?;
    Ok((statement, rest))
}

// name "=" right ";" after the sign
fn assignment<'a>(text: &Text, front: Front, rest: &'a [Lexeme]) -> Reading<'a, Statement>
    requires first { is_name front.first.sort ≡ true }
    requires sign { front.sign.sort ≡ Sort.Assign }
    ensures reads { IfOk result (λ x. StatementReads text.now.bytes.now x.0 (front.first ∷ front.sign ∷ rest.now) x.1.now) }
    ensures shorter { IfOk result (λ x. length x.1.now ≤ length rest.now) }
    ensures follows { (s : State) → Follows (λ x. x.1.now) s (RightEnd ∷ []) rest.now s ([]) result }
{
    let (value, rest) = right(text, rest)?;
    let (_end, rest) = take(rest, Sort::Semicolon)?;
    let target = spot(text.alloc, text.bytes, &front.first)?;
    Ok((
        statement_at(front.first, StatementKind::Assign(target, value)),
        rest,
    ))
}

// "=" operand ";" after a place
fn write<'a>(
    text: &Text,
    first: Lexeme,
    place: PlaceText,
    rest: &'a [Lexeme],
) -> Reading<'a, Statement>
    ensures reads { IfOk result (λ x. (ts : List Lexeme) → IsFirst first ts → PlaceReads text.now.bytes.now place ts rest.now → StatementReads text.now.bytes.now x.0 ts x.1.now) }
    ensures shorter { IfOk result (λ x. length x.1.now ≤ length rest.now) }
    ensures follows { (s : State) → Follows (λ x. x.1.now) s (end_tasks Written) rest.now s ([]) result }
{
    let (_equal, rest) = take(rest, Sort::Assign)?;
    let (value, rest) = operand(text.alloc, text.bytes, rest)?;
    let (_end, rest) = take(rest, Sort::Semicolon)?;
    Ok((
        statement_at(first, StatementKind::Write(place, value)),
        rest,
    ))
}

// ";" after a call
fn call(first: Lexeme, read: CallText, rest: &[Lexeme]) -> Result<(Statement, &[Lexeme]), Stop>
    ensures reads { IfOk result (λ x. (text : List ℕ) (ts : List Lexeme) → IsFirst first ts → CallReads text read ts rest.now → StatementReads text x.0 ts x.1.now) }
    ensures shorter { IfOk result (λ x. length x.1.now ≤ length rest.now) }
    ensures follows { (s : State) → Follows (λ x. x.1.now) s (Only Sort.Semicolon ∷ []) rest.now s ([]) result }
{
    let (_end, rest) = take(rest, Sort::Semicolon)?;
    Ok((statement_at(first, StatementKind::Call(read)), rest))
}

// The rest of a statement after pointer "->".
fn pointer_statement<'a>(text: &Text, front: Front, rest: &'a [Lexeme]) -> Reading<'a, Statement>
    requires first { is_pointer front.first.sort ≡ true }
    requires sign { front.sign.sort ≡ Sort.Arrow }
    ensures reads { IfOk result (λ x. StatementReads text.now.bytes.now x.0 (front.first ∷ front.sign ∷ rest.now) x.1.now) }
    ensures shorter { IfOk result (λ x. length x.1.now ≤ length rest.now) }
    ensures follows { (s : State) → Follows (λ x. x.1.now) s (AName ∷ Member Written ∷ []) rest.now s ([]) result }
{
    let (read, rest) = behind_pointer(text, &front.first, rest)?;
    match read {
        Through::Place(place) => {
            let (written, rest) = write(text, front.first, place, rest)?;
            Ok((written, rest))
        }
        Through::Call(target) => {
            let (called, rest) = call(front.first, target, rest)?;
            Ok((called, rest))
        }
    }
}

// The rest of a statement after a name.
#[tactic(auto, using(cxx_grammar::proofs::Tails::name_pointer))]
pub(crate) fn name_statement<'a>(
    text: &Text,
    first: Lexeme,
    rest: &'a [Lexeme],
) -> Reading<'a, Statement>
    requires { is_name first.sort ≡ true }
    ensures reads { IfOk result (λ x. StatementReads text.now.bytes.now x.0 (first ∷ rest.now) x.1.now) }
    ensures shorter { IfOk result (λ x. length x.1.now ≤ length rest.now) }
    ensures follows { (s : State) → Follows (λ x. x.1.now) s (AfterName ∷ []) rest.now s ([]) result }
{
    let (sign, after) = next(rest)?;
    let front = Front { first, sign };
    match sign.sort {
        Sort::Star => pointer_declaration(text, front, after),
        Sort::Assign => assignment(text, front, after),
        Sort::Arrow => pointer_statement(text, front, after),
        _ => Err(refusal(&sign)),
    }
}

// "->" and the rest of a statement after "this"
pub(crate) fn this_statement<'a>(
    text: &Text,
    first: Lexeme,
    rest: &'a [Lexeme],
) -> Reading<'a, Statement>
    requires { first.sort ≡ Sort.This }
    ensures reads { IfOk result (λ x. StatementReads text.now.bytes.now x.0 (first ∷ rest.now) x.1.now) }
    ensures shorter { IfOk result (λ x. length x.1.now ≤ length rest.now) }
    ensures follows { (s : State) → Follows (λ x. x.1.now) s (Only Sort.Arrow ∷ AName ∷ Member Written ∷ []) rest.now s ([]) result }
{
    let (sign, rest) = take(rest, Sort::Arrow)?;
    let front = Front { first, sign };
    let (statement, rest) = pointer_statement(text, front, rest)?;
    Ok((statement, rest))
}

// "*" pointer "=" "*" pointer ";" after the first sign
pub(crate) fn copy<'a>(text: &Text, first: Lexeme, rest: &'a [Lexeme]) -> Reading<'a, Statement>
    requires { first.sort ≡ Sort.Star }
    ensures reads { IfOk result (λ x. StatementReads text.now.bytes.now x.0 (first ∷ rest.now) x.1.now) }
    ensures shorter { IfOk result (λ x. length x.1.now ≤ length rest.now) }
    ensures follows { (s : State) → Follows (λ x. x.1.now) s (APointer ∷ Only Sort.Assign ∷ Only Sort.Star ∷ APointer ∷ Only Sort.Semicolon ∷ []) rest.now s ([]) result }
{
    let (to, rest) = pointer(text.alloc, text.bytes, rest)?;
    let (_equal, rest) = take(rest, Sort::Assign)?;
    let (_star, rest) = take(rest, Sort::Star)?;
    let (from, rest) = pointer(text.alloc, text.bytes, rest)?;
    let (_end, rest) = take(rest, Sort::Semicolon)?;
    Ok((statement_at(first, StatementKind::Copy(to, from)), rest))
}

// "delete" pointer ";" after its first word
pub(crate) fn delete<'a>(text: &Text, first: Lexeme, rest: &'a [Lexeme]) -> Reading<'a, Statement>
    requires { first.sort ≡ Sort.Delete }
    ensures reads { IfOk result (λ x. StatementReads text.now.bytes.now x.0 (first ∷ rest.now) x.1.now) }
    ensures shorter { IfOk result (λ x. length x.1.now ≤ length rest.now) }
    ensures follows { (s : State) → Follows (λ x. x.1.now) s (APointer ∷ Only Sort.Semicolon ∷ []) rest.now s ([]) result }
{
    let (target, rest) = pointer(text.alloc, text.bytes, rest)?;
    let (_end, rest) = take(rest, Sort::Semicolon)?;
    Ok((statement_at(first, StatementKind::Delete(target)), rest))
}

// "dump" "(" pointer ")" ";" after its first word
pub(crate) fn dump<'a>(text: &Text, first: Lexeme, rest: &'a [Lexeme]) -> Reading<'a, Statement>
    requires { first.sort ≡ Sort.Dump }
    ensures reads { IfOk result (λ x. StatementReads text.now.bytes.now x.0 (first ∷ rest.now) x.1.now) }
    ensures shorter { IfOk result (λ x. length x.1.now ≤ length rest.now) }
    ensures follows { (s : State) → Follows (λ x. x.1.now) s (Only Sort.OpenParen ∷ APointer ∷ Only Sort.CloseParen ∷ Only Sort.Semicolon ∷ []) rest.now s ([]) result }
{
    let (_open, rest) = take(rest, Sort::OpenParen)?;
    let (target, rest) = pointer(text.alloc, text.bytes, rest)?;
    let (_close, rest) = take(rest, Sort::CloseParen)?;
    let (_end, rest) = take(rest, Sort::Semicolon)?;
    Ok((statement_at(first, StatementKind::Dump(target)), rest))
}

// [operand] before ";"
fn result_of<'a>(text: &Text, rest: &'a [Lexeme]) -> Reading<'a, Option<Operand>>
    ensures reads { IfOk result (λ x. ResultReads text.now.bytes.now x.0 rest.now x.1.now) }
    ensures shorter { IfOk result (λ x. length x.1.now ≤ length rest.now) }
    ensures follows { (s : State) → Follows (λ x. x.1.now) s (ResultEnd ∷ []) rest.now s (Only Sort.Semicolon ∷ []) result }
{
    let (first, _) = next(rest)?;
    if is_same(first.sort, Sort::Semicolon) {
        return Ok((None, rest));
    }
    let (value, rest) = operand(text.alloc, text.bytes, rest)?;
    Ok((Some(value), rest))
}

// "return" [operand] ";" after its first word
pub(crate) fn return_statement<'a>(
    text: &Text,
    first: Lexeme,
    rest: &'a [Lexeme],
) -> Reading<'a, Statement>
    requires { first.sort ≡ Sort.Return }
    ensures reads { IfOk result (λ x. StatementReads text.now.bytes.now x.0 (first ∷ rest.now) x.1.now) }
    ensures shorter { IfOk result (λ x. length x.1.now ≤ length rest.now) }
    ensures follows { (s : State) → Follows (λ x. x.1.now) s (ResultEnd ∷ []) rest.now s ([]) result }
{
    let (value, rest) = result_of(text, rest)?;
    let (_end, rest) = take(rest, Sort::Semicolon)?;
    Ok((statement_at(first, StatementKind::Return(value)), rest))
}

// operand ")" ";" after "print" "("
fn print_operand<'a>(text: &Text, rest: &'a [Lexeme]) -> Reading<'a, StatementKind>
    ensures reads { IfOk result (λ x. PrintReads text.now.bytes.now x.0 rest.now x.1.now) }
    ensures shorter { IfOk result (λ x. length x.1.now ≤ length rest.now) }
    ensures follows { (s : State) → Follows (λ x. x.1.now) s (AnOperand ∷ Only Sort.CloseParen ∷ Only Sort.Semicolon ∷ []) rest.now s ([]) result }
{
    let (value, rest) = operand(text.alloc, text.bytes, rest)?;
    let (_close, rest) = take(rest, Sort::CloseParen)?;
    let (_end, rest) = take(rest, Sort::Semicolon)?;
    Ok((StatementKind::Print(value), rest))
}

// "(" "*" pointer ")" ")" ";" after "print" "(" "typeid"
fn print_type<'a>(text: &Text, word: Lexeme, rest: &'a [Lexeme]) -> Reading<'a, StatementKind>
    requires { word.sort ≡ Sort.Typeid }
    ensures reads { IfOk result (λ x. PrintReads text.now.bytes.now x.0 (word ∷ rest.now) x.1.now) }
    ensures shorter { IfOk result (λ x. length x.1.now ≤ length rest.now) }
    ensures follows { (s : State) → Follows (λ x. x.1.now) s (Only Sort.OpenParen ∷ Only Sort.Star ∷ APointer ∷ Only Sort.CloseParen ∷ Only Sort.CloseParen ∷ Only Sort.Semicolon ∷ []) rest.now s ([]) result }
{
    let (_open, rest) = take(rest, Sort::OpenParen)?;
    let (_star, rest) = take(rest, Sort::Star)?;
    let (target, rest) = pointer(text.alloc, text.bytes, rest)?;
    let (_close, rest) = take(rest, Sort::CloseParen)?;
    let (_last, rest) = take(rest, Sort::CloseParen)?;
    let (_end, rest) = take(rest, Sort::Semicolon)?;
    Ok((StatementKind::PrintType(target), rest))
}

// "<" "void" "*" ">" "(" pointer ")" ")" ";" after "print" "(" "dynamic_cast"
fn print_view<'a>(text: &Text, word: Lexeme, rest: &'a [Lexeme]) -> Reading<'a, StatementKind>
    requires { word.sort ≡ Sort.DynamicCast }
    ensures reads { IfOk result (λ x. PrintReads text.now.bytes.now x.0 (word ∷ rest.now) x.1.now) }
    ensures shorter { IfOk result (λ x. length x.1.now ≤ length rest.now) }
    ensures follows { (s : State) → Follows (λ x. x.1.now) s (Only Sort.Less ∷ Only Sort.Void ∷ Only Sort.Star ∷ Only Sort.Greater ∷ Only Sort.OpenParen ∷ APointer ∷ Only Sort.CloseParen ∷ Only Sort.CloseParen ∷ Only Sort.Semicolon ∷ []) rest.now s ([]) result }
{
    let (_less, rest) = take(rest, Sort::Less)?;
    let (_void, rest) = take(rest, Sort::Void)?;
    let (_star, rest) = take(rest, Sort::Star)?;
    let (_greater, rest) = take(rest, Sort::Greater)?;
    let (_open, rest) = take(rest, Sort::OpenParen)?;
    let (target, rest) = pointer(text.alloc, text.bytes, rest)?;
    let (_close, rest) = take(rest, Sort::CloseParen)?;
    let (_last, rest) = take(rest, Sort::CloseParen)?;
    let (_end, rest) = take(rest, Sort::Semicolon)?;
    Ok((StatementKind::PrintView(target), rest))
}

// The rest of a statement after "print" "(".
fn print_end<'a>(text: &Text, rest: &'a [Lexeme]) -> Reading<'a, StatementKind>
    ensures reads { IfOk result (λ x. PrintReads text.now.bytes.now x.0 rest.now x.1.now) }
    ensures shorter { IfOk result (λ x. length x.1.now ≤ length rest.now) }
    ensures follows { (s : State) → Follows (λ x. x.1.now) s (PrintEnd ∷ []) rest.now s ([]) result }
{
    let (word, after) = next(rest)?;
    if is_same(word.sort, Sort::Typeid) {
        return print_type(text, word, after);
    }
    if is_same(word.sort, Sort::DynamicCast) {
        return print_view(text, word, after);
    }
    print_operand(text, rest)
}

// "(" and the rest of a statement after "print"
pub(crate) fn print_statement<'a>(
    text: &Text,
    first: Lexeme,
    rest: &'a [Lexeme],
) -> Reading<'a, Statement>
    requires { first.sort ≡ Sort.Print }
    ensures reads { IfOk result (λ x. StatementReads text.now.bytes.now x.0 (first ∷ rest.now) x.1.now) }
    ensures shorter { IfOk result (λ x. length x.1.now ≤ length rest.now) }
    ensures follows { (s : State) → Follows (λ x. x.1.now) s (Only Sort.OpenParen ∷ PrintEnd ∷ []) rest.now s ([]) result }
{
    let (_open, rest) = take(rest, Sort::OpenParen)?;
    let (kind, rest) = print_end(text, rest)?;
    Ok((statement_at(first, kind), rest))
}

// "(" operand ")" before a block
pub(crate) fn condition<'a>(text: &Text, rest: &'a [Lexeme]) -> Reading<'a, Operand>
    ensures reads { IfOk result (λ x. ConditionReads text.now.bytes.now x.0 rest.now x.1.now) }
    ensures shorter { IfOk result (λ x. length x.1.now < length rest.now) }
    ensures follows { (s : State) → Follows (λ x. x.1.now) s (Only Sort.OpenParen ∷ AnOperand ∷ Only Sort.CloseParen ∷ []) rest.now s ([]) result }
{
    let (_open, rest) = take(rest, Sort::OpenParen)?;
    let (test, rest) = operand(text.alloc, text.bytes, rest)?;
    let (_close, rest) = take(rest, Sort::CloseParen)?;
    Ok((test, rest))
}
