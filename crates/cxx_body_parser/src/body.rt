//! Bodies: blocks, and the statements that hold blocks.

ghost use Rattle.std.specs.Prelude.{◌≡◌, ◌≤◌, ◌<◌, ◌-◌, ◌∷◌, ◌⊎◌, [], Bool, false, length, drop, IfOk, IfErr};
ghost use Rattle.cxx_hierarchy.specs.declared.stop.Stop.{Stop};
ghost use Rattle.cxx_grammar.specs.declared.sort.Lexeme.{Lexeme};
ghost use Rattle.cxx_grammar.specs.declared.sort.Sort.{Sort};
ghost use Rattle.cxx_grammar.specs.Grammar.{In, block_form};
ghost use Rattle.cxx_grammar.specs.Event.{sorts, Event, DerivesPrefix};
ghost use Rattle.cxx_grammar.specs.Lexemes.{lexemes, block_start};
ghost use Rattle.cxx_grammar.specs.invariants.Run.{Follows};
ghost use Rattle.cxx_grammar.specs.Table.{ABlock, StatementsEnd};
ghost use Rattle.cxx_syntax.specs.Statements.{BodyReads, StatementsRead, StatementReads};

use crate::statement::{
    condition, copy, delete, dump, name_statement, print_statement, return_statement,
    scalar_declaration, statement_at, this_statement,
};
use crate::texts::{Reading, Text};
use cxx_grammar::{Lexeme, Sort, is_same, lexemes, next, refusal};
use cxx_hierarchy::{LimitNo, Stop};
use cxx_syntax::{BodyTree, Statement, StatementKind};
use cxx_text::TokenList;
use std::alloc::Global;

// The blocks that may be open at once.
const MAX_OPEN_BLOCKS: u32 = 64;

// "if" "(" operand ")" block ["else" block] after its first word
#[cycle(parser)]
fn if_of<'a>(text: &Text, first: Lexeme, rest: &'a [Lexeme], depth: u32) -> Reading<'a, Statement>
    requires { first.sort ≡ Sort.If }
    ensures reads { IfOk result (λ x. StatementReads text.now.bytes.now x.0 (first ∷ rest.now) x.1.now) }
    ensures shorter { IfOk result (λ x. length x.1.now ≤ length rest.now) }
    ensures follows { (m : Bool) → Follows (λ x. x.1.now) (record { blocks = depth; main = m }) (StatementsEnd ∷ []) (first ∷ rest.now) (record { blocks = depth; main = m }) (StatementsEnd ∷ []) result }
{
    let (test, rest) = condition(text, rest)?;
    let (then, rest) = block(text, rest, depth)?;
    let (word, after) = next(rest)?;
    if is_same(word.sort, Sort::Else) {
        let (other, rest) = block(text, after, depth)?;
        return Ok((
            statement_at(first, StatementKind::If(test, then, Some(other))),
            rest,
        ));
    }
    Ok((
        statement_at(first, StatementKind::If(test, then, None)),
        rest,
    ))
}

// "while" "(" operand ")" block after its first word
#[cycle(parser)]
fn while_of<'a>(
    text: &Text,
    first: Lexeme,
    rest: &'a [Lexeme],
    depth: u32,
) -> Reading<'a, Statement>
    requires { first.sort ≡ Sort.While }
    ensures reads { IfOk result (λ x. StatementReads text.now.bytes.now x.0 (first ∷ rest.now) x.1.now) }
    ensures shorter { IfOk result (λ x. length x.1.now ≤ length rest.now) }
    ensures follows { (m : Bool) → Follows (λ x. x.1.now) (record { blocks = depth; main = m }) (StatementsEnd ∷ []) (first ∷ rest.now) (record { blocks = depth; main = m }) (StatementsEnd ∷ []) result }
{
    let (test, rest) = condition(text, rest)?;
    let (body, rest) = block(text, rest, depth)?;
    Ok((statement_at(first, StatementKind::While(test, body)), rest))
}

// A statement, the first token of which was read.
#[cycle(parser)]
fn statement<'a>(
    text: &Text,
    first: Lexeme,
    rest: &'a [Lexeme],
    depth: u32,
) -> Reading<'a, Statement>
    requires { first.sort ≡ Sort.CloseBrace → ⊥ }
    ensures reads { IfOk result (λ x. StatementReads text.now.bytes.now x.0 (first ∷ rest.now) x.1.now) }
    ensures shorter { IfOk result (λ x. length x.1.now ≤ length rest.now) }
    ensures follows { (m : Bool) → Follows (λ x. x.1.now) (record { blocks = depth; main = m }) (StatementsEnd ∷ []) (first ∷ rest.now) (record { blocks = depth; main = m }) (StatementsEnd ∷ []) result }
{
    match first.sort {
        Sort::Name | Sort::OwnName => name_statement(text, first, rest),
        Sort::This => this_statement(text, first, rest),
        Sort::Star => copy(text, first, rest),
        Sort::Delete => delete(text, first, rest),
        Sort::If => if_of(text, first, rest, depth),
        Sort::While => while_of(text, first, rest, depth),
        Sort::Return => return_statement(text, first, rest),
        Sort::Print => print_statement(text, first, rest),
        Sort::Dump => dump(text, first, rest),
        Sort::Boolean
        | Sort::Char
        | Sort::Short
        | Sort::Int
        | Sort::Long
        | Sort::Signed
        | Sort::Unsigned => scalar_declaration(text, first, rest),
        _ => Err(refusal(&first)),
    }
}

// {statement} "}"
#[cycle(parser)]
fn statements<'a>(
    text: &Text,
    rest: &'a [Lexeme],
    depth: u32,
) -> Result<(Vec<Statement>, Lexeme, &'a [Lexeme]), Stop>
    ensures reads { IfOk result (λ x. StatementsRead text.now.bytes.now x.0.items rest.now (x.1 ∷ x.2.now)) }
    ensures close { IfOk result (λ x. x.1.sort ≡ Sort.CloseBrace) }
    ensures shorter { IfOk result (λ x. length x.2.now ≤ length rest.now) }
    ensures follows { (m : Bool) → Follows (λ x. x.2.now) (record { blocks = depth; main = m }) (StatementsEnd ∷ []) rest.now (record { blocks = depth - 1; main = m }) [] result }
{
    let mut items = Vec::new(text.alloc);
    let mut left = rest;
    loop {
        let (first, after) = next(left)?;
        if is_same(first.sort, Sort::CloseBrace) {
            return Ok((items, first, after));
        }
        let (read, more) = statement(text, first, after, depth)?;
        items.push(read)?;
        left = more;
    }
}

/// The block at the front of a list, where this many are open around it, and what follows it.
#[cycle(parser)]
pub fn block<'a>(text: &Text, rest: &'a [Lexeme], depth: u32) -> Reading<'a, BodyTree>
    ensures reads { IfOk result (λ x. BodyReads text.now.bytes.now x.0 rest.now x.1.now) }
    ensures shorter { IfOk result (λ x. length x.1.now ≤ length rest.now) }
    ensures follows { (m : Bool) → Follows (λ x. x.1.now) (record { blocks = depth; main = m }) (ABlock ∷ []) rest.now (record { blocks = depth; main = m }) [] result }
{
    let (brace, rest) = next(rest)?;
    if !is_same(brace.sort, Sort::OpenBlock) {
        return Err(refusal(&brace));
    }
    if depth >= MAX_OPEN_BLOCKS {
        return Err(Stop::Limit(LimitNo::L3));
    }
    let (statements, close, rest) = statements(text, rest, depth + 1)?;
    Ok((
        BodyTree {
            statements,
            line: brace.line,
            close_line: close.line,
        },
        rest,
    ))
}

// The block at the front of a list, and how many lexemes it has.
fn counted(text: &Text, all: &[Lexeme], depth: u32) -> Result<(BodyTree, usize), Stop>
    requires { In Sort.Bad (sorts all.now) }
    ensures reads { IfOk result (λ x. BodyReads text.now.bytes.now x.0 all.now (drop x.1 all.now)) }
    ensures derives { IfOk result (λ x. DerivesPrefix block_form (record { blocks = depth; main = false }) all.now (drop x.1 all.now)) }
    ensures within { IfOk result (λ x. x.1 ≤ length all.now) }
    ensures event { IfErr result (λ e. (e ≡ Stop.NoMemory) ⊎ Event block_form (record { blocks = depth; main = false }) all.now e) }
{
    let (tree, rest) = block(text, all, depth)?;
    Ok((tree, all.len() - rest.len()))
}

/// The block at token number `first` of a text, where `depth` blocks are open around it, and the number of the token
/// after it.
///
/// Errors: E1, E21 or E2 at the first token with which the tokens from `first` on begin no block, L3 at the 65th
/// open block, or want of memory.
pub fn parse_body(
    alloc: Global,
    text: &[u8],
    list: &TokenList,
    first: usize,
    depth: u32,
) -> Result<(BodyTree, usize), Stop>
    requires { first < length list.now.tokens }
    ensures reads { let all = lexemes text.now block_start (drop first list.now.tokens) list.now.bad in IfOk result (λ x. BodyReads text.now x.0 all (drop (x.1 - first) all)) }
    ensures derives { let all = lexemes text.now block_start (drop first list.now.tokens) list.now.bad in IfOk result (λ x. DerivesPrefix block_form (record { blocks = depth; main = false }) all (drop (x.1 - first) all)) }
    ensures event { let all = lexemes text.now block_start (drop first list.now.tokens) list.now.bad in IfErr result (λ e. (e ≡ Stop.NoMemory) ⊎ Event block_form (record { blocks = depth; main = false }) all e) }
{
    let (_, from) = list.tokens.as_slice().split_at(first);
    let all = lexemes(alloc, text, from, list.bad, Sort::CloseParen)?;
    let text = Text { alloc, bytes: text };
    let (tree, count) = counted(&text, &all, depth)?;
    Ok((tree, first + count))
}
