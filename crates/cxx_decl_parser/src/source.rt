//! From a text to its declarations.

ghost use Rattle.std.specs.Prelude.{◌≡◌, ◌≤◌, ◌+◌, ◌∷◌, ◌⊎◌, [], List, length, All, false, is_some, IfOk, IfErr};
ghost use Rattle.foundation.specs.Limits.{source_limit};
ghost use Rattle.cxx_hierarchy.specs.declared.stop.Stop.{Stop};
ghost use Rattle.cxx_hierarchy.specs.ClassPass.{IsInOrder};
ghost use Rattle.cxx_grammar.specs.declared.sort.Lexeme.{Lexeme};
ghost use Rattle.cxx_grammar.specs.declared.sort.Sort.{Sort};
ghost use Rattle.cxx_grammar.specs.Grammar.{In, source_form};
ghost use Rattle.cxx_grammar.specs.Lexemes.{lexemes, source_start};
ghost use Rattle.cxx_grammar.specs.Event.{sorts, at_start, Event, DerivesPrefix};
ghost use Rattle.cxx_syntax.specs.declared.part.Item.{Item};
ghost use Rattle.cxx_syntax.specs.Sources.{SourceReads};
ghost use Rattle.cxx_grammar.specs.Table.{ItemsEnd};
ghost use Rattle.cxx_record_parser.specs.invariants.Readers.{outside, max_lexemes, FollowsTo};

use crate::item::item;
use cxx_body_parser::{Reading, Text};
use cxx_grammar::{Lexeme, Sort, is_same, lexemes, next};
use cxx_hierarchy::Stop;
use cxx_record_parser::gather::{add, empty_source};
use cxx_syntax::SourceText;
use cxx_text::TokenList;
use std::alloc::Global;

// {class | forward | global | mainfn} and the end of the text
fn items<'a>(text: &Text, rest: &'a [Lexeme]) -> Reading<'a, SourceText>
    requires { length rest.now ≤ max_lexemes }
    ensures reads { IfOk result (λ x. SourceReads text.now.bytes.now x.0 rest.now x.1.now) }
    ensures follows { FollowsTo (λ x. x.1.now) (outside false) (ItemsEnd ∷ []) rest.now (λ x. outside (is_some x.0.main)) [] result }
{
    let mut source = empty_source(text.alloc);
    let mut left = rest;
    loop {
        let (first, after) = next(left)?;
        if is_same(first.sort, Sort::End) {
            return Ok((source, after));
        }
        let (read, more) = item(text, source.main.is_some(), first, after)?;
        add(&mut source, read)?;
        left = more;
    }
}

// The source at the front of a list of lexemes.
fn whole_source(text: &Text, all: &[Lexeme]) -> Result<SourceText, Stop>
    requires ends { In Sort.Bad (sorts all.now) }
    requires few { length all.now ≤ max_lexemes }
    ensures reads { IfOk result (λ s. (rest : List Lexeme) × SourceReads text.now.bytes.now s all.now rest × DerivesPrefix source_form (outside false) all.now rest) }
    ensures in_order { IfOk result (λ s. All IsInOrder s.records) }
    ensures event { IfErr result (λ e. (e ≡ Stop.NoMemory) ⊎ Event source_form (outside false) all.now e) }
{
    let (source, _rest) = items(text, all)?;
    Ok(source)
}

/// The source of a text, from its tokens, of which there are at most as many as bytes, and the end.
///
/// Errors: E1, E21 or E2 at the first token with which the tokens begin no source, L3 at the 65th open block, E7 at
/// a second `main`, or want of memory.
pub fn parse_source(alloc: Global, text: &[u8], list: &TokenList) -> Result<SourceText, Stop>
    requires { length list.now.tokens ≤ source_limit + 1 }
    ensures reads { let all = lexemes text.now source_start list.now.tokens list.now.bad in IfOk result (λ s. (rest : List Lexeme) × SourceReads text.now s all rest × DerivesPrefix source_form at_start all rest) }
    ensures in_order { IfOk result (λ s. All IsInOrder s.records) }
    ensures event { let all = lexemes text.now source_start list.now.tokens list.now.bad in IfErr result (λ e. (e ≡ Stop.NoMemory) ⊎ Event source_form at_start all e) }
{
    let all = lexemes(alloc, text, list.tokens.as_slice(), list.bad, Sort::End)?;
    let text = Text { alloc, bytes: text };
    let source = whole_source(&text, &all)?;
    Ok(source)
}
