//! From a text to its tokens.

ghost use Rattle.std.specs.Prelude.{◌≡◌, ℕ, ◌+◌, ◌≤◌, List, Option, length, count_by, IfOk};
ghost use Rattle.cxx_text.specs.declared.token.Token.{Token};
ghost use Rattle.cxx_text.specs.Bytes.{is_line_end};
ghost use Rattle.cxx_text.specs.Cover.{AreTokens};
ghost use Rattle.foundation.specs.Limits.{source_limit};

use crate::blank::blank_len;
use crate::longest::{Found, token_at};
use crate::token::{Kind, Token, TokenList, Tokens};
use foundation::NoMemory;
use std::alloc::Global;

// The ends of lines in a piece of text.
fn line_ends(piece: &[u8]) -> u32
    requires { length piece.now ≤ source_limit }
    ensures value { result ≡ count_by is_line_end piece.now }
{
    piece.iter().filter(|b| **b == b'\n').count() as u32
}

/// The tokens of a text of at most 262,144 bytes, up to its end or up to the first place where no token stands.
///
/// The error is want of memory alone: a place where no token stands is part of the answer.
pub fn tokens(alloc: Global, text: &[u8]) -> Result<TokenList, NoMemory>
    requires { length text.now ≤ source_limit }
    ensures cover { IfOk result (λ list. AreTokens text.now list.tokens list.bad) }
    ensures few { IfOk result (λ list. length list.tokens ≤ length text.now + 1) }
{
    let mut tokens = Tokens::new(alloc);
    let mut rest = text;
    let mut at: usize = 0;
    let mut line: u32 = 1;
    while rest.len() > 0 {
        let len = if let Some(len) = blank_len(rest) {
            len
        } else if let Some(found) = token_at(rest) {
            let Found { kind, len, value } = found;
            tokens.push(Token {
                kind,
                start: at as u32,
                end: (at + len) as u32,
                line,
                value,
            })?;
            len
        } else {
            return Ok(TokenList {
                tokens,
                bad: Some(at as u32),
            });
        };
        let (piece, after) = rest.split_at(len);
        line += line_ends(piece);
        at += len;
        rest = after;
    }
    let end = at as u32;
    tokens.push(Token {
        kind: Kind::End,
        start: end,
        end,
        line,
        value: 0,
    })?;
    Ok(TokenList { tokens, bad: None })
}

/// A text has one list of tokens, and one first place where no token stands or none.
#[tactic(auto, using(crate::proofs::Unique::tokens_same))]
pub fn one_token_list()
    ensures { (text : List ℕ) (ts us : List Token) (bad worse : Option ℕ) → AreTokens text ts bad → AreTokens text us worse → (ts ≡ us) × (bad ≡ worse) }
{}

/// A text has a list of tokens, and one first place where no token stands or none.
pub fn some_token_list()
    ensures { (text : List ℕ) → (ts : List Token) × (bad : Option ℕ) × AreTokens text ts bad }
{}
