//! From tokens to lexemes.

ghost use Rattle.std.specs.Prelude.{◌≡◌, [], IfOk};
ghost use Rattle.cxx_grammar.specs.Lexemes.{bytes_between, bytes_of, own_or, opens_block, brace_or, sort_in, lexeme_in, begins_class, own_after, closing, lexemes};

use crate::sort::{Lexeme, Sort, is_name};
use crate::words::{same_bytes, sign_sort, word_sort};
use cxx_text::{Kind, Token};
use foundation::NoMemory;
use std::alloc::Global;

/// The bytes of a text from a place up to another.
pub fn bytes_between(text: &[u8], start: u32, end: u32) -> &[u8]
    ensures { result.now ≡ bytes_between text.now start end }
{
    let at = (start as usize).min(text.len());
    let (_, back) = text.split_at(at);
    let len = (end.saturating_sub(start) as usize).min(back.len());
    let (front, _) = back.split_at(len);
    front
}

// A name, where it is the name of the class.
fn own_or(sort: Sort, is_own: bool) -> Sort
    ensures { result ≡ own_or sort is_own }
{
    match sort {
        Sort::Name if is_own => Sort::OwnName,
        _ => sort,
    }
}

// Whether a brace directly after a token of this sort opens a block.
fn opens_block(sort: Sort) -> bool
    ensures { result ≡ opens_block sort }
{
    match sort {
        Sort::CloseParen | Sort::Else => true,
        _ => false,
    }
}

// The brace of a block, or another sign.
fn brace_or(sort: Sort, is_block: bool) -> Sort
    ensures { result ≡ brace_or sort is_block }
{
    match sort {
        Sort::OpenBrace if is_block => Sort::OpenBlock,
        _ => sort,
    }
}

// The sort of a token.
fn sort_in(text: &[u8], own: &[u8], last: Sort, token: &Token) -> Sort
    ensures { result ≡ sort_in text.now (record { own = own.now; last = last }) token.now }
{
    let bytes = bytes_between(text, token.start, token.end);
    match token.kind {
        Kind::Word => own_or(word_sort(bytes), same_bytes(bytes, own)),
        Kind::Number => {
            if token.value == 0 {
                Sort::Zero
            } else {
                Sort::Number
            }
        }
        Kind::Sign => brace_or(sign_sort(bytes), opens_block(last)),
        Kind::End => Sort::End,
    }
}

// A token with its sort.
fn lexeme_in(text: &[u8], own: &[u8], last: Sort, token: &Token) -> Lexeme
    ensures { result ≡ lexeme_in text.now (record { own = own.now; last = last }) token.now }
{
    Lexeme {
        sort: sort_in(text, own, last, token),
        at: token.start,
        end: token.end,
        line: token.line,
        value: token.value,
    }
}

// Whether a name directly after a token of this sort is that of a class.
fn begins_class(sort: Sort) -> bool
    ensures { result ≡ begins_class sort }
{
    match sort {
        Sort::Struct | Sort::Class => true,
        _ => false,
    }
}

// The name that stood last directly after `struct` or `class`.
fn own_after<'a>(text: &'a [u8], own: &'a [u8], last: Sort, lexeme: &Lexeme) -> &'a [u8]
    ensures { result.now ≡ own_after text.now (record { own = own.now; last = last }) lexeme.now }
{
    if begins_class(last) && is_name(lexeme.sort) {
        bytes_between(text, lexeme.at, lexeme.end)
    } else {
        own
    }
}

// The end of a list.
fn closing(bad: Option<u32>) -> Lexeme
    ensures { result ≡ closing bad }
{
    let at = bad.unwrap_or(0);
    Lexeme {
        sort: Sort::Bad,
        at,
        end: at,
        line: 0,
        value: 0,
    }
}

/// The lexemes of tokens, where a token of this sort stood before them.
///
/// The list is closed by a lexeme `Bad`, at the first place where no token stands, if there is one.
pub fn lexemes(
    alloc: Global,
    text: &[u8],
    tokens: &[Token],
    bad: Option<u32>,
    last: Sort,
) -> Result<Vec<Lexeme>, NoMemory>
    ensures { IfOk result (λ v. v.items ≡ lexemes text.now (record { own = []; last = last }) tokens.now bad) }
{
    let mut out = Vec::new(alloc);
    let mut own: &[u8] = &[];
    let mut before = last;
    for token in tokens {
        let lexeme = lexeme_in(text, own, before, token);
        own = own_after(text, own, before, &lexeme);
        before = lexeme.sort;
        out.push(lexeme)?;
    }
    out.push(closing(bad))?;
    Ok(out)
}
