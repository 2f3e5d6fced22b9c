//! Access words, and the bases of a class.

ghost use Rattle.std.specs.Prelude.{◌≡◌, ◌≤◌, ◌∷◌, [], List, Bool, true, false, Option, length, IfOk, IfErr};
ghost use Rattle.cxx_hierarchy.specs.declared.stop.Stop.{Stop};
ghost use Rattle.cxx_grammar.specs.declared.sort.Lexeme.{Lexeme};
ghost use Rattle.cxx_grammar.specs.declared.sort.Sort.{Sort};
ghost use Rattle.cxx_grammar.specs.Event.{State};
ghost use Rattle.cxx_grammar.specs.invariants.Run.{Follows};
ghost use Rattle.cxx_grammar.specs.Table.{Only, ABase, BasesEnd, BaseAfterVirtual, BaseAfterAccess, PartsEnd};
ghost use Rattle.cxx_syntax.specs.Parts.{access_of, base_by_token, BaseReads, BasesRead};

use cxx_grammar::{Lexeme, Sort, is_same, name_of, next, take_name};
use cxx_hierarchy::{Base, BaseList, Name, Stop};
use foundation::Sequence;
use std::alloc::Global;

/// Whether an access is public, and none where the word is no access (ISO C++03 11).
pub fn access_of(sort: Sort) -> Option<bool>
    ensures { result ≡ access_of sort }
{
    match sort {
        Sort::Public => Some(true),
        Sort::Protected | Sort::Private => Some(false),
        _ => None,
    }
}

// The base that a name token gives. The error is want of memory.
fn base_of(
    alloc: Global,
    text: &[u8],
    name: &Lexeme,
    is_virtual: bool,
    is_public: bool,
) -> Result<Base<Name>, Stop>
    ensures ok { IfOk result (λ b. b ≡ base_by_token text.now name.now is_virtual is_public) }
    ensures err { IfErr result (λ e. e ≡ Stop.NoMemory) }
{
    let class = name_of(alloc, text, name)?;
    Ok(Base {
        class,
        is_virtual,
        is_public,
        at: name.at,
    })
}

// [access] name after "virtual"
fn base_after_virtual<'a>(
    alloc: Global,
    text: &[u8],
    by_default: bool,
    first: Lexeme,
    rest: &'a [Lexeme],
) -> Result<(Base<Name>, &'a [Lexeme]), Stop>
    requires { first.sort ≡ Sort.Virtual }
    ensures reads { IfOk result (λ x. BaseReads text.now by_default x.0 (first ∷ rest.now) x.1.now) }
    ensures shorter { IfOk result (λ x. length x.1.now ≤ length rest.now) }
    ensures follows { (s : State) → Follows (λ x. x.1.now) s (BaseAfterVirtual ∷ []) rest.now s [] result }
{
    let (word, after) = next(rest)?;
    if let Some(is_public) = access_of(word.sort) {
        let (name, after) = take_name(after)?;
        let base = base_of(alloc, text, &name, true, is_public)?;
        return Ok((base, after));
    }
    let (name, after) = take_name(rest)?;
    let base = base_of(alloc, text, &name, true, by_default)?;
    Ok((base, after))
}

// ["virtual"] name after an access
fn base_after_access<'a>(
    alloc: Global,
    text: &[u8],
    is_public: bool,
    first: Lexeme,
    rest: &'a [Lexeme],
) -> Result<(Base<Name>, &'a [Lexeme]), Stop>
    requires { access_of first.sort ≡ Some is_public }
    ensures reads { IfOk result (λ x. (default : Bool) → BaseReads text.now default x.0 (first ∷ rest.now) x.1.now) }
    ensures shorter { IfOk result (λ x. length x.1.now ≤ length rest.now) }
    ensures follows { (s : State) → Follows (λ x. x.1.now) s (BaseAfterAccess ∷ []) rest.now s [] result }
{
    let (word, after) = next(rest)?;
    if is_same(word.sort, Sort::Virtual) {
        let (name, after) = take_name(after)?;
        let base = base_of(alloc, text, &name, true, is_public)?;
        return Ok((base, after));
    }
    let (name, after) = take_name(rest)?;
    let base = base_of(alloc, text, &name, false, is_public)?;
    Ok((base, after))
}

// base
fn base<'a>(
    alloc: Global,
    text: &[u8],
    by_default: bool,
    rest: &'a [Lexeme],
) -> Result<(Base<Name>, &'a [Lexeme]), Stop>
    ensures reads { IfOk result (λ x. BaseReads text.now by_default x.0 rest.now x.1.now) }
    ensures shorter { IfOk result (λ x. length x.1.now ≤ length rest.now) }
    ensures follows { (s : State) → Follows (λ x. x.1.now) s (ABase ∷ []) rest.now s [] result }
{
    let (first, after) = next(rest)?;
    if is_same(first.sort, Sort::Virtual) {
        return base_after_virtual(alloc, text, by_default, first, after);
    }
    if let Some(is_public) = access_of(first.sort) {
        return base_after_access(alloc, text, is_public, first, after);
    }
    let (name, after) = take_name(rest)?;
    let base = base_of(alloc, text, &name, false, by_default)?;
    Ok((base, after))
}

/// Reads `base {"," base}` after `:` and before `{` (ISO C++03 10).
///
/// Errors: E1, E21 or E2 at the first token that fits no form, or want of memory.
pub fn bases<'a>(
    alloc: Global,
    text: &[u8],
    by_default: bool,
    colon: Lexeme,
    rest: &'a [Lexeme],
) -> Result<(BaseList<Name>, &'a [Lexeme]), Stop>
    requires { colon.sort ≡ Sort.Colon }
    ensures reads { IfOk result (λ x. BasesRead text.now by_default x.0 (colon ∷ rest.now) x.1.now) }
    ensures shorter { IfOk result (λ x. length x.1.now ≤ length rest.now) }
    ensures follows { (s : State) → Follows (λ x. x.1.now) s (ABase ∷ BasesEnd ∷ []) rest.now s (Only Sort.OpenBrace ∷ PartsEnd ∷ Only Sort.Semicolon ∷ []) result }
{
    let mut items = Sequence::new(alloc);
    let (first, after) = base(alloc, text, by_default, rest)?;
    items.push(first)?;
    let mut left = after;
    loop {
        let (sign, after) = next(left)?;
        if !is_same(sign.sort, Sort::Comma) {
            return Ok((items, left));
        }
        let (item, after) = base(alloc, text, by_default, after)?;
        items.push(item)?;
        left = after;
    }
}
