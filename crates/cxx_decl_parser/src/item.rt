//! The items of a source.

ghost use Rattle.std.specs.Prelude.{◌≡◌, ◌≤◌, ◌∷◌, [], List, Bool, true, false, Some, length, IfOk};
ghost use Rattle.cxx_hierarchy.specs.declared.stop.Stop.{Stop};
ghost use Rattle.cxx_grammar.specs.declared.sort.Lexeme.{Lexeme};
ghost use Rattle.cxx_grammar.specs.declared.sort.Sort.{Sort};
ghost use Rattle.cxx_grammar.specs.Front.{IsName};
ghost use Rattle.cxx_grammar.specs.invariants.Run.{Follows};
ghost use Rattle.cxx_grammar.specs.Table.{Only, AName, ABlock, AfterInt, ClassTail, PartsEnd, ItemsEnd};
ghost use Rattle.cxx_syntax.specs.Parts.{BasesRead};
ghost use Rattle.cxx_syntax.specs.Sources.{default_of, IsClassKey, ItemReads, is_no_main};
ghost use Rattle.cxx_record_parser.specs.invariants.Readers.{begins_value, outside, main_after, FollowsTo, max_lexemes};

use crate::class_part::parts;
use cxx_body_parser::{Reading, Text, block};
use cxx_grammar::{Lexeme, Sort, is_same, name_of, next, refusal, take, take_name};
use cxx_hierarchy::{BaseList, Name, Rule, Scalar, Stop, ValueType};
use cxx_record_parser::base::bases;
use cxx_record_parser::value::begins_value;
use cxx_record_parser::variable::{global, value_item};
use cxx_syntax::Item;
use foundation::Sequence;

// "{" {part} "}" ";" of a class of this name
fn class_body<'a>(
    text: &Text,
    by_default: bool,
    word: Lexeme,
    bases: BaseList<Name>,
    rest: &'a [Lexeme],
) -> Reading<'a, Item>
    requires { length rest.now ≤ max_lexemes }
    ensures reads { IfOk result (λ x. (key : Lexeme) (ts a b : List Lexeme) → IsClassKey by_default key ts a → IsName word a b → BasesRead text.now.bytes.now by_default bases b rest.now → ItemReads text.now.bytes.now x.0 ts x.1.now) }
    ensures class { IfOk result (λ x. is_no_main x.0 ≡ true) }
    ensures shorter { IfOk result (λ x. length x.1.now ≤ length rest.now) }
    ensures follows { (m : Bool) → Follows (λ x. x.1.now) (outside m) (Only Sort.OpenBrace ∷ PartsEnd ∷ Only Sort.Semicolon ∷ []) rest.now (outside m) [] result }
{
    let (_open, rest) = take(rest, Sort::OpenBrace)?;
    let (draft, _close, rest) = parts(text, by_default, &word, rest)?;
    let (_end, rest) = take(rest, Sort::Semicolon)?;
    let (definition, bodies) = draft.finish(text.alloc, text.bytes, &word, bases)?;
    Ok((Item::Class(definition, bodies), rest))
}

// a class or a forward declaration after its first word
fn class_item<'a>(
    text: &Text,
    by_default: bool,
    key: Lexeme,
    rest: &'a [Lexeme],
) -> Reading<'a, Item>
    requires key { default_of key.sort ≡ Some by_default }
    requires few { length rest.now ≤ max_lexemes }
    ensures reads { IfOk result (λ x. ItemReads text.now.bytes.now x.0 (key ∷ rest.now) x.1.now) }
    ensures class { IfOk result (λ x. is_no_main x.0 ≡ true) }
    ensures shorter { IfOk result (λ x. length x.1.now ≤ length rest.now) }
    ensures follows { (m : Bool) → Follows (λ x. x.1.now) (outside m) (AName ∷ ClassTail ∷ []) rest.now (outside m) [] result }
{
    let (word, rest) = take_name(rest)?;
    let (sign, after) = next(rest)?;
    if is_same(sign.sort, Sort::Semicolon) {
        return Ok((Item::Forward, after));
    }
    if is_same(sign.sort, Sort::Colon) {
        let (bases, after) = bases(text.alloc, text.bytes, by_default, sign, after)?;
        let (item, after) = class_body(text, by_default, word, bases, after)?;
        return Ok((item, after));
    }
    let none = Sequence::new(text.alloc);
    let (item, after) = class_body(text, by_default, word, none, rest)?;
    Ok((item, after))
}

// "(" ")" block after "int" "main"
fn main_function<'a>(
    text: &Text,
    first: Lexeme,
    word: Lexeme,
    rest: &'a [Lexeme],
) -> Reading<'a, Item>
    requires first { first.sort ≡ Sort.Int }
    requires word { word.sort ≡ Sort.Main }
    ensures reads { IfOk result (λ x. ItemReads text.now.bytes.now x.0 (first ∷ word ∷ rest.now) x.1.now) }
    ensures main { IfOk result (λ x. is_no_main x.0 ≡ false) }
    ensures shorter { IfOk result (λ x. length x.1.now ≤ length rest.now) }
    ensures follows { (m : Bool) → Follows (λ x. x.1.now) (outside m) (Only Sort.OpenParen ∷ Only Sort.CloseParen ∷ ABlock ∷ []) rest.now (outside m) [] result }
{
    let (_open, rest) = take(rest, Sort::OpenParen)?;
    let (_close, rest) = take(rest, Sort::CloseParen)?;
    let (tree, rest) = block(text, rest, 0)?;
    Ok((Item::Main(tree), rest))
}

// a variable or `main` after "int", where there was a `main` before or not
fn int_item<'a>(text: &Text, has_main: bool, first: Lexeme, rest: &'a [Lexeme]) -> Reading<'a, Item>
    requires { first.sort ≡ Sort.Int }
    ensures reads { IfOk result (λ x. ItemReads text.now.bytes.now x.0 (first ∷ rest.now) x.1.now) }
    ensures one_main { IfOk result (λ x. has_main ≡ true → is_no_main x.0 ≡ true) }
    ensures shorter { IfOk result (λ x. length x.1.now ≤ length rest.now) }
    ensures follows { FollowsTo (λ x. x.1.now) (outside has_main) (AfterInt ∷ []) rest.now (λ x. outside (main_after has_main x.0)) [] result }
{
    let (word, after) = next(rest)?;
    if is_same(word.sort, Sort::Main) {
        if has_main {
            return Err(Stop::Refused(Rule::DuplicateMember, word.at));
        }
        let (item, after) = main_function(text, first, word, after)?;
        return Ok((item, after));
    }
    let ty = ValueType::Number(Scalar::Int);
    let (item, after) = global(text.alloc, text.bytes, first, ty, rest)?;
    Ok((item, after))
}

// an item, the first token of which was read
pub(crate) fn item<'a>(
    text: &Text,
    has_main: bool,
    first: Lexeme,
    rest: &'a [Lexeme],
) -> Reading<'a, Item>
    requires first { first.sort ≡ Sort.End → ⊥ }
    requires few { length rest.now ≤ max_lexemes }
    ensures reads { IfOk result (λ x. ItemReads text.now.bytes.now x.0 (first ∷ rest.now) x.1.now) }
    ensures one_main { IfOk result (λ x. has_main ≡ true → is_no_main x.0 ≡ true) }
    ensures shorter { IfOk result (λ x. length x.1.now ≤ length rest.now) }
    ensures follows { FollowsTo (λ x. x.1.now) (outside has_main) (ItemsEnd ∷ []) (first ∷ rest.now) (λ x. outside (main_after has_main x.0)) (ItemsEnd ∷ []) result }
{
    match first.sort {
        Sort::Struct => class_item(text, true, first, rest),
        Sort::Class => class_item(text, false, first, rest),
        Sort::Int => int_item(text, has_main, first, rest),
        _ => {
            if !begins_value(first.sort) {
                return Err(refusal(&first));
            }
            value_item(text.alloc, text.bytes, first, rest)
        }
    }
}
