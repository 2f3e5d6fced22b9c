//! Functions, constructors and destructors.

ghost use Rattle.std.specs.Prelude.{◌≡◌, ◌≤◌, ◌∷◌, [], List, Bool, true, false, length, IfOk};
ghost use Rattle.cxx_hierarchy.specs.declared.stop.Stop.{Stop};
ghost use Rattle.cxx_hierarchy.specs.declared.records.Function.{Function};
ghost use Rattle.cxx_grammar.specs.declared.sort.Lexeme.{Lexeme};
ghost use Rattle.cxx_grammar.specs.declared.sort.Sort.{Sort};
ghost use Rattle.cxx_grammar.specs.invariants.Run.{Follows};
ghost use Rattle.cxx_grammar.specs.Table.{Only, AName, ABlock, ConstructorEnd, ParamsEnd, VirtualEnd, AfterVirtual};
ghost use Rattle.cxx_syntax.specs.Statements.{IsFirst};
ghost use Rattle.cxx_syntax.specs.Parts.{VirtualReads, ReturnReads, PartReads};
ghost use Rattle.cxx_record_parser.specs.invariants.Readers.{HeadReads, outside};

use cxx_body_parser::{Reading, Text, block};
use cxx_grammar::{Lexeme, Sort, is_same, next, refusal, take, take_name};
use cxx_hierarchy::{Name, ReturnType};
use cxx_record_parser::initializer::inits;
use cxx_record_parser::member::function_of;
use cxx_record_parser::value::{begins_value, params, value};
use cxx_syntax::ClassPart;

/// The first token of a function, behind `virtual` where that stands, what the function returns, and its name.
#[derive(Drop)]
pub(crate) struct FunctionHead {
    pub(crate) first: Lexeme,
    pub(crate) ret: ReturnType<Name>,
    pub(crate) word: Lexeme,
}

// "(" ")" [":" init {"," init}] block after the name of a constructor
pub(crate) fn constructor<'a>(
    text: &Text,
    first: Lexeme,
    sign: Lexeme,
    rest: &'a [Lexeme],
) -> Reading<'a, ClassPart>
    requires first { first.sort ≡ Sort.OwnName }
    requires sign { sign.sort ≡ Sort.OpenParen }
    ensures reads { IfOk result (λ x. (is_public : Bool) → PartReads text.now.bytes.now is_public x.0 (first ∷ sign ∷ rest.now) x.1.now) }
    ensures shorter { IfOk result (λ x. length x.1.now ≤ length rest.now) }
    ensures follows { (m : Bool) → Follows (λ x. x.1.now) (outside m) (Only Sort.CloseParen ∷ ConstructorEnd ∷ []) rest.now (outside m) [] result }
{
    let (_close, rest) = take(rest, Sort::CloseParen)?;
    let (inits, rest) = inits(text.alloc, text.bytes, rest)?;
    let (tree, rest) = block(text, rest, 0)?;
    Ok((ClassPart::Constructor(first.at, inits, tree), rest))
}

// name "(" ")" block after "~"
pub(crate) fn destructor<'a>(
    text: &Text,
    is_virtual: bool,
    tilde: Lexeme,
    rest: &'a [Lexeme],
) -> Reading<'a, ClassPart>
    requires { tilde.sort ≡ Sort.Tilde }
    ensures reads { IfOk result (λ x. (is_public : Bool) (ts : List Lexeme) → VirtualReads is_virtual ts (tilde ∷ rest.now) → PartReads text.now.bytes.now is_public x.0 ts x.1.now) }
    ensures shorter { IfOk result (λ x. length x.1.now ≤ length rest.now) }
    ensures follows { (m : Bool) → Follows (λ x. x.1.now) (outside m) (Only Sort.OwnName ∷ Only Sort.OpenParen ∷ Only Sort.CloseParen ∷ ABlock ∷ []) rest.now (outside m) [] result }
{
    let (word, rest) = take(rest, Sort::OwnName)?;
    let (_open, rest) = take(rest, Sort::OpenParen)?;
    let (_close, rest) = take(rest, Sort::CloseParen)?;
    let (tree, rest) = block(text, rest, 0)?;
    Ok((ClassPart::Destructor(is_virtual, word.at, tree), rest))
}

// [param {"," param}] ")" block after the "(" of a function without "virtual"
pub(crate) fn plain_function<'a>(
    text: &Text,
    head: FunctionHead,
    rest: &'a [Lexeme],
) -> Reading<'a, ClassPart>
    ensures reads { IfOk result (λ x. (is_public : Bool) (ts : List Lexeme) → HeadReads text.now.bytes.now false head.first head.ret head.word ts rest.now → PartReads text.now.bytes.now is_public x.0 ts x.1.now) }
    ensures shorter { IfOk result (λ x. length x.1.now ≤ length rest.now) }
    ensures follows { (m : Bool) → Follows (λ x. x.1.now) (outside m) (ParamsEnd ∷ ABlock ∷ []) rest.now (outside m) [] result }
{
    let FunctionHead { first, ret, word } = head;
    let (params, _close, rest) = params(text.alloc, text.bytes, rest)?;
    let (tree, rest) = block(text, rest, 0)?;
    let function = function_of(text.alloc, text.bytes, &word, params, ret, false, false)?;
    Ok((ClassPart::Function(function, first.at, Some(tree)), rest))
}

// [param {"," param}] ")", and a block or "=" "0" ";", after the "(" of a virtual function
fn virtual_function<'a>(
    text: &Text,
    head: FunctionHead,
    rest: &'a [Lexeme],
) -> Reading<'a, ClassPart>
    ensures reads { IfOk result (λ x. (is_public : Bool) (ts : List Lexeme) → HeadReads text.now.bytes.now true head.first head.ret head.word ts rest.now → PartReads text.now.bytes.now is_public x.0 ts x.1.now) }
    ensures shorter { IfOk result (λ x. length x.1.now ≤ length rest.now) }
    ensures follows { (m : Bool) → Follows (λ x. x.1.now) (outside m) (ParamsEnd ∷ VirtualEnd ∷ []) rest.now (outside m) [] result }
{
    let FunctionHead { first, ret, word } = head;
    let (params, _close, rest) = params(text.alloc, text.bytes, rest)?;
    let (sign, after) = next(rest)?;
    if is_same(sign.sort, Sort::Assign) {
        let (_zero, after) = take(after, Sort::Zero)?;
        let (_end, after) = take(after, Sort::Semicolon)?;
        let function = function_of(text.alloc, text.bytes, &word, params, ret, true, true)?;
        return Ok((ClassPart::Function(function, first.at, None), after));
    }
    let (tree, rest) = block(text, rest, 0)?;
    let function = function_of(text.alloc, text.bytes, &word, params, ret, true, false)?;
    Ok((ClassPart::Function(function, first.at, Some(tree)), rest))
}

// name "(" and the rest of a virtual function after what it returns
fn virtual_named<'a>(
    text: &Text,
    first: Lexeme,
    ret: ReturnType<Name>,
    rest: &'a [Lexeme],
) -> Reading<'a, ClassPart>
    ensures reads { IfOk result (λ x. (is_public : Bool) (ts a : List Lexeme) → VirtualReads true ts a → IsFirst first a → ReturnReads text.now.bytes.now ret a rest.now → PartReads text.now.bytes.now is_public x.0 ts x.1.now) }
    ensures shorter { IfOk result (λ x. length x.1.now ≤ length rest.now) }
    ensures follows { (m : Bool) → Follows (λ x. x.1.now) (outside m) (AName ∷ Only Sort.OpenParen ∷ ParamsEnd ∷ VirtualEnd ∷ []) rest.now (outside m) [] result }
{
    let (word, rest) = take_name(rest)?;
    let (_open, rest) = take(rest, Sort::OpenParen)?;
    let head = FunctionHead { first, ret, word };
    let (part, rest) = virtual_function(text, head, rest)?;
    Ok((part, rest))
}

// (value | "void") name "(" and the rest of a function, or a destructor, after "virtual"
pub(crate) fn virtual_part<'a>(
    text: &Text,
    first: Lexeme,
    rest: &'a [Lexeme],
) -> Reading<'a, ClassPart>
    requires { first.sort ≡ Sort.Virtual }
    ensures reads { IfOk result (λ x. (is_public : Bool) → PartReads text.now.bytes.now is_public x.0 (first ∷ rest.now) x.1.now) }
    ensures shorter { IfOk result (λ x. length x.1.now ≤ length rest.now) }
    ensures follows { (m : Bool) → Follows (λ x. x.1.now) (outside m) (AfterVirtual ∷ []) rest.now (outside m) [] result }
{
    let (word, after) = next(rest)?;
    if is_same(word.sort, Sort::Tilde) {
        let (part, after) = destructor(text, true, word, after)?;
        return Ok((part, after));
    }
    if is_same(word.sort, Sort::Void) {
        let (part, after) = virtual_named(text, word, ReturnType::Void, after)?;
        return Ok((part, after));
    }
    if !begins_value(word.sort) {
        return Err(refusal(&word));
    }
    let (ty, after) = value(text.alloc, text.bytes, word, after)?;
    let (part, after) = virtual_named(text, word, ReturnType::Value(ty), after)?;
    Ok((part, after))
}
