//! The parts of a class.

ghost use Rattle.std.specs.Prelude.{◌≡◌, ◌≤◌, ◌∷◌, ◌++◌, [], List, Bool, true, false, length, IfOk};
ghost use Rattle.cxx_hierarchy.specs.declared.stop.Stop.{Stop};
ghost use Rattle.cxx_hierarchy.specs.declared.records.FieldType.{FieldType};
ghost use Rattle.cxx_hierarchy.specs.declared.records.Scalar.{Scalar};
ghost use Rattle.cxx_hierarchy.specs.declared.records.ValueType.{ValueType};
ghost use Rattle.cxx_grammar.specs.declared.sort.Lexeme.{Lexeme};
ghost use Rattle.cxx_grammar.specs.declared.sort.Sort.{Sort};
ghost use Rattle.cxx_grammar.specs.Sorts.{is_name};
ghost use Rattle.cxx_grammar.specs.Front.{IsName};
ghost use Rattle.cxx_grammar.specs.invariants.Run.{Follows};
ghost use Rattle.cxx_grammar.specs.Table.{Only, AName, ABlock, ParamsEnd, AfterDeclared, AfterScalar, AfterType, AfterOwnName, PartsEnd, is_scalar_word, scalar_rest};
ghost use Rattle.cxx_syntax.specs.Statements.{IsFirst, ScalarReads, ValueReads};
ghost use Rattle.cxx_syntax.specs.declared.part.ClassPart.{ClassPart};
ghost use Rattle.cxx_syntax.specs.Parts.{access_of, PartReads, PartsRead};
ghost use Rattle.cxx_record_parser.specs.invariants.Readers.{outside, max_lexemes, IsDraft};

use crate::function::{FunctionHead, constructor, destructor, plain_function, virtual_part};
use cxx_body_parser::{Reading, Text};
use cxx_grammar::{Lexeme, Sort, is_same, name_of, next, refusal, take, take_name};
use cxx_hierarchy::{FieldType, Name, ReturnType, Scalar, Stop, ValueType};
use cxx_record_parser::draft::{Draft, public_after};
use cxx_record_parser::member::{bit_field_end, field_end, label};
use cxx_syntax::ClassPart;
use cxx_syntax::scalar::scalar;

// The first token of a part, and whether what stands there is public.
#[derive(Clone, Copy)]
struct PartFront {
    is_public: bool,
    first: Lexeme,
}

// the rest of a field or of a function after its value and its name
fn after_declared<'a>(
    text: &Text,
    front: PartFront,
    ty: ValueType<Name>,
    word: Lexeme,
    rest: &'a [Lexeme],
) -> Reading<'a, ClassPart>
    ensures reads { IfOk result (λ x. (ts a : List Lexeme) → IsFirst front.first ts → ValueReads text.now.bytes.now ty ts a → IsName word a rest.now → PartReads text.now.bytes.now front.is_public x.0 ts x.1.now) }
    ensures shorter { IfOk result (λ x. length x.1.now ≤ length rest.now) }
    ensures follows { (m : Bool) → Follows (λ x. x.1.now) (outside m) (AfterDeclared ∷ []) rest.now (outside m) [] result }
{
    let PartFront { is_public, first } = front;
    let (sign, after) = next(rest)?;
    if is_same(sign.sort, Sort::OpenParen) {
        let ret = ReturnType::Value(ty);
        let head = FunctionHead { first, ret, word };
        let (part, after) = plain_function(text, head, after)?;
        return Ok((part, after));
    }
    let ty = FieldType::Value(ty);
    let (part, after) = field_end(text.alloc, text.bytes, is_public, first, ty, word, rest)?;
    Ok((part, after))
}

// name and the rest of a field or of a function after a pointer
fn pointer_part<'a>(
    text: &Text,
    front: PartFront,
    ty: ValueType<Name>,
    rest: &'a [Lexeme],
) -> Reading<'a, ClassPart>
    ensures reads { IfOk result (λ x. (ts : List Lexeme) → IsFirst front.first ts → ValueReads text.now.bytes.now ty ts rest.now → PartReads text.now.bytes.now front.is_public x.0 ts x.1.now) }
    ensures shorter { IfOk result (λ x. length x.1.now ≤ length rest.now) }
    ensures follows { (m : Bool) → Follows (λ x. x.1.now) (outside m) (AName ∷ AfterDeclared ∷ []) rest.now (outside m) [] result }
{
    let (word, rest) = take_name(rest)?;
    let (part, rest) = after_declared(text, front, ty, word, rest)?;
    Ok((part, rest))
}

// the rest of a field or of a function after a scalar and its name
fn after_scalar<'a>(
    text: &Text,
    front: PartFront,
    ty: Scalar,
    word: Lexeme,
    rest: &'a [Lexeme],
) -> Reading<'a, ClassPart>
    ensures reads { IfOk result (λ x. (ts a : List Lexeme) → IsFirst front.first ts → ScalarReads ty ts a → IsName word a rest.now → PartReads text.now.bytes.now front.is_public x.0 ts x.1.now) }
    ensures shorter { IfOk result (λ x. length x.1.now ≤ length rest.now) }
    ensures follows { (m : Bool) → Follows (λ x. x.1.now) (outside m) (AfterScalar ∷ []) rest.now (outside m) [] result }
{
    let PartFront { is_public, first } = front;
    let (sign, _) = next(rest)?;
    if is_same(sign.sort, Sort::Colon) {
        let (part, after) = bit_field_end(
            text.alloc, text.bytes, is_public, first, ty, word, rest,
        )?;
        return Ok((part, after));
    }
    let ty = ValueType::Number(ty);
    let (part, after) = after_declared(text, front, ty, word, rest)?;
    Ok((part, after))
}

// a field or a function that begins with a scalar
fn scalar_part<'a>(text: &Text, front: PartFront, rest: &'a [Lexeme]) -> Reading<'a, ClassPart>
    requires { is_scalar_word front.first.sort ≡ true }
    ensures reads { IfOk result (λ x. PartReads text.now.bytes.now front.is_public x.0 (front.first ∷ rest.now) x.1.now) }
    ensures shorter { IfOk result (λ x. length x.1.now ≤ length rest.now) }
    ensures follows { (m : Bool) → Follows (λ x. x.1.now) (outside m) (scalar_rest front.first.sort ++ (AfterScalar ∷ [])) rest.now (outside m) [] result }
{
    let (ty, rest) = scalar(front.first, rest)?;
    let (word, rest) = take_name(rest)?;
    let (part, rest) = after_scalar(text, front, ty, word, rest)?;
    Ok((part, rest))
}

// a field or a function that begins with a name
fn name_part<'a>(text: &Text, front: PartFront, rest: &'a [Lexeme]) -> Reading<'a, ClassPart>
    requires { is_name front.first.sort ≡ true }
    ensures reads { IfOk result (λ x. PartReads text.now.bytes.now front.is_public x.0 (front.first ∷ rest.now) x.1.now) }
    ensures shorter { IfOk result (λ x. length x.1.now ≤ length rest.now) }
    ensures follows { (m : Bool) → Follows (λ x. x.1.now) (outside m) (AfterType ∷ []) rest.now (outside m) [] result }
{
    let PartFront { is_public, first } = front;
    let (sign, after) = next(rest)?;
    if is_same(sign.sort, Sort::Star) {
        let class = name_of(text.alloc, text.bytes, &first)?;
        let ty = ValueType::Pointer(class);
        let (part, after) = pointer_part(text, front, ty, after)?;
        return Ok((part, after));
    }
    let (word, after) = take_name(rest)?;
    let class = name_of(text.alloc, text.bytes, &first)?;
    let ty = FieldType::Object(class);
    let (part, after) = field_end(text.alloc, text.bytes, is_public, first, ty, word, after)?;
    Ok((part, after))
}

// a constructor, or a field or a function, that begins with the name of its class
fn own_name_part<'a>(text: &Text, front: PartFront, rest: &'a [Lexeme]) -> Reading<'a, ClassPart>
    requires { front.first.sort ≡ Sort.OwnName }
    ensures reads { IfOk result (λ x. PartReads text.now.bytes.now front.is_public x.0 (front.first ∷ rest.now) x.1.now) }
    ensures shorter { IfOk result (λ x. length x.1.now ≤ length rest.now) }
    ensures follows { (m : Bool) → Follows (λ x. x.1.now) (outside m) (AfterOwnName ∷ []) rest.now (outside m) [] result }
{
    let (sign, after) = next(rest)?;
    if is_same(sign.sort, Sort::OpenParen) {
        let (part, after) = constructor(text, front.first, sign, after)?;
        return Ok((part, after));
    }
    let (part, after) = name_part(text, front, rest)?;
    Ok((part, after))
}

// a function without a result, after "void"
fn void_part<'a>(text: &Text, first: Lexeme, rest: &'a [Lexeme]) -> Reading<'a, ClassPart>
    requires { first.sort ≡ Sort.Void }
    ensures reads { IfOk result (λ x. (is_public : Bool) → PartReads text.now.bytes.now is_public x.0 (first ∷ rest.now) x.1.now) }
    ensures shorter { IfOk result (λ x. length x.1.now ≤ length rest.now) }
    ensures follows { (m : Bool) → Follows (λ x. x.1.now) (outside m) (AName ∷ Only Sort.OpenParen ∷ ParamsEnd ∷ ABlock ∷ []) rest.now (outside m) [] result }
{
    let (word, rest) = take_name(rest)?;
    let (_open, rest) = take(rest, Sort::OpenParen)?;
    let head = FunctionHead {
        first,
        ret: ReturnType::Void,
        word,
    };
    let (part, rest) = plain_function(text, head, rest)?;
    Ok((part, rest))
}

// a part, the first token of which was read
fn part<'a>(text: &Text, front: PartFront, rest: &'a [Lexeme]) -> Reading<'a, ClassPart>
    requires { front.first.sort ≡ Sort.CloseBrace → ⊥ }
    ensures reads { IfOk result (λ x. PartReads text.now.bytes.now front.is_public x.0 (front.first ∷ rest.now) x.1.now) }
    ensures shorter { IfOk result (λ x. length x.1.now ≤ length rest.now) }
    ensures follows { (m : Bool) → Follows (λ x. x.1.now) (outside m) (PartsEnd ∷ []) (front.first ∷ rest.now) (outside m) (PartsEnd ∷ []) result }
{
    match front.first.sort {
        Sort::Public => label(front.first, true, rest),
        Sort::Protected | Sort::Private => label(front.first, false, rest),
        Sort::Name => name_part(text, front, rest),
        Sort::OwnName => own_name_part(text, front, rest),
        Sort::Virtual => virtual_part(text, front.first, rest),
        Sort::Void => void_part(text, front.first, rest),
        Sort::Tilde => destructor(text, false, front.first, rest),
        Sort::Boolean
        | Sort::Char
        | Sort::Short
        | Sort::Int
        | Sort::Long
        | Sort::Signed
        | Sort::Unsigned => scalar_part(text, front, rest),
        _ => Err(refusal(&front.first)),
    }
}

// {part} "}", in a class of this name
pub(crate) fn parts<'a>(
    text: &Text,
    by_default: bool,
    class: &Lexeme,
    rest: &'a [Lexeme],
) -> Result<(Draft, Lexeme, &'a [Lexeme]), Stop>
    requires { length rest.now ≤ max_lexemes }
    ensures reads { IfOk result (λ x. (ps : List ClassPart) × PartsRead text.now.bytes.now by_default ps rest.now (x.1 ∷ x.2.now) × IsDraft text.now.bytes.now class.now ps x.0) }
    ensures close { IfOk result (λ x. x.1.sort ≡ Sort.CloseBrace) }
    ensures shorter { IfOk result (λ x. length x.2.now ≤ length rest.now) }
    ensures follows { (m : Bool) → Follows (λ x. x.2.now) (outside m) (PartsEnd ∷ []) rest.now (outside m) [] result }
{
    let mut draft = Draft::new(text.alloc);
    let mut is_public = by_default;
    let mut left = rest;
    loop {
        let (first, after) = next(left)?;
        if is_same(first.sort, Sort::CloseBrace) {
            return Ok((draft, first, after));
        }
        let front = PartFront { is_public, first };
        let (read, more) = part(text, front, after)?;
        is_public = public_after(is_public, &read);
        draft.add(text.alloc, text.bytes, class, read)?;
        left = more;
    }
}
