//! Access labels, and the records of fields and functions.

ghost use Rattle.std.specs.Prelude.{◌≡◌, ℕ, ◌≤◌, ◌∷◌, [], List, Bool, Some, length, IfOk, IfErr};
ghost use Rattle.cxx_hierarchy.specs.declared.stop.Stop.{Stop};
ghost use Rattle.cxx_hierarchy.specs.declared.records.Scalar.{Scalar};
ghost use Rattle.cxx_hierarchy.specs.declared.records.FieldType.{FieldType};
ghost use Rattle.cxx_hierarchy.specs.declared.records.Function.{Function};
ghost use Rattle.cxx_grammar.specs.declared.sort.Lexeme.{Lexeme};
ghost use Rattle.cxx_grammar.specs.declared.sort.Sort.{Sort};
ghost use Rattle.cxx_grammar.specs.Front.{IsName};
ghost use Rattle.cxx_grammar.specs.Lexemes.{bytes_of};
ghost use Rattle.cxx_grammar.specs.Event.{State};
ghost use Rattle.cxx_grammar.specs.invariants.Run.{Follows};
ghost use Rattle.cxx_grammar.specs.Table.{Only, ANumber, FieldEnd};
ghost use Rattle.cxx_syntax.specs.Statements.{IsFirst, ScalarReads};
ghost use Rattle.cxx_syntax.specs.declared.part.ClassPart.{ClassPart};
ghost use Rattle.cxx_syntax.specs.Parts.{access_of, FieldTypeReads, PartReads};

use crate::value::{count, held};
use cxx_grammar::{Lexeme, Sort, name_of, take, take_number};
use cxx_hierarchy::{
    FieldType, Function, Member, Name, ParamList, ReturnType, Scalar, Stop, ValueType,
};
use cxx_syntax::ClassPart;
use std::alloc::Global;

/// Reads the `:` of an access label after its word.
///
/// Errors: E1, E21 or E2 at the first token that fits no form.
pub fn label(first: Lexeme, access: bool, rest: &[Lexeme]) -> Result<(ClassPart, &[Lexeme]), Stop>
    requires { access_of first.sort ≡ Some access }
    ensures reads { IfOk result (λ x. (text : List ℕ) (is_public : Bool) → PartReads text is_public x.0 (first ∷ rest.now) x.1.now) }
    ensures shorter { IfOk result (λ x. length x.1.now ≤ length rest.now) }
    ensures follows { (s : State) → Follows (λ x. x.1.now) s (Only Sort.Colon ∷ []) rest.now s [] result }
{
    let (_colon, rest) = take(rest, Sort::Colon)?;
    Ok((ClassPart::Label(access), rest))
}

/// Reads `["[" number "]"] ";"` after the type and the name of a field.
///
/// Errors: E1, E21 or E2 at the first token that fits no form, or want of memory.
pub fn field_end<'a>(
    alloc: Global,
    text: &[u8],
    is_public: bool,
    first: Lexeme,
    ty: FieldType<Name>,
    word: Lexeme,
    rest: &'a [Lexeme],
) -> Result<(ClassPart, &'a [Lexeme]), Stop>
    ensures reads { IfOk result (λ x. (ts a : List Lexeme) → IsFirst first ts → FieldTypeReads text.now ty ts a → IsName word a rest.now → PartReads text.now is_public x.0 ts x.1.now) }
    ensures shorter { IfOk result (λ x. length x.1.now ≤ length rest.now) }
    ensures follows { (s : State) → Follows (λ x. x.1.now) s (FieldEnd ∷ []) rest.now s [] result }
{
    let (count, rest) = count(rest)?;
    let (_end, rest) = take(rest, Sort::Semicolon)?;
    let name = name_of(alloc, text, &word)?;
    let member = Member {
        name,
        ty,
        count,
        width: None,
        width_at: 0,
        is_public,
        at: word.at,
    };
    Ok((ClassPart::Field(member, first.at), rest))
}

/// Reads `":" number ";"` after the type and the name of a bit-field (ISO C++03 9.6).
///
/// Errors: E1, E21 or E2 at the first token that fits no form, or want of memory.
pub fn bit_field_end<'a>(
    alloc: Global,
    text: &[u8],
    is_public: bool,
    first: Lexeme,
    ty: Scalar,
    word: Lexeme,
    rest: &'a [Lexeme],
) -> Result<(ClassPart, &'a [Lexeme]), Stop>
    ensures reads { IfOk result (λ x. (ts a : List Lexeme) → IsFirst first ts → ScalarReads ty ts a → IsName word a rest.now → PartReads text.now is_public x.0 ts x.1.now) }
    ensures shorter { IfOk result (λ x. length x.1.now ≤ length rest.now) }
    ensures follows { (s : State) → Follows (λ x. x.1.now) s (Only Sort.Colon ∷ ANumber ∷ Only Sort.Semicolon ∷ []) rest.now s [] result }
{
    let (_colon, rest) = take(rest, Sort::Colon)?;
    let (number, rest) = take_number(rest)?;
    let (_end, rest) = take(rest, Sort::Semicolon)?;
    let name = name_of(alloc, text, &word)?;
    let member = Member {
        name,
        ty: FieldType::Value(ValueType::Number(ty)),
        count: None,
        width: Some(held(number.value)),
        width_at: number.at,
        is_public,
        at: word.at,
    };
    Ok((ClassPart::Field(member, first.at), rest))
}

/// The function that a name token gives. The error is want of memory.
pub fn function_of(
    alloc: Global,
    text: &[u8],
    word: &Lexeme,
    params: ParamList<Name>,
    ret: ReturnType<Name>,
    is_virtual: bool,
    is_pure: bool,
) -> Result<Function<Name>, Stop>
    ensures ok { IfOk result (λ g. g ≡ record { name = bytes_of text.now word.now; params = params; ret = ret; is_virtual = is_virtual; is_pure = is_pure; at = word.now.at }) }
    ensures err { IfErr result (λ e. e ≡ Stop.NoMemory) }
{
    let name = name_of(alloc, text, word)?;
    Ok(Function {
        name,
        params,
        ret,
        is_virtual,
        is_pure,
        at: word.at,
    })
}
