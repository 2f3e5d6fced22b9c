//! Pointers, constants and operands.

ghost use Rattle.std.specs.Prelude.{◌≡◌, ◌≤◌, ◌∷◌, [], List, true, false, length, IfOk, IfErr};
ghost use Rattle.cxx_hierarchy.specs.declared.stop.Stop.{Stop};
ghost use Rattle.cxx_grammar.specs.declared.sort.Lexeme.{Lexeme};
ghost use Rattle.cxx_grammar.specs.Event.{State};
ghost use Rattle.cxx_grammar.specs.invariants.Run.{Follows};
ghost use Rattle.cxx_grammar.specs.Table.{is_pointer, is_constant, AConstant, AnOperand, APointer};
ghost use Rattle.cxx_syntax.specs.Operands.{spot_of, PointerReads, ConstantReads, OperandReads};

use crate::tree::{Constant, Operand, PointerText, Spot};
use cxx_grammar::{Lexeme, Sort, is_name, name_of, next, refusal, take_number};
use cxx_hierarchy::Stop;
use std::alloc::Global;

/// The name that a lexeme spells, and its place. The error is want of memory.
pub fn spot(alloc: Global, text: &[u8], lexeme: &Lexeme) -> Result<Spot, Stop>
    ensures ok { IfOk result (λ s. s ≡ spot_of text.now lexeme.now) }
    ensures err { IfErr result (λ e. e ≡ Stop.NoMemory) }
{
    let name = name_of(alloc, text, lexeme)?;
    Ok(Spot {
        name,
        at: lexeme.at,
    })
}

/// Whether a sort is that of a name or of `this`.
pub fn is_pointer(sort: Sort) -> bool
    ensures { result ≡ is_pointer sort }
{
    match sort {
        Sort::Name | Sort::OwnName | Sort::This => true,
        _ => false,
    }
}

/// The pointer that a lexeme is. The error is want of memory.
#[tactic(auto, using(crate::specs::Operands::a_name, crate::specs::Operands::a_this, cxx_grammar::proofs::Tails::this_pointer))]
pub fn pointer_at(alloc: Global, text: &[u8], first: &Lexeme) -> Result<PointerText, Stop>
    requires { is_pointer first.now.sort ≡ true }
    ensures ok { IfOk result (λ p. (rest : List Lexeme) → PointerReads text.now p (first.now ∷ rest) rest) }
    ensures err { IfErr result (λ e. e ≡ Stop.NoMemory) }
{
    if is_name(first.sort) {
        Ok(PointerText::Name(spot(alloc, text, first)?))
    } else {
        Ok(PointerText::This(first.at))
    }
}

/// Reads a pointer: a name or `this`.
///
/// Errors: E1, E21 or E2 at the first token that fits no form, or want of memory.
#[tactic(auto, using(cxx_grammar::proofs::Tails::a_pointer, cxx_grammar::proofs::Tails::no_pointer))]
pub fn pointer<'a>(
    alloc: Global,
    text: &[u8],
    rest: &'a [Lexeme],
) -> Result<(PointerText, &'a [Lexeme]), Stop>
    ensures reads { IfOk result (λ x. PointerReads text.now x.0 rest.now x.1.now) }
    ensures shorter { IfOk result (λ x. length x.1.now ≤ length rest.now) }
    ensures follows { (s : State) → Follows (λ x. x.1.now) s (APointer ∷ []) rest.now s [] result }
{
    let (first, after) = next(rest)?;
    if is_pointer(first.sort) {
        Ok((pointer_at(alloc, text, &first)?, after))
    } else {
        Err(refusal(&first))
    }
}

/// The operand that a name or `this` is. The error is want of memory.
#[tactic(auto, using(crate::specs::Operands::name_operand, crate::specs::Operands::this_operand, cxx_grammar::proofs::Tails::this_pointer))]
pub fn operand_at(alloc: Global, text: &[u8], first: &Lexeme) -> Result<Operand, Stop>
    requires { is_pointer first.now.sort ≡ true }
    ensures ok { IfOk result (λ v. (rest : List Lexeme) → OperandReads text.now v (first.now ∷ rest) rest) }
    ensures err { IfErr result (λ e. e ≡ Stop.NoMemory) }
{
    if is_name(first.sort) {
        Ok(Operand::Name(spot(alloc, text, first)?))
    } else {
        Ok(Operand::This(first.at))
    }
}

// Whether a sort begins a constant.
fn is_constant(sort: Sort) -> bool
    ensures { result ≡ is_constant sort }
{
    match sort {
        Sort::Number | Sort::Zero | Sort::Minus | Sort::True | Sort::False => true,
        _ => false,
    }
}

/// Reads a constant, the first token of which was read.
///
/// Errors: E1, E21 or E2 at the first token that fits no form.
#[tactic(auto, using(crate::specs::Operands::a_true, crate::specs::Operands::a_false))]
pub fn constant_at(first: Lexeme, rest: &[Lexeme]) -> Result<(Constant, &[Lexeme]), Stop>
    requires { is_constant first.sort ≡ true }
    ensures reads { IfOk result (λ x. ConstantReads x.0 (first ∷ rest.now) x.1.now) }
    ensures shorter { IfOk result (λ x. length x.1.now ≤ length rest.now) }
    ensures follows { (s : State) → Follows (λ x. x.1.now) s (AConstant ∷ []) (first ∷ rest.now) s [] result }
{
    match first.sort {
        Sort::Minus => {
            let (number, after) = take_number(rest)?;
            Ok((Constant::Number(true, number.value, first.at), after))
        }
        Sort::True => Ok((Constant::Truth(true, first.at), rest)),
        Sort::False => Ok((Constant::Truth(false, first.at), rest)),
        _ => Ok((Constant::Number(false, first.value, first.at), rest)),
    }
}

/// A constant: `["-"] number`, `true` or `false`.
#[tactic(auto, using(cxx_grammar::proofs::Tails::no_constant))]
pub fn constant(rest: &[Lexeme]) -> Result<(Constant, &[Lexeme]), Stop>
    ensures reads { IfOk result (λ x. ConstantReads x.0 rest.now x.1.now) }
    ensures shorter { IfOk result (λ x. length x.1.now ≤ length rest.now) }
    ensures follows { (s : State) → Follows (λ x. x.1.now) s (AConstant ∷ []) rest.now s [] result }
{
    let (first, after) = next(rest)?;
    if !is_constant(first.sort) {
        return Err(refusal(&first));
    }
    let (value, after) = constant_at(first, after)?;
    Ok((value, after))
}

/// Reads an operand: a name, `this` or a constant.
///
/// Errors: E1, E21 or E2 at the first token that fits no form, or want of memory.
#[tactic(auto, using(crate::specs::Operands::constant_operand, cxx_grammar::proofs::Tails::constant_operand, cxx_grammar::proofs::Tails::pointer_operand))]
pub fn operand<'a>(
    alloc: Global,
    text: &[u8],
    rest: &'a [Lexeme],
) -> Result<(Operand, &'a [Lexeme]), Stop>
    ensures reads { IfOk result (λ x. OperandReads text.now x.0 rest.now x.1.now) }
    ensures shorter { IfOk result (λ x. length x.1.now ≤ length rest.now) }
    ensures follows { (s : State) → Follows (λ x. x.1.now) s (AnOperand ∷ []) rest.now s [] result }
{
    let (first, after) = next(rest)?;
    if is_pointer(first.sort) {
        Ok((operand_at(alloc, text, &first)?, after))
    } else {
        let (value, after) = constant(rest)?;
        Ok((Operand::Constant(value), after))
    }
}
