//! Where a statement stands: its body, and what its ops are found by.

ghost use Rattle.std.specs.Prelude.{◌≡◌, ◌+◌, ◌<◌, ◌^◌, ℕ, Some, length};
ghost use Rattle.std.specs.Option.{option_copied};
ghost use Rattle.cxx_program.specs.Typed.{variable_type};
ghost use Rattle.code_ops.specs.Setups.{spare_register};
ghost use Rattle.code_ops.specs.Arguments.{free};
ghost use Rattle.code_ops.specs.Operands.{operand_class, pointed_in};
ghost use Rattle.code_ops.specs.invariants.Sites.{site_scope, site_block, IsSiteAt};

use abi_slots::{CodeNumbers, Slots};
use abi_sound::SoundLayout;
use cxx_hierarchy::{ClassId, Hierarchy, ValueType};
use cxx_overrider::Overriders;
use cxx_program::{Owner, TypedBody, TypedOperand, TypedProgram, Variable};
use std::alloc::Global;

/// A body, and what its ops are found by: the classes, their layout and overriders, the numbers of words and
/// of code, and the program.
#[derive(Drop)]
pub struct Site<'a, L> {
    pub alloc: Global,
    pub h: &'a Hierarchy,
    pub layout: &'a L,
    pub overriders: &'a Overriders,
    pub slots: &'a Slots,
    pub numbers: &'a CodeNumbers,
    pub program: &'a TypedProgram,
    pub body: &'a TypedBody,
}

/// The class that a type points to, if it is a pointer type.
pub fn pointed(type_found: Option<&ValueType<ClassId>>) -> Option<ClassId>
    ensures { result ≡ pointed_in (option_copied type_found.entry) }
{
    match type_found {
        Some(ValueType::Pointer(class)) => Some(*class),
        _ => None,
    }
}

/// The class of `this` in a body.
fn this_class(owner: Owner) -> Option<ClassId>
    ensures { result ≡ Rattle.cxx_program.specs.Typed.this_of owner }
{
    match owner {
        Owner::Main => None,
        Owner::Function(f) => Some(f.class),
        Owner::Constructor(c) | Owner::Destructor(c) => Some(c),
    }
}

impl<'a, L: SoundLayout> Site<'a, L> {
    /// The register that nothing writes.
    pub fn spare(&self) -> u32
        requires { IsSiteAt L.rows self.now }
        ensures { result ≡ spare_register (Some self.now.body.now) }
    {
        self.body.locals.len() as u32 + 1
    }

    /// A register that is free for the ops of a block.
    pub fn free(&self, n: u32) -> u32
        requires site { IsSiteAt L.rows self.now }
        requires few { n < 64 }
        ensures { result ≡ free (site_block L.rows self.now) n }
    {
        self.body.locals.len() as u32 + 2 + n
    }
}

impl<'a, L> Site<'a, L> {
    /// The type of a variable.
    pub fn variable_type(&self, variable: Variable) -> Option<&'a ValueType<ClassId>>
        ensures { option_copied result ≡ variable_type (site_scope self.now) variable }
    {
        match variable {
            Variable::Global(n) => self.program.globals.as_slice().get(n),
            Variable::Local(n) => self.body.locals.as_slice().get(n),
        }
    }

    /// The class that an operand points to, if it is a pointer.
    pub fn operand_class(&self, operand: TypedOperand) -> Option<ClassId>
        ensures { result ≡ operand_class (site_scope self.now) operand }
    {
        match operand {
            TypedOperand::Variable(variable) => pointed(self.variable_type(variable)),
            TypedOperand::This => this_class(self.body.owner),
            TypedOperand::Number(_) => None,
        }
    }
}
