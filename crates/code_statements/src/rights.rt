//! What right sides do, behind their tests.

ghost use Rattle.std.specs.Prelude.{◌≡◌, ◌++◌, OnOk, None, if◌then◌else◌};
ghost use Rattle.cxx_program.specs.declared.statement.TypedRight.TheVariants.{Operand, Arithmetic as ArithmeticRight, SamePointer, Not, Call, New, Cast, TypeEqual};
ghost use Rattle.byte_code.specs.declared.op.ArithKind.TheVariants.{Equal as EqualKind, NotEqual as NotEqualKind};
ghost use Rattle.code_ops.specs.Operands.{ops_of};
ghost use Rattle.code_ops.specs.Arguments.{argument_ops};
ghost use Rattle.code_ops.specs.invariants.Fits.{FitsArgument};
ghost use Rattle.code_ops.specs.invariants.Sites.{site_scope, site_block, IsLaidSite};
ghost use Rattle.code_statements.specs.invariants.Sites.{TakesRight, site_right};

use crate::calls::push_call;
use crate::casts::{cast_class, class_at, push_cast};
use crate::right_sites::RightSite;
use crate::right_uses::arith_kind;
use abi_slots::BlockKind;
use abi_sound::SoundLayout;
use byte_code::{ArithKind, Op, OpList};
use code_ops::arguments::push_argument;
use code_ops::operands::{operand_register, push_done};
use code_ops::routines::{constructor_of, start_of};
use code_ops::sites::Site;
use code_ops::widths::{WORD, width};
use cxx_hierarchy::{ClassId, Scalar};
use cxx_program::{
    Argument, Arithmetic, Conversion, TypedCall, TypedCast, TypedOperand, TypedRight, Variable,
};
use foundation::{NoMemory, Sequence};

/// The comparison for equality, or for its opposite.
fn comparison(differ: bool) -> ArithKind
    ensures { result ≡ (if differ then NotEqualKind else EqualKind) }
{
    if differ {
        ArithKind::NotEqual
    } else {
        ArithKind::Equal
    }
}

/// Converts an argument that was read, in the ops of a block.
fn push_converted_argument<L: SoundLayout>(
    ops: &mut OpList,
    site: &Site<L>,
    a: &Argument,
    to: u32,
    r: u32,
) -> Result<(), NoMemory>
    requires laid { IsLaidSite L.lays_out L.rows site.now }
    requires fits { FitsArgument site.now.h.now (site_scope site.now) a.now }
    ensures { OnOk result (ops.new ≡ ops.old ++ ops_of (argument_ops (site_block L.rows site.now) a.now to r)) }
{
    let mut list = Sequence::new(site.alloc);
    push_argument(&mut list, site, a, to, r)?;
    push_done(ops, list.as_slice())?;
    Ok(())
}

impl<'a, L: SoundLayout> RightSite<'a, L> {
    /// Gives an operand to the variable.
    fn push_operand_right(&self, ops: &mut OpList, p: TypedOperand) -> Result<(), NoMemory>
        requires { TakesRight L.lays_out L.rows self.now (Operand p) }
        ensures { OnOk result (ops.new ≡ ops.old ++ site_right L.rows self.now (Operand p)) }
    {
        let site = self.site;
        let class = site.operand_class(p);
        let from = operand_register(site.free(0), p);
        self.push_value_taken(ops, class, site.free(2), from)?;
        Ok(())
    }

    /// Calculates, and gives the result to the variable.
    fn push_arithmetic_right(
        &self,
        ops: &mut OpList,
        op: Arithmetic,
        scalar: Scalar,
        p: TypedOperand,
        q: TypedOperand,
    ) -> Result<(), NoMemory>
        requires { TakesRight L.lays_out L.rows self.now (ArithmeticRight op scalar p q) }
        ensures { OnOk result (ops.new ≡ ops.old ++ site_right L.rows self.now (ArithmeticRight op scalar p q)) }
    {
        let to = self.site.free(2);
        ops.push(Op::Arith {
            kind: arith_kind(op),
            width: width(scalar),
            to,
            left: operand_register(self.site.free(0), p),
            right: operand_register(self.site.free(1), q),
        })?;
        self.push_value_taken(ops, None, self.site.free(3), to)?;
        Ok(())
    }

    /// Compares two converted pointers, and gives the answer to the variable.
    fn push_same_right(
        &self,
        ops: &mut OpList,
        differ: bool,
        p: &Argument,
        q: &Argument,
    ) -> Result<(), NoMemory>
        requires { TakesRight L.lays_out L.rows self.now (SamePointer differ p.now q.now) }
        ensures { OnOk result (ops.new ≡ ops.old ++ site_right L.rows self.now (SamePointer differ p.now q.now)) }
    {
        let left = self.site.free(2);
        let right = self.site.free(3);
        let to = self.site.free(4);
        push_converted_argument(ops, self.site, p, left, self.site.free(0))?;
        push_converted_argument(ops, self.site, q, right, self.site.free(1))?;
        let kind = comparison(differ);
        let width = WORD;
        ops.push(Op::Arith {
            kind,
            width,
            to,
            left,
            right,
        })?;
        self.push_value_taken(ops, None, self.site.free(5), to)?;
        Ok(())
    }

    /// Gives the variable whether an operand is 0.
    fn push_not_right(&self, ops: &mut OpList, p: TypedOperand) -> Result<(), NoMemory>
        requires { TakesRight L.lays_out L.rows self.now (Not p) }
        ensures { OnOk result (ops.new ≡ ops.old ++ site_right L.rows self.now (Not p)) }
    {
        let zero = self.site.free(1);
        let to = self.site.free(2);
        ops.push(Op::Const { to: zero, value: 0 })?;
        ops.push(Op::Arith {
            kind: ArithKind::Equal,
            width: WORD,
            to,
            left: operand_register(self.site.free(0), p),
            right: zero,
        })?;
        self.push_value_taken(ops, None, self.site.free(3), to)?;
        Ok(())
    }

    /// Makes a call, whose result is given to the variable.
    fn push_call_right(&self, ops: &mut OpList, call: &TypedCall) -> Result<(), NoMemory>
        requires { TakesRight L.lays_out L.rows self.now (Call call.now) }
        ensures { OnOk result (ops.new ≡ ops.old ++ site_right L.rows self.now (Call call.now)) }
    {
        let taken = self.result_taken(call.function)?;
        push_call(ops, self.site, call, taken)?;
        Ok(())
    }

    /// Makes an object, and gives its address to the variable.
    fn push_new_right(&self, ops: &mut OpList, d: ClassId) -> Result<(), NoMemory>
        requires { TakesRight L.lays_out L.rows self.now (New d) }
        ensures { OnOk result (ops.new ≡ ops.old ++ site_right L.rows self.now (New d)) }
    {
        let site = self.site;
        let taken = self.object_taken(d)?;
        let block = start_of(
            site.numbers,
            constructor_of(site.h, d),
            BlockKind::BuildComplete,
        );
        ops.push(Op::New {
            size: site.layout.layout(d).size,
            class: d.0,
            block,
            result: taken,
        })?;
        Ok(())
    }

    /// Casts a pointer, and gives it to the variable.
    fn push_cast_right(
        &self,
        ops: &mut OpList,
        cast: &TypedCast,
        p: TypedOperand,
    ) -> Result<(), NoMemory>
        requires { TakesRight L.lays_out L.rows self.now (Cast cast.now p) }
        ensures { OnOk result (ops.new ≡ ops.old ++ site_right L.rows self.now (Cast cast.now p)) }
    {
        let site = self.site;
        let c = class_at(site, p);
        let there = site.free(1);
        push_cast(ops, site, cast, there, operand_register(site.free(0), p), c)?;
        self.push_pointer_taken(ops, cast_class(cast, c), there)?;
        Ok(())
    }

    /// Gives the variable whether the type of the view is a class.
    fn push_type_right(&self, ops: &mut OpList, p: TypedOperand, d: ClassId) -> Result<(), NoMemory>
        requires { TakesRight L.lays_out L.rows self.now (TypeEqual p d) }
        ensures { OnOk result (ops.new ≡ ops.old ++ site_right L.rows self.now (TypeEqual p d)) }
    {
        let left = self.site.free(1);
        let right = self.site.free(2);
        let to = self.site.free(3);
        ops.push(Op::TypeOf {
            to: left,
            base: operand_register(self.site.free(0), p),
        })?;
        ops.push(Op::Const {
            to: right,
            value: d.0 as u64,
        })?;
        ops.push(Op::Arith {
            kind: ArithKind::Equal,
            width: WORD,
            to,
            left,
            right,
        })?;
        self.push_value_taken(ops, None, self.site.free(4), to)?;
        Ok(())
    }

    /// Does what a right side says, and gives its value to the variable.
    ///
    /// Errors: want of memory.
    pub fn push_right(&self, ops: &mut OpList, right: &TypedRight) -> Result<(), NoMemory>
        requires { TakesRight L.lays_out L.rows self.now right.now }
        ensures { OnOk result (ops.new ≡ ops.old ++ site_right L.rows self.now right.now) }
    {
        match right {
            TypedRight::Operand(p) => self.push_operand_right(ops, *p)?,
            TypedRight::Arithmetic(op, scalar, p, q) => {
                self.push_arithmetic_right(ops, *op, *scalar, *p, *q)?;
            }
            TypedRight::SamePointer(differ, p, q) => self.push_same_right(ops, *differ, p, q)?,
            TypedRight::Not(p) => self.push_not_right(ops, *p)?,
            TypedRight::Read(place) => self.push_read_right(ops, place)?,
            TypedRight::Address(place, d) => self.push_address_right(ops, place, *d)?,
            TypedRight::Call(call) => self.push_call_right(ops, call)?,
            TypedRight::New(d) => self.push_new_right(ops, *d)?,
            TypedRight::Cast(cast, p) => self.push_cast_right(ops, cast, *p)?,
            TypedRight::TypeEqual(p, d) => self.push_type_right(ops, *p, *d)?,
        }
        Ok(())
    }
}
