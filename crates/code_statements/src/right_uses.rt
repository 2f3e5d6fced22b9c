//! What right sides read and use.

ghost use Rattle.std.specs.Prelude.{◌≡◌, ◌∷◌, [], ◌++◌, OnOk};
ghost use Rattle.cxx_program.specs.declared.statement.TypedRight.TheVariants.{Arithmetic as ArithmeticRight};
ghost use Rattle.cxx_program.specs.declared.operand.Conversion.TheVariants.{Same};
ghost use Rattle.code_ops.specs.declared.uses.Used.TheVariants.{Views};
ghost use Rattle.code_ops.specs.Operands.{operand_register as operand_register_of};
ghost use Rattle.code_ops.specs.Uses.{arrow_used};
ghost use Rattle.code_statements.specs.Rights.{arith_kind, right_front, right_used};
ghost use Rattle.code_ops.specs.invariants.Fits.{FitsOperand};
ghost use Rattle.code_ops.specs.invariants.Sites.{site_scope, site_block, IsSiteAt, IsLaidSite};
ghost use Rattle.code_statements.specs.invariants.Fits.{FitsRight};

use crate::calls::{push_call_front, push_call_used};
use crate::casts::{class_at, push_cast_used};
use abi_sound::SoundLayout;
use byte_code::{ArithKind, OpList};
use code_ops::arguments::{push_argument_used, push_value_used};
use code_ops::operands::{operand_register, push_operand};
use code_ops::places::push_place_used;
use code_ops::reads::{push_arrow, push_reads, push_views_if};
use code_ops::sites::Site;
use code_ops::uses::{UseList, Used};
use code_ops::widths::width;
use cxx_hierarchy::{ClassId, Scalar};
use cxx_program::{Arithmetic, Conversion, TypedOperand, TypedRight};
use foundation::NoMemory;

/// What an operator computes.
pub fn arith_kind(op: Arithmetic) -> ArithKind
    ensures { result ≡ arith_kind op }
{
    match op {
        Arithmetic::Add => ArithKind::Add,
        Arithmetic::Subtract => ArithKind::Subtract,
        Arithmetic::Multiply => ArithKind::Multiply,
        Arithmetic::Less => ArithKind::Less,
        Arithmetic::LessEqual => ArithKind::LessEqual,
        Arithmetic::Equal => ArithKind::Equal,
        Arithmetic::NotEqual => ArithKind::NotEqual,
    }
}

/// Reads what a right side takes.
///
/// Errors: want of memory.
pub fn push_right_front<L: SoundLayout>(
    ops: &mut OpList,
    site: &Site<L>,
    right: &TypedRight,
) -> Result<(), NoMemory>
    requires site { IsSiteAt L.rows site.now }
    requires fits { FitsRight site.now.h.now (site_scope site.now) right.now }
    ensures { OnOk result (ops.new ≡ ops.old ++ right_front (site_block L.rows site.now) right.now) }
{
    let first = site.free(0);
    match right {
        TypedRight::Operand(p)
        | TypedRight::Not(p)
        | TypedRight::Cast(_, p)
        | TypedRight::TypeEqual(p, _) => push_operand(ops, first, *p)?,
        TypedRight::Arithmetic(_, _, p, q) => {
            push_operand(ops, first, *p)?;
            push_operand(ops, site.free(1), *q)?;
        }
        TypedRight::SamePointer(_, p, q) => {
            push_operand(ops, first, p.operand)?;
            push_operand(ops, site.free(1), q.operand)?;
        }
        TypedRight::Read(place) | TypedRight::Address(place, _) => {
            push_operand(ops, first, place.pointer)?;
        }
        TypedRight::Call(call) => push_call_front(ops, site, call)?,
        TypedRight::New(_) => {}
    }
    Ok(())
}

/// Puts the uses of a calculation behind others.
fn push_arithmetic_used<L: SoundLayout>(
    uses: &mut UseList,
    site: &Site<L>,
    op: Arithmetic,
    scalar: Scalar,
    p: TypedOperand,
    q: TypedOperand,
) -> Result<(), NoMemory>
    requires site { IsSiteAt L.rows site.now }
    requires left { FitsOperand p }
    requires right { FitsOperand q }
    ensures { OnOk result (uses.new ≡ uses.old ++ right_used (site_block L.rows site.now) (ArithmeticRight op scalar p q) Same) }
{
    push_reads(uses, site, site.free(0), p)?;
    push_reads(uses, site, site.free(1), q)?;
    uses.push(Used::Overflows {
        kind: arith_kind(op),
        width: width(scalar),
        left: operand_register(site.free(0), p),
        right: operand_register(site.free(1), q),
    })?;
    Ok(())
}

/// Puts the uses of a look at the type of a view behind others, by a pointer to class `c`.
///
/// Errors: want of memory.
pub fn push_type_used<L>(
    uses: &mut UseList,
    site: &Site<L>,
    r: u32,
    p: TypedOperand,
    c: ClassId,
) -> Result<(), NoMemory>
    requires { FitsOperand p }
    ensures { OnOk result (uses.new ≡ uses.old ++ (arrow_used (site_scope site.now) r p c ++ Views (operand_register_of r p) 0 c.0 ∷ [])) }
{
    push_arrow(uses, site, r, p, c)?;
    push_views_if(uses, true, operand_register(r, p), 0, c)?;
    Ok(())
}

/// Puts the uses of a right side behind others.
///
/// Errors: want of memory.
pub fn push_right_used<L: SoundLayout>(
    uses: &mut UseList,
    site: &Site<L>,
    right: &TypedRight,
    conversion: &Conversion,
) -> Result<(), NoMemory>
    requires laid { IsLaidSite L.lays_out L.rows site.now }
    requires fits { FitsRight site.now.h.now (site_scope site.now) right.now }
    ensures { OnOk result (uses.new ≡ uses.old ++ right_used (site_block L.rows site.now) right.now conversion.now) }
{
    let first = site.free(0);
    match right {
        TypedRight::Operand(p) => push_value_used(uses, site, *p, conversion, first)?,
        TypedRight::Arithmetic(op, scalar, p, q) => {
            push_arithmetic_used(uses, site, *op, *scalar, *p, *q)?;
        }
        TypedRight::SamePointer(_, p, q) => {
            push_argument_used(uses, site, p, first)?;
            push_argument_used(uses, site, q, site.free(1))?;
        }
        TypedRight::Not(p) => push_reads(uses, site, first, *p)?,
        TypedRight::Read(place) | TypedRight::Address(place, _) => {
            push_place_used(uses, site, place, first)?;
        }
        TypedRight::Call(call) => push_call_used(uses, site, call)?,
        TypedRight::New(_) => {}
        TypedRight::Cast(cast, p) => push_cast_used(uses, site, cast, first, *p)?,
        TypedRight::TypeEqual(p, _) => push_type_used(uses, site, first, *p, class_at(site, *p))?,
    }
    Ok(())
}
