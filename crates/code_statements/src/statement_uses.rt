//! What statements read, and what is tested of them.

ghost use Rattle.std.specs.Prelude.{◌≡◌, ◌<◌, ◌∷◌, [], ◌++◌, OnOk, length, Some, ℕ};
ghost use Rattle.cxx_overrider.specs.Overriders.{AreOverriders};
ghost use Rattle.cxx_program.specs.declared.statement.TypedKind.TheVariants.{Write, Delete, PrintView};
ghost use Rattle.code_ops.specs.declared.uses.Used.TheVariants.{Follows, Dumps};
ghost use Rattle.code_ops.specs.Setups.{spare_register};
ghost use Rattle.code_ops.specs.Operands.{operand_register as operand_register_of};
ghost use Rattle.code_ops.specs.Uses.{reads};
ghost use Rattle.code_ops.specs.invariants.Fits.{FitsOperand, FitsPlace, FitsArgument, most_local_registers};
ghost use Rattle.code_ops.specs.invariants.Sites.{site_scope, site_block, IsSiteAt, IsLaidSite};
ghost use Rattle.code_statements.specs.Statements.{declared_front, kind_front, kind_used};
ghost use Rattle.code_statements.specs.invariants.Fits.{FitsDeclared, FitsKind};

use crate::calls::{push_call_front, push_call_used};
use crate::covers::{push_copy_front, push_copy_used};
use crate::deletes::is_virtual_end;
use crate::right_uses::{push_right_front, push_right_used, push_type_used};
use abi_sound::SoundLayout;
use byte_code::{Finish, Op, OpList};
use code_ops::arguments::push_argument_used;
use code_ops::operands::{local_register, operand_register, push_operand};
use code_ops::places::push_place_used;
use code_ops::reads::{push_arrow, push_guards, push_reads, push_views_if};
use code_ops::sites::Site;
use code_ops::uses::{UseList, Used};
use cxx_hierarchy::ClassId;
use cxx_program::{Argument, Converted, TypedKind, TypedOperand, TypedPlace};
use foundation::NoMemory;

/// Makes a local unset, and reads what its initializer takes.
fn push_declared_front<L: SoundLayout>(
    ops: &mut OpList,
    site: &Site<L>,
    n: usize,
    value: &Option<Converted>,
) -> Result<(), NoMemory>
    requires site { IsSiteAt L.rows site.now }
    requires local { n < most_local_registers }
    requires fits { FitsDeclared site.now.h.now (site_scope site.now) value.now }
    ensures { OnOk result (ops.new ≡ ops.old ++ declared_front (site_block L.rows site.now) (spare_register (Some site.now.body.now)) n value.now) }
{
    ops.push(Op::Does(Finish::Move {
        to: local_register(n),
        from: site.spare(),
    }))?;
    match value {
        Some(v) => push_right_front(ops, site, &v.right)?,
        None => {}
    }
    Ok(())
}

/// Reads what a statement takes, before its tests.
///
/// Errors: want of memory.
pub fn push_kind_front<L: SoundLayout>(
    ops: &mut OpList,
    site: &Site<L>,
    kind: &TypedKind,
) -> Result<(), NoMemory>
    requires site { IsSiteAt L.rows site.now }
    requires fits { (size n : ℕ) × FitsKind site.now.h.now (site_scope site.now) size n kind.now }
    ensures { OnOk result (ops.new ≡ ops.old ++ kind_front (site_block L.rows site.now) (spare_register (Some site.now.body.now)) kind.now) }
{
    let first = site.free(0);
    match kind {
        TypedKind::Declare(n, v) => push_declared_front(ops, site, *n, v)?,
        TypedKind::Assign(_, v) => push_right_front(ops, site, &v.right)?,
        TypedKind::Write(place, a) => {
            push_operand(ops, first, place.pointer)?;
            push_operand(ops, site.free(1), a.operand)?;
        }
        TypedKind::Copy(to, from, _) => push_copy_front(ops, site, *to, *from)?,
        TypedKind::Return(None) => {}
        TypedKind::Call(call) => push_call_front(ops, site, call)?,
        TypedKind::Return(Some(a)) => push_operand(ops, first, a.operand)?,
        TypedKind::Delete(p, _)
        | TypedKind::If(p, _, _)
        | TypedKind::While(p, _)
        | TypedKind::Print(p)
        | TypedKind::PrintType(p, _)
        | TypedKind::PrintView(p, _)
        | TypedKind::Dump(p, _) => push_operand(ops, first, *p)?,
    }
    Ok(())
}

/// Puts the uses of a `delete` behind others.
fn push_delete_used<L: SoundLayout>(
    uses: &mut UseList,
    site: &Site<L>,
    p: TypedOperand,
    c: ClassId,
) -> Result<(), NoMemory>
    requires site { IsSiteAt L.rows site.now }
    requires overriders { AreOverriders site.now.h.now site.now.overriders.now }
    requires operand { FitsOperand p }
    requires known { c.0 < length site.now.h.now }
    ensures { OnOk result (uses.new ≡ uses.old ++ kind_used (site_block L.rows site.now) (Delete p c)) }
{
    let r = site.free(0);
    let register = operand_register(r, p);
    let is_virtual = is_virtual_end(site, c);
    let class = c.0;
    push_reads(uses, site, r, p)?;
    push_guards(uses, register, 0, c)?;
    push_views_if(uses, is_virtual, register, 0, c)?;
    uses.push(Used::Deletes {
        register,
        class,
        is_virtual,
    })?;
    Ok(())
}

/// Puts the uses of a print of a view behind others.
fn push_print_view_used<L: SoundLayout>(
    uses: &mut UseList,
    site: &Site<L>,
    p: TypedOperand,
    c: ClassId,
) -> Result<(), NoMemory>
    requires site { IsSiteAt L.rows site.now }
    requires operand { FitsOperand p }
    ensures { OnOk result (uses.new ≡ uses.old ++ kind_used (site_block L.rows site.now) (PrintView p c)) }
{
    let r = site.free(0);
    let register = operand_register(r, p);
    push_reads(uses, site, r, p)?;
    push_guards(uses, register, 0, c)?;
    push_views_if(uses, true, register, 0, c)?;
    Ok(())
}

/// Puts the uses of a dump behind others.
fn push_dump_used<L>(
    uses: &mut UseList,
    site: &Site<L>,
    r: u32,
    p: TypedOperand,
) -> Result<(), NoMemory>
    requires { FitsOperand p }
    ensures { OnOk result (uses.new ≡ uses.old ++ (reads (site_scope site.now) r p ++ Follows (operand_register_of r p) ∷ Dumps (operand_register_of r p) ∷ [])) }
{
    let register = operand_register(r, p);
    push_reads(uses, site, r, p)?;
    uses.push(Used::Follows { register })?;
    uses.push(Used::Dumps { register })?;
    Ok(())
}

/// Puts the uses of a write behind others.
fn push_write_used<L: SoundLayout>(
    uses: &mut UseList,
    site: &Site<L>,
    place: &TypedPlace,
    a: &Argument,
) -> Result<(), NoMemory>
    requires laid { IsLaidSite L.lays_out L.rows site.now }
    requires place { FitsPlace site.now.h.now place.now }
    requires fits { FitsArgument site.now.h.now (site_scope site.now) a.now }
    ensures { OnOk result (uses.new ≡ uses.old ++ kind_used (site_block L.rows site.now) (Write place.now a.now)) }
{
    push_place_used(uses, site, place, site.free(0))?;
    push_argument_used(uses, site, a, site.free(1))?;
    Ok(())
}

/// Puts what is tested of a statement behind other uses.
///
/// Errors: want of memory.
pub fn push_kind_used<L: SoundLayout>(
    uses: &mut UseList,
    site: &Site<L>,
    kind: &TypedKind,
) -> Result<(), NoMemory>
    requires laid { IsLaidSite L.lays_out L.rows site.now }
    requires overriders { AreOverriders site.now.h.now site.now.overriders.now }
    requires fits { (size n : ℕ) × FitsKind site.now.h.now (site_scope site.now) size n kind.now }
    ensures { OnOk result (uses.new ≡ uses.old ++ kind_used (site_block L.rows site.now) kind.now) }
{
    let first = site.free(0);
    match kind {
        TypedKind::Declare(_, Some(v)) | TypedKind::Assign(_, v) => {
            push_right_used(uses, site, &v.right, &v.conversion)?;
        }
        TypedKind::Declare(_, None) | TypedKind::Return(None) => {}
        TypedKind::Copy(to, from, c) => push_copy_used(uses, site, *to, *from, *c)?,
        TypedKind::Write(place, a) => push_write_used(uses, site, place, a)?,
        TypedKind::Call(call) => push_call_used(uses, site, call)?,
        TypedKind::Delete(p, c) => push_delete_used(uses, site, *p, *c)?,
        TypedKind::If(p, _, _) | TypedKind::While(p, _) | TypedKind::Print(p) => {
            push_reads(uses, site, first, *p)?;
        }
        TypedKind::Return(Some(a)) => push_argument_used(uses, site, a, first)?,
        TypedKind::PrintType(p, c) => push_type_used(uses, site, first, *p, *c)?,
        TypedKind::PrintView(p, c) => push_print_view_used(uses, site, *p, *c)?,
        TypedKind::Dump(p, _) => push_dump_used(uses, site, first, *p)?,
    }
    Ok(())
}
