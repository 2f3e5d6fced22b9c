//! What statements do, behind their tests.

ghost use Rattle.std.specs.Prelude.{◌≡◌, ◌<◌, ◌-◌, ◌^◌, ◌+◌, ◌∷◌, [], ◌++◌, OnOk};
ghost use Rattle.cxx_overrider.specs.Overriders.{AreOverriders};
ghost use Rattle.cxx_program.specs.declared.statement.TypedKind.TheVariants.{Assign, Write, Copy, Call, Delete, If, While, Print, Dump};
ghost use Rattle.byte_code.specs.declared.op.Op.TheVariants.{Print as PrintOp, Jump};
ghost use Rattle.code_ops.specs.Setups.{FunctionCode};
ghost use Rattle.code_ops.specs.Arguments.{free};
ghost use Rattle.code_ops.specs.invariants.Sites.{site_scope, site_block, IsSiteAt, IsLaidSite};
ghost use Rattle.code_statements.specs.Statements.{returned_ops};
ghost use Rattle.code_statements.specs.invariants.Fits.{FitsReturnedValue, FitsKind, routine_of};
ghost use Rattle.code_statements.specs.invariants.Sites.{FitsSite, site_kind, statement_kind};

use crate::calls::{push_call, result_class, unused};
use crate::copies::push_copy;
use crate::deletes::push_delete;
use crate::flows::{Flow, block_at, operand_print, push_jump, target};
use crate::right_sites::RightSite;
use crate::statement_sites::StatementSite;
use abi_sound::SoundLayout;
use byte_code::{Op, OpList, PrintAs};
use code_ops::arguments::push_argument;
use code_ops::leaves::place_leaf;
use code_ops::operands::{operand_register, push_done};
use code_ops::places::push_place;
use code_ops::sites::Site;
use cxx_hierarchy::ClassId;
use cxx_overrider::FunctionId;
use cxx_program::{
    Argument, Converted, Owner, TypedCall, TypedKind, TypedOperand, TypedPlace, Variable,
};
use foundation::{NoMemory, Sequence};

/// Returns the result of a function.
fn push_result<L: SoundLayout>(
    ops: &mut OpList,
    site: &Site<L>,
    f: FunctionId,
    value: &Option<Argument>,
) -> Result<(), NoMemory>
    requires laid { IsLaidSite L.lays_out L.rows site.now }
    requires fits { FitsReturnedValue site.now.h.now (site_scope site.now) value.now }
    ensures { OnOk result (ops.new ≡ ops.old ++ returned_ops (site_block L.rows site.now) (FunctionCode f) value.now) }
{
    match value {
        None => ops.push(Op::Return {
            from: None,
            class: None,
        })?,
        Some(a) => {
            let to = site.free(1);
            let mut list = Sequence::new(site.alloc);
            push_argument(&mut list, site, a, to, site.free(0))?;
            push_done(ops, list.as_slice())?;
            ops.push(Op::Return {
                from: Some(to),
                class: result_class(site, f),
            })?;
        }
    }
    Ok(())
}

/// Ends `main`, or returns from a function; no other body returns.
fn push_return<L: SoundLayout>(
    ops: &mut OpList,
    site: &Site<L>,
    value: &Option<Argument>,
) -> Result<(), NoMemory>
    requires laid { IsLaidSite L.lays_out L.rows site.now }
    requires fits { FitsReturnedValue site.now.h.now (site_scope site.now) value.now }
    ensures { OnOk result (ops.new ≡ ops.old ++ returned_ops (site_block L.rows site.now) (routine_of site.now.body.now.owner) value.now) }
{
    match site.body.owner {
        Owner::Main => ops.push(Op::End)?,
        Owner::Function(f) => push_result(ops, site, f, value)?,
        Owner::Constructor(_) | Owner::Destructor(_) => {}
    }
    Ok(())
}

impl<'a, L: SoundLayout> StatementSite<'a, L> {
    /// Gives a variable a value.
    fn push_assign(
        &self,
        ops: &mut OpList,
        variable: Variable,
        v: &Converted,
    ) -> Result<(), NoMemory>
        requires { FitsSite L.lays_out L.rows self.now (Assign variable v.now) }
        ensures { OnOk result (ops.new ≡ ops.old ++ statement_kind L.rows self.now (Assign variable v.now)) }
    {
        let here = RightSite {
            site: self.site,
            variable,
            conversion: &v.conversion,
        };
        here.push_right(ops, &v.right)?;
        push_jump(ops, self.flow)?;
        Ok(())
    }

    /// Stores a converted value in a leaf.
    fn push_write(&self, ops: &mut OpList, place: &TypedPlace, a: &Argument) -> Result<(), NoMemory>
        requires { FitsSite L.lays_out L.rows self.now (Write place.now a.now) }
        ensures { OnOk result (ops.new ≡ ops.old ++ statement_kind L.rows self.now (Write place.now a.now)) }
    {
        let site = self.site;
        let there = site.free(2);
        let value = site.free(3);
        let mut moves = Sequence::new(site.alloc);
        let pointer = operand_register(site.free(0), place.pointer);
        push_place(&mut moves, site, place, there, pointer)?;
        push_done(ops, moves.as_slice())?;
        let mut list = Sequence::new(site.alloc);
        push_argument(&mut list, site, a, value, site.free(1))?;
        push_done(ops, list.as_slice())?;
        ops.push(place_leaf(site, place).store(value, there, 0))?;
        push_jump(ops, self.flow)?;
        Ok(())
    }

    /// Copies one object to another.
    fn push_copy_of(
        &self,
        ops: &mut OpList,
        to: TypedOperand,
        from: TypedOperand,
        c: ClassId,
    ) -> Result<(), NoMemory>
        requires { FitsSite L.lays_out L.rows self.now (Copy to from c) }
        ensures { OnOk result (ops.new ≡ ops.old ++ statement_kind L.rows self.now (Copy to from c)) }
    {
        push_copy(ops, self.site, to, from, c)?;
        push_jump(ops, self.flow)?;
        Ok(())
    }

    /// Makes a call whose result is not used.
    fn push_call_only(&self, ops: &mut OpList, call: &TypedCall) -> Result<(), NoMemory>
        requires { FitsSite L.lays_out L.rows self.now (Call call.now) }
        ensures { OnOk result (ops.new ≡ ops.old ++ statement_kind L.rows self.now (Call call.now)) }
    {
        let site = self.site;
        push_call(ops, site, call, unused(site, call.function))?;
        push_jump(ops, self.flow)?;
        Ok(())
    }

    /// Deletes an object.
    fn push_delete_of(&self, ops: &mut OpList, p: TypedOperand, c: ClassId) -> Result<(), NoMemory>
        requires { FitsSite L.lays_out L.rows self.now (Delete p c) }
        ensures { OnOk result (ops.new ≡ ops.old ++ statement_kind L.rows self.now (Delete p c)) }
    {
        let site = self.site;
        push_delete(ops, site, c, operand_register(site.free(0), p))?;
        push_jump(ops, self.flow)?;
        Ok(())
    }

    /// Goes on to the first block where the condition is not 0, else to the second.
    fn push_branch(
        &self,
        ops: &mut OpList,
        p: TypedOperand,
        other: usize,
        behind: usize,
    ) -> Result<(), NoMemory>
        requires { FitsSite L.lays_out L.rows self.now (If p other behind) }
        ensures { OnOk result (ops.new ≡ ops.old ++ statement_kind L.rows self.now (If p other behind)) }
    {
        let flow = self.flow;
        let first = block_at(flow.number + 1, other, flow.next);
        let second = block_at(other, behind, flow.next);
        ops.push(Op::Jump {
            block: target(flow, second),
        })?;
        ops.push(Op::JumpIf {
            register: operand_register(self.site.free(0), p),
            block: target(flow, first),
        })?;
        Ok(())
    }

    /// Goes on to the block where the condition is not 0, else behind it.
    fn push_loop(&self, ops: &mut OpList, p: TypedOperand, behind: usize) -> Result<(), NoMemory>
        requires { FitsSite L.lays_out L.rows self.now (While p behind) }
        ensures { OnOk result (ops.new ≡ ops.old ++ statement_kind L.rows self.now (While p behind)) }
    {
        let flow = self.flow;
        let first = block_at(flow.number + 1, behind, flow.number);
        push_jump(ops, flow)?;
        ops.push(Op::JumpIf {
            register: operand_register(self.site.free(0), p),
            block: target(flow, first),
        })?;
        Ok(())
    }

    /// Prints a value.
    fn push_print(&self, ops: &mut OpList, p: TypedOperand) -> Result<(), NoMemory>
        requires { FitsSite L.lays_out L.rows self.now (Print p) }
        ensures { OnOk result (ops.new ≡ ops.old ++ statement_kind L.rows self.now (Print p)) }
    {
        let site = self.site;
        ops.push(Op::Print {
            from: operand_register(site.free(0), p),
            what: operand_print(site, p),
        })?;
        push_jump(ops, self.flow)?;
        Ok(())
    }

    /// Finds what is shown of a view, and prints it.
    fn push_shown(&self, ops: &mut OpList, find: Op, what: PrintAs) -> Result<(), NoMemory>
        requires { IsSiteAt L.rows self.now.site.now }
        ensures { OnOk result (ops.new ≡ ops.old ++ find ∷ PrintOp (free (site_block L.rows self.now.site.now) 1) what ∷ Jump (self.now.flow.base + self.now.flow.next) ∷ []) }
    {
        ops.push(find)?;
        ops.push(Op::Print {
            from: self.site.free(1),
            what,
        })?;
        push_jump(ops, self.flow)?;
        Ok(())
    }

    /// Dumps an object.
    fn push_dump(&self, ops: &mut OpList, p: TypedOperand, c: ClassId) -> Result<(), NoMemory>
        requires { FitsSite L.lays_out L.rows self.now (Dump p c) }
        ensures { OnOk result (ops.new ≡ ops.old ++ statement_kind L.rows self.now (Dump p c)) }
    {
        let _c = c;
        ops.push(Op::Dump {
            from: operand_register(self.site.free(0), p),
        })?;
        push_jump(ops, self.flow)?;
        Ok(())
    }
}

/// Does what a statement says, behind its tests.
///
/// Errors: want of memory.
pub fn push_kind<L: SoundLayout>(
    ops: &mut OpList,
    site: &Site<L>,
    flow: Flow,
    kind: &TypedKind,
) -> Result<(), NoMemory>
    requires laid { IsLaidSite L.lays_out L.rows site.now }
    requires overriders { AreOverriders site.now.h.now site.now.overriders.now }
    requires fits { FitsKind site.now.h.now (site_scope site.now) (2 ^ 32 - (flow.base + 1)) flow.number kind.now }
    ensures { OnOk result (ops.new ≡ ops.old ++ site_kind L.rows site.now flow kind.now) }
{
    let here = StatementSite { site, flow };
    let first = site.free(0);
    let to = site.free(1);
    match kind {
        TypedKind::Declare(_, None) => push_jump(ops, flow)?,
        TypedKind::Declare(n, Some(v)) => here.push_assign(ops, Variable::Local(*n), v)?,
        TypedKind::Assign(variable, v) => here.push_assign(ops, *variable, v)?,
        TypedKind::Write(place, a) => here.push_write(ops, place, a)?,
        TypedKind::Copy(to, from, c) => here.push_copy_of(ops, *to, *from, *c)?,
        TypedKind::Call(call) => here.push_call_only(ops, call)?,
        TypedKind::Delete(p, c) => here.push_delete_of(ops, *p, *c)?,
        TypedKind::If(p, other, behind) => {
            here.push_branch(ops, *p, *other, *behind)?;
        }
        TypedKind::While(p, behind) => here.push_loop(ops, *p, *behind)?,
        TypedKind::Return(value) => push_return(ops, site, value)?,
        TypedKind::Print(p) => here.push_print(ops, *p)?,
        TypedKind::PrintType(p, _) => {
            let base = operand_register(first, *p);
            here.push_shown(ops, Op::TypeOf { to, base }, PrintAs::Class)?;
        }
        TypedKind::PrintView(p, _) => {
            let base = operand_register(first, *p);
            here.push_shown(ops, Op::Top { to, base }, PrintAs::Address)?;
        }
        TypedKind::Dump(p, c) => here.push_dump(ops, *p, *c)?,
    }
    Ok(())
}
