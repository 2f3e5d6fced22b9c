//! Calls: the pointer is read into the first free register, the receiver stands in the second, the result comes into the third.

ghost use Rattle.std.specs.Prelude.{◌≡◌, ◌++◌, true, false, OnOk, IfOk, Contains, Some};
ghost use Rattle.std.specs.Option.{option_copied};
ghost use Rattle.cxx_overrider.specs.Functions.{declaration_of, return_of, pointee};
ghost use Rattle.cxx_overrider.specs.Virtuals.{own};
ghost use Rattle.path_model.specs.Uses.{is_shared_way};
ghost use Rattle.code_ops.specs.Arguments.{arguments_registers};
ghost use Rattle.code_statements.specs.Rights.{through_class, qualifier_distance, call_views, call_used, qualifier_ops, receiver_ops, result_class, call_entry, call_front, call_ops, unused, result_taken, object_taken};
ghost use Rattle.code_ops.specs.invariants.Sites.{site_setup, site_scope, site_block, site_start, IsSiteAt, IsLaidSite};
ghost use Rattle.code_statements.specs.invariants.Fits.{FitsCall};
ghost use Rattle.code_statements.specs.invariants.Sites.{HasWay, IsCallSite, Takes, site_call};

use crate::right_sites::{CallSite, RightSite};
use abi_slots::BlockKind;
use abi_sound::SoundLayout;
use byte_code::{Finish, FinishList, Op, OpList, RegisterList, ResultUse, TraceKind};
use code_ops::arguments::{
    push_arguments, push_arguments_front, push_arguments_used, push_convert_checks, registers,
};
use code_ops::operands::{class_or_first, operand_register, push_base, push_done, push_operand};
use code_ops::reads::{is_shared, push_arrow, push_views_if};
use code_ops::routines::start_of;
use code_ops::sites::Site;
use code_ops::uses::{UseList, Used, push_check_ops};
use cxx_hierarchy::{ClassId, Function, Hierarchy, ReturnType, ValueType};
use cxx_overrider::FunctionId;
use cxx_program::TypedCall;
use cxx_subobject::{Subobject, class_of};
use foundation::{NoMemory, Sequence};

/// The class before `::`, or the pointer's.
fn through_class(call: &TypedCall) -> ClassId
    ensures { result ≡ through_class call.now }
{
    match &call.qualifier {
        Some(i) => class_or_first(class_of(i)),
        None => call.class,
    }
}

/// Whether the class before `::` is behind a virtual base.
fn is_shared_way(qualifier: &Option<Subobject>) -> bool
    ensures { result ≡ is_shared_way qualifier.now }
{
    match qualifier {
        Some(i) => is_shared(i),
        None => false,
    }
}

impl<'a, L: SoundLayout> CallSite<'a, L> {
    /// How far the subobject before `::` lies behind that of the pointer.
    fn qualifier_distance(&self) -> u64
        requires { HasWay L.lays_out L.rows self.now }
        ensures { result ≡ qualifier_distance (site_block L.rows self.now.site.now) self.now.call.now }
    {
        match &self.call.qualifier {
            Some(i) => self.site.layout.place(self.site.h, self.call.class, i) as u64,
            None => 0,
        }
    }

    /// Puts the look at the view behind other uses: at that of the pointer, else at that of the subobject before `::`.
    fn push_views(&self, uses: &mut UseList, is_first: bool, r: u32) -> Result<(), NoMemory>
        requires { HasWay L.lays_out L.rows self.now }
        ensures { OnOk result (uses.new ≡ uses.old ++ call_views (site_block L.rows self.now.site.now) is_first self.now.call.now r) }
    {
        let call = self.call;
        if is_first {
            push_views_if(uses, true, r, 0, call.class)?;
        } else {
            let offset = self.qualifier_distance();
            push_views_if(uses, is_shared(&call.base), r, offset, through_class(call))?;
        }
        Ok(())
    }

    /// Moves a pointer to the subobject before `::`, where one stands there.
    fn push_qualifier(&self, list: &mut FinishList, to: u32, from: u32) -> Result<(), NoMemory>
        requires { HasWay L.lays_out L.rows self.now }
        ensures { OnOk result (list.new ≡ list.old ++ qualifier_ops (site_block L.rows self.now.site.now) self.now.call.now to from self.now.call.now.qualifier) }
    {
        match &self.call.qualifier {
            Some(i) => push_base(list, self.site, self.call.class, i, to, from)?,
            None => list.push(Finish::Move { to, from })?,
        }
        Ok(())
    }

    /// Puts the receiver of a call into the second free register.
    fn push_receiver(&self, list: &mut FinishList) -> Result<(), NoMemory>
        requires { IsCallSite L.lays_out L.rows self.now }
        ensures { OnOk result (list.new ≡ list.old ++ receiver_ops (site_block L.rows self.now.site.now) self.now.call.now) }
    {
        let call = self.call;
        let to = self.site.free(1);
        let from = operand_register(self.site.free(0), call.pointer);
        self.push_qualifier(list, to, from)?;
        push_base(list, self.site, through_class(call), &call.base, to, to)?;
        Ok(())
    }

    /// Calls by the view: the entry must run code.
    fn push_entry_call(
        &self,
        ops: &mut OpList,
        arguments: RegisterList,
        taken: ResultUse,
    ) -> Result<(), NoMemory>
        requires site { IsSiteAt L.rows self.now.site.now }
        requires own { Contains (own self.now.site.now.h.now self.now.call.now.function.class) self.now.call.now.function }
        requires registers { arguments ≡ arguments_registers (site_block L.rows self.now.site.now) 0 self.now.call.now.arguments }
        ensures { OnOk result (ops.new ≡ ops.old ++ site_call L.rows self.now true taken) }
    {
        let site = self.site;
        let this = site.free(1);
        let entry = call_entry(site, self.call.function);
        let register = this;
        push_check_ops(site.alloc, ops, &[Used::Takes { register, entry }])?;
        ops.push(Op::CallEntry {
            this,
            entry,
            arguments,
            result: taken,
        })?;
        Ok(())
    }

    /// Calls by the view, or the function that was found.
    fn push_op(&self, ops: &mut OpList, taken: ResultUse) -> Result<(), NoMemory>
        requires { IsCallSite L.lays_out L.rows self.now }
        ensures { OnOk result (ops.new ≡ ops.old ++ site_call L.rows self.now self.now.call.now.is_dispatched taken) }
    {
        let arguments = registers(self.site, self.call.arguments.as_slice())?;
        if self.call.is_dispatched {
            self.push_entry_call(ops, arguments, taken)?;
        } else {
            ops.push(Op::CallCode {
                block: start_of(self.site.numbers, self.call.function, BlockKind::Plain),
                this: self.site.free(1),
                arguments,
                result: taken,
            })?;
        }
        Ok(())
    }
}

/// Puts the uses of a call behind others.
///
/// Errors: want of memory.
pub fn push_call_used<L: SoundLayout>(
    uses: &mut UseList,
    site: &Site<L>,
    call: &TypedCall,
) -> Result<(), NoMemory>
    requires laid { IsLaidSite L.lays_out L.rows site.now }
    requires fits { FitsCall site.now.h.now (site_scope site.now) call.now }
    ensures { OnOk result (uses.new ≡ uses.old ++ call_used (site_block L.rows site.now) call.now) }
{
    let r = site.free(0);
    let register = operand_register(r, call.pointer);
    let is_first = call.is_dispatched || is_shared_way(&call.qualifier);
    push_arrow(uses, site, r, call.pointer, call.class)?;
    let here = CallSite { site, call };
    here.push_views(uses, is_first, register)?;
    push_arguments_used(uses, site, 0, call.arguments.as_slice())?;
    Ok(())
}

/// Reads what a call takes.
///
/// Errors: want of memory.
pub fn push_call_front<L: SoundLayout>(
    ops: &mut OpList,
    site: &Site<L>,
    call: &TypedCall,
) -> Result<(), NoMemory>
    requires site { IsSiteAt L.rows site.now }
    requires fits { FitsCall site.now.h.now (site_scope site.now) call.now }
    ensures { OnOk result (ops.new ≡ ops.old ++ call_front (site_block L.rows site.now) call.now) }
{
    push_operand(ops, site.free(0), call.pointer)?;
    push_arguments_front(ops, site, 0, call.arguments.as_slice())?;
    Ok(())
}

/// What a class declares under an index, if it is no destructor.
fn declaration(h: &Hierarchy, f: FunctionId) -> Option<&Function<ClassId>>
    ensures { option_copied result ≡ declaration_of h.now f }
{
    if f.class.0 >= h.len() {
        return None;
    }
    h.class(f.class).functions.as_slice().get(f.index as usize)
}

/// The class to which the result of a function points, if it is a pointer.
pub fn return_class(h: &Hierarchy, f: FunctionId) -> Option<ClassId>
    ensures { result ≡ pointee (return_of h.now f) }
{
    match declaration(h, f) {
        None => None,
        Some(function) => match &function.ret {
            ReturnType::Void => None,
            ReturnType::Value(ValueType::Number(_)) => None,
            ReturnType::Value(ValueType::Pointer(class)) => Some(*class),
        },
    }
}

/// The number of the class to which the result of a function points, if it is a pointer.
pub fn result_class<L: SoundLayout>(site: &Site<L>, f: FunctionId) -> Option<u32>
    ensures { result ≡ result_class (site_setup L.rows site.now) f }
{
    match return_class(site.h, f) {
        Some(class) => Some(class.0),
        None => None,
    }
}

/// The number of the entry of a virtual function.
fn call_entry<L: SoundLayout>(site: &Site<L>, f: FunctionId) -> u32
    requires site { IsSiteAt L.rows site.now }
    requires own { Contains (own site.now.h.now f.class) f }
    ensures { result ≡ call_entry (site_setup L.rows site.now) f }
{
    site.slots.entry(f)
}

/// Makes a call, behind the tests of what it uses.
///
/// Errors: want of memory.
pub fn push_call<L: SoundLayout>(
    ops: &mut OpList,
    site: &Site<L>,
    call: &TypedCall,
    taken: ResultUse,
) -> Result<(), NoMemory>
    requires laid { IsLaidSite L.lays_out L.rows site.now }
    requires fits { FitsCall site.now.h.now (site_scope site.now) call.now }
    ensures { OnOk result (ops.new ≡ ops.old ++ call_ops (site_block L.rows site.now) (site_start L.rows site.now) call.now taken) }
{
    let here = CallSite { site, call };
    let mut receiver = Sequence::new(site.alloc);
    here.push_receiver(&mut receiver)?;
    push_done(ops, receiver.as_slice())?;
    let mut arguments = Sequence::new(site.alloc);
    push_arguments(&mut arguments, site, 0, call.arguments.as_slice())?;
    push_done(ops, arguments.as_slice())?;
    here.push_op(ops, taken)?;
    ops.push(Op::Trace(TraceKind::Call))?;
    Ok(())
}

/// A result that no variable takes.
pub fn unused<L: SoundLayout>(site: &Site<L>, f: FunctionId) -> ResultUse
    ensures { result ≡ unused (site_setup L.rows site.now) f }
{
    ResultUse {
        to: None,
        class: result_class(site, f),
        finish: Sequence::new(site.alloc),
    }
}

impl<'a, L: SoundLayout> RightSite<'a, L> {
    /// A result that is converted and given to the variable.
    ///
    /// Errors: want of memory.
    pub(crate) fn result_taken(&self, f: FunctionId) -> Result<ResultUse, NoMemory>
        requires { Takes L.lays_out L.rows self.now (pointee (return_of self.now.site.now.h.now f)) }
        ensures { IfOk result (λ taken. taken ≡ result_taken (site_block L.rows self.now.site.now) self.now.variable (pointee (return_of self.now.site.now.h.now f)) (result_class (site_setup L.rows self.now.site.now) f) self.now.conversion.now) }
    {
        let site = self.site;
        let from = site.free(2);
        let to = site.free(3);
        let class = return_class(site.h, f);
        let mut finish = Sequence::new(site.alloc);
        push_convert_checks(&mut finish, site, class, self.conversion, from)?;
        self.push_assigned(&mut finish, class, to, from)?;
        Ok(ResultUse {
            to: Some(from),
            class: result_class(site, f),
            finish,
        })
    }

    /// The pointer that a `new` gives, which is converted and given to the variable.
    ///
    /// Errors: want of memory.
    pub(crate) fn object_taken(&self, d: ClassId) -> Result<ResultUse, NoMemory>
        requires { Takes L.lays_out L.rows self.now (Some d) }
        ensures { IfOk result (λ taken. taken ≡ object_taken (site_block L.rows self.now.site.now) self.now.variable d self.now.conversion.now) }
    {
        let site = self.site;
        let from = site.free(2);
        let to = site.free(3);
        let mut finish = Sequence::new(site.alloc);
        self.push_assigned(&mut finish, Some(d), to, from)?;
        Ok(ResultUse {
            to: Some(from),
            class: None,
            finish,
        })
    }
}
