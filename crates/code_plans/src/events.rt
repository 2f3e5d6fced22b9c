//! The ops of the own events of plans.

ghost use Rattle.std.specs.Prelude.{◌≡◌, ◌<◌, ◌+◌, ◌^◌, ◌++◌, ◌∷◌, [], List, None, OnOk, Some, length};
ghost use Rattle.std.specs.Option.{option_copied};
ghost use Rattle.path_bodies.specs.Places.{IsIndexOf};
ghost use Rattle.path_model.specs.States.{member_init};
ghost use Rattle.path_plan.specs.declared.form.Form.{Form as FormOf};
ghost use Rattle.byte_code.specs.declared.op.Op.TheVariants.{Begin, SetPhase, SetView, Trace};
ghost use Rattle.byte_code.specs.declared.op.Phase.TheVariants.{InBases, ReadyEnding};
ghost use Rattle.byte_code.specs.declared.op.TraceKind.TheVariants.{Ending};
ghost use Rattle.code_ops.specs.Setups.{PlanCode, Setup, body_of_routine, free_register, locals_in, plan_owner, setup};
ghost use Rattle.code_ops.specs.Operands.{converted_ops, ops_of};
ghost use Rattle.abi_sound.specs.declared.class_layout.ClassLayout.{ClassLayout};
ghost use Rattle.code_blocks.specs.Blocks.{back_then, event_then, init_then, whose_of};
ghost use Rattle.code_plans.specs.PlanSites.{HasFewLocals, IsLaidPlanSite, plan_setup};
ghost use Rattle.code_plans.specs.Settings.{ArePointers};
ghost use Rattle.code_plans.specs.invariants.Constants.{IsConstant, IsPlain};

use crate::hands::whose;
use crate::plan_sites::{ClassPlan, PlanSite};
use crate::pointers::{ClassPointers, push_pointers};
use abi_sound::{SoundLayout, member_place};
use byte_code::{Finish, NumberKind, Op, OpList, Phase, TraceKind};
use code_blocks::items::Kind;
use code_ops::leaves::leaf_width;
use code_ops::operands::push_operand;
use code_ops::routines::Course;
use code_ops::widths::{WORD, bits_kind, kind_of_number};
use cxx_hierarchy::ClassId;
use cxx_program::{Conversion, Owner, TypedBody, TypedInit};
use foundation::NoMemory;
use path_plan::Form;

/// The owner of the body that a plan runs.
fn owner_of(course: Course, c: ClassId) -> Owner
    ensures { result ≡ plan_owner course c }
{
    match course {
        Course::Constructs => Owner::Constructor(c),
        Course::Destroys | Course::Deletes => Owner::Destructor(c),
    }
}

/// How many locals a body has, if there is one.
fn local_count(body: Option<&TypedBody>) -> usize
    ensures { result ≡ locals_in (option_copied body.entry) }
{
    match body {
        None => 0,
        Some(body) => body.locals.len(),
    }
}

/// The first register that is free for the ops of a block of a plan.
fn free<L>(site: &PlanSite<L>, plan: ClassPlan) -> u32
    requires index { IsIndexOf site.now.program.now site.now.index.now }
    requires few { HasFewLocals site.now.program.now }
    ensures is { (rows : List ClassLayout) (form : FormOf) → result ≡ free_register (body_of_routine (setup site.now.h.now rows site.now.program.now) (PlanCode plan.course form plan.class)) 0 }
    ensures small { result < 2 ^ 31 + 2 }
{
    let body = site
        .index
        .body(site.program, owner_of(plan.course, plan.class));
    local_count(body) as u32 + 2
}

/// Puts the ops behind others that make a value of a member from a constant.
///
/// Errors: want of memory.
fn push_converted(
    ops: &mut OpList,
    conversion: &Conversion,
    to: u32,
    from: u32,
) -> Result<(), NoMemory>
    requires { IsPlain conversion.now }
    ensures { OnOk result ((x : Setup) → ops.new ≡ ops.old ++ ops_of (converted_ops x None conversion.now to from)) }
{
    match conversion {
        Conversion::Number(scalar) => {
            let kind = kind_of_number(*scalar);
            ops.push(Op::Does(Finish::Convert { to, from, kind }))?;
        }
        Conversion::Bits(scalar, n) => {
            let kind = kind_of_number(*scalar);
            ops.push(Op::Does(Finish::Convert { to, from, kind }))?;
            ops.push(Op::Does(Finish::Convert {
                to,
                from: to,
                kind: bits_kind(*scalar, *n),
            }))?;
        }
        Conversion::Null => {
            let kind = NumberKind::Bytes(WORD);
            ops.push(Op::Does(Finish::Convert { to, from, kind }))?;
        }
        Conversion::Same => ops.push(Op::Does(Finish::Move { to, from }))?,
        Conversion::Base(_) => unreachable!(),
    }
    Ok(())
}

/// Puts the ops of an initializer behind others, which stores a constant in member `m`.
///
/// Errors: want of memory.
fn push_constant<L: SoundLayout>(
    ops: &mut OpList,
    site: &PlanSite<L>,
    plan: ClassPlan,
    m: u32,
    init: &TypedInit,
) -> Result<(), NoMemory>
    requires site { IsLaidPlanSite L.lays_out L.rows site.now }
    requires known { plan.class.0 < length site.now.h.now }
    requires constant { IsConstant init.now }
    ensures { OnOk result ((form : FormOf) → ops.new ≡ ops.old ++ init_then (plan_setup L.rows site.now) plan.course form plan.class m (Some init.now) []) }
{
    let value = free(site, plan);
    push_operand(ops, value, init.operand)?;
    push_converted(ops, &init.conversion, value + 1, value)?;
    let place = member_place(site.layout, plan.class, m);
    let leaf = leaf_width(site.layout, site.h, plan.class, m);
    ops.push(leaf.store(value + 1, 0, place))?;
    Ok(())
}

/// Puts the ops of the initializer of a member behind others, if it has one.
///
/// Errors: want of memory.
fn push_init<L: SoundLayout>(
    ops: &mut OpList,
    site: &PlanSite<L>,
    plan: ClassPlan,
    m: u32,
) -> Result<(), NoMemory>
    requires site { IsLaidPlanSite L.lays_out L.rows site.now }
    requires known { plan.class.0 < length site.now.h.now }
    ensures { OnOk result ((form : FormOf) → ops.new ≡ ops.old ++ init_then (plan_setup L.rows site.now) plan.course form plan.class m (member_init site.now.program.now plan.class m) []) }
{
    match site.index.initializer(site.program, plan.class, m) {
        None => {}
        Some(init) => push_constant(ops, site, plan, m, init)?,
    }
    Ok(())
}

/// Puts the op behind others by which a base gives the view back.
///
/// Errors: want of memory.
fn push_back(ops: &mut OpList, form: Form) -> Result<(), NoMemory>
    ensures { OnOk result (ops.new ≡ ops.old ++ back_then form []) }
{
    match form {
        Form::InFull => {}
        Form::AsBase => ops.push(Op::ViewBack)?,
    }
    Ok(())
}

/// Puts the op behind others that puts a part into a phase.
///
/// Errors: want of memory.
fn push_phase(ops: &mut OpList, c: ClassId, phase: Phase) -> Result<(), NoMemory>
    ensures { OnOk result (ops.new ≡ ops.old ++ SetPhase c.0 phase ∷ []) }
{
    ops.push(Op::SetPhase { class: c.0, phase })?;
    Ok(())
}

/// Puts the ops behind others by which a part begins.
///
/// Errors: want of memory.
fn push_begin(ops: &mut OpList, form: Form, c: ClassId) -> Result<(), NoMemory>
    ensures { OnOk result (ops.new ≡ ops.old ++ Begin c.0 (whose_of form) ∷ SetPhase c.0 InBases ∷ SetView c.0 (whose_of form) ∷ []) }
{
    ops.push(Op::Begin {
        class: c.0,
        owner: whose(form),
    })?;
    push_phase(ops, c, Phase::InBases)?;
    ops.push(Op::SetView {
        class: c.0,
        owner: whose(form),
    })?;
    Ok(())
}

/// Puts the ops behind others by which the destruction of a part begins, its virtual pointers aside.
///
/// Errors: want of memory.
fn push_ending(ops: &mut OpList, form: Form, c: ClassId) -> Result<(), NoMemory>
    ensures { OnOk result (ops.new ≡ ops.old ++ SetPhase c.0 ReadyEnding ∷ SetView c.0 (whose_of form) ∷ Trace (Ending c.0) ∷ []) }
{
    push_phase(ops, c, Phase::ReadyEnding)?;
    ops.push(Op::SetView {
        class: c.0,
        owner: whose(form),
    })?;
    ops.push(Op::Trace(TraceKind::Ending(c.0)))?;
    Ok(())
}

/// Puts the ops of an own event of a plan behind others.
///
/// Errors: want of memory.
pub fn push_event<L: SoundLayout>(
    ops: &mut OpList,
    site: &PlanSite<L>,
    pointers: &ClassPointers,
    plan: ClassPlan,
    kind: Kind,
) -> Result<(), NoMemory>
    requires site { IsLaidPlanSite L.lays_out L.rows site.now }
    requires pointers { ArePointers (plan_setup L.rows site.now) plan.class pointers.now }
    requires known { plan.class.0 < length site.now.h.now }
    ensures { OnOk result (ops.new ≡ ops.old ++ event_then (plan_setup L.rows site.now) plan.course plan.form plan.class kind []) }
{
    match kind {
        Kind::AtBegin => push_begin(ops, plan.form, plan.class)?,
        Kind::AtReady => {
            push_pointers(ops, pointers, plan.form)?;
            push_phase(ops, plan.class, Phase::ReadyBuilding)?;
        }
        Kind::AtInit(m) => push_init(ops, site, plan, m)?,
        Kind::AtBody => {}
        Kind::AtDone => {
            push_phase(ops, plan.class, Phase::Complete)?;
            push_back(ops, plan.form)?;
            ops.push(Op::Trace(TraceKind::Built(plan.class.0)))?;
        }
        Kind::AtEnding => {
            push_pointers(ops, pointers, plan.form)?;
            push_ending(ops, plan.form, plan.class)?;
        }
        Kind::AtBases => push_phase(ops, plan.class, Phase::EndingBases)?,
        Kind::AtEnd => {
            push_phase(ops, plan.class, Phase::Ended)?;
            push_back(ops, plan.form)?;
        }
    }
    Ok(())
}
