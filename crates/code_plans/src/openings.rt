//! The frames of parts.

ghost use Rattle.std.specs.Prelude.{◌≡◌, ◌≤◌, ◌<◌, ◌++◌, [], false, IfOk, List, OnOk, length};
ghost use Rattle.cxx_hierarchy.specs.declared.records.Base.{Base};
ghost use Rattle.cxx_hierarchy.specs.declared.records.ClassId.{ClassId};
ghost use Rattle.abi_sound.specs.declared.class_layout.ClassLayout.{ClassLayout};
ghost use Rattle.code_ops.specs.declared.routines.Course.{Course};
ghost use Rattle.cxx_hierarchy.specs.VirtualBases.{HasVirtualBase, IsDirectBase};
ghost use Rattle.cxx_hierarchy.specs.declared.records.FieldType.TheVariants.{Object};
ghost use Rattle.cxx_subobject.specs.Locations.{IsElement};
ghost use Rattle.code_ops.specs.Setups.{PlanCode, setup};
ghost use Rattle.code_ops.specs.Routines.{plan_kind, start_by};
ghost use Rattle.code_blocks.specs.Blocks.{base_course, openings_then, stride_of};
ghost use Rattle.code_blocks.specs.Items.{Holds, Inherits, Item as ItemOf, Shares, first_index};
ghost use Rattle.code_blocks.specs.invariants.ItemCodes.{item_code, item_codes};
ghost use Rattle.code_plans.specs.PlanSites.{IsLaidPlanSite, plan_setup, plan_start};
ghost use Rattle.code_plans.specs.Tails.{IsLeftOf};
ghost use Rattle.code_plans.specs.invariants.Parts.{IsItemOfClass, is_event_code};
ghost use Rattle.code_plans.specs.invariants.Frames.{base_frame, plan_opening};

use crate::hands::{base_vtt, shared_vtt, whose};
use crate::plan_sites::{ClassPlan, PlanSite};
use abi_slots::BlockKind;
use abi_sound::{SoundLayout, member_place};
use byte_code::{BaseHand, Op, OpList, Opening};
use code_blocks::items::{Item, Way};
use code_ops::routines::{Course, constructor_of, destructor_of, start_of};
use cxx_hierarchy::ClassId;
use cxx_subobject::listing::longer_path;
use cxx_subobject::{Root, Subobject};
use foundation::NoMemory;
use path_plan::Form;

/// The form of a constructor for a complete object or for a base.
fn build_kind(form: Form) -> BlockKind
    ensures { result ≡ plan_kind Course.Constructs form }
{
    match form {
        Form::InFull => BlockKind::BuildComplete,
        Form::AsBase => BlockKind::BuildBase,
    }
}

/// The form of a destructor for a complete object or for a base.
fn end_kind(form: Form) -> BlockKind
    ensures { result ≡ plan_kind Course.Destroys form }
{
    match form {
        Form::InFull => BlockKind::EndComplete,
        Form::AsBase => BlockKind::EndBase,
    }
}

/// The block at which the plan of a part of class `d` begins, within a plan of this course.
fn part_start<L>(site: &PlanSite<L>, course: Course, form: Form, d: ClassId) -> u32
    requires { d.0 < length site.now.h.now }
    ensures { (rows : List ClassLayout) → result ≡ start_by (setup site.now.h.now rows site.now.program.now) site.now.numbers.now (PlanCode (base_course course) form d) }
{
    match course {
        Course::Constructs => start_of(site.numbers, constructor_of(site.h, d), build_kind(form)),
        Course::Destroys | Course::Deletes => start_of(
            site.numbers,
            destructor_of(site.h, d),
            end_kind(form),
        ),
    }
}

/// How the frame of a base of class `d` is opened, which lies at `place` and is handed this word of a VTT.
fn frame<L>(
    site: &PlanSite<L>,
    plan: ClassPlan,
    d: ClassId,
    place: u32,
    vtt: Option<u32>,
) -> Opening
    requires { d.0 < length site.now.h.now }
    ensures { (rows : List ClassLayout) → result ≡ base_frame (start_by (setup site.now.h.now rows site.now.program.now) site.now.numbers.now) plan d place vtt }
{
    Opening {
        place,
        block: part_start(site, plan.course, Form::AsBase, d),
        hand: Some(BaseHand {
            owner: whose(plan.form),
            class: plan.class.0,
            vtt,
        }),
        count: 1,
        stride: 0,
    }
}

/// How the frame of a virtual base is opened.
///
/// Errors: want of memory.
fn shared_opening<L: SoundLayout>(
    site: &PlanSite<L>,
    plan: ClassPlan,
    v: ClassId,
) -> Result<Opening, NoMemory>
    requires site { IsLaidPlanSite L.lays_out L.rows site.now }
    requires known { plan.class.0 < length site.now.h.now }
    requires base { HasVirtualBase site.now.h.now plan.class v }
    ensures { IfOk result (λ how. how ≡ plan_opening L.rows site.now plan (Shares v)) }
{
    site.h.keeps();
    let at = Subobject {
        root: Root::Shared(v),
        path: longer_path(site.alloc, &[v], &[])?,
    };
    let place = site.layout.place(site.h, plan.class, &at);
    Ok(frame(site, plan, v, place, shared_vtt(site, plan.class, v)))
}

/// How the frame of a direct base is opened that is not virtual.
///
/// Errors: want of memory.
fn base_opening<L: SoundLayout>(
    site: &PlanSite<L>,
    plan: ClassPlan,
    b: ClassId,
) -> Result<Opening, NoMemory>
    requires site { IsLaidPlanSite L.lays_out L.rows site.now }
    requires known { plan.class.0 < length site.now.h.now }
    requires base { IsDirectBase site.now.h.now plan.class false b }
    ensures { IfOk result (λ how. (base : Base ClassId) → base.class ≡ b → how ≡ plan_opening L.rows site.now plan (Inherits base)) }
{
    site.h.keeps();
    let at = Subobject {
        root: Root::Whole,
        path: longer_path(site.alloc, &[plan.class, b], &[])?,
    };
    let place = site.layout.place(site.h, plan.class, &at);
    Ok(frame(site, plan, b, place, base_vtt(site, plan.class, b)))
}

/// The number of the first element, from the first to the last or back.
fn first_of(way: Way, count: u32) -> u32
    ensures { result ≡ first_index way count }
{
    match way {
        Way::Forwards => 0,
        Way::Backwards => count.saturating_sub(1),
    }
}

/// How far the next element lies, modulo 2^64, where an element has so many bytes.
fn stride(way: Way, size: u32) -> u64
    requires { 1 ≤ size }
    ensures { result ≡ stride_of way size }
{
    match way {
        Way::Forwards => size as u64,
        Way::Backwards => u64::MAX - size as u64 + 1,
    }
}

/// How the frame of the elements of a member is opened.
fn member_opening<L: SoundLayout>(
    site: &PlanSite<L>,
    plan: ClassPlan,
    way: Way,
    m: u32,
    d: ClassId,
    count: u32,
) -> Opening
    requires site { IsLaidPlanSite L.lays_out L.rows site.now }
    requires known { plan.class.0 < length site.now.h.now }
    requires element { IsElement site.now.h.now plan.class m (first_index way count) (Object d) }
    ensures { result ≡ plan_opening L.rows site.now plan (Holds way m d count) }
{
    site.h.keeps();
    let size = site.layout.layout(d).size;
    Opening {
        place: member_place(site.layout, plan.class, m) + first_of(way, count) * size,
        block: part_start(site, plan.course, Form::InFull, d),
        hand: None,
        count,
        stride: stride(way, size),
    }
}

/// Whether an item is an own event.
fn is_event(item: Item) -> bool
    ensures { result ≡ is_event_code item }
{
    match item {
        Item::Does(_) => true,
        Item::Shares(_) | Item::Inherits(_) | Item::Holds(_, _, _, _) => false,
    }
}

/// How the frame of a part is opened.
///
/// Errors: want of memory.
fn opening<L: SoundLayout>(
    site: &PlanSite<L>,
    plan: ClassPlan,
    item: Item,
) -> Result<Opening, NoMemory>
    requires site { IsLaidPlanSite L.lays_out L.rows site.now }
    requires known { plan.class.0 < length site.now.h.now }
    requires is_part { is_event_code item ≡ false }
    requires part { IsItemOfClass site.now.h.now plan.class item }
    ensures { IfOk result (λ how. (i : ItemOf) → item ≡ item_code i → how ≡ plan_opening L.rows site.now plan i) }
{
    match item {
        Item::Does(_) => unreachable!(),
        Item::Shares(v) => shared_opening(site, plan, v),
        Item::Inherits(b) => base_opening(site, plan, b),
        Item::Holds(way, m, d, count) => Ok(member_opening(site, plan, way, m, d, count)),
    }
}

/// Puts the ops behind others that open the frames of the parts of a plan up to its next own event, the last part first.
///
/// Errors: want of memory.
pub fn push_openings<L: SoundLayout>(
    ops: &mut OpList,
    site: &PlanSite<L>,
    plan: ClassPlan,
    left: &[Item],
) -> Result<(), NoMemory>
    requires site { IsLaidPlanSite L.lays_out L.rows site.now }
    requires known { plan.class.0 < length site.now.h.now }
    requires left { IsLeftOf L.rows site.now plan left.now }
    ensures { OnOk result ((items : List ItemOf) → left.now ≡ item_codes items → ops.new ≡ ops.old ++ openings_then (plan_setup L.rows site.now) (plan_start L.rows site.now) plan.course plan.form plan.class items []) }
{
    match left {
        [] => {}
        [item, rest @ ..] => {
            if !is_event(*item) {
                push_openings(ops, site, plan, rest)?;
                let how = opening(site, plan, *item)?;
                ops.push(Op::Open(how))?;
            }
        }
    }
    Ok(())
}
