//! How the blocks of plans end, and the blocks of own events as a whole.

ghost use Rattle.std.specs.Prelude.{◌≡◌, ◌<◌, ◌++◌, [], OnOk, length};
ghost use Rattle.code_blocks.specs.Blocks.{event_block, plan_return, plan_tail};
ghost use Rattle.code_plans.specs.PlanSites.{IsLaidPlanSite, plan_setup};
ghost use Rattle.code_plans.specs.Settings.{ArePointers};
ghost use Rattle.code_plans.specs.Tails.{IsLeftOf, OfItemsLeft};

use crate::events::push_event;
use crate::openings::push_openings;
use crate::plan_sites::{ClassPlan, PlanSite};
use crate::pointers::ClassPointers;
use abi_sound::SoundLayout;
use byte_code::{Op, OpList};
use code_blocks::items::{Item, Kind};
use code_ops::routines::Course;
use foundation::NoMemory;

/// The result of a plan: the address of its part, which a `new` takes.
fn plan_return(course: Course) -> Op
    ensures { result ≡ plan_return course }
{
    match course {
        Course::Constructs => Op::Return {
            from: Some(0),
            class: None,
        },
        Course::Destroys | Course::Deletes => Op::Return {
            from: None,
            class: None,
        },
    }
}

/// Puts the end of a block of a plan behind other ops, by what is left behind its own event: a return, or a jump to the block
/// of number `next` and the frames of the parts before it.
///
/// Errors: want of memory.
pub fn push_tail<L: SoundLayout>(
    ops: &mut OpList,
    site: &PlanSite<L>,
    plan: ClassPlan,
    left: &[Item],
    next: u32,
) -> Result<(), NoMemory>
    requires site { IsLaidPlanSite L.lays_out L.rows site.now }
    requires known { plan.class.0 < length site.now.h.now }
    requires left { IsLeftOf L.rows site.now plan left.now }
    ensures { OnOk result (OfItemsLeft L.rows site.now plan left.now next (λ at items. ops.new ≡ ops.old ++ plan_tail (plan_setup L.rows site.now) at plan.course plan.form plan.class items)) }
{
    match left {
        [] => ops.push(plan_return(plan.course))?,
        [_, ..] => {
            ops.push(Op::Jump { block: next })?;
            push_openings(ops, site, plan, left)?;
        }
    }
    Ok(())
}

/// Puts the block of an own event of a plan behind other ops; `left` is what is left of the plan behind the event.
///
/// Errors: want of memory.
pub fn push_block<L: SoundLayout>(
    ops: &mut OpList,
    site: &PlanSite<L>,
    pointers: &ClassPointers,
    plan: ClassPlan,
    kind: Kind,
    left: &[Item],
    next: u32,
) -> Result<(), NoMemory>
    requires site { IsLaidPlanSite L.lays_out L.rows site.now }
    requires pointers { ArePointers (plan_setup L.rows site.now) plan.class pointers.now }
    requires known { plan.class.0 < length site.now.h.now }
    requires left { IsLeftOf L.rows site.now plan left.now }
    ensures { OnOk result (OfItemsLeft L.rows site.now plan left.now next (λ at items. ops.new ≡ ops.old ++ event_block (plan_setup L.rows site.now) at plan.course plan.form plan.class kind items)) }
{
    push_event(ops, site, pointers, plan, kind)?;
    push_tail(ops, site, plan, left, next)?;
    Ok(())
}
