//! The blocks of the own events of plans.

ghost use Rattle.std.specs.Prelude.{◌≡◌, ◌<◌, ◌+◌, ◌++◌, ◌∷◌, [], ◌^◌, ◌⊎◌, List, IfOk, OnOk, if◌then◌else◌};
ghost use Rattle.std.specs.List.{count_by};
ghost use Rattle.code_blocks.specs.Blocks.{behind_body, closing_ops, event_block, items};
ghost use Rattle.code_blocks.specs.Items.{Item as ItemOf};
ghost use Rattle.code_blocks.specs.invariants.ItemCodes.{item_code, item_codes};
ghost use Rattle.code_plans.specs.PlanSites.{plan_setup};
ghost use Rattle.code_plans.specs.Settings.{ArePointers};
ghost use Rattle.code_plans.specs.Tails.{IsLeftOf};
ghost use Rattle.abi_lower.specs.invariants.Numbers.{block_number};
ghost use Rattle.abi_lower.specs.invariants.Codes.{is_own_code, is_body_code, own_kind, is_body_next as is_body_next_code};
ghost use Rattle.abi_lower.specs.invariants.Runs.{event_blocks, item_blocks};
ghost use Rattle.abi_lower.specs.invariants.Lowerings.{IsRunAt, plan_code, plan_items};

use crate::counts::{count_own, is_body, is_body_next};
use abi_sound::SoundLayout;
use byte_code::{Block, BlockList, OpList};
use code_blocks::items::{Item, Kind};
use code_ops::routines::Course;
use code_plans::{ClassPlan, ClassPointers, PlanSite, push_block, push_tail};
use foundation::{NoMemory, Sequence};

/// A plan, the block at which it begins, how many own events of it have blocks, and whether a body is declared.
#[derive(Clone, Copy)]
pub struct PlanRun {
    pub plan: ClassPlan,
    pub first: u32,
    pub own: u32,
    pub has_body: bool,
}

/// The block at which a plan goes on, before what is left of it and behind so many own events: its body, or its next own event.
fn next_number(run: PlanRun, left: &[Item], done: u32) -> u32
    requires room { run.first + run.own < 2 ^ 32 }
    requires done { done + count_by (is_own_code run.has_body) left.now ≡ run.own }
    ensures { result ≡ (if is_body_next_code left.now then run.first + run.own else run.first + done) }
{
    if is_body_next(left) {
        run.first + run.own
    } else {
        run.first + done
    }
}

/// The event of an item that has a block of its own.
fn own_kind(has_body: bool, item: Item) -> Option<Kind>
    ensures { result ≡ own_kind has_body item }
{
    match item {
        Item::Does(Kind::AtBody) => None,
        Item::Does(Kind::AtDone) if has_body => None,
        Item::Does(kind) => Some(kind),
        Item::Shares(_) | Item::Inherits(_) | Item::Holds(_, _, _, _) => None,
    }
}

/// Puts the block of an own event behind others; `left` is what is left of the plan behind it, and `done` counts the own events to this one.
fn push_event_block<L: SoundLayout>(
    blocks: &mut BlockList,
    site: &PlanSite<L>,
    pointers: &ClassPointers,
    run: PlanRun,
    kind: Kind,
    left: &[Item],
    done: u32,
) -> Result<(), NoMemory>
    requires pointers { ArePointers (plan_setup L.rows site.now) run.plan.class pointers.now }
    requires run { IsRunAt L.lays_out L.rows site.now run }
    requires left { IsLeftOf L.rows site.now run.plan left.now }
    requires done { done + count_by (is_own_code run.has_body) left.now ≡ run.own }
    ensures { OnOk result ((plan : List ItemOf) → left.now ≡ item_codes plan → blocks.new ≡ blocks.old ++ record { ops = event_block (plan_setup L.rows site.now) (block_number (plan_setup L.rows site.now)) run.plan.course run.plan.form run.plan.class kind plan; line = 0 } ∷ []) }
{
    let mut ops = Sequence::new(site.alloc);
    let next = next_number(run, left, done);
    push_block(&mut ops, site, pointers, run.plan, kind, left, next)?;
    blocks.push(Block { ops, line: 0 })?;
    Ok(())
}

/// Puts the block of an item behind others, if it has one, and counts it.
fn push_item<L: SoundLayout>(
    blocks: &mut BlockList,
    site: &PlanSite<L>,
    pointers: &ClassPointers,
    run: PlanRun,
    item: Item,
    left: &[Item],
    done: u32,
) -> Result<u32, NoMemory>
    requires pointers { ArePointers (plan_setup L.rows site.now) run.plan.class pointers.now }
    requires run { IsRunAt L.lays_out L.rows site.now run }
    requires left { IsLeftOf L.rows site.now run.plan left.now }
    requires done { done + count_by (is_own_code run.has_body) (item ∷ left.now) ≡ run.own }
    ensures blocks { OnOk result ((i : ItemOf) (plan : List ItemOf) → item ≡ item_code i → left.now ≡ item_codes plan → blocks.new ≡ blocks.old ++ item_blocks (plan_setup L.rows site.now) run.plan (i ∷ plan)) }
    ensures done { IfOk result (λ n. n + count_by (is_own_code run.has_body) left.now ≡ run.own) }
{
    match own_kind(run.has_body, item) {
        None => Ok(done),
        Some(kind) => {
            push_event_block(blocks, site, pointers, run, kind, left, done + 1)?;
            Ok(done + 1)
        }
    }
}

/// Puts the blocks of the own events of a plan behind others.
///
/// Errors: want of memory.
pub fn push_events<L: SoundLayout>(
    blocks: &mut BlockList,
    site: &PlanSite<L>,
    pointers: &ClassPointers,
    run: PlanRun,
    items: &[Item],
) -> Result<(), NoMemory>
    requires pointers { ArePointers (plan_setup L.rows site.now) run.plan.class pointers.now }
    requires run { IsRunAt L.lays_out L.rows site.now run }
    requires left { IsLeftOf L.rows site.now run.plan items.now }
    requires count { count_by (is_own_code run.has_body) items.now ≡ run.own }
    ensures { OnOk result ((plan : List ItemOf) → items.now ≡ item_codes plan → blocks.new ≡ blocks.old ++ event_blocks (plan_setup L.rows site.now) (block_number (plan_setup L.rows site.now)) run.plan.course run.plan.form run.plan.class plan) }
{
    let mut done = 0;
    for (i, item) in items.iter().enumerate() {
        let left = &items[i + 1..];
        done = push_item(blocks, site, pointers, run, *item, left, done)?;
    }
    Ok(())
}

/// Whether an item is the body.
fn is_body_item(item: Item) -> bool
    ensures { result ≡ is_body_code item }
{
    match item {
        Item::Does(kind) => is_body(kind),
        Item::Shares(_) | Item::Inherits(_) | Item::Holds(_, _, _, _) => false,
    }
}

/// What is left of a plan behind its body.
fn behind_body(items: &[Item]) -> &[Item]
    ensures { (plan : List ItemOf) → items.now ≡ item_codes plan → result.now ≡ item_codes (behind_body plan) }
{
    match items {
        [] => items,
        [item, left @ ..] => {
            if is_body_item(*item) {
                left
            } else {
                behind_body(left)
            }
        }
    }
}

/// The ops of the end of a constructor's body: the object is complete.
fn end_of_construction<L: SoundLayout>(
    site: &PlanSite<L>,
    pointers: &ClassPointers,
    run: PlanRun,
) -> Result<OpList, NoMemory>
    requires pointers { ArePointers (plan_setup L.rows site.now) run.plan.class pointers.now }
    requires run { IsRunAt L.lays_out L.rows site.now run }
    requires course { run.plan.course ≡ Course.Constructs }
    ensures { IfOk result (λ ops. ops ≡ closing_ops (plan_setup L.rows site.now) (block_number (plan_setup L.rows site.now)) (plan_code run.plan)) }
{
    let mut ops = Sequence::new(site.alloc);
    let next = run.first + run.own;
    push_block(&mut ops, site, pointers, run.plan, Kind::AtDone, &[], next)?;
    Ok(ops)
}

/// The ops of the end of a destructor's body: the members are next.
fn end_of_destruction<L: SoundLayout>(
    site: &PlanSite<L>,
    run: PlanRun,
    all: &[Item],
) -> Result<OpList, NoMemory>
    requires run { IsRunAt L.lays_out L.rows site.now run }
    requires course { (run.plan.course ≡ Course.Destroys) ⊎ (run.plan.course ≡ Course.Deletes) }
    requires items { all.now ≡ plan_items (plan_setup L.rows site.now) run.plan }
    ensures { IfOk result (λ ops. ops ≡ closing_ops (plan_setup L.rows site.now) (block_number (plan_setup L.rows site.now)) (plan_code run.plan)) }
{
    let mut ops = Sequence::new(site.alloc);
    let left = behind_body(all);
    let behind = count_own(run.has_body, left) as u32;
    let next = next_number(run, left, run.own - behind);
    push_tail(&mut ops, site, run.plan, left, next)?;
    Ok(ops)
}

/// The ops of the end of the body that a plan runs.
///
/// Errors: want of memory.
pub fn end_of_body<L: SoundLayout>(
    site: &PlanSite<L>,
    pointers: &ClassPointers,
    run: PlanRun,
    all: &[Item],
) -> Result<OpList, NoMemory>
    requires pointers { ArePointers (plan_setup L.rows site.now) run.plan.class pointers.now }
    requires run { IsRunAt L.lays_out L.rows site.now run }
    requires items { all.now ≡ plan_items (plan_setup L.rows site.now) run.plan }
    ensures { IfOk result (λ ops. ops ≡ closing_ops (plan_setup L.rows site.now) (block_number (plan_setup L.rows site.now)) (plan_code run.plan)) }
{
    match run.plan.course {
        Course::Constructs => {
            let ops = end_of_construction(site, pointers, run)?;
            Ok(ops)
        }
        Course::Destroys | Course::Deletes => {
            let ops = end_of_destruction(site, run, all)?;
            Ok(ops)
        }
    }
}
