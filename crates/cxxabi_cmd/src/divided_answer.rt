//! What `inspect` and `foreign` answer: what a dump says, and a run over the layout of a listing.

ghost use Rattle.std.specs.Prelude.{◌≡◌, ◌≤◌, ℕ, List, true, None, Some, IfOk, OnOk, length};
ghost use Rattle.cxx_hierarchy.specs.Classes.{Classes};
ghost use Rattle.cxx_syntax.specs.declared.tree.BodyTree.{BodyTree};
ghost use Rattle.path_model.specs.States.{is_body};
ghost use Rattle.abi_sound.specs.declared.class_layout.ClassLayout.{ClassLayout};
ghost use Rattle.abi_sound.specs.Places.{places_of};
ghost use Rattle.abi_layout.specs.Layouts.{IsLaid};
ghost use Rattle.abi_inspect.specs.Faults.{IsDumpFault};
ghost use Rattle.abi_foreign.specs.Listings.{IsForeign, IsForeignLayout};
ghost use Rattle.abi_foreign.specs.Refusals.{IsRefused};
ghost use Rattle.cxxabi_words.specs.declared.command.Command.TheVariants.{Foreign};
ghost use Rattle.cxxabi_cmd.specs.Divided.{IsDumpReply, IsListingReply, listing_rule};
ghost use Rattle.cxxabi_cmd.specs.Output.{Yields};
ghost use Rattle.cxxabi_cmd.specs.invariants.Listings.{IsReady};
ghost use Rattle.cxxabi_cmd.specs.invariants.Replies.{as_answer, machine_of, HandsBy, YieldsForeign};
ghost use Rattle.foundation.specs.Limits.{source_limit, most_steps};

use crate::reply::{Reply, limited, line_alone, stopped};
use crate::run_answer::run_by_bytes;
use crate::status::{InputRule, Status};
use crate::verdict::Accepted;
use abi_foreign::{
    ForeignLayout, ListingRule, ListingStop, check_listing, one_listing, one_refusal,
};
use abi_inspect::{InspectFault, inspect, seen_text};
use abi_slots::Slots;
use abi_tables::check_words;
use cxx_hierarchy::Rule;
use foundation::NoMemory;
use std::alloc::Global;

// The number of a rule on listings.
fn listing_rule(rule: ListingRule) -> InputRule
    ensures { result ≡ listing_rule rule }
{
    match rule {
        ListingRule::Form => InputRule::F1,
        ListingRule::Primary => InputRule::F2,
        ListingRule::Place => InputRule::F3,
        ListingRule::Align => InputRule::F4,
        ListingRule::Inside => InputRule::F5,
        ListingRule::Overlap => InputRule::F6,
        ListingRule::Twice => InputRule::F7,
    }
}

// What is answered to a text that is no dump of the source's classes.
fn dump_fault(alloc: Global, fault: InspectFault) -> Result<Reply, NoMemory>
    ensures reply { IfOk result (λ reply. (dump : List ℕ) (h : Classes) (rows : List ClassLayout) → IsLaid h rows → IsDumpFault h (places_of h rows) dump fault → IsDumpReply dump h (as_answer reply)) }
    ensures machine { IfOk result (λ reply. machine_of reply ≡ None) }
{
    match fault {
        InspectFault::UnknownClass => line_alone(alloc, Status::BadInput(InputRule::I1, 1)),
        InspectFault::Form(line) => line_alone(alloc, Status::BadInput(InputRule::I2, line)),
        InspectFault::NoMemory => Err(NoMemory),
    }
}

// What `inspect` answers to a dump, before an accepted source.
pub(crate) fn inspect_dump(
    alloc: Global,
    dump: &[u8],
    accepted: &Accepted,
) -> Result<Reply, NoMemory>
    requires ready { IsReady accepted.now }
    ensures reply { IfOk result (λ reply. IsDumpReply dump.now accepted.now.hierarchy (as_answer reply)) }
    ensures machine { IfOk result (λ reply. machine_of reply ≡ None) }
{
    let h = &accepted.hierarchy;
    match inspect(alloc, h, &accepted.layout, dump) {
        Ok(seen) => {
            let text = seen_text(alloc, h, &accepted.layout, &seen)?;
            limited(alloc, text)
        }
        Err(fault) => dump_fault(alloc, fault),
    }
}

// What `foreign` answers to an accepted source that has a main, over the layout of its listing.
fn run_over(
    alloc: Global,
    steps: u32,
    layout: &ForeignLayout,
    accepted: &Accepted,
) -> Result<Reply, NoMemory>
    requires ready { IsReady accepted.now }
    requires layout { IsForeignLayout accepted.now.hierarchy layout.now }
    requires main { is_body accepted.now.program.main ≡ true }
    requires few { steps ≤ most_steps }
    ensures yields { IfOk result (λ reply. (listing : List ℕ) (size : ℕ) (tree : BodyTree) → IsForeign accepted.now.hierarchy listing layout.now → accepted.now.source.main ≡ Some tree →
        YieldsForeign accepted.now listing size steps reply) }
    ensures machine { IfOk result (λ reply. (listing : List ℕ) (tree : BodyTree) → IsForeign accepted.now.hierarchy listing layout.now → accepted.now.source.main ≡ Some tree →
        HandsBy (Foreign steps) listing accepted.now.source accepted.now.hierarchy accepted.now.program (machine_of reply)) }
{
    one_listing();
    one_refusal();
    let h = &accepted.hierarchy;
    h.keeps();
    let slots = Slots::new(alloc, h, &accepted.overriders, layout)?;
    match check_words(alloc, h, layout, &slots) {
        Ok(()) => run_by_bytes(alloc, steps, false, layout, accepted),
        Err(stop) => stopped(alloc, stop),
    }
}

// What is answered to a text that is no listing of a sound layout.
fn listing_refused(alloc: Global, stop: ListingStop) -> Result<Reply, NoMemory>
    ensures reply { IfOk result (λ reply. (listing : List ℕ) (h : Classes) → IsRefused h listing stop → IsListingReply listing h (as_answer reply)) }
    ensures some { OnOk result (stop ≡ ListingStop.NoMemory → ⊥) }
    ensures machine { IfOk result (λ reply. machine_of reply ≡ None) }
{
    match stop {
        ListingStop::Bad(rule, line) => {
            line_alone(alloc, Status::BadInput(listing_rule(rule), line as usize))
        }
        ListingStop::NoMemory => Err(NoMemory),
    }
}

// What `foreign` answers to a listing, before an accepted source of so many bytes, with a budget of steps.
pub(crate) fn run_foreign(
    alloc: Global,
    listing: &[u8],
    size: u32,
    steps: u32,
    accepted: &Accepted,
) -> Result<Reply, NoMemory>
    requires ready { IsReady accepted.now }
    requires short { length listing.now ≤ source_limit }
    requires few { steps ≤ most_steps }
    ensures yields { IfOk result (λ reply. Yields listing.now size accepted.now.source accepted.now.hierarchy accepted.now.program (Foreign steps) (as_answer reply)) }
    ensures machine { IfOk result (λ reply. HandsBy (Foreign steps) listing.now accepted.now.source accepted.now.hierarchy accepted.now.program (machine_of reply)) }
{
    if accepted.source.main.is_none() {
        return line_alone(alloc, Status::Refused(Rule::UnknownName, size));
    }
    one_listing();
    one_refusal();
    accepted.hierarchy.keeps();
    match check_listing(alloc, &accepted.hierarchy, listing) {
        Ok(layout) => run_over(alloc, steps, &layout, accepted),
        Err(stop) => listing_refused(alloc, stop),
    }
}
