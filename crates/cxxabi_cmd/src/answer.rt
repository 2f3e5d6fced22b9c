//! What each command answers to an accepted source.

ghost use Rattle.std.specs.Prelude.{◌≡◌, ◌≤◌, IfOk, length};
ghost use Rattle.cxxabi_cmd.specs.Output.{Yields};
ghost use Rattle.cxxabi_cmd.specs.invariants.Listings.{IsReady};
ghost use Rattle.cxxabi_cmd.specs.invariants.Replies.{as_answer, machine_of, HandsBy};
ghost use Rattle.cxxabi_words.specs.invariants.Few.{HasFew};
ghost use Rattle.foundation.specs.Limits.{source_limit};

use crate::class_answer::{array_of, member_of};
use crate::divided_answer::{inspect_dump, run_foreign};
use crate::list_answer::{list_all, list_one};
use crate::listing::Listing;
use crate::reply::{Reply, class_count};
use crate::run_answer::{run_generated, run_on_bytes, run_on_paths};
use crate::verdict::Accepted;
use cxxabi_words::Command;
use foundation::NoMemory;
use std::alloc::Global;

// What a command answers to an accepted source of so many bytes, behind this front.
pub(crate) fn answer(
    alloc: Global,
    command: &Command,
    front: &[u8],
    size: u32,
    accepted: &Accepted,
) -> Result<Reply, NoMemory>
    requires ready { IsReady accepted.now }
    requires short { length front.now ≤ source_limit }
    requires few { HasFew command.now }
    ensures yields { IfOk result (λ reply. Yields front.now size accepted.now.source accepted.now.hierarchy accepted.now.program command.now (as_answer reply)) }
    ensures machine { IfOk result (λ reply. HandsBy command.now front.now accepted.now.source accepted.now.hierarchy accepted.now.program (machine_of reply)) }
{
    match command {
        Command::Check => class_count(alloc, &accepted.hierarchy),
        Command::Run(steps, trace) => run_on_bytes(alloc, size, *steps, *trace, accepted),
        Command::Layout => list_all(alloc, Listing::OfLayout, accepted),
        Command::LayoutOf(name) => {
            list_one(alloc, size, Listing::OfLayout, name.as_slice(), accepted)
        }
        Command::Tables => list_all(alloc, Listing::OfTables, accepted),
        Command::TablesOf(name) => {
            list_one(alloc, size, Listing::OfTables, name.as_slice(), accepted)
        }
        Command::Paths(steps) => run_on_paths(alloc, size, *steps, accepted),
        Command::Gen(_) => run_generated(alloc, size, accepted),
        Command::Array(name, count) => array_of(alloc, size, name.as_slice(), *count, accepted),
        Command::MemberPointer(named) => member_of(alloc, size, named, accepted),
        Command::Inspect => inspect_dump(alloc, front, accepted),
        Command::Foreign(steps) => run_foreign(alloc, front, size, *steps, accepted),
    }
}
