//! What is answered, before it is written.

ghost use Rattle.std.specs.Prelude.{◌≡◌, None, IfOk};
ghost use Rattle.cxxabi_cmd.specs.Answers.{limited_answer};
ghost use Rattle.cxxabi_cmd.specs.Output.{line_alone, count_answer, status_of_stop};
ghost use Rattle.cxxabi_cmd.specs.invariants.Replies.{as_answer, machine_of};

use crate::status::{Status, last_line_of};
use byte_machine::Machine;
use byte_memory::PageMemory;
use cxx_hierarchy::{Hierarchy, LimitNo, Stop};
use cxxabi_words::BUDGET;
use foundation::NoMemory;
use std::alloc::Global;
use text_told::TEXT_LIMIT;

// What is answered, and the machine of the run where there was one.
#[derive(Drop)]
pub(crate) struct Reply {
    pub(crate) text: Vec<u8>,
    pub(crate) status: Status,
    pub(crate) machine: Option<Machine<PageMemory>>,
}

// An answer that is its last line alone.
pub(crate) fn line_alone(alloc: Global, status: Status) -> Result<Reply, NoMemory>
    ensures answer { IfOk result (λ reply. as_answer reply ≡ line_alone status) }
    ensures machine { IfOk result (λ reply. machine_of reply ≡ None) }
{
    let line = last_line_of(alloc, status, BUDGET)?;
    Ok(Reply {
        text: Vec::from_slice(alloc, line.as_bytes())?,
        status,
        machine: None,
    })
}

// An answer that is a text, or the limit that it passes.
pub(crate) fn limited(alloc: Global, text: Vec<u8>) -> Result<Reply, NoMemory>
    ensures answer { IfOk result (λ reply. as_answer reply ≡ limited_answer text.items) }
    ensures machine { IfOk result (λ reply. machine_of reply ≡ None) }
{
    if text.len() > TEXT_LIMIT {
        return line_alone(alloc, Status::Limit(LimitNo::L9));
    }
    Ok(Reply {
        text,
        status: Status::Done,
        machine: None,
    })
}

// How many classes there are.
pub(crate) fn class_count(alloc: Global, h: &Hierarchy) -> Result<Reply, NoMemory>
    ensures answer { IfOk result (λ reply. as_answer reply ≡ count_answer h.now) }
    ensures machine { IfOk result (λ reply. machine_of reply ≡ None) }
{
    let count = h.len();
    let line = format!(in alloc; "{count} classes\n")?;
    Ok(Reply {
        text: Vec::from_slice(alloc, line.as_bytes())?,
        status: Status::Done,
        machine: None,
    })
}

/// What is answered to a source that stops.
pub(crate) fn stopped(alloc: Global, stop: Stop) -> Result<Reply, NoMemory>
    ensures answer { IfOk result (λ reply. (stop ≡ Stop.NoMemory → ⊥) × (as_answer reply ≡ line_alone (status_of_stop stop))) }
    ensures machine { IfOk result (λ reply. machine_of reply ≡ None) }
{
    match stop {
        Stop::Refused(rule, at) => line_alone(alloc, Status::Refused(rule, at)),
        Stop::Limit(limit) => line_alone(alloc, Status::Limit(limit)),
        Stop::NoMemory => Err(NoMemory),
    }
}
