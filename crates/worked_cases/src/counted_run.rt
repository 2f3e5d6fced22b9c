//! A run on the byte machine over the memory of these cases.

ghost use Rattle.std.specs.Prelude.{◌≡◌, ◌≤◌, true, length};
ghost use Rattle.foundation.specs.Limits.{source_limit};
ghost use Rattle.foundation.specs.Limits.{most_steps};
ghost use Rattle.path_model.specs.States.{is_body};
ghost use Rattle.cxxabi_cmd.specs.invariants.Listings.{IsReady};

use crate::counting_memory::CountingMemory;
use abi_refine::{Ran, run_machine};
use abi_world::{Built, build};
use byte_machine::Machine;
use cxx_hierarchy::Stop;
use cxx_subobject::MOST_SUBOBJECTS;
use cxxabi_cmd::{Accepted, judge};
use foundation::{NoMemory, SOURCE_LIMIT};
use std::alloc::Global;
use text_told::End;

// The steps of a run at most.
const STEPS: u32 = 1_000_000;

// What a run showed, how it ended, and how often it stored.
#[derive(Drop)]
struct CountedRun {
    text: Vec<u8>,
    end: End,
    stores: u64,
}

// The run of the `main` of an accepted source, for at most so many steps.
fn run_main(
    alloc: Global,
    accepted: &Accepted,
    steps: u32,
    trace: bool,
) -> Result<CountedRun, NoMemory>
    requires ready { IsReady accepted.now }
    requires main { is_body accepted.now.program.main ≡ true }
    requires budget { steps ≤ most_steps }
{
    let Built {
        code,
        numbers,
        image,
    } = build(
        alloc,
        &accepted.hierarchy,
        &accepted.overriders,
        &accepted.layout,
        &accepted.program,
    )?;
    let memory = CountingMemory::new(alloc);
    let mut machine = Machine::new(alloc, memory, image, code, MOST_SUBOBJECTS as usize, steps)?;
    let Ran { text, end, .. } = run_machine(
        alloc,
        &accepted.hierarchy,
        &accepted.layout,
        &accepted.program,
        &numbers,
        &mut machine,
        trace,
    )?;
    let stores = machine.memory().stores();
    Ok(CountedRun { text, end, stores })
}

// The run of a source with a `main`, with a trace or without; None where the source has none.
//
// Errors: the first refusal or limit of the source; want of memory.
fn counted_run(alloc: Global, source: &[u8], trace: bool) -> Result<Option<CountedRun>, Stop>
    requires { length source.now ≤ source_limit }
{
    let accepted = judge(alloc, source)?;
    if accepted.source.main.is_none() {
        return Ok(None);
    }
    let run = run_main(alloc, &accepted, STEPS, trace)?;
    Ok(Some(run))
}

/// Whether a run of a source over the memory of these cases comes to the end of `main`, shows this text, and makes so many stores.
pub fn is_counted_run(alloc: Global, source: &[u8], trace: bool, text: &[u8], stores: u64) -> bool {
    if source.len() > SOURCE_LIMIT {
        return false;
    }
    let Ok(Some(run)) = counted_run(alloc, source, trace) else {
        return false;
    };
    matches!(run.end, End::Done) && run.text.as_slice() == text && run.stores == stores
}
