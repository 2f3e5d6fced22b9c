//! A run on the machine of paths with its trace, which no command shows.

ghost use Rattle.std.specs.Prelude.{◌≡◌, ◌≤◌, true, length};
ghost use Rattle.foundation.specs.Limits.{source_limit};
ghost use Rattle.path_model.specs.States.{is_body};
ghost use Rattle.cxxabi_cmd.specs.invariants.Listings.{IsReady};

use cxx_hierarchy::Stop;
use cxxabi_cmd::{Accepted, judge};
use foundation::{NoMemory, SOURCE_LIMIT};
use path_run::{PathRun, run_paths};
use std::alloc::Global;
use text_told::End;

// The steps of a run at most.
const STEPS: u32 = 1_000_000;

// The run of the `main` of an accepted source, with its trace.
fn run_main(alloc: Global, accepted: &Accepted) -> Result<PathRun, NoMemory>
    requires ready { IsReady accepted.now }
    requires main { is_body accepted.now.program.main ≡ true }
{
    let run = run_paths(
        alloc,
        &accepted.hierarchy,
        &accepted.overriders,
        &accepted.layout,
        &accepted.program,
        STEPS,
        true,
    )?;
    Ok(run)
}

// The run of a source with a `main`; None where the source has none.
//
// Errors: the first refusal or limit of the source; want of memory.
fn traced_run(alloc: Global, source: &[u8]) -> Result<Option<PathRun>, Stop>
    requires { length source.now ≤ source_limit }
{
    let accepted = judge(alloc, source)?;
    if accepted.source.main.is_none() {
        return Ok(None);
    }
    let run = run_main(alloc, &accepted)?;
    Ok(Some(run))
}

/// Whether a run of a source on the machine of paths comes to the end of `main`, and shows this text with its trace.
pub fn is_traced_run(alloc: Global, source: &[u8], text: &[u8]) -> bool {
    if source.len() > SOURCE_LIMIT {
        return false;
    }
    let Ok(Some(run)) = traced_run(alloc, source) else {
        return false;
    };
    matches!(run.end, End::Done) && run.text.as_slice() == text
}
