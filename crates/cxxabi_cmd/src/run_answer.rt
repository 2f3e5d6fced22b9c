//! What `run`, `paths` and `gen` answer: what `main` prints on the byte machine, and on the machine of paths, and the summary of a run.

ghost use Rattle.std.specs.Prelude.{◌≡◌, ◌≤◌, ℕ, List, true, false, None, IfOk, MatchOption};
ghost use Rattle.std.specs.Option.{option_map};
ghost use Rattle.path_model.specs.States.{is_body};
ghost use Rattle.abi_sound.specs.Places.{places_of};
ghost use Rattle.abi_tables.specs.Counts.{words_of_all_classes, most_words};
ghost use Rattle.text_told.specs.declared.ending.End.{End};
ghost use Rattle.foundation.specs.Limits.{most_steps};
ghost use Rattle.cxxabi_cmd.specs.Commands.{SumsUp};
ghost use Rattle.cxxabi_cmd.specs.Output.{IsRunAnswer, Yields, ended_answer, status_of, summary_answer};
ghost use Rattle.cxxabi_cmd.specs.Handed.{IsMachineOf, seen_machine};
ghost use Rattle.cxxabi_cmd.specs.invariants.Listings.{IsReady};
ghost use Rattle.cxxabi_cmd.specs.invariants.Replies.{as_answer, machine_of, HandsBy};

use crate::reply::{Reply, line_alone};
use crate::status::{Status, last_line_of, number_of};
use crate::verdict::Accepted;
use abi_refine::{Execution, execute};
use abi_sound::SoundLayout;
use byte_machine::Machine;
use byte_memory::PageMemory;
use cxx_gen::{count_lines, last_line, summary};
use cxx_hierarchy::{Hierarchy, Rule};
use cxxabi_words::Command;
use foundation::{MOST_STEPS, NoMemory, Sequence};
use path_run::{PathRun, run_paths};
use std::alloc::Global;
use text_told::End;

// The status of an end.
fn status_of(end: End) -> Status
    ensures { result ≡ status_of end }
{
    match end {
        End::Done => Status::Done,
        End::Undefined(rule, line) => Status::Undefined(number_of(rule), line),
        End::OutOfSteps => Status::OutOfSteps,
        End::Limit(limit) => Status::Limit(limit),
    }
}

// The text of a run of at most so many steps, and the last line of its end.
fn ended(
    alloc: Global,
    text: Sequence<u8>,
    end: End,
    steps: u32,
    machine: Option<Machine<PageMemory>>,
) -> Result<Reply, NoMemory>
    ensures answer { IfOk result (λ reply. as_answer reply ≡ ended_answer text end steps) }
    ensures machine { IfOk result (λ reply. machine_of reply ≡ option_map (λ m. seen_machine m) machine) }
{
    let status = status_of(end);
    let mut text = text.into_vec();
    text.extend_from_slice(last_line_of(alloc, status, steps)?.as_bytes())?;
    Ok(Reply {
        text,
        status,
        machine,
    })
}

// The summary of a run that printed this text: of so many steps, over so many classes.
fn summed_up(
    alloc: Global,
    h: &Hierarchy,
    text: &[u8],
    steps: u32,
    machine: Option<Machine<PageMemory>>,
) -> Result<Reply, NoMemory>
    ensures answer { IfOk result (λ reply. as_answer reply ≡ summary_answer h.now steps text.now) }
    ensures machine { IfOk result (λ reply. machine_of reply ≡ option_map (λ m. seen_machine m) machine) }
{
    let text = summary(alloc, h.len(), steps, count_lines(text), last_line(text))?;
    Ok(Reply {
        text,
        status: Status::Done,
        machine,
    })
}

// What is answered to a program that has a main, run on the byte machine over a layout.
pub(crate) fn run_by_bytes<L: SoundLayout>(
    alloc: Global,
    steps: u32,
    trace: bool,
    layout: &L,
    accepted: &Accepted,
) -> Result<Reply, NoMemory>
    requires ready { IsReady accepted.now }
    requires layout { L.lays_out layout.now accepted.now.hierarchy }
    requires words { words_of_all_classes accepted.now.hierarchy (places_of accepted.now.hierarchy (L.rows layout.now)) ≤ most_words }
    requires main { is_body accepted.now.program.main ≡ true }
    requires few { steps ≤ most_steps }
    ensures answer { IfOk result (λ reply. (command : Command) → ((end_is : End) → SumsUp command end_is → ⊥) → IsRunAnswer command accepted.now.hierarchy (L.rows layout.now) accepted.now.program trace steps (as_answer reply)) }
    ensures machine { IfOk result (λ reply. MatchOption (machine_of reply) ⊥ (IsMachineOf accepted.now.hierarchy (L.rows layout.now) accepted.now.program trace steps)) }
{
    let execution = execute(
        alloc,
        &accepted.hierarchy,
        &accepted.overriders,
        layout,
        &accepted.program,
        steps,
        trace,
    )?;
    let Execution {
        text,
        end,
        machine,
        ..
    } = execution;
    let reply = ended(alloc, text, end, steps, Some(machine))?;
    Ok(reply)
}

// What is answered to a program that has a main, run on the byte machine and summed up.
fn generated_by_bytes(alloc: Global, accepted: &Accepted) -> Result<Reply, NoMemory>
    requires ready { IsReady accepted.now }
    requires main { is_body accepted.now.program.main ≡ true }
    ensures answer { IfOk result (λ reply. (n : ℕ) → IsRunAnswer (Command.Gen n) accepted.now.hierarchy accepted.now.layout accepted.now.program false most_steps (as_answer reply)) }
    ensures machine { IfOk result (λ reply. MatchOption (machine_of reply) ⊥ (IsMachineOf accepted.now.hierarchy accepted.now.layout accepted.now.program false most_steps)) }
{
    let execution = execute(
        alloc,
        &accepted.hierarchy,
        &accepted.overriders,
        &accepted.layout,
        &accepted.program,
        MOST_STEPS,
        false,
    )?;
    let Execution {
        text,
        steps,
        end,
        machine,
        ..
    } = execution;
    if let End::Done = end {
        let reply = summed_up(
            alloc,
            &accepted.hierarchy,
            text.as_slice(),
            steps,
            Some(machine),
        )?;
        return Ok(reply);
    }
    let reply = ended(alloc, text, end, MOST_STEPS, Some(machine))?;
    Ok(reply)
}

// What is answered to a program that has a main, run on the machine of paths.
fn run_by_paths(alloc: Global, steps: u32, accepted: &Accepted) -> Result<Reply, NoMemory>
    requires ready { IsReady accepted.now }
    requires main { is_body accepted.now.program.main ≡ true }
    requires few { steps ≤ most_steps }
    ensures answer { IfOk result (λ reply. IsRunAnswer (Command.Paths steps) accepted.now.hierarchy accepted.now.layout accepted.now.program false steps (as_answer reply)) }
    ensures machine { IfOk result (λ reply. machine_of reply ≡ None) }
{
    let PathRun { text, end } = run_paths(
        alloc,
        &accepted.hierarchy,
        &accepted.overriders,
        &accepted.layout,
        &accepted.program,
        steps,
        false,
    )?;
    let reply = ended(alloc, text, end, steps, None)?;
    Ok(reply)
}

/// What `run` answers to an accepted source of so many bytes, with a budget of steps, and with a trace or without.
pub(crate) fn run_on_bytes(
    alloc: Global,
    size: u32,
    steps: u32,
    trace: bool,
    accepted: &Accepted,
) -> Result<Reply, NoMemory>
    requires ready { IsReady accepted.now }
    requires few { steps ≤ most_steps }
    ensures yields { IfOk result (λ reply. (front : List ℕ) → Yields front size accepted.now.source accepted.now.hierarchy accepted.now.program (Command.Run steps trace) (as_answer reply)) }
    ensures machine { IfOk result (λ reply. (front : List ℕ) → HandsBy (Command.Run steps trace) front accepted.now.source accepted.now.hierarchy accepted.now.program (machine_of reply)) }
{
    if accepted.source.main.is_none() {
        return line_alone(alloc, Status::Refused(Rule::UnknownName, size));
    }
    run_by_bytes(alloc, steps, trace, &accepted.layout, accepted)
}

/// What `gen` answers to the source that it made, which is accepted and has so many bytes.
pub(crate) fn run_generated(
    alloc: Global,
    size: u32,
    accepted: &Accepted,
) -> Result<Reply, NoMemory>
    requires ready { IsReady accepted.now }
    ensures yields { IfOk result (λ reply. (n : ℕ) (front : List ℕ) → Yields front size accepted.now.source accepted.now.hierarchy accepted.now.program (Command.Gen n) (as_answer reply)) }
    ensures machine { IfOk result (λ reply. (n : ℕ) (front : List ℕ) → HandsBy (Command.Gen n) front accepted.now.source accepted.now.hierarchy accepted.now.program (machine_of reply)) }
{
    if accepted.source.main.is_none() {
        return line_alone(alloc, Status::Refused(Rule::UnknownName, size));
    }
    generated_by_bytes(alloc, accepted)
}

/// What `paths` answers to an accepted source of so many bytes, with a budget of steps.
pub(crate) fn run_on_paths(
    alloc: Global,
    size: u32,
    steps: u32,
    accepted: &Accepted,
) -> Result<Reply, NoMemory>
    requires ready { IsReady accepted.now }
    requires few { steps ≤ most_steps }
    ensures yields { IfOk result (λ reply. (front : List ℕ) → Yields front size accepted.now.source accepted.now.hierarchy accepted.now.program (Command.Paths steps) (as_answer reply)) }
    ensures machine { IfOk result (λ reply. machine_of reply ≡ None) }
{
    if accepted.source.main.is_none() {
        return line_alone(alloc, Status::Refused(Rule::UnknownName, size));
    }
    run_by_paths(alloc, steps, accepted)
}
