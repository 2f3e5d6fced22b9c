//! Runs worked cases through the whole program and says which differ.
//!
//! Standard input has the cases: words, a source, and the text and the status that they are answered with. For each case
//! that differs there is a line, and the last line has the counts. The first word says how a case is run:
//!
//! - `calls`: through public calls that no command makes.
//! - `counted N WORDS`: by these words, and on the byte machine over a memory that counts its stores, of which there are N.
//! - `adapted R W WORDS`: by these words, through the adapters of standard input and output, of which so many calls succeed.
//! - `run` or `paths`, without a trace: by both words, since both machines give one answer; after `run` the byte machine is
//!   handed out.
//! - `run --trace`, where it comes to the end of `main`: by these words, and on the machine of paths with its trace.
//! - `layout`, with the name of a class: by these words, and by the calls below the program.
//! - `inspect`, where it says values: by these words, and the dump is written again from these values.
//! - any other: by these words.
//!
//! Where nothing else is said a case goes through `run_cxxabi` with a source and a sink over bytes, some of whose calls may fail.
#![tactic(auto)]

mod adapters;
mod case;
mod counted_run;
mod counting_memory;
mod hinted_calls;
mod hinted_visits;
mod other_calls;
mod own_layout;
mod page_memory;
mod pointer_calls;
mod read_back;
mod traced_run;
mod vtt_calls;

use adapters::is_adapted;
use case::{Case, next_case};
use counted_run::is_counted_run;
use cxxabi_cmd::{BytesSink, BytesSource, run_cxxabi};
use other_calls::is_answered;
use own_layout::is_layout;
use read_back::is_read_back;
use std::alloc::{AllocError, Global};
use std::io::Read;
use traced_run::is_traced_run;

/// The bytes that a sink takes at most.
const ROOM: usize = 1 << 16;

// The numbers of the calls that fail: one call, or none where the number is 0.
fn failing(alloc: Global, call: u64) -> Result<Vec<u64>, AllocError> {
    let mut calls = Vec::new(alloc);
    if call > 0 {
        calls.push(call)?;
    }
    Ok(calls)
}

// Whether a machine is there afterwards, where the program answers these words as the case says; None where it does not.
fn machine_after(alloc: Global, case: &Case, words: &[String]) -> anyhow::Result<Option<bool>> {
    let bytes = Vec::from_slice(alloc, case.source)?;
    let mut source = BytesSource::new(bytes, failing(alloc, case.failing_read)?);
    let mut sink = BytesSink::new(alloc, failing(alloc, case.failing_write)?);
    let Ok(()) = sink.reserve(ROOM) else {
        return Ok(None);
    };
    let mut last = None;
    let status = run_cxxabi(alloc, words, &mut source, &mut sink, &mut last);
    let is_answer = status.code() == case.status && sink.taken() == case.text;
    Ok(is_answer.then_some(last.is_some()))
}

// The words with another first word.
fn with_first(alloc: Global, first: &str, words: &[String]) -> Result<Vec<String>, AllocError> {
    let mut list = Vec::new(alloc);
    list.push(String::from_str(alloc, first)?)?;
    for word in words.iter().skip(1) {
        list.push(String::from_str(alloc, word.as_str())?)?;
    }
    Ok(list)
}

// Whether both machines give the answer of the case, and the byte machine is handed out where a run came to its end.
fn is_run(alloc: Global, case: &Case) -> anyhow::Result<bool> {
    let by_bytes = machine_after(alloc, case, &with_first(alloc, "run", &case.words)?)?;
    let by_paths = machine_after(alloc, case, &with_first(alloc, "paths", &case.words)?)?;
    let ran = case.status == 0 || case.status == 3 || case.status == 4;
    Ok(by_paths == Some(false) && by_bytes.is_some() && (by_bytes == Some(true) || !ran))
}

// Whether the words ask for a trace, which no command shows of the machine of paths.
fn is_traced(words: &[String]) -> bool {
    words.iter().any(|word| word.as_str() == "--trace")
}

// Whether the program answers these words as the case says, and the byte machine over a memory that counts gives the same text
// with so many stores.
fn is_counted(alloc: Global, case: &Case, stores: &str, words: &[String]) -> anyhow::Result<bool> {
    let Ok(stores) = stores.parse::<u64>() else {
        return Ok(false);
    };
    let answered = machine_after(alloc, case, words)?.is_some();
    let trace = is_traced(words);
    Ok(answered && is_counted_run(alloc, case.source, trace, case.text, stores))
}

// Whether the program answers these words as the case says, and the machine of paths has the same trace where the run comes to
// the end of `main` without a budget of its own.
fn is_run_with_trace(alloc: Global, case: &Case, words: &[String]) -> anyhow::Result<bool> {
    let answered = machine_after(alloc, case, words)?.is_some();
    let is_whole = case.status == 0 && words.len() == 2;
    Ok(answered && (!is_whole || is_traced_run(alloc, case.source, case.text)))
}

// Whether all is as the case says.
fn is_right(alloc: Global, case: &Case) -> anyhow::Result<bool> {
    match case.words.as_slice() {
        [word, stores, words @ ..] if word.as_str() == "counted" => {
            is_counted(alloc, case, stores.as_str(), words)
        }
        [word, reads, writes, words @ ..] if word.as_str() == "adapted" => {
            let (Ok(reads), Ok(writes)) = (reads.parse::<u64>(), writes.parse::<u64>()) else {
                return Ok(false);
            };
            Ok(is_adapted(alloc, case, reads, writes, words))
        }
        [word, calls @ ..] if word.as_str() == "calls" => {
            Ok(is_answered(alloc, calls, case.source, case.text))
        }
        words if is_traced(words) => is_run_with_trace(alloc, case, words),
        [word, ..] if word.as_str() == "run" || word.as_str() == "paths" => is_run(alloc, case),
        [word] if word.as_str() == "inspect" && case.status == 0 => {
            let answered = machine_after(alloc, case, &case.words)?.is_some();
            Ok(answered && is_read_back(alloc, case.source))
        }
        [word, name] if word.as_str() == "layout" && case.status == 0 => {
            let answered = machine_after(alloc, case, &case.words)?.is_some();
            Ok(answered && is_layout(alloc, case.source, name.as_bytes(), case.text))
        }
        _ => Ok(machine_after(alloc, case, &case.words)?.is_some()),
    }
}

fn main(rt: HostRuntime) -> anyhow::Result<()> {
    let alloc = rt.alloc();
    let mut bytes = Vec::new(alloc);
    rt.stdin().read_to_end(&mut bytes)?;
    let mut rest = bytes.as_slice();
    let mut cases = 0u64;
    let mut differ = 0u64;
    while !rest.is_empty() {
        let Some((case, behind)) = next_case(alloc, rest)? else {
            println!(rt; "no case stands behind case {cases}")?;
            return Ok(());
        };
        if !is_right(alloc, &case)? {
            println!(rt; "case {cases} differs")?;
            differ = differ.saturating_add(1);
        }
        cases = cases.saturating_add(1);
        rest = behind;
    }
    println!(rt; "{cases} cases, {differ} differ")?;
    Ok(())
}
