//! The program: the words of the command line, standard input and standard output, and one call.
#![tactic(auto)]

use cxxabi_cmd::{StdinSource, StdoutSink, run_cxxabi};
use std::alloc::AllocError;
use std::process::ExitCode;
use std::{env, io};

/// The exit status where there was no memory for the words.
const NO_MEMORY: u8 = 8;

/// The exit status where the system did not give the words.
const NO_WORDS: u8 = 9;

// The words after the program's name, or the exit status where they are not given.
fn words(rt: &HostRuntime) -> Result<Vec<String>, u8> {
    let given = match env::args(rt) {
        Ok(given) => given,
        Err(error) if error.kind() == io::ErrorKind::OutOfMemory => return Err(NO_MEMORY),
        Err(_) => return Err(NO_WORDS),
    };
    given
        .skip(1)
        .collect(rt.alloc())
        .map_err(|_: AllocError| NO_MEMORY)
}

fn main(rt: HostRuntime) -> ExitCode {
    let words = match words(&rt) {
        Ok(words) => words,
        Err(code) => return ExitCode::from(code),
    };
    let mut source = StdinSource::new(rt.stdin());
    let mut sink = StdoutSink::new(rt.stdout());
    let mut last = None;
    let status = run_cxxabi(rt.alloc(), &words, &mut source, &mut sink, &mut last);
    ExitCode::from(status.code())
}
