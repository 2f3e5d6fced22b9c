//! The adapters of standard input and output, over a reader and a writer that do little at a time and fail.

use crate::case::Case;
use cxxabi_cmd::{Sink, Source, Status, StdinSource, StdoutSink, run_cxxabi};
use std::alloc::Global;
use std::io;

// A reader that gives bytes one by one, and fails behind so many calls.
#[derive(Drop)]
struct Dripping<'a> {
    rest: &'a [u8],
    calls_to_fault: u64,
}

impl io::Read for Dripping<'_> {
    fn read(&mut self, buf: &mut [u8]) -> io::Result<usize> {
        if self.calls_to_fault == 0 {
            return Err(io::Error::from(io::ErrorKind::Other));
        }
        self.calls_to_fault -= 1;
        match (self.rest, buf) {
            ([first, rest @ ..], [place, ..]) => {
                *place = *first;
                self.rest = rest;
                Ok(1)
            }
            _ => Ok(0),
        }
    }
}

// A writer that takes up to three bytes of a piece, and none behind so many calls.
#[derive(Drop)]
struct Narrow {
    taken: Vec<u8>,
    calls_to_fault: u64,
}

impl io::Write for Narrow {
    fn write(&mut self, buf: &[u8]) -> io::Result<usize> {
        if self.calls_to_fault == 0 {
            return Ok(0);
        }
        self.calls_to_fault -= 1;
        let count = buf.len().min(3);
        match self.taken.extend_from_slice(&buf[..count]) {
            Ok(()) => Ok(count),
            Err(_) => Err(io::Error::from(io::ErrorKind::OutOfMemory)),
        }
    }

    fn flush(&mut self) -> io::Result<()> {
        Ok(())
    }
}

/// Whether the program answers these words as the case says where the reader fails behind so many calls and the writer behind so
/// many, each of which is counted by its adapter, and hands out no machine after such a fault.
pub fn is_adapted(alloc: Global, case: &Case, reads: u64, writes: u64, words: &[String]) -> bool {
    let mut narrow = Narrow {
        taken: Vec::new(alloc),
        calls_to_fault: writes,
    };
    let mut source = StdinSource::new(Dripping {
        rest: case.source,
        calls_to_fault: reads,
    });
    let mut sink = StdoutSink::new(&mut narrow);
    let mut last = None;
    let status = run_cxxabi(alloc, words, &mut source, &mut sink, &mut last);
    let is_noted = match status {
        Status::ReadFault => source.faults() == 1 && sink.faults() == 0 && last.is_none(),
        Status::WriteFault => source.faults() == 0 && sink.faults() == 1,
        _ => source.faults() == 0 && sink.faults() == 0,
    };
    is_noted && status.code() == case.status && narrow.taken.as_slice() == case.text
}
