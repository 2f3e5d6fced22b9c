//! Sources: bytes in memory with or without faults, and standard input.

ghost use Rattle.std.specs.Prelude.{ℕ, ◌≡◌, ◌<◌, ◌≤◌, ◌↔◌, List, Option, Some, None, length, drop, Contains, IfOk, IsErr, IsOk, OnOk, OnErr};
ghost use Rattle.cxxabi_streams.specs.Streams.{ReadsNext, Reads};

use crate::source::{Source, SourceFailed};
use std::io::Read;

/// The bytes of a list. The calls of `read` whose numbers, from 1, are listed fail.
#[derive(Debug, Drop)]
pub struct BytesSource {
    bytes: Vec<u8>,
    at: usize,
    fails: Vec<u64>,
    calls: u64,
    faults: u64,
    ghost within: { at ≤ length bytes.items },
}

impl BytesSource {
    ghost use Rattle.cxxabi_streams.specs.BytesStreams.{failing_reads, reads_made};

    /// A source of these bytes, of which the calls with these numbers fail.
    pub fn new(bytes: Vec<u8>, fails: Vec<u64>) -> BytesSource
        ensures remaining { ⟦<BytesSource as Source>⟧.remaining result ≡ Some bytes.items }
        ensures faults { ⟦<BytesSource as Source>⟧.fault_count result ≡ 0 }
        ensures fails { failing_reads result ≡ fails.items }
        ensures calls { reads_made result ≡ 0 }
    {
        BytesSource {
            bytes,
            at: 0,
            fails,
            calls: 0,
            faults: 0,
        }
    }
}

// Copies the front of the bytes behind a place into a slice, and says how many.
fn copy_front(bytes: &[u8], into: &mut [u8]) -> usize
    requires { 0 < length into.old }
    ensures within { result ≤ length bytes.now }
    ensures fits { result ≤ length into.old }
    ensures reads { ReadsNext bytes.now (Some (drop result bytes.now)) result into.new }
{
    let count = bytes.len().min(into.len());
    let (front, _) = into.split_at_mut(count);
    front.copy_from_slice(&bytes[..count]);
    count
}

impl Source for BytesSource {
    ghost use Rattle.std.specs.Prelude.{Some, drop};
    ghost use Rattle.cxxabi_streams.specs.BytesStreams.{bytes_left, read_faults, failing_reads, reads_made, one_more};

    ghost remaining = { λ s. Some (drop s.at s.bytes.items) };

    ghost fault_count = { λ s. s.faults };

    fn faults(&self) -> u64 {
        self.faults
    }

    // It fails exactly where the number of the call is listed; each fault is counted.
    fn read(&mut self, into: &mut [u8]) -> Result<usize, SourceFailed>
        requires { 0 < length into.old }
        ensures within { IfOk result (λ n. n ≤ length into.old) }
        ensures reads { IfOk result (λ n. ReadsNext (bytes_left self.old) (Some (bytes_left self.new)) n into.new) }
        ensures fails { IsErr result ↔ Contains (failing_reads self.old) (reads_made self.new) }
        ensures calls { reads_made self.new ≡ one_more (reads_made self.old) }
        ensures listed { failing_reads self.new ≡ failing_reads self.old }
        ensures kept { OnErr result (bytes_left self.new ≡ bytes_left self.old) }
        ensures counted { OnErr result (read_faults self.new ≡ one_more (read_faults self.old)) }
        ensures not_counted { OnOk result (read_faults self.new ≡ read_faults self.old) }
        ensures counts { read_faults self.old ≤ read_faults self.new }
    {
        self.calls = self.calls.saturating_add(1);
        if self.fails.contains(&self.calls) {
            self.faults = self.faults.saturating_add(1);
            return Err(SourceFailed);
        }
        let count = copy_front(&self.bytes[self.at..], into);
        self.at += count;
        Ok(count)
    }
}

/// The bytes of a list. No call fails.
#[derive(Debug, Drop)]
pub struct SteadySource {
    bytes: Vec<u8>,
    at: usize,
    ghost within: { at ≤ length bytes.items },
}

impl SteadySource {
    /// A source of these bytes, whose count of faults is always 0.
    pub fn new(bytes: Vec<u8>) -> SteadySource
        ensures remaining { ⟦<SteadySource as Source>⟧.remaining result ≡ Some bytes.items }
        ensures faults { ⟦<SteadySource as Source>⟧.fault_count result ≡ 0 }
    {
        SteadySource { bytes, at: 0 }
    }
}

impl Source for SteadySource {
    ghost use Rattle.std.specs.Prelude.{Some, drop};
    ghost use Rattle.cxxabi_streams.specs.BytesStreams.{steady_left};

    ghost remaining = { λ s. Some (drop s.at s.bytes.items) };

    ghost fault_count = { λ _. 0 };

    fn faults(&self) -> u64 {
        0
    }

    fn read(&mut self, into: &mut [u8]) -> Result<usize, SourceFailed>
        requires { 0 < length into.old }
        ensures ok { IsOk result }
        ensures within { IfOk result (λ n. n ≤ length into.old) }
        ensures reads { IfOk result (λ n. ReadsNext (steady_left self.old) (Some (steady_left self.new)) n into.new) }
    {
        let count = copy_front(&self.bytes[self.at..], into);
        self.at += count;
        Ok(count)
    }
}

/// Standard input, or another reader. It tells no bytes: nothing can be proved of what a system gives.
#[derive(Debug, Drop)]
pub struct StdinSource<R> {
    reader: R,
    faults: u64,
}

impl<R: Read> StdinSource<R> {
    /// A source over a reader.
    pub fn new(reader: R) -> StdinSource<R>
        ensures silent { ⟦<StdinSource<R> as Source>⟧.remaining result ≡ None }
        ensures faults { ⟦<StdinSource<R> as Source>⟧.fault_count result ≡ 0 }
    {
        StdinSource { reader, faults: 0 }
    }
}

impl<R: Read> Source for StdinSource<R> {
    ghost use Rattle.std.specs.Prelude.{None};

    ghost remaining = { λ _. None };

    ghost fault_count = { λ s. s.faults };

    fn faults(&self) -> u64 {
        self.faults
    }

    fn read(&mut self, into: &mut [u8]) -> Result<usize, SourceFailed> {
        match self.reader.read(into) {
            Ok(count) => Ok(count),
            Err(_) => {
                self.faults = self.faults.saturating_add(1);
                Err(SourceFailed)
            }
        }
    }
}
