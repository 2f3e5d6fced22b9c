//! Sinks: bytes in memory with faults, a sink that keeps nothing, and standard output.

ghost use Rattle.std.specs.Prelude.{ℕ, ◌≡◌, ◌<◌, ◌≤◌, ◌+◌, ◌++◌, ◌⊎◌, ◌↔◌, [], List, Option, Ok, Some, None, length, Contains, IfOk, IsErr, OnOk, OnErr, vec_capacity, vec_len, max};

use crate::sink::{Sink, SinkFailed};
use foundation::NoMemory;
use std::alloc::Global;
use std::io::Write;

/// Keeps the bytes in a buffer that was reserved before. The calls of `write` whose numbers, from 1, are listed
/// fail, and so does a piece that does not fit what was reserved.
#[derive(Debug, Drop)]
pub struct BytesSink {
    buffer: Vec<u8>,
    room: usize,
    fails: Vec<u64>,
    calls: u64,
    faults: u64,
    ghost reserved: { vec_len buffer + room ≤ vec_capacity buffer },
}

impl BytesSink {
    ghost use Rattle.cxxabi_streams.specs.BytesStreams.{failing_writes, writes_made, room_of};

    /// An empty sink with no room, of which the calls with these numbers fail. It takes no memory.
    pub fn new(alloc: Global, fails: Vec<u64>) -> BytesSink
        ensures contents { ⟦<BytesSink as Sink>⟧.contents result ≡ Some [] }
        ensures faults { ⟦<BytesSink as Sink>⟧.fault_count result ≡ 0 }
        ensures fails { failing_writes result ≡ fails.items }
        ensures calls { writes_made result ≡ 0 }
        ensures room { room_of result ≡ 0 }
    {
        BytesSink {
            buffer: Vec::new(alloc),
            room: 0,
            fails,
            calls: 0,
            faults: 0,
        }
    }

    /// Reserves room for at least this many bytes more. Without memory it has the room that it had.
    pub fn reserve(&mut self, bytes: usize) -> Result<(), NoMemory>
        ensures ok { OnOk result (room_of self.new ≡ max (room_of self.old) bytes) }
        ensures err { OnErr result (room_of self.new ≡ room_of self.old) }
        ensures contents { ⟦<BytesSink as Sink>⟧.contents self.new ≡ ⟦<BytesSink as Sink>⟧.contents self.old }
        ensures faults { ⟦<BytesSink as Sink>⟧.fault_count self.new ≡ ⟦<BytesSink as Sink>⟧.fault_count self.old }
        ensures fails { failing_writes self.new ≡ failing_writes self.old }
        ensures calls { writes_made self.new ≡ writes_made self.old }
    {
        self.buffer.try_reserve(bytes)?;
        self.room = self.room.max(bytes);
        Ok(())
    }

    /// The bytes that it has taken.
    pub fn taken(&self) -> &[u8]
        ensures { ⟦<BytesSink as Sink>⟧.contents self.now ≡ Some result.now }
    {
        &self.buffer
    }
}

impl Sink for BytesSink {
    ghost use Rattle.std.specs.Prelude.{Some};
    ghost use Rattle.cxxabi_streams.specs.BytesStreams.{bytes_taken, write_faults, failing_writes, writes_made, room_of, one_more};

    ghost contents = { λ s. Some s.buffer.items };

    ghost fault_count = { λ s. s.faults };

    fn faults(&self) -> u64 {
        self.faults
    }

    // It fails exactly where the number of the call is listed, or the piece does not fit what was reserved; else it
    // takes the whole piece.
    fn write(&mut self, piece: &[u8]) -> Result<usize, SinkFailed>
        ensures fails { IsErr result ↔ (Contains (failing_writes self.old) (writes_made self.new) ⊎ (room_of self.old < length piece.now)) }
        ensures whole { OnOk result (result ≡ Ok (length piece.now)) }
        ensures taken { OnOk result (bytes_taken self.new ≡ bytes_taken self.old ++ piece.now) }
        ensures room { OnOk result (room_of self.new + length piece.now ≡ room_of self.old) }
        ensures calls { writes_made self.new ≡ one_more (writes_made self.old) }
        ensures listed { failing_writes self.new ≡ failing_writes self.old }
        ensures kept { OnErr result ((bytes_taken self.new ≡ bytes_taken self.old) × (room_of self.new ≡ room_of self.old)) }
        ensures counted { OnErr result (write_faults self.new ≡ one_more (write_faults self.old)) }
        ensures not_counted { OnOk result (write_faults self.new ≡ write_faults self.old) }
        ensures counts { write_faults self.old ≤ write_faults self.new }
    {
        self.calls = self.calls.saturating_add(1);
        if self.fails.contains(&self.calls) {
            self.faults = self.faults.saturating_add(1);
            return Err(SinkFailed);
        }
        if piece.len() > self.room {
            self.faults = self.faults.saturating_add(1);
            return Err(SinkFailed);
        }
        let Ok(()) = self.buffer.extend_from_slice(piece) else {
            unreachable!();
        };
        self.room -= piece.len();
        Ok(piece.len())
    }
}

/// Takes each piece whole and keeps nothing.
#[derive(Debug, Drop)]
pub struct SteadySink;

impl SteadySink {
    /// The sink. It tells nothing, and its count of faults is always 0.
    pub fn new() -> SteadySink
        ensures silent { ⟦<SteadySink as Sink>⟧.contents result ≡ None }
        ensures faults { ⟦<SteadySink as Sink>⟧.fault_count result ≡ 0 }
    {
        SteadySink
    }
}

impl Sink for SteadySink {
    ghost use Rattle.std.specs.Prelude.{None};

    ghost contents = { λ _. None };

    ghost fault_count = { λ _. 0 };

    fn faults(&self) -> u64 {
        0
    }

    fn write(&mut self, piece: &[u8]) -> Result<usize, SinkFailed>
        ensures { result ≡ Ok (length piece.now) }
    {
        Ok(piece.len())
    }
}

/// Standard output, or another writer. It tells nothing: nothing can be proved of what a system keeps.
#[derive(Debug, Drop)]
pub struct StdoutSink<W> {
    writer: W,
    faults: u64,
}

impl<W: Write> StdoutSink<W> {
    /// A sink over a writer.
    pub fn new(writer: W) -> StdoutSink<W>
        ensures silent { ⟦<StdoutSink<W> as Sink>⟧.contents result ≡ None }
        ensures faults { ⟦<StdoutSink<W> as Sink>⟧.fault_count result ≡ 0 }
    {
        StdoutSink { writer, faults: 0 }
    }
}

impl<W: Write> Sink for StdoutSink<W> {
    ghost use Rattle.std.specs.Prelude.{None};

    ghost contents = { λ _. None };

    ghost fault_count = { λ s. s.faults };

    fn faults(&self) -> u64 {
        self.faults
    }

    fn write(&mut self, piece: &[u8]) -> Result<usize, SinkFailed> {
        match self.writer.write(piece) {
            Ok(count) if count > 0 || piece.is_empty() => Ok(count),
            _ => {
                self.faults = self.faults.saturating_add(1);
                Err(SinkFailed)
            }
        }
    }
}
