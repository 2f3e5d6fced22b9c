//! Reads a whole source, up to one byte past the limit.

ghost use Rattle.std.specs.Prelude.{ℕ, ◌≡◌, ◌<◌, ◌≤◌, ◌+◌, Some, length, take, drop, vec_len, IfOk, IfErr, IfSome};
ghost use Rattle.foundation.specs.Limits.{source_limit};
ghost use Rattle.cxxabi_streams.specs.Streams.{Rose};

use crate::source::Source;
use foundation::{NoMemory, SOURCE_LIMIT};
use std::alloc::{AllocError, Global};

/// Why a source was not read.
#[derive(Clone, Copy, Debug, PartialEq, Eq)]
pub enum ReadStop {
    Fault,
    NoMemory,
}

impl From<AllocError> for ReadStop {
    ghost use Rattle.cxxabi_streams.specs.declared.reading.ReadStop.{ReadStop};

    ghost from_gives = { λ _ stop. stop ≡ ReadStop.NoMemory };

    fn from(_error: AllocError) -> ReadStop {
        ReadStop::NoMemory
    }
}

impl From<NoMemory> for ReadStop {
    ghost use Rattle.cxxabi_streams.specs.declared.reading.ReadStop.{ReadStop};

    ghost from_gives = { λ _ stop. stop ≡ ReadStop.NoMemory };

    fn from(_error: NoMemory) -> ReadStop {
        ReadStop::NoMemory
    }
}

/// The bytes of a source to its end, or its first 262,145 bytes where it has more.
///
/// Errors: a fault of the source, exactly as it tells it; want of memory.
pub fn read_source<S: Source>(alloc: Global, source: &mut S) -> Result<Vec<u8>, ReadStop>
    ensures bytes { IfOk result (λ text. IfSome (S.remaining source.old) (λ bytes. text.items ≡ take (source_limit + 1) bytes)) }
    ensures rest { IfOk result (λ _. IfSome (S.remaining source.old) (λ bytes. S.remaining source.new ≡ Some (drop (source_limit + 1) bytes))) }
    ensures size { IfOk result (λ text. vec_len text ≤ source_limit + 1) }
    ensures fault { IfErr result (λ stop. stop ≡ ReadStop.Fault → Rose (S.fault_count source.old) (S.fault_count source.new)) }
    ensures counts { S.fault_count source.old ≤ S.fault_count source.new }
{
    let mut text = Vec::new(alloc);
    let mut buffer = [0u8; 4096];
    while text.len() <= SOURCE_LIMIT {
        let room = (SOURCE_LIMIT + 1 - text.len()).min(buffer.len());
        let Ok(count) = source.read(&mut buffer[..room]) else {
            return Err(ReadStop::Fault);
        };
        if count == 0 {
            return Ok(text);
        }
        text.extend_from_slice(&buffer[..count])?;
    }
    Ok(text)
}
