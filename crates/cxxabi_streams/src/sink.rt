//! Where the bytes of an answer go.

ghost use Rattle.std.specs.Prelude.{ℕ, ◌≡◌, ◌<◌, ◌≤◌, List, Option, length, IfOk, OnErr};
ghost use Rattle.cxxabi_streams.specs.Streams.{Rose, Writes};

use thiserror::Error;

/// The sink took nothing of a piece.
#[derive(Debug, Drop, Error)]
#[error("the text could not be written")]
pub struct SinkFailed;

/// A taker of bytes, given in pieces.
pub trait Sink {
    /// The bytes that it has taken, where it tells them.
    ghost contents: { Self → Option (List ℕ) };

    /// How many faults it has met.
    ghost fault_count: { Self → ℕ };

    /// The number of faults met so far. It stands still at the last number of its type.
    fn faults(&self) -> u64
        ensures { result ≡ fault_count self.now };

    /// Takes bytes from the front of a piece, at least one of a piece that is not empty, and says how many.
    /// A failed write takes nothing.
    fn write(&mut self, piece: &[u8]) -> Result<usize, SinkFailed>
        ensures within { IfOk result (λ n. n ≤ length piece.now) }
        ensures some { IfOk result (λ n. 0 < length piece.now → 0 < n) }
        ensures writes { IfOk result (λ n. Writes (contents self.old) (contents self.new) n piece.now) }
        ensures failed { OnErr result (Rose (fault_count self.old) (fault_count self.new)) }
        ensures kept { OnErr result (contents self.new ≡ contents self.old) }
        ensures counts { fault_count self.old ≤ fault_count self.new };
}
