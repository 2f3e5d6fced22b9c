//! Where the bytes of a source come from, and where those of an answer go.
//!
//! A `Source` is read in pieces and a `Sink` is given pieces; each counts the faults that it met. This crate owns both, with their
//! implementations over bytes in memory, standard input and standard output, and says what a read takes and a write gives
//! (`specs/Streams.antt`, and `specs/BytesStreams.antt` for bytes in memory).
//!
//! The layer above may rely on: a failed read or write takes or gives nothing, and the count of faults rises with it; `read_source` gives
//! all bytes of a source, or one more than a source may have; `write_text` gives the whole text, or a front of it and then tells the
//! fault. Of standard input and standard output nothing is told: nothing can be proved of what a system gives and keeps.
#![tactic(auto)]

pub mod reading;
pub mod sink;
pub mod sinks;
pub mod source;
pub mod sources;
pub mod writing;

pub use crate::reading::{ReadStop, read_source};
pub use crate::sink::{Sink, SinkFailed};
pub use crate::sinks::{BytesSink, StdoutSink, SteadySink};
pub use crate::source::{Source, SourceFailed};
pub use crate::sources::{BytesSource, StdinSource, SteadySource};
pub use crate::writing::write_text;
