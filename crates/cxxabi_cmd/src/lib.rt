//! The whole program as one call: from words and the bytes of a source to a text and a status.
//!
//! `run_cxxabi` asks what the words say (`cxxabi_words`), reads the source, and writes the answer. This crate owns
//! the statuses and the definition `Output`: which text and status belong to words and bytes. It hands on the outside
//! (`Source`, `Sink` and their implementations, of `cxxabi_streams`), and relies on the crates below by their contracts alone.
//!
//! Whoever calls it may rely on: the text and the status are those of `Output`; a fault is answered only where
//! the count of the object that was handed in rose; nothing is written after a fault of reading or without
//! memory; the whole text is made before the first byte is written. `judge` makes the passes over a source alone, by `Verdict`.
#![tactic(auto)]

mod answer;
mod class_answer;
mod divided_answer;
mod list_answer;
pub mod listing;
mod reply;
pub mod run;
mod run_answer;
pub mod status;
pub mod verdict;

pub use crate::run::{one_output, run_cxxabi, some_output};
pub use crate::status::{InputRule, Status};
pub use crate::verdict::{Accepted, judge};
pub use cxxabi_streams::{
    BytesSink, BytesSource, Sink, SinkFailed, Source, SourceFailed, StdinSource, StdoutSink,
    SteadySink, SteadySource,
};
