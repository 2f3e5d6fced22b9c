//! A text has one reading or a fault.
//!
//! This crate owns no definition. The layers above may rely on its laws. A list of tokens says one thing at most: two readings of it
//! as a body (`one_body`) or as a source (`one_source_text`) end at the same token and say the same, over `SameBody` and `SameSource`.
//! A text of at most 262,144 bytes says one thing at least: its tokens are those of a source, or they have a first event
//! (`some_source_text`). The bodies of a source are those of its class records, in order (`bodies_of_records`), and the name of each
//! class is a word (`classes_have_words`).
#![tactic(auto)]

pub mod one_laws;
pub mod some_laws;

pub use crate::one_laws::{one_body, one_source_text};
pub use crate::some_laws::{bodies_of_records, classes_have_words, some_source_text};
