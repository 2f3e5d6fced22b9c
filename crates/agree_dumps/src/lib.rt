//! The text of a dump that a run tells is read back as the values that the run tells.
//!
//! The text of a dump has two definitions: `dump_text` of text_told gives it for what a run tells of an object, leaf by leaf as hops lead
//! to them, and `dump_of_seen` of abi_inspect for the values that `inspect` finds in it, line by line of the class. This crate owns what a told
//! dump shows (`specs/SeenDumps.antt`: `seen_of`, a value for each leaf in the order of the lines, each pointer as its object and the
//! place there), and when a told value fits its leaf (`ValuesFit`).
//!
//! The layer above may rely on the law `dumps_have_one_text`: where the values fit, both texts are one, and what is shown fits the lines
//! of the class. In a run of an accepted program they fit, so that `inspect`, given what such a run tells as a dump, answers what it shows.
#![tactic(auto)]

pub mod laws;

pub use crate::laws::dumps_have_one_text;
