//! The bodies of functions, read from their tokens (ISO C++03 5 and 6, of which the language has a small part).
//!
//! This crate owns no definition: what a tree is, and which tokens it stands for (`BodyReads`), stands in cxx_syntax.
//!
//! The layer above may rely on: `parse_body` and `block` give the tree of the tokens at the front, and refuse
//! exactly by the first event: E1, E21 or E2 at the first token with which the tokens begin no block, or L3 at the
//! 65th block that is open. Blocks within blocks are read by recursion, at most 64 deep; all else is read by loops.
#![tactic(auto)]

pub mod body;
pub mod place;
pub mod right;
pub mod statement;
pub mod texts;

pub use crate::body::{block, parse_body};
pub use crate::texts::{Reading, Text};
