//! The parts of a class and the items of a source that hold no body (ISO C++03 7 to 12, of which the language has a
//! small part).
//!
//! This crate owns no definition that a contract of a public call of the program speaks of; `Draft` is the record of a
//! class while its parts are read.
//!
//! The layer above may rely on: each reader gives what the tokens at the front stand for, and refuses exactly where the
//! table of the grammar does; a `Draft` and a source to which parts and items are added are those of the parts and items,
//! in order. A list is read by a loop, and each token is looked at a fixed number of times.
#![tactic(auto)]

pub mod base;
pub mod draft;
pub mod gather;
pub mod initializer;
pub mod member;
pub mod value;
pub mod variable;
