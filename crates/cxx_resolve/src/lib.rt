//! From the trees of bodies to a typed program, or to the first refusal (ISO C++03 3.3, 3.4, 4, 5, 10.2, 12.6.2).
//!
//! This crate owns what a source resolves to (`program_of`): the globals, then the bodies in source order with `main` at its
//! place among them, in each the initializers and then the statements; or the first refusal or limit, of a statement by the
//! least number and its first place. It owns the meaning of a statement and of a block (`block_meaning`): how many statements
//! it has, and what it adds to those before it, by its number and the number behind it. Both are functions of the classes and
//! the trees.
//!
//! The layer above may rely on: `resolve` answers exactly `program_of`; sources that say the same have one answer
//! (`one_program`); each source has a program, a refusal or a limit (`some_program`); the bodies of a source that tokens
//! spell have fewer statements than there are tokens (`statements_are_few`); and the faults of a statement that takes the
//! result of a call include those of the result (`results_are_taken`).
#![tactic(auto)]

mod blocks;
mod bodies;
mod body_site;
mod declarations;
pub mod draft;
mod globals;
mod initializers;
pub mod laws;
pub mod resolution;
mod sizes;
mod statements;

pub use crate::laws::{one_program, results_are_taken, some_program, statements_are_few};
pub use crate::resolution::resolve;
