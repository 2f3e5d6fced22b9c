//! What a source resolves to is typed (ISO C++03 4, 5, 6, 12.6.2).
//!
//! This crate owns no code: it proves laws about the definitions of `cxx_expression` and `cxx_resolve` and of typed
//! programs (`cxx_program`). A piece of a statement has a type by each of its steps; here the steps are put together, from
//! statements over the trees of bodies to a whole program.
//!
//! It owns what a scene and a setting say of a body (`IsScene`, `IsSetting`), what is known of a source that is accepted
//! (`IsSourceOf`), and what is said of statements (`StatementsAreTyped`).
//!
//! The layer above may rely on `programs_are_typed`: over the classes of its records a source that resolves without a
//! fault gives a typed program. Of what that law wants, `pure_functions_are_virtual` gives that pure functions are
//! virtual. `statements_are_typed` says of each statement that it is typed in any body whose locals and globals have what
//! stands in scope.
#![tactic(auto)]

pub mod laws;

pub use crate::laws::{programs_are_typed, pure_functions_are_virtual, statements_are_typed};
