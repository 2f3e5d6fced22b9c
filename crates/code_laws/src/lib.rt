//! Laws of the code of statements: which ops their blocks may have.
//!
//! The definitions of code_ops and code_statements say which ops a statement is lowered to, piece by piece. This crate says of each op in
//! which statements it may stand at all. It owns that table (`may_stand`, in `specs/Kinds.antt`): an op of a plan stands in none, `End` only
//! in a `return` of `main`, `Cast` only where the right side is a `dynamic_cast` that needs a search. It has no code that is run.
//!
//! The layer above may rely on the law `statements_have_their_ops`, over `statement_ops` of code_blocks, which is what the block of a
//! statement has in each code that `IsLowered` speaks of. So a block of a statement begins no subobject, sets no virtual pointer, puts no
//! subobject into a phase and changes no view itself: the blocks of plans alone do, to which its calls, `new` and `delete` lead.
#![tactic(auto)]

pub mod laws;

pub use crate::laws::statements_have_their_ops;
