//! The block of a statement: right sides, calls, copies, and what statements do with them.
//!
//! The block of a copy `*to = *from` between two parts of one class (ISO C++03 12.8 p13) reads both pointers, tests them and the class
//! members that the copy covers (`specs/CopyTests.antt`), and then copies leaf by leaf (`specs/CopyOps.antt`): for each subobject of the
//! class, in preorder, it puts the subobject's address in both parts into two free registers, and copies each number and pointer in it
//! at a distance that the layout gives.
//!
//! This crate owns the ops of right sides and of statements (`specs/Rights.antt`, `specs/Statements.antt`), `copy_front`, `copy_used` and
//! `copy_ops`, and the hint of a `dynamic_cast` (`specs/Hints.antt`; Itanium C++ ABI 2.9.7). The layer above may rely on `hint_of`, and on
//! calls that put these ops behind others, `push_copy_front`, `push_copy_used` and `push_copy` among them, at a cost of the class's
//! subobjects and leaves. What the blocks do is the matter of the crates `agree_..`.
#![tactic(auto)]

pub mod calls;
pub mod casts;
pub mod copies;
pub mod covers;
pub mod deletes;
pub mod distances;
pub mod flows;
pub mod hints;
pub mod loads;
pub mod right_sites;
pub mod right_uses;
pub mod rights;
pub mod statement_sites;
pub mod statement_uses;
pub mod statements;
