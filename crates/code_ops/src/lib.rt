//! The ops of a statement's parts: operands, conversions, arguments and places, and the tests of what they use.
//!
//! A statement of a typed program becomes a block: ops that read what it uses, tests sorted by rule, and ops that do what it does.
//! This crate owns the registers of a body, the routines of a program and their numbers, and the ops of the parts that all statements
//! share; right sides, calls and whole statements are those of code_statements. The layer above may rely on: each call puts the ops
//! of its definition behind others, or leaves these as they were in want of memory.
#![tactic(auto)]

pub mod arguments;
pub mod leaves;
pub mod operands;
pub mod places;
pub mod reads;
pub mod routines;
pub mod sites;
pub mod uses;
pub mod widths;
