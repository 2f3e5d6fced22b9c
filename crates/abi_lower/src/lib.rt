//! The code of a typed program: all blocks, the numbers of its functions, and how many registers a frame has.
//!
//! The routines of a program stand one after the other: `main`, the functions that have a body, and for each class the plans of its
//! construction and of its destruction (Itanium C++ ABI 5.1.4.3). A routine has the blocks of its plan's own events first, and behind
//! them those of its body's statements and of its end.
//!
//! This crate owns the number of each place (`block_number`) and of each function (`code_rows`), in `specs/invariants/Numbers.antt`, and
//! within which bounds all numbers fit (`IsSmall`, in `specs/Bounds.antt`). The layer above may rely on `lower`: its code and its numbers
//! are those of the program (`IsLowered` of code_blocks). `hint_of`, the hint that each cast in it carries, is handed on from
//! code_statements.
#![tactic(auto)]

pub mod block_sites;
pub mod class_runs;
pub mod counts;
pub mod lowering;
pub mod plan_blocks;
pub mod programs;
pub mod routines;
pub mod rows;
pub mod runs;
pub mod statement_blocks;

pub use crate::programs::{Lowered, lower};
pub use code_statements::hints::hint_of;
