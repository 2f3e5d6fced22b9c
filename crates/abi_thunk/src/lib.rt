//! Adjustments of `this` and of results (Itanium C++ ABI 2.5.3).
//!
//! A call through a table reaches the function of another subobject: `this` is adjusted from the subobject whose class
//! declares the entry to the overrider's, and a covariant result from the class that the overrider returns to the one that
//! the entry's function returns. Each adjustment is a constant, or a constant and a word of a table.
//!
//! This crate owns no definition: `this_adjust` and `return_adjust` are those of abi_slots, and `adjustments_lead` says that
//! they lead to the target's place. The layer above may rely on: None comes exactly where no word of a table is
//! given and nothing is to be added.
#![tactic(auto)]

pub mod adjust;
pub mod laws;

pub use crate::adjust::{return_adjust, shared_place, this_adjust};
pub use crate::laws::adjustments_lead;
