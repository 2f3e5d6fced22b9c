//! Laws of dumps on the byte machine: the memory behind a turn holds what the step tells.
//!
//! abi_refine says that a turn agrees with the step (`Agreed`), where the machine tells a dump by an address and the step by the
//! leaves of an object. This crate ties the leaves to the memory. It owns when bits are a value that is told (`HoldsValue`), when a
//! memory holds a leaf and a dump (`HoldsLeaf`, `HoldsDump`), and that both agree (`AgreeOnDumps`). It has no code that is run.
//!
//! Whoever has a turn that went may rely on the law `turns_tell_dumps`: it tells a dump where the step does, by an address in the
//! object of the dump, and each leaf stands there in memory at its place by the layout.
#![tactic(auto)]

pub mod laws;

pub use crate::laws::turns_tell_dumps;
