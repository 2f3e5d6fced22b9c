//! Whether a class of a layout is sound, and else the first rule that it does not keep (Itanium C++ ABI 2.2 and 2.4).
//!
//! This crate owns the rules of a sound layout in their order (`SoundRule`), each a group of the laws that abi_sound's
//! `IsSoundClass` asks of a class (`Keeps`), and what it means that one is the first to fail (`FailsFirst`). The rows may come from
//! anywhere: no rule that lays classes out is asked.
//!
//! The layer above may rely on `fault_of_class`, for rows that tell of each class in numbers up to 1,048,576, with holders by
//! the rule: it answers None exactly where the class is sound, and else the first rule that it does not keep.
#![tactic(auto)]

mod apart;
mod draft;
pub mod judge;
pub mod rules;
mod things;
mod walk;

pub use crate::judge::fault_of_class;
pub use crate::rules::SoundRule;
