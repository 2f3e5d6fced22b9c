//! What the program's words ask for.
//!
//! The words, without the program's name, are read by the crate `clap` as one simple command: a required word
//! COMMAND, a word ARG that may be left out, an option `--steps` with one value and a flag `--trace`. What `clap`
//! gives is a command where it has one of ten forms: `check`, `layout [CLASS]`, `tables [CLASS]`,
//! `run [--steps N] [--trace]`, `paths [--steps N]`, `gen N`, `array C@N`, `memptr C::M[@D]`, `inspect` and
//! `foreign [--steps N]`. This crate owns `Command`, the definition of those forms (`IsForm`) and of the words of each
//! command (`Says`), which is over the function that `clap` gives of a simple command and its words.
//!
//! The layer above may rely on: `command_of` gives the command that the words ask for, and None exactly where they
//! ask for none; the laws in `laws` say that words ask for one command or for none, and how large its numbers are.
#![tactic(auto)]

pub mod command;
pub mod laws;
mod names;
mod numbers;
mod words;

pub use crate::command::{Command, QualifiedMember, command_of};
pub use crate::numbers::BUDGET;
