//! From a typed program to the code of the byte machine.
#![tactic(auto)]

pub mod items;
