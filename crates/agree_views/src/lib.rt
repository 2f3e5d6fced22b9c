//! What the tables of a view of a heap object give to a machine that reads them by addresses.
//!
//! A part of a heap object is a view whose virtual pointers stand in memory (`specs/Views.antt`: `IsStandingView`). Whether these
//! lead to the tables of its own group or to those of an object of its class alone, the laws of `agree_dispatch` hold of it.
//!
//! The layer above may rely on the laws, which speak of the addresses of parts. From a dynamic part of the view, words of its table
//! lead to its virtual bases, to the view, and to the view's class (`words_of_views`); the entry of a function runs the final
//! overrider (`entries_of_views`); and a moved result points to the part of the class of the function that was found
//! (`results_of_parts`). The crate has no code of its own.
#![tactic(auto)]

pub mod laws;

pub use crate::laws::{entries_of_views, results_of_parts, words_of_views};
