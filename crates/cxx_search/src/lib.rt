//! Searches over the subobjects of a class: what lies in what, final overriders, and casts.
//!
//! The relations of cxx_subobject and cxx_overrider say which subobject lies in another, which public edges lead to it, and
//! which function is the final overrider in a view. This crate owns functions that find the same by a search of the preorder
//! of a class (`is_within`, `is_public_in`, `final_in`, `is_abstract`, `cast_in`), so that a step of a run is a function and the
//! refusals of a body are one list. It owns the relation of a cast and its answer, too (`IsCast`). It has no code that is run.
//!
//! The layers above may rely on the laws: each search finds exactly what its relation says, a cast has one answer, and a
//! class declares exactly the functions that have a signature, each once.
#![tactic(auto)]

pub mod laws;

pub use crate::laws::{
    abstract_is_found, casts_are_found, final_is_found, names_are_signatures, public_is_walk,
    virtual_bases_are_found, within_is_inside,
};
