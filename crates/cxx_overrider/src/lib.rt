//! Final overriders, covariant returns and abstract classes (ISO C++03 10.3, 10.4).
//!
//! A function of a base is overridden by the functions of the same name and parameter types in the classes that
//! have that base. In an object the final overrider is the one whose subobject no other one's subobject contains.
//! This crate owns these definitions, over subobjects as paths, and the class-meaning pass that refuses the
//! hierarchies in which a final overrider is not unique, a return type does not fit, or a member is abstract.
//!
//! The layer above may rely on: `check_overriders` gives the tables of a hierarchy that no condition refuses, and else
//! the first fault in the order of `specs/Faults.antt`; `Overriders` then has the final overrider of each virtual
//! function in each subobject, and tells which functions are virtual and which classes abstract. The tables are made
//! once: signatures by numbers, how often each class is a base of another, and for each virtual base of a class what
//! overrides its functions, from those of the direct bases (`settling`).
#![tactic(auto)]

pub mod abstracts;
pub mod covariance;
pub mod entries;
pub mod finding;
pub mod keys;
pub mod kinds;
pub mod lasts;
pub mod laws;
pub mod overriding;
pub mod parts;
pub mod pass;
pub mod places;
pub mod pure;
pub mod settling;
pub mod sharing;
pub mod signatures;
pub mod sites;
pub mod tables;
pub mod virtuals;
pub mod within;

pub use crate::laws::{
    final_contains_all, final_in_view, final_same, one_final, one_final_of_class, returns_fit,
    some_answer,
};
pub use crate::pass::{ClassStop, Overriders, check_by_class, check_overriders};
use cxx_hierarchy::ClassId;
use cxx_subobject::Subobject;

/// A member function of a class. The index after the last function is the destructor's.
#[derive(Clone, Copy, Debug, PartialEq, Eq)]
pub struct FunctionId {
    pub class: ClassId,
    pub index: u32,
}

/// A function, in a subobject of an object.
#[derive(Debug, Drop)]
pub struct Overrider {
    pub at: Subobject,
    pub function: FunctionId,
}
