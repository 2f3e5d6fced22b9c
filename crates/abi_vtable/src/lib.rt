//! The virtual tables of a view (Itanium C++ ABI 2.5 and 2.6.1).
//!
//! A view is a subobject of a complete object, or that object itself, as whose class the object acts. Its tables are a group:
//! one for the head of each chain of its subobjects, with the final overriders of the view's class at the places of the
//! complete object.
//!
//! This crate owns no definition: `group` fills the tables, and they are those of abi_slots (`IsGroup`), in their order.
//! The layer above may rely on that, and on the law `one_group`: a view has one group at most, so that `group` gives exactly
//! the tables of the definition. The group of a view takes memory and time as its words and its subobjects do.
#![tactic(auto)]

pub mod heads;
pub mod laws;
pub mod places;
pub mod returns;
pub mod table_sites;
pub mod tables;
pub mod view;
pub mod words;

pub use crate::laws::one_group;
pub use crate::tables::group;
