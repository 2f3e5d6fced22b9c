//! The tables of a source, class by class and all together, and how many words they have (Itanium C++ ABI 2.5, 2.6, 2.9).
//!
//! A dynamic class has the group of its whole object. Where it has virtual bases, it has a VTT too, and a group for each view
//! to which the VTT points. Each class has type information. The limit on the words of all tables and VTTs is met before any table
//! is made: a few numbers a class tell them. Only for a class with virtual bases are its views listed.
//!
//! This crate owns which groups a source has, and in which order (`Tables`), how many words they have by the heads of views
//! (`Counts`), and the limit L7. The layer above may rely on: `check_words` refuses exactly where all words together pass the limit, and `check_vtts` exactly where
//! those of the VTTs alone do, at the cost of a few numbers a class;
//! `VttLengths` has the length of each class's VTT; `group_views` lists the views of a class that have a group; `class_tables` gives
//! the tables of a class, and `build_tables` the groups of all classes, or the limit L7 exactly where they and the VTTs have too many
//! words. By `counted` the numbers are those of the tables and of the VTTs themselves, and by `one_tables` and `some_tables` a class
//! has, over a sound layout, exactly one list of each.
#![tactic(auto)]

pub mod all_groups;
pub mod check;
pub mod count_laws;
pub mod group_list;
pub mod kinds;
pub mod laws;
pub mod numbers;
pub mod tables;
pub mod view_words;
pub mod views;
pub mod vtt_lengths;

pub use crate::all_groups::build_tables;
pub use crate::check::{check_vtts, check_words};
pub use crate::count_laws::counted;
pub use crate::kinds::is_dynamic_by;
pub use crate::laws::{one_tables, some_tables};
pub use crate::tables::{ClassTables, class_tables};
pub use crate::views::{group_views, has_virtual};
pub use crate::vtt_lengths::VttLengths;
