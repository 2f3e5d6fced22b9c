//! Answers between the numbered subobjects of one class.
//!
//! A running machine knows a part by its number within its complete object. This crate answers by such numbers what the
//! searches ask of subobjects: where a cast leads (ISO C++03 5.2.7 p8), the final overrider in a view (10.3 p2, 12.7 p3), what
//! lies in what, and of which subobject a part is a base (5.2.9 p8). It owns the list of a class (`PartList`: its subobjects in
//! preorder, with their numbers), what a run looks at and does not change (`World`), and the answers given so far (`Answers`).
//! No virtual table is meant: these are answers by numbers. They hold no path: an answer is looked up by a key of numbers, and worked out by the list of the class where it is not there.
//!
//! The layers above may rely on: each call of `Answers` is the search of cxx_search for every two subobjects that have the
//! numbers. A call answers want of memory alone, and then what was kept is still right (`AreAnswers`).
#![tactic(auto)]

pub mod answers;
pub mod asked;
pub mod casts;
pub mod finals;
pub mod kept;
pub mod lists;
pub mod parts;
pub mod ways;
pub mod world;

pub use crate::asked::Answers;
pub use crate::finals::FinalAt;
pub use crate::kept::{
    CastKey, CastTable, DownKey, DownTable, FinalKey, FinalTable, WithinKey, WithinTable,
};
pub use crate::lists::ListTable;
pub use crate::parts::{PartList, first_of_class, is_within, list_parts, part_at};
pub use crate::world::World;
