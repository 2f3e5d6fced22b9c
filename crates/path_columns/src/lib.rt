//! Columns: lists of items by number, of which memory holds only those pages in which an item was set.
//!
//! A column is a list that is made longer by a blank item, as often as is wanted, at no cost. Its pages are found in two steps, by
//! tables that are pages themselves, so that a number that nothing was set near to takes no memory but four bytes for each 128. No
//! column has more than 2 ^ 38 items, so that four bytes tell where a page of such a table stands.
//! `Codes` has a code of few bits for each number, many side by side in a word of 64 bits.
//! This crate owns what stands at a number (`specs/Paged.antt`), and at a number of codes (`code_at`).
//!
//! The layer above may rely on the calls of `Column`: a contract sees the list and the blank item. `set` alone takes memory, and
//! alone can want it. So it is with the calls of `Slots` and of `Codes`, which have an item or a code for each number and no length.
#![tactic(auto)]

pub mod codes;
pub mod column;
pub mod digits;
pub mod pages;
pub mod slots;

pub use crate::codes::Codes;
pub use crate::column::Column;
pub use crate::pages::Pages;
pub use crate::slots::Slots;
