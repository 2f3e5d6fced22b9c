//! The VTT of a class with virtual bases (Itanium C++ ABI 2.6.2).
//!
//! While a base with virtual bases is under construction, its virtual pointers lead to tables for that base, at the places of the
//! complete object. The VTT of a class points to all these tables: a sub-VTT for each such base, in a fixed order.
//!
//! This crate owns that list as a definition, word by word: for which view and for which of its subobjects a word is
//! (`Vtts`). The layer above may rely on: `vtt` gives these words over any sound layout, each with the number of the table that
//! serves its subobject in the group of its view, and `views` gives the views in their order, each a subobject of the class.
//! It owns the law on which construction rests (`Blocks`): where a sub-VTT stands depends on classes alone (`sub_vtts`), the
//! tables of a view's non-virtual part stand at the front of its group, at distances that depend on its class alone
//! (`first_run`), and so each table is found by the class (`each_found`). In an image all this holds of addresses (`VttImages`,
//! by the law `vtt_in_image`).
//! What the path of a subobject tells of its virtual pointer stands in `path_ends`, for the settings of pointers too.
//! No call reads a table's words. A VTT takes memory as its words and the subobjects of its views do.
#![tactic(auto)]

pub mod laws;
pub mod marks;
pub mod needs;
pub mod path_ends;
pub mod served;
pub mod sub_vtt;
pub mod view_list;
pub mod vtt_list;

pub use crate::laws::{each_found, first_run, sub_vtts, vtt_in_image};
pub use crate::view_list::views;
pub use crate::vtt_list::{vtt, vtt_with_views};
