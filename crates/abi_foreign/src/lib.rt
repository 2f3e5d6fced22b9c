//! Layouts that are given as a listing, in the place of one that the rules of the ABI make.
//!
//! A listing is the text of the layouts of all classes of a source, with any numbers and any primary bases. This crate owns what a
//! listing is, line by line (`Lines`) and as a whole (`Listings`), and the layout that it stands for: direct bases and virtual
//! bases at the places of their lines, and holders by the rule of the ABI (Itanium C++ ABI 2.4). `Refusals` says what a listing is
//! refused for: a line that is not of its form comes first; then the first class in the order of the source, and the least rule of
//! sound layouts that it breaks, where a place that is not the sum along its path counts among the rules on places.
//!
//! The layer above may rely on: `check_listing` gives the layout exactly where the text is a listing and its layout is sound, and
//! else what it is refused for, with the line. The layout is a `SoundLayout` as any other. A text has one such
//! answer (`one_listing`, `one_refusal`), and each text has one (`listing_or_refusal`).
#![tactic(auto)]

pub mod check;
mod class_lines;
mod cursor;
pub mod foreign_layout;
pub mod laws;
pub mod listing_stop;
mod pieces;
mod reading;
mod row;
mod rows;
mod said;
mod sums;

pub use crate::check::check_listing;
pub use crate::foreign_layout::ForeignLayout;
pub use crate::laws::{listing_or_refusal, one_listing, one_refusal};
pub use crate::listing_stop::{ListingRule, ListingStop};
