//! An inspector of dumps: what the text of one dump says of each field of an object.
//!
//! This crate owns the text of a dump by the values of its leaves: which values a leaf can have, and the text of each
//! (`specs/Values.antt`); the lines of an object by its class and a layout alone, in the order of places (`specs/Rows.antt`); the lines
//! with the values, and when values fit (`specs/SeenTexts.antt`: `dump_of_seen`, `IsFitting`); why a text is no dump (`specs/Faults.antt`);
//! and how the values are said (`specs/Sayings.antt`: `seen_text`).
//!
//! The layer above may rely on: `inspect` gives the values exactly where they fit and the text is their dump, and else the fault with
//! its line; `dump_text` writes the dump of values that fit, and `seen_text` says them. So `inspect` of `dump_text` gives the values
//! back. Each text has a reading, and one (`some_reading`, `one_reading`): the values of a dump, an unknown class, or a first fault.
#![tactic(auto)]

pub mod header;
pub mod inspection;
pub mod laws;
pub mod lines;
pub mod numbers;
pub mod reading;
pub mod saying;
pub mod seen;
pub mod slots;
pub mod splits;
pub mod values;
pub mod writing;

pub use crate::inspection::inspect;
pub use crate::laws::{one_reading, some_reading};
pub use crate::saying::seen_text;
pub use crate::seen::{InspectFault, Seen, SeenList, SeenValue};
pub use crate::writing::dump_text;
