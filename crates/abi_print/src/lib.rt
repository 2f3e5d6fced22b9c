//! The texts of a layout and of tables.
//!
//! This crate owns the text of a class's layout (`specs/LayoutTexts.antt`): sizes, primary base, bases in preorder, members; the text
//! of a class's tables (`specs/TableTexts.antt`): groups word by word, the VTT, type information; and that of a place in an
//! object (`specs/Texts.antt`). Of a layout it reads rows and places, whatever sound layout it is.
//!
//! The layer above may rely on: `append_layout` puts the text of a class's layout at the end of a text, and
//! `append_tables` that of its tables; there want of memory leaves the text as it was. `text` has the pieces that layouts, tables and
//! runs have in common; of these a front may stand where memory is wanted.
#![tactic(auto)]

pub mod layout_lines;
pub mod table_lines;
pub mod text;
pub mod word_lines;
pub mod writer;

pub use crate::layout_lines::{append_layout, layout_text};
pub use crate::table_lines::{append_tables, tables_text};
