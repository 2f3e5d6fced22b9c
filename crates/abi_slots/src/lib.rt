//! Virtual tables as definitions, and where their words lead (Itanium C++ ABI 2.5).
//!
//! A class lists entries for its virtual functions, and offsets that lead to its virtual bases and, where it is a virtual
//! base itself, to the final overriders of its functions. The table of a subobject has the words that its class lists,
//! and serves the whole chain of its primary bases, since what a primary base lists stands first.
//!
//! This crate owns what classes list (`Listing`), the tables of a group word by word over subobjects, chains, final
//! overriders and places (`Groups`), and the law of dispatch: from the table that serves a subobject, the word of a
//! function leads to the final overrider in the view, and its adjustments lead to that subobject's place. It owns the
//! numbers of words (`Slots`), which are kept by class, function and virtual base, so that none is searched for; the numbers
//! of code (`CodeNumbers`); when an image has tables, VTTs and type information (`Images`: `HasTables`); and what such an
//! image gives for each subobject of a view (`Seen`, by the law `seen`).
//! The layer above may rely on that law (`dispatch`), which holds of any sound layout, and on `Slots`: the entries and the
//! offsets of each class, and the numbers of the words of functions and virtual bases. `CodeNumbers` gives the code of a form
//! of a function, or says that it has none.
#![tactic(auto)]

pub mod class_rows;
pub mod code_numbers;
pub mod code_table;
pub mod entries;
pub mod entry_tables;
pub mod functions;
pub mod keys;
pub mod laws;
pub mod offset_tables;
pub mod offsets;
pub mod row_sites;
pub mod rows;
pub mod slots;
pub mod vcalls;
pub mod words;

pub use crate::code_numbers::{BlockKind, CodeNumbers, CodeRow, CodeRowList};
pub use crate::laws::{dispatch, one_head, one_pointer, seen};
pub use crate::slots::Slots;
pub use crate::words::{
    CodeKind, Conversion, EntryKey, EntryWord, Group, GroupList, GroupName, InfoBase, InfoBaseList,
    KeyList, Offset, OffsetList, ReturnAdjust, Table, TableList, TableWord, ThisAdjust, TypeInfo,
    VttList, VttWord, WordList,
};
