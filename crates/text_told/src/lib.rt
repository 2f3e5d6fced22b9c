//! The text of what a run of the whole language tells, over any sound layout, and how a run ends where that text has a limit.
//!
//! This crate owns the text of each thing that a run tells (`specs/OutTexts.antt`): a number by its decimal digits, a pointer
//! by the number of its object and the place in it, a type by its name, the lines of a trace, and a dump; the name of a leaf
//! (`specs/Fields.antt`); the virtual pointers of an object (`specs/Pointers.antt`); and what a dump shows of an object, by
//! place (`specs/Dumps.antt`). It owns the text and the end of a whole run (`specs/Told.antt`: `told`): a step whose lines would
//! pass the limit on the text (16 MB) leaves none of them, and ends the run.
//!
//! The layer above may rely on: `append_out` puts the text of one thing at the end of a text, and leaves that as it was in want of
//! memory. It asks that locations name parts that are there, and by the law `outs_are_told` those of a run do. Both machines print
//! the text of a run, that of paths in `path_run`, that of bytes in `abi_refine`, by the lemmas of `proofs/`: what each step tells
//! names parts that were made and functions that have bodies (`Telling`), the text of steps piece by piece (`Texts`), and what a run
//! tells where none of its steps, or one, passes the limit (`Ends`). By the law `layouts_tell_one_text` two layouts give one text
//! where no place is printed and the heap is not full.
#![tactic(auto)]

pub mod dump;
pub mod ending;
pub mod fields;
pub mod items;
pub mod laws;
pub mod locations;
pub mod out_text;
pub mod pointers;
pub mod told_laws;

pub use crate::ending::{End, TEXT_LIMIT};
pub use crate::laws::outs_are_told;
pub use crate::out_text::append_out;
pub use crate::told_laws::layouts_tell_one_text;
