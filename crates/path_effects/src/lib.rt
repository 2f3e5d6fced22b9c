//! What a statement that no rule refuses does to values and to the heap.
//!
//! Each call is for one kind of statement or event: the value of a right side or of an argument, the write of a leaf, the copy
//! of an object, the function that a call runs, the object that `delete` ends, and what is told. Frames and control belong to
//! the layer above. What the calls answer is defined by the crate path_model (`right_value`, `leaf_set`, `copied`, `runs`,
//! `value_out` and the others); this crate owns only what `delete` ends (`Ends`).
//!
//! The layer above may rely on the clauses: each holds of every sight that the scene stands for (`SceneStands`) and that fits
//! the scope of a typed statement (`HasTypesOfScope`), where the uses of the statement break no rule (`refused`). Then its pointers name
//! parts that have begun and its paths can be followed, which this crate proves. A call answers want of memory alone: what was
//! kept is then still right, and after a `write` or a `copy` the heap is of no use.
#![tactic(auto)]

pub mod arguments;
pub mod calls;
pub mod casts;
pub mod copies;
pub mod ends;
pub mod outs;
pub mod places;
pub mod results;
pub mod rights;
pub mod types;

pub use crate::arguments::{argument_value, argument_values};
pub use crate::calls::call;
pub use crate::copies::copy;
pub use crate::ends::deleted;
pub use crate::outs::{
    built_told, call_told, dump_told, ending_told, type_told, value_told, view_told,
};
pub use crate::places::write;
pub use crate::results::found_conversion;
pub use crate::rights::right_value;
