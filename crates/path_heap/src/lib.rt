//! The heap of the machine of paths: objects, phases, views and leaves by number.
//!
//! A pointer is one number of 64 bits over all heap objects (the crate path_numbers). Each part has a cell with its phase and, once it has
//! begun, its class and its complete object; each leaf has a value; each heap object has a row. The parts whose constructors or
//! destructors run are a list a complete object: its innermost one, and around each one that which ran when it began. All these are
//! kept in columns (the crate path_columns): what has not begun, and what was never set, takes no room. A leaf takes the room of its
//! value: a list of leaves (`LeafList`) has layers of two bits, a byte, four bytes and eight bytes a leaf, and the first one that can
//! hold a value has it. The heap object of a number is the last one that begins there or before.
//! This crate owns when a heap stands for the objects of a run (`HeapStands`), a number for a part (`Points`) or a leaf
//! (`PointsLeaf`), and a value of the code for one of the model (`Means`).
//!
//! The layer above may rely on the calls of `Heap`: each is total but `make`, which wants fewer objects than there may be
//! (`most_objects`), and each clause holds of all objects that the heap stands for.
//! What is asked tells what the model's function says; what changes the heap leaves one that stands for the objects after the
//! model's step, or want memory.
#![tactic(auto)]

mod byte_layer;
pub mod events;
pub mod heap;
mod leaf_codes;
pub mod leaf_list;
pub mod leaves;
pub mod lists;
mod long_layer;
pub mod making;
mod pair_layer;
pub mod part_rows;
pub mod parts;
pub mod queries;
pub mod state;
pub mod ways;
mod word_layer;

pub use crate::heap::Heap;
pub use crate::parts::whole_at;
pub use crate::state::{Cell, NumberedPart, ObjectRow, Phase, Value};
