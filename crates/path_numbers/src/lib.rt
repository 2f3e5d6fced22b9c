//! Numbers of the parts and leaves of objects, so that a pointer is one number.
//!
//! A part takes one number for itself; behind it stand its direct non-virtual bases, then its members, an element of class
//! type as a whole block and a number or a pointer as one, and, where the part is a complete object, its virtual bases in
//! the order in which they are built (ISO C++03 12.6.2 p5). Each object of a run stands behind those before it. So every
//! distance but that to a virtual base depends on the class alone.
//! This crate owns the sizes (`sizes_of`), the offsets, the nodes of this tree (`Node`, `Under`, `IsAt`), the ways through it
//! (`IsConstantWay`), the number of a subobject within its complete object (`subobject_number`), and the table of them all (`Numbers`).
//!
//! The layers above may rely on the laws: a number names one part and one leaf, a part has one number, ways arrive, each
//! part is a subobject of its complete object, and a complete object has as many numbers as parts. `Numbers` is made once,
//! for a hierarchy within the limits on parts, and each of its calls is its definition and takes no memory.
#![tactic(auto)]

pub mod laws;
pub mod numbers;
pub mod sharing;

pub use crate::laws::{
    numbers_name_parts, offsets_are_by_class, parts_are_subobjects, sizes_are_of_parts, ways_arrive,
};
pub use crate::numbers::{ClassNumbers, Numbers};
