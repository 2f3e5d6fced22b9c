//! Parts and leaves of the heap by number, as they are named from the outside.
//!
//! A number tells nothing of the way to its part. From the whole of the heap object each step goes to the one base, virtual base or
//! element whose numbers hold it, until the number is the part's own: so a number becomes hops, and the parts of a class become lists
//! of leaves. What the calls answer is defined by the crate path_model (`location_of`, `leaves_of`, `copied`, `object_out`, `shown`);
//! this crate adds no definition to it.
//!
//! The layers above may rely on: each call is total, and each clause holds of all objects that the heap stands for. `location` names
//! a part by hops, `leaf_numbers` lists the leaves of a part, `copy` does `*to = *from` (ISO C++03 12.8), after which the heap is of
//! no use where memory is wanting, `dump` tells a heap object with all its leaves, and `shown` a value.
#![tactic(auto)]

pub mod copies;
pub mod dumps;
pub mod kids;
pub mod leaves;
pub mod locations;

pub use crate::copies::copy;
pub use crate::dumps::dump;
pub use crate::leaves::leaf_numbers;
pub use crate::locations::{location, shown};
