//! The pieces of a statement: operands, conversions, places, calls, casts and right sides, from their trees to their
//! typed forms, or their refusals.
//!
//! A piece is defined once, as a value `Checked X`: what it is typed to, or the fault that refuses it, and the faults that
//! it adds. What rests on what is written as a chain (`>>=`, `both`, `beside`), so that a rule that rests on a name which
//! another rule refuses does not apply. The result of a call rests on its function alone: where the receiver or an argument
//! is refused, the type of the call is known (`RightValue`), and its conversion is asked. This crate owns these definitions
//! (`operand_of`, `place_of`, `whole_call`, `converted_right` and what they are made of), the fault that counts among those
//! of a statement (`least`), the variables in scope (`Scene`), and what a name, a base and a class with virtual functions
//! are as functions (`specs/Lookups.antt`).
//!
//! The layer above may rely on: each call notes exactly the faults of its piece and gives what the piece is typed to, and
//! the law `answered`: a piece without a fault is typed. The law `results_are_asked` says that the faults of a call include
//! those of its result. What was looked up once is kept in `Known`.
#![tactic(auto)]

mod arguments;
mod calls;
mod casts;
mod classes;
mod comparisons;
mod conversions;
mod copies;
pub mod faults;
pub mod known;
pub mod laws;
pub mod look_up;
mod operators;
mod places;
mod qualified;
mod rights;
mod scalars;
pub mod scene;
pub mod site;
pub mod typed;
mod values;

pub use crate::calls::whole_call;
pub use crate::casts::polymorphic_pointer;
pub use crate::classes::{class_named, class_of, find_class, type_of};
pub use crate::conversions::{class_conversion, conversion_of, converted_operand, fitted};
pub use crate::copies::copy_type;
pub use crate::faults::{Fault, FaultList, Piece, least, note, pair_of, refuse, settle};
pub use crate::known::Known;
pub use crate::laws::{answered, results_are_asked};
pub use crate::look_up::width_of_member;
pub use crate::places::{leaf_of, place_width};
pub use crate::rights::{converted_right, converted_value, right_of};
pub use crate::scene::{Entry, EntryList, Returns, Scene, Setting};
pub use crate::site::Site;
pub use crate::typed::{LeafPlace, Number, Pointer, RightValue, Value};
pub use crate::values::{constant_of, number_of, operand_of, pointer_of, variable_of};
