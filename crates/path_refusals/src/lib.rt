//! The rule that refuses a statement, if one does.
//!
//! A statement uses values and parts; a use can break one of twelve rules (path_rules), and the one of the smallest number
//! refuses the step. The model tries each rule on each use; this crate asks in an order in which nothing is asked of what is
//! not there: a pointer before what it points to, and a member before what lies in it. A pointer is asked at once whether it
//! is null, dangling, not ready or unset; views are asked of parts that are ready alone (ISO C++03 3.8, 12.7).
//!
//! The crate owns no definition of the model. The layer above may rely on `refusal`: for a statement that is next, it is the
//! model's. It wants memory where a question on a view is asked for the first time (path_tables), and at no other place.
#![tactic(auto)]

pub mod calls;
pub mod casts;
pub mod copies;
pub mod deletes;
pub mod moment;
pub mod operands;
pub mod places;
pub mod pointers;
pub mod returns;
pub mod rights;
pub mod rules;
pub mod statements;
pub mod views;

pub use crate::moment::{Moment, Refusal};
pub use crate::statements::refusal;
