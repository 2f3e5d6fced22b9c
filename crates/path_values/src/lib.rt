//! Values of operands, conversions and calculations, and what a complete object is seen as, over the heap by numbers.
//!
//! What a statement sees are globals, `this` and locals (`Scene`), over a heap in which a pointer is the number of a part. A part
//! is asked for its view, for final overriders and for casts by its number too; those answers are kept (path_tables).
//!
//! This crate owns when they stand for what a statement of the model sees (`SceneStands`), what is known of a statement that is next
//! (`IsGiven`), what has to have begun before a pointer is moved to a base (`CanReach`, `CanConvert`, `CanGo`) or a path is
//! followed (`OpensTo`, `IsOpen`), and when a function and its `this` stand for the model's (`RunsByView`).
//!
//! The layers above may rely on: each call gives a value that means the model's value of the same operand, conversion or
//! calculation (ISO C++03 4, 5), a place of a typed program leads to the number of the model's part or leaf, and a view, an
//! overrider or a cast is the model's, for a part whose construction has begun. Numbers may be of any size that an `i128` holds.
//! Values and places take no memory; an answer that is kept may want some, and then what was kept before is still right.
#![tactic(auto)]

pub mod calculations;
pub mod calls;
pub mod conversions;
pub mod numbers;
pub mod operands;
pub mod places;
pub mod scene;
pub mod standing;
pub mod views;

pub use crate::calculations::{
    calculate, held_result, is_same, is_zero, negated, overflows, truth,
};
pub use crate::calls::{goes_to, receiver};
pub use crate::conversions::{convert, to_base, to_number};
pub use crate::numbers::{stored, wrap};
pub use crate::operands::{constant, value};
pub use crate::places::{address_number, end_number, leaf_number, passed_number};
pub use crate::scene::Scene;
pub use crate::standing::behind;
pub use crate::views::{Found, cast, conversion, dispatched, down, is_outside, is_pure, view_type};
