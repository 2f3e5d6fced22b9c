//! The bodies of a typed program by their owners, in constant time.
//!
//! The model finds the body of a function, a constructor or a destructor, and the initializer of a member, by a search of lists
//! (`owned_body`, `member_init`). A running machine asks for them at each call and at each event of a plan. This crate owns an index
//! from owners to places (`BodyIndex`) and when it is one of a program (`IsIndexOf`): each entry is the place of the first body
//! of its owner, and of the first initializer of its member, whether or not a program has more than one.
//!
//! The layer above may rely on the calls of `BodyIndex`: `body` and `initializer` are `owned_body` and `member_init` of the model, and
//! `has_body` and `has_initializer` tell whether there is one. Only `new` takes memory.
#![tactic(auto)]

pub mod index;
pub mod table;

pub use crate::index::BodyIndex;
pub use crate::table::{MemberKey, PlaceTable};
