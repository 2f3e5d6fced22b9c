//! What a byte machine notes of the class subobjects of its objects, beside their bytes.
//!
//! A subobject is named by its address and the number of its class, since a base may lie where its derived class does. The crate
//! owns `Shadow`, a finite map from such pairs, and its meaning (`specs/Shadows.antt`): three functions of the pair, which give
//! the phase of the subobject, the complete object that it belongs to, and of a complete object its view (ISO C++03 3.8 p1, 12.7
//! say what a program may do in which phase). Nothing here knows a declaration or reads a byte.
//!
//! Most notes stand in a sorted list of 12 bytes each (`near_list`), and those of large numbers, or that come long after their
//! neighbours, in a map (`note_map`). Views of complete objects stand in a list and a map of the same kind (`view_map`).
//!
//! The layer above may rely on the contracts of the calls, each one equation over `notes_of`, and on the lemmas of
//! `proofs/Changed.antt`, which say what a changed function gives at the pair that was changed and at any other. `begin` and
//! `set_view` take memory.
#![tactic(auto, unfolding(crate::specs::Meaning::notes_of))]

mod near_list;
mod note;
mod note_map;
mod shadow;
mod view_map;

pub use crate::shadow::Shadow;
pub use byte_code::Phase;
