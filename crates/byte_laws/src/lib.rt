//! Laws of the byte machine as a whole: its notes can only make it refuse.
//!
//! Beside its bytes the machine notes phases, complete objects and views of subobjects, and checks look at these notes. This crate
//! owns when two byte states are one but for their notes, and what turns from both may come to (`specs/Notes.antt`:
//! `IsSameButNotes`, `ComeTo`). It has no code that is run.
//!
//! The layer above may rely on the law `notes_only_refuse`. Two turns from such states, where no check refuses and `new` put its
//! objects at the same places, lead to such states, and tell and answer the same. So many turns do so too, or a check refuses one
//! of both, and that one told a front of what the other told. The law says nothing of a turn that is not defined, as where an
//! entry is wanting. The lemmas of `proofs/` say it of each test and op: no register, byte, frame, global or out comes from a note.
#![tactic(auto)]

pub mod laws;

pub use crate::laws::notes_only_refuse;
