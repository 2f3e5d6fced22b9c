//! What is noted of a subobject, and the pair that names it.

use byte_code::Phase;

/// An address and the number of a class, which name a class subobject.
#[derive(Clone, Copy, PartialEq, Eq, Hash)]
pub struct Place {
    pub at: u64,
    pub class: u32,
}

/// What is noted of a subobject: its complete object, by the address and the number of its class, its phase, and whether it is a
/// complete object that is the view of itself. A note has 16 bytes, and stays when its object is gone.
#[derive(Clone, Copy)]
pub struct Note {
    pub owner: u64,
    pub owner_class: u32,
    pub phase: Phase,
    pub is_own_view: bool,
}

/// The phase of a subobject, and whether it is a complete object that is the view of itself.
#[derive(Clone, Copy)]
pub struct NoteState {
    pub phase: Phase,
    pub is_own_view: bool,
}
