//! What the heap keeps of parts, leaves and objects.

use cxx_hierarchy::ClassId;

/// How far a part is (ISO C++03 3.8 p1, 12.7).
#[derive(Clone, Copy)]
pub enum Phase {
    /// Its constructor has not begun.
    Raw,
    /// Its bases are under construction.
    InBases,
    /// Its bases are constructed; its members and its constructor's body are under way.
    ReadyBuilding,
    /// It is constructed, and its destruction has not begun.
    Complete,
    /// Its destructor's body and the destruction of its members are under way.
    ReadyEnding,
    /// Its bases are under destruction.
    EndingBases,
    /// Its destructor has ended.
    Ended,
}

/// A value of a variable or a leaf; a pointer is the number of a part.
#[derive(Clone, Copy)]
pub enum Value {
    Unset,
    Number(i128),
    Null,
    Pointer(u64),
}

/// A part by its number, with its class, and the number and the class of the complete object that it belongs to.
#[derive(Clone, Copy)]
pub struct NumberedPart {
    pub number: u64,
    pub whole: u64,
    pub class: ClassId,
    pub owner: ClassId,
}

/// What is kept of a part: its phase, and, once it has begun, its class, how far its number stands behind that of its complete
/// object, and the class of that. It has 12 bytes.
#[derive(Clone, Copy)]
pub struct Cell {
    pub class: ClassId,
    pub owner: ClassId,
    pub back: u16,
    pub phase: Phase,
}

/// The cell of a part that has not begun.
pub(crate) const BLANK: Cell = Cell {
    class: ClassId(0),
    owner: ClassId(0),
    back: 0,
    phase: Phase::Raw,
};

/// A heap object: its class, the number of its whole, and whether its destruction has ended.
#[derive(Clone, Copy)]
pub struct ObjectRow {
    pub start: u64,
    pub class: ClassId,
    pub is_closed: bool,
}
