//! What lies in an object.

use cxx_hierarchy::ClassId;

/// A number or a pointer in an object: its place there in bytes, the first bit of it in the byte there, the bytes of its type, and
/// its bits where it is a bit-field.
#[derive(Clone, Copy)]
pub(crate) struct PlacedLeaf {
    pub place: u64,
    pub first: u8,
    pub size: u32,
    pub width: Option<u32>,
}

/// A class subobject in an object: its class, its place there in bytes, the number of which that has to be a multiple, whether
/// its class is dynamic, and whether it is the primary base of no subobject of its complete object.
#[derive(Clone, Copy)]
pub(crate) struct PlacedPart {
    pub class: ClassId,
    pub place: u64,
    pub align: u32,
    pub is_dynamic: bool,
    pub is_top: bool,
}

/// What lies in an object, at any depth of its bases, members and elements.
#[derive(Clone, Copy)]
pub(crate) enum Thing {
    Leaf(PlacedLeaf),
    Part(PlacedPart),
}
