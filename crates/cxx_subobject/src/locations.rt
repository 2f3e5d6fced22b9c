//! Where a part of an object is, in terms of the language: an object and hops, and no address.

use crate::Subobject;
use cxx_hierarchy::ClassId;
use foundation::Sequence;

/// A hop into an inheritance subobject, or into an element of a member: the number of the member in its class, and
/// the index, which is 0 where the member is no array.
#[derive(Debug, Drop)]
pub enum Hop {
    Inherit(Subobject),
    Member(u32, u32),
}

/// Hops from a complete object inwards, which alternate and begin with an inheritance subobject.
pub type HopList = Sequence<Hop>;

/// A part of a heap object: the number of the object, its class, and the hops from it to the part. It names a class
/// subobject where the last hop is one, and a leaf where that is a member of number or pointer type.
#[derive(Debug, Drop)]
pub struct Location {
    pub object: u32,
    pub class: ClassId,
    pub hops: HopList,
}
