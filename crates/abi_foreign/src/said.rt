//! What the lines of a listing say of a class.

use abi_primary::Primary;
use cxx_subobject::SubobjectList;
use foundation::Sequence;

/// The five numbers of the first line of a class, in bytes.
#[derive(Clone, Copy, Debug, PartialEq, Eq)]
pub(crate) struct Sizes {
    pub size: u32,
    pub align: u32,
    pub dsize: u32,
    pub nvsize: u32,
    pub nvalign: u32,
}

/// The place of a member in bytes, and the first bit of a bit-field in the byte there; 0 for another member.
#[derive(Clone, Copy, Debug, PartialEq, Eq)]
pub(crate) struct MemberPlace {
    pub place: u32,
    pub first: u32,
}

/// What the lines of a class say: the number of its first line, its sizes, its primary base, the places of its proper base
/// subobjects, and those of the members that it declares. `list` has all its subobjects in preorder.
#[derive(Drop)]
pub(crate) struct ClassSaid {
    pub line: u32,
    pub sizes: Sizes,
    pub primary: Primary,
    pub list: SubobjectList,
    pub places: Sequence<u32>,
    pub members: Sequence<MemberPlace>,
}
