//! The record of a class's layout.

use abi_primary::Primary;
use cxx_hierarchy::ClassId;
use cxx_subobject::Subobject;
use foundation::Sequence;

/// Places in bytes.
pub type PlaceList = Sequence<u32>;

/// Which bits of a member hold its value, from the bit `first` of its first byte on, the lowest bit first: in a bit-field as many as
/// its width, and in any other member all of its bytes, from bit 0 on.
#[derive(Clone, Copy, Debug, PartialEq, Eq)]
pub struct Bits {
    pub first: u8,
    pub width: u32,
}

/// The bits of the members of a class.
pub type BitList = Sequence<Bits>;

/// Virtual bases of a class.
pub type ClassList = Sequence<ClassId>;

/// For each virtual base the subobject that holds it, if one does.
pub type HolderList = Sequence<Option<Subobject>>;

/// The layout of one class. All numbers are bytes.
///
/// `dsize` is the size without tail padding, `nvsize` and `nvalign` are the size and alignment of the part
/// without virtual bases. `base_places` follows the direct non-virtual bases, `member_places` and `member_bits` the members.
/// `virtual_bases` has the virtual bases in preorder, and `virtual_places` and `holders` follow them.
#[derive(Debug, Drop)]
pub struct ClassLayout {
    pub size: u32,
    pub align: u32,
    pub dsize: u32,
    pub nvsize: u32,
    pub nvalign: u32,
    pub primary: Primary,
    pub base_places: PlaceList,
    pub virtual_bases: ClassList,
    pub virtual_places: PlaceList,
    pub holders: HolderList,
    pub member_places: PlaceList,
    pub member_bits: BitList,
}
