//! Where the parts of heap objects lie in memory, over any sound layout (Itanium C++ ABI 2.4; ISO C++03 1.8, 9.2, 10).
//!
//! The rules of the language name a part by steps and paths, and a machine has its address. The crate owns heaps of objects
//! (`Heap`: the class of each and where it starts), the address of a part and of a leaf (`specs/Addresses.antt`), what it means
//! that objects lie apart (`AreObjectsPlaced`), and that regions of a memory are theirs (`AreRegions`).
//!
//! Its functions are laws, which do nothing: over any sound layout, parts and leaves lie inside their objects; one place names
//! one part of a class; the places of bases, elements and leaves are sums that the class alone tells; leaves and virtual pointers
//! lie apart; one more object moves no part; and the bytes of a part can be reached exactly while its region is open. The layers
//! above may rely on these alone, and need not look at hops or rows of a layout.
#![tactic(auto)]

pub mod laws;

pub use crate::laws::{
    leaves_and_pointers_lie_apart, objects_are_found, one_more_object, one_place_is_one_part,
    parts_are_of_known_classes, parts_lie_inside, parts_of_parts_are_parts, places_are_sums,
    regions_are_objects, regions_go_along, values_are_narrow,
};
