//! Inheritance subobjects as paths (ISO C++03 10.1, in the form of Rossie and Friedman).
//!
//! An object of class C has the subobjects (Whole, path) and (Shared V, path): the path begins with C, or with V
//! where V is a virtual base of C, and each later class is a direct non-virtual base of the one before it.
//! This crate owns that definition, what it means that one subobject lies in another (`IsInside`) or that public edges
//! lead to it (`IsPublicWalk`), the preorder of a class, and its number of parts (`parts_of`). Nothing here has an
//! address or an offset.
//!
//! The layer above may rely on: the list of `subobjects_of` has exactly the subobjects of a class, each once, in
//! preorder, and L5 stands in its place exactly past the limits; `contains` and `is_public_base` are their
//! definitions and take no memory, and so do `is_same` and `is_longer`; containment is a partial order (`containment_is_order`), in which a shared base
//! lies in all that reach it. `PartCounts` tells of all classes at once which are within the limits.
#![tactic(auto)]

pub mod containment;
pub mod laws;
pub mod listing;
pub mod locations;
pub mod parts;
pub mod sameness;
pub mod virtual_flags;

pub use crate::containment::{
    class_of, containment_is_order, contains, is_longer, is_public_base, join,
};
pub use crate::laws::{hops_are_of_owners, joins_are_subobjects, virtual_bases_are_listed};
pub use crate::listing::{
    SubobjectList, list_subobjects, no_marks, put_below, put_shared, put_subobjects, shared_base,
    subobject_below, subobjects_of,
};
pub use crate::locations::{Hop, HopList, Location};
pub use crate::parts::{MOST_SUBOBJECTS, PartCounts};
pub use crate::sameness::{is_same, is_same_root, shared_class};
use cxx_hierarchy::ClassId;
use foundation::Sequence;

/// A list of classes.
pub type ClassPath = Sequence<ClassId>;

/// Where a path begins: at the whole object, or at one of its virtual bases.
#[derive(Clone, Copy, Debug, PartialEq, Eq)]
pub enum Root {
    Whole,
    Shared(ClassId),
}

/// An inheritance subobject: the path's first class is the root's class, and each later class is a direct
/// non-virtual base of the one before it.
#[derive(Debug, Drop)]
pub struct Subobject {
    pub root: Root,
    pub path: ClassPath,
}
