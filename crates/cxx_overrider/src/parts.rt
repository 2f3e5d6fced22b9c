//! A class whose non-virtual part is asked about, signature by signature.

use crate::signatures::Numbering;
use crate::virtuals::MarkRow;
use cxx_hierarchy::{ClassId, Hierarchy};

/// A hierarchy, the numbers of its signatures, and which of them are virtual in each class.
#[derive(Drop)]
pub struct Signatures<'a> {
    pub h: &'a Hierarchy,
    pub numbering: &'a Numbering,
    pub virtuals: &'a [MarkRow],
}

/// A class, and for each class before it the signatures of which something holds.
#[derive(Drop)]
pub struct NextClass<'a> {
    pub signatures: &'a Signatures<'a>,
    pub rows: &'a [MarkRow],
    pub c: ClassId,
}
