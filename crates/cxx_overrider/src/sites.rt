//! A class of a hierarchy whose tables are made.

use crate::tables::Tables;
use cxx_hierarchy::{ClassId, Hierarchy};

/// A class, its hierarchy, and what is known of all classes of that.
#[derive(Drop)]
pub struct ClassSite<'a> {
    pub h: &'a Hierarchy,
    pub tables: &'a Tables,
    pub c: ClassId,
}
