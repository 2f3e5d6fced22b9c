//! Where a statement stands.

use crate::flows::Flow;
use code_ops::sites::Site;

/// The site of a statement, and where control goes from it.
#[derive(Drop)]
pub struct StatementSite<'a, L> {
    pub site: &'a Site<'a, L>,
    pub flow: Flow,
}
