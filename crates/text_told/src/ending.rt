//! How a run ends.

use cxx_hierarchy::LimitNo;
use path_rules::Undefined;

/// The most bytes of the text of a run, and of what is listed.
pub const TEXT_LIMIT: usize = 16_777_216;

/// How a run ends.
#[derive(Clone, Copy, Debug, PartialEq, Eq)]
pub enum End {
    /// `main` ran to its end.
    Done,
    /// A step is undefined, with the line of its statement.
    Undefined(Undefined, u32),
    /// All steps of the budget were taken.
    OutOfSteps,
    /// A limit was met.
    Limit(LimitNo),
}
