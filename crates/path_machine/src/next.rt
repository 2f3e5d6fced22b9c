//! What a step comes to, inside the machine.

use cxx_hierarchy::LimitNo;
use path_rules::Undefined;

/// The step was taken, a rule refuses it, a limit is met, the run has ended, or it is a case that no run meets.
#[derive(Clone, Copy)]
pub enum Next {
    Goes,
    Refuses(Undefined, u32),
    Limited(LimitNo),
    Ends,
    // never met in a run of a typed program, by `runs_are_typed` of path_model
    Wrong,
}
