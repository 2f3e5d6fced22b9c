//! What is typed so far of a body.

use cxx_expression::Scene;
use cxx_program::TypedList;

/// The variables in scope, and the statements that are typed so far.
#[derive(Drop)]
pub struct Draft {
    pub scene: Scene,
    pub statements: TypedList,
}
