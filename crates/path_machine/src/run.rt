//! What a run looks at and does not change.

use cxx_program::TypedProgram;
use path_bodies::BodyIndex;
use path_tables::World;
use std::alloc::Global;

/// A program with its world, the places of its bodies, and the size of an object of each class, in bytes.
#[derive(Clone, Copy)]
pub struct Run<'a> {
    pub alloc: Global,
    pub world: World<'a>,
    pub program: &'a TypedProgram,
    pub index: &'a BodyIndex,
    pub sizes: &'a [u32],
}
