//! When a rule is asked for, and what is answered.

use foundation::NoMemory;
use path_heap::Heap;
use path_rules::Undefined;
use path_tables::World;
use std::alloc::Global;

/// When a rule is asked for: what the run looks at and does not change, and its heap.
#[derive(Drop)]
pub struct Moment<'a> {
    pub alloc: Global,
    pub world: World<'a>,
    pub heap: &'a Heap,
}

/// The rule that refuses, if one does, or want of memory.
pub type Refusal = Result<Option<Undefined>, NoMemory>;
