//! What a statement sees besides the heap.

use path_heap::Value;

/// The globals, and of the body that runs `this` and the locals.
#[derive(Clone, Copy)]
pub struct Scene<'a> {
    pub globals: &'a [Value],
    pub this: Value,
    pub locals: &'a [Value],
}
