//! Plans of classes, and where the code of functions begins.

ghost use Rattle.std.specs.Prelude.{◌≡◌, ◌<◌, Some, length};
ghost use Rattle.cxx_search.specs.Searches.{destructor_of};
ghost use Rattle.code_ops.specs.Routines.{start_of_function, constructor_of};

use abi_slots::{BlockKind, CodeNumbers};
use cxx_hierarchy::{ClassId, Hierarchy};
use cxx_overrider::FunctionId;

/// What a plan is for: a construction, a destruction, or the destruction that ends a heap object for a `delete`.
#[derive(Clone, Copy, Debug, PartialEq, Eq)]
pub enum Course {
    Constructs,
    Destroys,
    Deletes,
}

/// The block at which the code of a form of a function begins, and the first one where it has none.
pub fn start_of(numbers: &CodeNumbers, f: FunctionId, kind: BlockKind) -> u32
    ensures { result ≡ start_of_function numbers.now kind (Some f) }
{
    match numbers.code(f, kind) {
        Some(number) => number,
        None => 0,
    }
}

/// The constructor of a class as a function: it has the index after the destructor's.
pub fn constructor_of(h: &Hierarchy, c: ClassId) -> FunctionId
    requires { c.0 < length h.now }
    ensures { result ≡ constructor_of h.now c }
{
    h.keeps();
    FunctionId {
        class: c,
        index: h.class(c).functions.len() as u32 + 1,
    }
}

/// The destructor of a class as a function: it has the index after the last function.
pub fn destructor_of(h: &Hierarchy, c: ClassId) -> FunctionId
    requires { c.0 < length h.now }
    ensures { result ≡ destructor_of h.now c }
{
    h.keeps();
    FunctionId {
        class: c,
        index: h.class(c).functions.len() as u32,
    }
}
