//! Dynamic and empty classes.

ghost use Rattle.std.specs.Prelude.{◌≡◌, ◌<◌, ◌↔◌, IsTrue, length};
ghost use Rattle.abi_primary.specs.Kinds.{is_empty, IsDynamic};

use cxx_hierarchy::{ClassId, Hierarchy};

/// Whether a class is dynamic: it or a base declares a virtual function or has a virtual base (Itanium C++ ABI 1.1).
/// It takes no memory.
pub fn is_dynamic(h: &Hierarchy, c: ClassId) -> bool
    requires { c.0 < length h.now }
    ensures { IsTrue result ↔ IsDynamic h.now c }
{
    h.keeps();
    let class = h.class(c);
    if class.has_virtual_function() {
        return true;
    }
    for base in class.bases.as_slice() {
        if base.is_virtual || is_dynamic(h, base.class) {
            return true;
        }
    }
    false
}

/// Whether a class is empty: it has no member, no virtual function and no virtual base, and its bases are empty
/// (Itanium C++ ABI 1.1). It takes no memory.
pub fn is_empty(h: &Hierarchy, c: ClassId) -> bool
    requires { c.0 < length h.now }
    ensures { result ≡ is_empty h.now c }
{
    h.keeps();
    let class = h.class(c);
    if class.members.len() > 0 {
        return false;
    }
    if class.has_virtual_function() {
        return false;
    }
    for base in class.bases.as_slice() {
        if base.is_virtual || !is_empty(h, base.class) {
            return false;
        }
    }
    true
}
