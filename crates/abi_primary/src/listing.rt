//! The subobjects of a class that has virtual bases.

ghost use Rattle.std.specs.Prelude.{◌≡◌, ◌<◌, ◌↔◌, IfOk, IsTrue, length};
ghost use Rattle.cxx_hierarchy.specs.declared.records.ClassId.{ClassId};
ghost use Rattle.cxx_hierarchy.specs.VirtualBases.{HasVirtualBase};
ghost use Rattle.abi_primary.specs.VirtualLists.{ListsVirtual};

use cxx_hierarchy::{ClassId, Hierarchy};
use cxx_subobject::{SubobjectList, list_subobjects};
use foundation::{NoMemory, Sequence};
use std::alloc::Global;

/// Whether a class has a virtual base. It takes no memory.
fn has_virtual_bases(h: &Hierarchy, c: ClassId) -> bool
    ensures { IsTrue result ↔ ((v : ClassId) × HasVirtualBase h.now c v) }
{
    h.keeps();
    for v in 0..c.0 {
        if h.has_virtual_base(c, ClassId(v)) {
            return true;
        }
    }
    false
}

/// The subobjects of a class in preorder, and none where the class has no virtual base.
///
/// Errors: want of memory.
pub fn list_if_virtual(alloc: Global, h: &Hierarchy, c: ClassId) -> Result<SubobjectList, NoMemory>
    requires { c.0 < length h.now }
    ensures { IfOk result (λ list. ListsVirtual h.now c list) }
{
    if has_virtual_bases(h, c) {
        return list_subobjects(alloc, h, c);
    }
    Ok(Sequence::new(alloc))
}
