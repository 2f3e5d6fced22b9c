//! Which classes have virtual bases.

ghost use Rattle.std.specs.Prelude.{◌≡◌, ◌<◌, ◌↔◌, false, IsTrue, IfOk, length, slice_index_or};
ghost use Rattle.cxx_subobject.specs.VirtualFlags.{TellsVirtualBases};
ghost use Rattle.cxx_subobject.specs.invariants.VirtualFlags.{GetsVirtualBase};

use cxx_hierarchy::{ClassId, Hierarchy};
use foundation::NoMemory;
use std::alloc::Global;

/// What the flags say of a class; nothing is flagged past them.
pub fn has_virtual_bases(flags: &[bool], c: ClassId) -> bool
    ensures { result ≡ slice_index_or flags.now c.0 false }
{
    flags.get(c.0 as usize).copied().unwrap_or(false)
}

/// Whether a direct base is virtual, or flagged.
fn gets_virtual_base(h: &Hierarchy, flags: &[bool], c: ClassId) -> bool
    requires { c.0 < length h.now }
    ensures { IsTrue result ↔ GetsVirtualBase h.now flags.now c }
{
    for base in h.class(c).bases.as_slice() {
        if base.is_virtual {
            return true;
        }
        if has_virtual_bases(flags, base.class) {
            return true;
        }
    }
    false
}

/// For each class of a hierarchy whether it has a virtual base.
///
/// Errors: want of memory.
pub fn classes_with_virtual_bases(alloc: Global, h: &Hierarchy) -> Result<Vec<bool>, NoMemory>
    ensures tells { IfOk result (λ flags. TellsVirtualBases h.now flags.items) }
    ensures size { IfOk result (λ flags. length flags.items ≡ length h.now) }
{
    h.keeps();
    let mut flags = Vec::new(alloc);
    for number in 0..h.len() {
        let is_one = gets_virtual_base(h, &flags, ClassId(number));
        flags.push(is_one)?;
    }
    Ok(flags)
}
