//! Which classes are dynamic, as a table.

ghost use Rattle.std.specs.Prelude.{◌≡◌, ◌<◌, ◌↔◌, IfOk, IsTrue, length};
ghost use Rattle.abi_primary.specs.Kinds.{IsDynamic, TellDynamic, TellDynamicTo, flag_of};

use cxx_hierarchy::{ClassId, Hierarchy};
use foundation::NoMemory;
use std::alloc::Global;

/// The flag of a class, and false behind the end.
pub fn flag_of(flags: &[bool], c: ClassId) -> bool
    ensures { result ≡ flag_of flags.now c }
{
    match flags.get(c.0 as usize) {
        Some(flag) => *flag,
        None => false,
    }
}

/// Whether a class is dynamic, by the flags of the classes before it (Itanium C++ ABI 1.1).
fn is_dynamic_by(h: &Hierarchy, flags: &[bool], c: ClassId) -> bool
    requires known { c.0 < length h.now }
    requires before { TellDynamicTo c.0 h.now flags.now }
    ensures { IsTrue result ↔ IsDynamic h.now c }
{
    h.keeps();
    let class = h.class(c);
    if class.has_virtual_function() {
        return true;
    }
    for base in class.bases.as_slice() {
        if base.is_virtual || flag_of(flags, base.class) {
            return true;
        }
    }
    false
}

/// For each class, by its number, whether it is dynamic (Itanium C++ ABI 1.1). Each class is asked once, and looks up the flag of each
/// of its direct bases.
///
/// Errors: want of memory.
pub fn dynamic_flags(alloc: Global, h: &Hierarchy) -> Result<Vec<bool>, NoMemory>
    ensures { IfOk result (λ flags. TellDynamic h.now flags.items) }
{
    let mut flags = Vec::new(alloc);
    for n in 0..h.len() {
        let flag = is_dynamic_by(h, &flags, ClassId(n));
        flags.push(flag)?;
    }
    Ok(flags)
}
