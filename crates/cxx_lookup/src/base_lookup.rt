//! The one base of a class.

ghost use Rattle.std.specs.Prelude.{◌≡◌, ◌<◌, IfOk, IfErr, position, length};
ghost use Rattle.cxx_lookup.specs.UniqueBase.{IsUniqueBase, IsBaseFault};
ghost use Rattle.cxx_subobject.specs.Subobjects.{is_of_class};

use crate::BaseFault;
use cxx_hierarchy::{ClassId, Hierarchy};
use cxx_subobject::{Subobject, class_of, list_subobjects};
use std::alloc::Global;

/// Whether a subobject is of a class.
fn is_of_class(s: &Subobject, d: ClassId) -> bool
    ensures { result ≡ is_of_class d s.now }
{
    match class_of(s) {
        None => false,
        Some(c) => d.0 == c.0,
    }
}

/// The place of the first subobject of a class in a list.
fn first_of_class(list: &[Subobject], d: ClassId) -> Option<usize>
    ensures { result ≡ position (is_of_class d) list.now }
{
    list.iter().position(|s| is_of_class(s, d))
}

/// The one subobject of a class that is of another class, or the whole of the class itself (ISO C++03 4.10, 10.2).
///
/// Errors: `NotBase` exactly where there is none, `AmbiguousBase` exactly where there are two; want of memory.
pub fn unique_base(
    alloc: Global,
    h: &Hierarchy,
    c: ClassId,
    base: ClassId,
) -> Result<Subobject, BaseFault>
    requires known { c.0 < length h.now }
    ensures ok { IfOk result (IsUniqueBase h.now c base) }
    ensures err { IfErr result (IsBaseFault h.now c base) }
{
    let mut parts = list_subobjects(alloc, h, c)?.into_vec();
    let Some(number) = first_of_class(&parts, base) else {
        return Err(BaseFault::NotBase);
    };
    if first_of_class(&parts[number + 1..], base).is_some() {
        return Err(BaseFault::AmbiguousBase);
    }
    Ok(parts.swap_remove(number))
}
