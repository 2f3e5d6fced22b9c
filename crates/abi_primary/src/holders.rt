//! The subobject that holds a virtual base (Itanium C++ ABI 2.4, II.1).

ghost use Rattle.std.specs.Prelude.{◌≡◌, ◌<◌, IfOk, length, position};
ghost use Rattle.abi_primary.specs.PrimaryBase.{has_primary};
ghost use Rattle.abi_primary.specs.Holder.{holder_of, IsHeld};

use crate::Primary;
use crate::primaries::has_primary;
use cxx_hierarchy::{ClassId, Hierarchy};
use cxx_subobject::{Subobject, list_subobjects, subobject_below};
use foundation::NoMemory;
use std::alloc::Global;

/// The number, in the list of the subobjects of class `c` in preorder, of the one that holds its virtual base `v`;
/// None exactly where `v` is the primary base of none. `primaries` has the primary bases of `c` and of all classes
/// before it. It takes no memory.
pub fn holder_among(primaries: &[Primary], v: ClassId, list: &[Subobject]) -> Option<usize>
    ensures { result ≡ position (has_primary primaries.now v) list.now }
{
    list.iter().position(|s| has_primary(primaries, v, s))
}

/// The subobject of class `c` that holds its virtual base `v`: the first in preorder whose primary base `v` is; None
/// exactly where `v` is the primary base of no subobject. `primaries` has the primary bases of `c` and of all classes
/// before it.
///
/// Errors: want of memory.
pub fn holder_of(
    alloc: Global,
    h: &Hierarchy,
    c: ClassId,
    primaries: &[Primary],
    v: ClassId,
) -> Result<Option<Subobject>, NoMemory>
    requires { c.0 < length h.now }
    ensures first { IfOk result (λ holder. holder ≡ holder_of h.now primaries.now c v) }
    ensures held { IfOk result (λ holder. IsHeld h.now primaries.now c v holder) }
{
    let list = list_subobjects(alloc, h, c)?;
    let subobjects = list.as_slice();
    match holder_among(primaries, v, subobjects) {
        Some(n) => Ok(Some(subobject_below(alloc, &subobjects[n], &[])?)),
        None => Ok(None),
    }
}
