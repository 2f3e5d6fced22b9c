//! Whether an empty base lies elsewhere than at the start of its class (Itanium C++ ABI 1.1, nearly empty).

ghost use Rattle.std.specs.Prelude.{◌≡◌, ◌<◌, ◌↔◌, ◌&&◌, Contains, IsTrue, length};
ghost use Rattle.std.specs.List.{list_any};
ghost use Rattle.cxx_hierarchy.specs.Classes.{bases_of};
ghost use Rattle.cxx_subobject.specs.Preorder.{preorder};
ghost use Rattle.abi_layout.specs.invariants.Known.{empties_in};
ghost use Rattle.abi_layout.specs.invariants.LaidSoFar.{is_shifted_base, is_moved_base, HasShifted, BaseShifted};

use crate::brought::base_place;
use crate::known::{Known, is_empty_at};
use abi_sound::ClassLayout;
use cxx_hierarchy::{Base, ClassId, Hierarchy};

/// Whether a direct non-virtual base lies elsewhere than at the start, where its class does or does not.
fn is_moved_base(
    h: &Hierarchy,
    rows: &[ClassLayout],
    d: ClassId,
    is_moved: bool,
    base: &Base<ClassId>,
) -> bool
    requires class { d.0 < length h.now }
    requires row { d.0 < length rows.now }
    ensures { result ≡ is_moved_base h.now rows.now d is_moved base.now }
{
    is_moved || base_place(h, rows, d, base.class) != 0
}

/// Whether an empty class lies elsewhere than at the start.
fn is_empty_elsewhere(known: &[Known], b: ClassId, is_moved: bool) -> bool
    ensures { result ≡ (is_moved && empties_in known.now b) }
{
    is_moved && is_empty_at(known, b)
}

/// Whether a direct base of class `d`, or a base below it that lies in no virtual base, is empty and lies elsewhere than
/// at the start.
#[cycle(shifted)]
fn is_base_shifted(
    h: &Hierarchy,
    rows: &[ClassLayout],
    known: &[Known],
    d: ClassId,
    is_moved: bool,
    base: &Base<ClassId>,
) -> bool
    requires class { d.0 < length h.now }
    requires row { d.0 < length rows.now }
    requires base { Contains (bases_of h.now d) base.now }
    ensures { IsTrue result ↔ BaseShifted h.now rows.now known.now d is_moved base.now }
{
    h.keeps();
    if base.is_virtual {
        return false;
    }
    let is_base_moved = is_moved_base(h, rows, d, is_moved, base);
    if is_empty_elsewhere(known, base.class, is_base_moved) {
        return true;
    }
    has_shifted(h, rows, known, base.class, is_base_moved)
}

/// Whether an empty base below class `d`, in no virtual base, lies elsewhere than at the start, where `d` does or does
/// not.
#[cycle(shifted)]
fn has_shifted(
    h: &Hierarchy,
    rows: &[ClassLayout],
    known: &[Known],
    d: ClassId,
    is_moved: bool,
) -> bool
    requires class { d.0 < length h.now }
    requires row { d.0 < length rows.now }
    ensures { IsTrue result ↔ HasShifted h.now rows.now known.now d is_moved }
{
    h.keeps();
    let class = h.class(d);
    for base in class.bases.as_slice() {
        if is_base_shifted(h, rows, known, d, is_moved, base) {
            return true;
        }
    }
    false
}

/// Whether an empty base of a class that lies in no virtual base lies elsewhere than at its start. It takes no memory.
pub(crate) fn is_shifted(h: &Hierarchy, rows: &[ClassLayout], known: &[Known], c: ClassId) -> bool
    requires class { c.0 < length h.now }
    requires row { c.0 < length rows.now }
    ensures { result ≡ list_any (is_shifted_base h.now rows.now known.now) (preorder h.now c) }
{
    h.keeps();
    has_shifted(h, rows, known, c, false)
}
