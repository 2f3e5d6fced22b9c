//! Classes for which the entries of their one base serve.

ghost use Rattle.std.specs.Prelude.{◌≡◌, ◌<◌, ℕ, true, IsTrue, IfSome, Some, Contains, length, slice_get};
ghost use Rattle.cxx_hierarchy.specs.declared.records.ClassId.{ClassId};
ghost use Rattle.cxx_hierarchy.specs.declared.records.Base.{Base};
ghost use Rattle.cxx_overrider.specs.declared.FunctionId.{FunctionId};
ghost use Rattle.cxx_overrider.specs.invariants.Numbers.{row_of, number_of, AreShort};
ghost use Rattle.cxx_overrider.specs.invariants.Sharing.{HasEntriesOf};
ghost use Rattle.cxx_overrider.specs.invariants.Sites.{IsClassSite};

use crate::signatures::{NumberRow, own_function};
use crate::sites::ClassSite;
use cxx_hierarchy::{Base, ClassId};

/// Whether all bases are virtual.
fn are_virtual(bases: &[Base<ClassId>]) -> bool
    ensures { IsTrue result → (base : Base ClassId) → Contains bases.now base → base.is_virtual ≡ true }
{
    for base in bases {
        if !base.is_virtual {
            return false;
        }
    }
    true
}

/// Whether a class declares a function of each number of a row.
fn declares_all(rows: &[NumberRow], c: ClassId, row: &[usize]) -> bool
    requires { AreShort rows.now }
    ensures { IsTrue result → (i n : ℕ) → slice_get row.now i ≡ Some n → (f : FunctionId) × (f.class ≡ c) × (number_of rows.now f ≡ Some n) }
{
    for n in row {
        match own_function(rows, c, *n) {
            Some(_) => {}
            None => return false,
        }
    }
    true
}

/// The one base of a class, where that is virtual, has no other than virtual bases, and declares no function that the
/// class doesn't: what overrides a function in the class lies in a virtual base of that base too.
pub fn serving_base(site: &ClassSite) -> Option<ClassId>
    requires { IsClassSite site.now }
    ensures { IfSome result (HasEntriesOf site.now.h.now site.now.c) }
{
    site.h.keeps();
    let bases = site.h.class(site.c).bases.as_slice();
    if bases.len() != 1 {
        return None;
    }
    let base = &bases[0];
    if !base.is_virtual {
        return None;
    }
    if !are_virtual(site.h.class(base.class).bases.as_slice()) {
        return None;
    }
    let rows = &site.tables.numbering.rows;
    let row = rows[base.class.0 as usize].as_slice();
    if !declares_all(rows, site.c, row) {
        return None;
    }
    Some(base.class)
}
