//! The layout that a listing stands for.

ghost use Rattle.std.specs.Prelude.{◌≡◌, ◌<◌, Some, IfOk, length, map, slice_get};
ghost use Rattle.cxx_hierarchy.specs.declared.records.ClassId.{ClassId};
ghost use Rattle.cxx_hierarchy.specs.Classes.{members_of};
ghost use Rattle.abi_foreign.specs.declared.said.ClassSaid.{ClassSaid};
ghost use Rattle.abi_foreign.specs.Listings.{cut_rows};
ghost use Rattle.abi_foreign.specs.invariants.Said.{AreSmallPlaces};
ghost use Rattle.abi_foreign.specs.invariants.Rows.{primaries_of, exact_rows};

use crate::row::row_of;
use crate::said::ClassSaid;
use abi_primary::Primary;
use abi_sound::ClassLayout;
use cxx_hierarchy::{ClassId, Hierarchy};
use foundation::NoMemory;
use std::alloc::Global;

/// The primary bases of all classes.
fn primaries_of(alloc: Global, saids: &[ClassSaid]) -> Result<Vec<Primary>, NoMemory>
    ensures { IfOk result (λ primaries. primaries.items ≡ primaries_of saids.now) }
{
    let mut primaries = Vec::new(alloc);
    for said in saids {
        primaries.push(said.primary)?;
    }
    Ok(primaries)
}

/// The rows of all classes with the numbers of a listing: direct non-virtual bases and virtual bases at the places of their lines,
/// and holders by the rule (Itanium C++ ABI 2.4).
///
/// Errors: want of memory.
pub(crate) fn rows_of(
    alloc: Global,
    h: &Hierarchy,
    saids: &[ClassSaid],
) -> Result<Vec<ClassLayout>, NoMemory>
    requires count { length saids.now ≡ length h.now }
    requires members { (c : ClassId) (said : ClassSaid) → slice_get saids.now c.0 ≡ Some said → AreSmallPlaces (members_of h.now c) said.members }
    ensures { IfOk result (λ rows. rows.items ≡ cut_rows (exact_rows h.now saids.now (length saids.now))) }
{
    let primaries = primaries_of(alloc, saids)?;
    let mut rows = Vec::new(alloc);
    for n in 0..h.len() {
        let row = row_of(alloc, h, saids, &primaries, ClassId(n), &saids[n as usize])?;
        rows.push(row)?;
    }
    Ok(rows)
}
