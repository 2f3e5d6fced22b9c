//! How an object is deleted.

ghost use Rattle.std.specs.Prelude.{◌≡◌, true, ◌<◌, ◌∷◌, [], ◌++◌, OnOk, length};
ghost use Rattle.cxx_overrider.specs.Overriders.{AreOverriders};
ghost use Rattle.cxx_overrider.specs.Virtuals.{is_virtual};
ghost use Rattle.cxx_search.specs.Searches.{destructor_of};
ghost use Rattle.abi_slots.specs.Listing.{entry_number, entry_key};
ghost use Rattle.abi_slots.specs.declared.words.CodeKind.TheVariants.{Deleting};
ghost use Rattle.code_statements.specs.Statements.{delete_op};
ghost use Rattle.code_ops.specs.invariants.Sites.{site_places, site_block, site_start, IsLaidSite};

use abi_slots::BlockKind;
use abi_sound::SoundLayout;
use byte_code::{Op, OpList};
use code_ops::routines::{destructor_of, start_of};
use code_ops::sites::Site;
use cxx_hierarchy::ClassId;
use foundation::NoMemory;

/// Whether the destructor of a class is virtual.
pub fn is_virtual_end<L: SoundLayout>(site: &Site<L>, c: ClassId) -> bool
    requires overriders { AreOverriders site.now.h.now site.now.overriders.now }
    requires known { c.0 < length site.now.h.now }
    ensures { result ≡ is_virtual site.now.h.now (destructor_of site.now.h.now c) }
{
    site.h.keeps();
    site.overriders.is_virtual(destructor_of(site.h, c))
}

/// The number of the entry of the deleting destructor of a class: it stands behind that of the complete one (Itanium C++ ABI 2.5.2).
fn deleting_entry<L: SoundLayout>(site: &Site<L>, c: ClassId) -> u32
    requires laid { IsLaidSite L.lays_out L.rows site.now }
    requires known { c.0 < length site.now.h.now }
    requires is_virtual { is_virtual site.now.h.now (destructor_of site.now.h.now c) ≡ true }
    ensures { result ≡ entry_number site.now.h.now (site_places L.rows site.now) (entry_key (destructor_of site.now.h.now c) Deleting) }
{
    let _entries = site.slots.entries(c);
    site.slots.entry(destructor_of(site.h, c)) + 1
}

/// Deletes an object: by the view, or without dispatch by its class.
///
/// Errors: want of memory.
pub fn push_delete<L: SoundLayout>(
    ops: &mut OpList,
    site: &Site<L>,
    c: ClassId,
    this: u32,
) -> Result<(), NoMemory>
    requires laid { IsLaidSite L.lays_out L.rows site.now }
    requires overriders { AreOverriders site.now.h.now site.now.overriders.now }
    requires known { c.0 < length site.now.h.now }
    ensures { OnOk result (ops.new ≡ ops.old ++ delete_op (site_block L.rows site.now) (site_start L.rows site.now) (is_virtual site.now.h.now (destructor_of site.now.h.now c)) c this ∷ []) }
{
    if is_virtual_end(site, c) {
        let entry = deleting_entry(site, c);
        ops.push(Op::DeleteEntry { this, entry })?;
    } else {
        let block = start_of(
            site.numbers,
            destructor_of(site.h, c),
            BlockKind::EndDeleting,
        );
        ops.push(Op::DeleteCode { this, block })?;
    }
    Ok(())
}
