//! What overrides the functions of a virtual base, in a class that is settled.

ghost use Rattle.std.specs.Prelude.{◌≡◌};
ghost use Rattle.cxx_overrider.specs.Functions.{Signature};
ghost use Rattle.cxx_overrider.specs.invariants.Numbers.{IsNumbering, IsNumberOf};
ghost use Rattle.cxx_overrider.specs.invariants.Lasts.{AreLasts};
ghost use Rattle.cxx_overrider.specs.invariants.Pure.{DeclaresNone};
ghost use Rattle.cxx_overrider.specs.invariants.Entries.{TellsOf};
ghost use Rattle.cxx_overrider.specs.invariants.EntryTables.{entry_of};
ghost use Rattle.cxx_overrider.specs.invariants.Settling.{key};
ghost use Rattle.cxx_overrider.specs.invariants.Sites.{numbers_at};

use crate::entries::{Entry, EntryTable, key_of};
use crate::lasts::has_none_behind;
use crate::places::Place;
use crate::signatures::own_function;
use crate::sites::ClassSite;
use cxx_hierarchy::ClassId;

/// What overrides the functions of a signature in a virtual base of a class: what the class declares itself, and else
/// what the table says. None where the class has no such base.
pub fn find_entry(site: &ClassSite, entries: &EntryTable, v: ClassId, n: usize) -> Option<Entry>
    requires numbering { IsNumbering site.now.h.now (numbers_at site.now) site.now.tables.now.numbering.count }
    requires lasts { AreLasts (numbers_at site.now) site.now.tables.now.lasts.items }
    ensures { (s : Signature) → IsNumberOf site.now.h.now (numbers_at site.now) n s → (DeclaresNone site.now.h.now site.now.c s → TellsOf site.now.h.now site.now.c v s (entry_of entries.now (key site.now.c v n))) → TellsOf site.now.h.now site.now.c v s result }
{
    let c = site.c;
    site.h.keeps();
    if has_none_behind(site.tables, n, v) {
        return None;
    }
    if !site.h.has_virtual_base(c, v) {
        return None;
    }
    match own_function(&site.tables.numbering.rows, c, n) {
        Some(function) => Some(Entry {
            place: Place::Itself,
            function,
        }),
        None => entries.find(key_of(c, v, n)),
    }
}
