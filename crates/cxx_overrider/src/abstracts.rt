//! Which classes are abstract (ISO C++03 10.4).

ghost use Rattle.std.specs.Prelude.{◌≡◌, ◌↔◌, IsTrue, MatchBool};
ghost use Rattle.cxx_subobject.specs.declared.Root.TheVariants.{Whole, Shared};
ghost use Rattle.cxx_overrider.specs.Functions.{Signature};
ghost use Rattle.cxx_overrider.specs.Overriding.{IsAbstract};
ghost use Rattle.cxx_overrider.specs.invariants.Numbers.{IsNumberOf};
ghost use Rattle.cxx_overrider.specs.invariants.Abstract.{HasPureAt};
ghost use Rattle.cxx_overrider.specs.invariants.Sites.{numbers_at, IsClassSite, IsMadeThrough, IsVirtualAt};

use crate::entries::EntryTable;
use crate::finding::find_entry;
use crate::pure::is_pure;
use crate::settling::numbers_within;
use crate::sites::ClassSite;
use crate::virtuals::is_marked;
use cxx_hierarchy::ClassId;
use cxx_subobject::virtual_flags::has_virtual_bases;

/// Whether in the non-virtual part of a class a virtual function has a pure final overrider.
fn has_pure_whole(site: &ClassSite) -> bool
    requires { IsClassSite site.now }
    ensures { MatchBool result (IsAbstract site.now.h.now site.now.c) ((s : Signature) → HasPureAt site.now.h.now site.now.c Whole s → ⊥) }
{
    site.h.keeps();
    for n in 0..site.tables.numbering.count {
        if is_marked(&site.tables.pure, site.c, n) {
            return true;
        }
    }
    false
}

/// Whether the virtual functions of one signature in a virtual base have a pure final overrider.
fn has_pure_number(site: &ClassSite, entries: &EntryTable, v: ClassId, n: usize) -> bool
    requires site { IsClassSite site.now }
    requires at { IsVirtualAt site.now v n }
    requires made { IsMadeThrough site.now entries.now }
    ensures { MatchBool result (IsAbstract site.now.h.now site.now.c) ((s : Signature) → IsNumberOf site.now.h.now (numbers_at site.now) n s → HasPureAt site.now.h.now site.now.c (Shared v) s → ⊥) }
{
    site.h.keeps();
    match find_entry(site, entries, v, n) {
        Some(entry) => is_pure(site.h, entry.function),
        None => is_marked(&site.tables.pure, v, n),
    }
}

/// Whether a virtual function in a virtual base has a pure final overrider. Other classes than virtual bases have none.
fn has_pure_base(site: &ClassSite, entries: &EntryTable, v: ClassId) -> bool
    requires site { IsClassSite site.now }
    requires made { IsMadeThrough site.now entries.now }
    ensures { MatchBool result (IsAbstract site.now.h.now site.now.c) ((s : Signature) → HasPureAt site.now.h.now site.now.c (Shared v) s → ⊥) }
{
    site.h.keeps();
    if !site.h.has_virtual_base(site.c, v) {
        return false;
    }
    for n in numbers_within(site.tables, v) {
        if has_pure_number(site, entries, v, *n) {
            return true;
        }
    }
    false
}

/// Whether a class is abstract: some virtual function of one of its subobjects has a pure final overrider.
pub fn is_abstract_class(site: &ClassSite, entries: &EntryTable) -> bool
    requires site { IsClassSite site.now }
    requires made { IsMadeThrough site.now entries.now }
    ensures { IsTrue result ↔ IsAbstract site.now.h.now site.now.c }
{
    site.h.keeps();
    if !site.tables.has_pure {
        return false;
    }
    if has_pure_whole(site) {
        return true;
    }
    if !has_virtual_bases(&site.tables.with_virtual, site.c) {
        return false;
    }
    for number in 0..site.c.0 {
        if has_pure_base(site, entries, ClassId(number)) {
            return true;
        }
    }
    false
}
