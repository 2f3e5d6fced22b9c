//! Finds for each virtual base of a class the final overriders of its functions, from those of the direct bases.

ghost use Rattle.std.specs.Prelude.{◌≡◌, ◌<◌, ◌+◌, ◌↔◌, IsTrue, Some, IfOk, MatchOption, MatchBool, length};
ghost use Rattle.cxx_hierarchy.specs.Classes.{bases_of};
ghost use Rattle.cxx_hierarchy.specs.VirtualBases.{HasVirtualBase};
ghost use Rattle.cxx_overrider.specs.declared.FunctionId.{FunctionId};
ghost use Rattle.cxx_overrider.specs.declared.entries.Entry.{Entry};
ghost use Rattle.cxx_overrider.specs.Functions.{Signature};
ghost use Rattle.cxx_overrider.specs.Overriding.{HasTwoFinalOverriders};
ghost use Rattle.cxx_overrider.specs.invariants.Numbers.{row_of, number_of, IsNumberOf};
ghost use Rattle.cxx_overrider.specs.invariants.EntryTables.{KeepsBefore};
ghost use Rattle.cxx_overrider.specs.invariants.Settling.{Holds, AreCandidates, IsAmong, IsOrder, IsAbove, IsPicked, IsSettled, TellsBefore};
ghost use Rattle.cxx_overrider.specs.invariants.Sites.{numbers_at, IsClassSite, IsMadeAt, IsMadeThrough, IsVirtualAt};

use crate::entries::{Entry, EntryTable, key_of};
use crate::finding::find_entry;
use crate::lasts::has_none_behind;
use crate::places::{Place, lifted};
use crate::sharing::serving_base;
use crate::signatures::own_function;
use crate::sites::ClassSite;
use crate::tables::Tables;
use cxx_hierarchy::{ClassId, Hierarchy};
use cxx_subobject::virtual_flags::has_virtual_bases;
use foundation::NoMemory;
use std::alloc::Global;

/// What overrides a function: nothing, one function, or two of which neither lies in the other.
#[derive(Clone, Copy, Debug)]
pub enum Settled {
    Nothing,
    One(Entry),
    Two(Entry, Entry),
}

/// Whether the one subobject lies in the other. Both lie in direct bases.
fn holds(h: &Hierarchy, outer: Entry, inner: Entry) -> bool
    ensures { IsTrue result ↔ Holds h.now outer inner }
{
    if outer.place == inner.place {
        return true;
    }
    match inner.place {
        Place::InShared(root) => h.has_virtual_base(outer.function.class, root),
        Place::Itself | Place::InBase(_) => false,
    }
}

/// What the direct bases of a class have under the signature.
fn candidates(
    alloc: Global,
    site: &ClassSite,
    entries: &EntryTable,
    v: ClassId,
    n: usize,
) -> Result<Vec<Entry>, NoMemory>
    requires { IsClassSite site.now }
    ensures { IfOk result (λ xs. (s : Signature) → IsNumberOf site.now.h.now (numbers_at site.now) n s → TellsBefore site.now.h.now entries.now site.now.c v n s → AreCandidates site.now.h.now site.now.c v s (length (bases_of site.now.h.now site.now.c)) xs.items) }
{
    site.h.keeps();
    let mut found = Vec::new(alloc);
    for base in site.h.class(site.c).bases.as_slice() {
        let below = ClassSite {
            h: site.h,
            tables: site.tables,
            c: base.class,
        };
        let found_below = find_entry(&below, entries, v, n);
        if let Some(entry) = found_below {
            found.push(Entry {
                place: lifted(base, entry.place),
                function: entry.function,
            })?;
        }
    }
    Ok(found)
}

/// One above the start that no other one holds, unless it holds that one.
fn highest(h: &Hierarchy, xs: &[Entry], start: Entry) -> Entry
    requires { IsAmong xs.now start }
    ensures among { IsAmong xs.now result }
    ensures above { IsOrder h.now xs.now → IsAbove h.now xs.now start result }
{
    let mut best = start;
    for x in xs {
        if holds(h, *x, best) {
            best = *x;
        }
    }
    best
}

/// One that is not held.
fn not_held(h: &Hierarchy, xs: &[Entry], best: Entry) -> Option<Entry>
    ensures { MatchOption result ((x : Entry) → IsAmong xs.now x → Holds h.now best x) (λ x. IsAmong xs.now x × (Holds h.now best x → ⊥)) }
{
    for x in xs {
        if !holds(h, best, *x) {
            return Some(*x);
        }
    }
    None
}

/// The one that holds all others, or two of which none holds the other.
fn pick(h: &Hierarchy, xs: &[Entry]) -> Settled
    ensures { IsPicked h.now xs.now result }
{
    match xs {
        [] => Settled::Nothing,
        [first, ..] => {
            let best = highest(h, xs, *first);
            match not_held(h, xs, best) {
                None => Settled::One(best),
                Some(other) => Settled::Two(best, highest(h, xs, other)),
            }
        }
    }
}

/// What overrides the functions of the signature in the virtual base of a class that declares none itself.
fn settle(
    alloc: Global,
    site: &ClassSite,
    entries: &EntryTable,
    v: ClassId,
    n: usize,
) -> Result<Settled, NoMemory>
    requires site { IsClassSite site.now }
    requires base { HasVirtualBase site.now.h.now site.now.c v }
    requires own { (f : FunctionId) → f.class ≡ site.now.c → number_of (numbers_at site.now) f ≡ Some n → ⊥ }
    ensures { IfOk result (λ settled. (s : Signature) → IsNumberOf site.now.h.now (numbers_at site.now) n s → TellsBefore site.now.h.now entries.now site.now.c v n s → IsSettled site.now.h.now site.now.c v s settled) }
{
    site.h.keeps();
    let found = candidates(alloc, site, entries, v, n)?;
    let picked = pick(site.h, &found);
    Ok(picked)
}

/// Puts down what overrides the virtual functions of one signature, unless the class declares it, and tells whether it
/// is one.
fn settle_number(
    alloc: Global,
    site: &ClassSite,
    entries: &mut EntryTable,
    v: ClassId,
    n: usize,
) -> Result<bool, NoMemory>
    requires site { IsClassSite site.now }
    requires at { IsVirtualAt site.now v n }
    requires made { IsMadeAt site.now entries.old v.0 n }
    ensures one { IfOk result (λ is_one. MatchBool is_one (IsMadeAt site.now entries.new v.0 (n + 1)) (HasTwoFinalOverriders site.now.h.now site.now.c)) }
    ensures kept { KeepsBefore site.now.c entries.old entries.new }
{
    site.h.keeps();
    if has_none_behind(site.tables, n, v) {
        return Ok(true);
    }
    match own_function(&site.tables.numbering.rows, site.c, n) {
        Some(_) => return Ok(true),
        None => {}
    }
    match settle(alloc, site, entries, v, n)? {
        Settled::Nothing => Ok(true),
        Settled::One(entry) => {
            entries.put(key_of(site.c, v, n), entry)?;
            Ok(true)
        }
        Settled::Two(_, _) => Ok(false),
    }
}

/// The numbers of the virtual functions that the non-virtual part of a class declares.
pub fn numbers_within(tables: &Tables, v: ClassId) -> &[usize]
    requires { v.0 < length tables.now.within.items }
    ensures { result.now ≡ row_of tables.now.within.items v }
{
    tables.within[v.0 as usize].as_slice()
}

/// Puts down what overrides the virtual functions of a virtual base, and tells whether each has one overrider. Nothing
/// is to be put down for a class that is no virtual base.
fn settle_base(
    alloc: Global,
    site: &ClassSite,
    entries: &mut EntryTable,
    v: ClassId,
) -> Result<bool, NoMemory>
    requires site { IsClassSite site.now }
    requires made { IsMadeAt site.now entries.old v.0 0 }
    ensures one { IfOk result (λ is_one. MatchBool is_one (IsMadeAt site.now entries.new (v.0 + 1) 0) (HasTwoFinalOverriders site.now.h.now site.now.c)) }
    ensures kept { KeepsBefore site.now.c entries.old entries.new }
{
    site.h.keeps();
    if !site.h.has_virtual_base(site.c, v) {
        return Ok(true);
    }
    for n in numbers_within(site.tables, v) {
        if !settle_number(alloc, site, entries, v, *n)? {
            return Ok(false);
        }
    }
    Ok(true)
}

/// Puts down what overrides the virtual functions of the virtual bases of a class, and tells whether each virtual
/// function of its subobjects has one final overrider (ISO C++03 10.3 p2, p10). Whatever it answers, what is told of the
/// classes before stays.
pub fn settle_class(
    alloc: Global,
    site: &ClassSite,
    entries: &mut EntryTable,
) -> Result<bool, NoMemory>
    requires site { IsClassSite site.now }
    requires made { IsMadeAt site.now entries.old 0 0 }
    ensures made { IfOk result (λ is_one. IsTrue is_one → IsMadeThrough site.now entries.new) }
    ensures one { IfOk result (λ is_one. MatchBool is_one (HasTwoFinalOverriders site.now.h.now site.now.c → ⊥) (HasTwoFinalOverriders site.now.h.now site.now.c)) }
    ensures kept { KeepsBefore site.now.c entries.old entries.new }
{
    site.h.keeps();
    if !has_virtual_bases(&site.tables.with_virtual, site.c) {
        return Ok(true);
    }
    if let Some(base) = serving_base(site) {
        entries.share(site.c, base);
        return Ok(true);
    }
    for number in 0..site.c.0 {
        if !settle_base(alloc, site, entries, ClassId(number))? {
            return Ok(false);
        }
    }
    Ok(true)
}
