//! The final overrider of a virtual function in a subobject (ISO C++03 10.3 p2).

ghost use Rattle.std.specs.Prelude.{◌≡◌, ◌<◌, ℕ, Some, IfOk, MatchOption, length};
ghost use Rattle.cxx_hierarchy.specs.declared.records.ClassId.{ClassId};
ghost use Rattle.cxx_subobject.specs.declared.Subobject.{Subobject};
ghost use Rattle.cxx_subobject.specs.Subobjects.{IsSubobject, class_of};
ghost use Rattle.cxx_overrider.specs.Overriding.{HasPart, IsVirtualIn, IsFinalOverrider};
ghost use Rattle.cxx_overrider.specs.invariants.Numbers.{AreShort, number_of};
ghost use Rattle.cxx_overrider.specs.invariants.Sites.{numbers_at, IsClassSite, IsMadeToEnd};
ghost use Rattle.cxx_overrider.specs.invariants.Finals.{IsFirstAt, DeclareNone, IsFirstOverrider, IsByPath, IsByClass};

use crate::entries::EntryTable;
use crate::finding::find_entry;
use crate::signatures::{NumberRow, Numbering, number_of, own_function};
use crate::sites::ClassSite;
use crate::{FunctionId, Overrider};
use cxx_hierarchy::{ClassId, Hierarchy};
use cxx_subobject::listing::longer_path;
use cxx_subobject::{Root, Subobject, class_of, list_subobjects, subobject_below};
use foundation::NoMemory;
use std::alloc::Global;

/// A place on a path, and a function of the class there.
#[derive(Clone, Copy)]
struct OnPath {
    place: usize,
    function: FunctionId,
}

/// The first class of a path that declares a function of the number.
fn first_on_path(rows: &[NumberRow], path: &[ClassId], n: usize) -> OnPath
    requires rows { AreShort rows.now }
    requires some { DeclareNone rows.now path.now n (length path.now) → ⊥ }
    ensures { IsFirstAt rows.now path.now n result.place result.function }
{
    for (place, class) in path.iter().enumerate() {
        match own_function(rows, *class, n) {
            Some(function) => return OnPath { place, function },
            None => {}
        }
    }
    unreachable!()
}

/// The number of a function.
fn number_at(numbering: &Numbering, f: FunctionId) -> usize
    requires { (n : ℕ) × (number_of numbering.now.rows.items f ≡ Some n) }
    ensures { number_of numbering.now.rows.items f ≡ Some result }
{
    match number_of(&numbering.rows, f) {
        Some(n) => n,
        None => unreachable!(),
    }
}

/// The function of the number in the first class of the subobject's path that declares one, in the subobject to which
/// the path leads there.
fn path_overrider(
    alloc: Global,
    numbering: &Numbering,
    s: &Subobject,
    n: usize,
) -> Result<Overrider, NoMemory>
    requires numbering { AreShort numbering.now.rows.items }
    requires some { DeclareNone numbering.now.rows.items s.now.path n (length s.now.path) → ⊥ }
    ensures { IfOk result (IsFirstOverrider numbering.now.rows.items s.now n) }
{
    let path = s.path.as_slice();
    let first = first_on_path(&numbering.rows, path, n);
    let at = Subobject {
        root: s.root,
        path: longer_path(alloc, &path[..first.place + 1], &[])?,
    };
    Ok(Overrider {
        at,
        function: first.function,
    })
}

/// A subobject of a class that is of another class.
fn subobject_of_class(
    alloc: Global,
    h: &Hierarchy,
    c: ClassId,
    d: ClassId,
) -> Result<Subobject, NoMemory>
    requires known { c.0 < length h.now }
    requires part { HasPart h.now c d }
    ensures valid { IfOk result (IsSubobject h.now c) }
    ensures class { IfOk result (λ s. class_of s ≡ Some d) }
{
    let list = list_subobjects(alloc, h, c)?;
    for s in list.as_slice() {
        if class_of(s) == Some(d) {
            let copy = subobject_below(alloc, s, &[])?;
            return Ok(copy);
        }
    }
    unreachable!()
}

/// The function of the final overrider, where the subobject lies below a virtual base and a class that has that base
/// declares one. None: the final overrider is the first one on the path of the subobject.
fn overriding_base(
    site: &ClassSite,
    entries: &EntryTable,
    s: &Subobject,
    f: FunctionId,
    n: usize,
) -> Option<FunctionId>
    requires site { IsClassSite site.now }
    requires made { IsMadeToEnd site.now entries.now }
    requires of_class { IsVirtualIn site.now.h.now site.now.c s.now f }
    requires number { number_of (numbers_at site.now) f ≡ Some n }
    ensures { MatchOption result (IsByPath site.now.h.now (numbers_at site.now) n site.now.c s.now f) (IsByClass site.now.h.now site.now.c s.now f) }
{
    site.h.keeps();
    let root = match s.root {
        Root::Whole => return None,
        Root::Shared(root) => root,
    };
    match find_entry(site, entries, root, n) {
        Some(entry) => Some(entry.function),
        None => None,
    }
}

/// The final overrider of a virtual function in a subobject of a class that has one of each.
///
/// Errors: want of memory.
pub fn final_overrider(
    alloc: Global,
    site: &ClassSite,
    entries: &EntryTable,
    s: &Subobject,
    f: FunctionId,
) -> Result<Overrider, NoMemory>
    requires site { IsClassSite site.now }
    requires made { IsMadeToEnd site.now entries.now }
    requires of_class { IsVirtualIn site.now.h.now site.now.c s.now f }
    ensures { IfOk result (IsFinalOverrider site.now.h.now site.now.c s.now f) }
{
    let n = number_at(&site.tables.numbering, f);
    match overriding_base(site, entries, s, f, n) {
        Some(function) => {
            let at = subobject_of_class(alloc, site.h, site.c, function.class)?;
            Ok(Overrider { at, function })
        }
        None => path_overrider(alloc, &site.tables.numbering, s, n),
    }
}

/// The function of the final overrider. It takes no memory.
pub fn final_function(
    site: &ClassSite,
    entries: &EntryTable,
    s: &Subobject,
    f: FunctionId,
) -> FunctionId
    requires site { IsClassSite site.now }
    requires made { IsMadeToEnd site.now entries.now }
    requires of_class { IsVirtualIn site.now.h.now site.now.c s.now f }
    ensures { (at : Subobject) × IsFinalOverrider site.now.h.now site.now.c s.now f (record { at = at; function = result }) }
{
    let n = number_at(&site.tables.numbering, f);
    match overriding_base(site, entries, s, f, n) {
        Some(function) => function,
        None => first_on_path(&site.tables.numbering.rows, s.path.as_slice(), n).function,
    }
}
