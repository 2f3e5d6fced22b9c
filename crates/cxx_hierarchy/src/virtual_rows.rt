//! The table of virtual bases.

ghost use Rattle.std.specs.Prelude.{◌≡◌, ◌<◌, ◌≤◌, ◌||◌, ℕ, false, IfOk, length, get_or, All};
ghost use Rattle.std.specs.List.{list_any};
ghost use Rattle.cxx_hierarchy.specs.declared.records.Base.{Base};
ghost use Rattle.cxx_hierarchy.specs.declared.records.ClassId.{ClassId};
ghost use Rattle.cxx_hierarchy.specs.Hierarchies.{IsHierarchy};
ghost use Rattle.cxx_hierarchy.specs.invariants.VirtualRows.{mark, gives, HaveSizes, AreRows};

use crate::records::{Base, ClassId, ClassRec};
use foundation::{NoMemory, Sequence};
use std::alloc::Global;

/// Marks in a row what is marked in a shorter one.
fn merge(row: &mut [bool], other: &[bool])
    requires { length other.now ≤ length row.old }
    ensures size { length row.new ≡ length row.old }
    ensures marks { (v : ℕ) → get_or row.new v false ≡ (get_or row.old v false || get_or other.now v false) }
{
    for (v, is_marked) in other.iter().enumerate() {
        row[v] = row[v] || *is_marked;
    }
}

/// Marks in a row what a base gives its class.
fn add_base(row: &mut [bool], base: &Base<ClassId>, rows: &[Sequence<bool>], public_only: bool)
    requires sizes { HaveSizes rows.now }
    requires known { base.now.class.0 < length rows.now }
    requires size { length row.old ≡ length rows.now }
    ensures size { length row.new ≡ length row.old }
    ensures marks { (v : ℕ) → get_or row.new v false ≡ (get_or row.old v false || gives public_only rows.now v base.now) }
{
    if base.is_public || !public_only {
        let number = base.class.0 as usize;
        merge(row, rows[number].as_slice());
        if base.is_virtual {
            row[number] = true;
        }
    }
}

/// The row of a class with these bases, behind the rows of the classes before it.
fn row_of(
    alloc: Global,
    bases: &[Base<ClassId>],
    rows: &[Sequence<bool>],
    public_only: bool,
) -> Result<Sequence<bool>, NoMemory>
    requires sizes { HaveSizes rows.now }
    requires known { All (λ (base : Base ClassId). base.class.0 < length rows.now) bases.now }
    ensures { IfOk result (λ row. (length row ≡ length rows.now) × ((v : ℕ) → get_or row v false ≡ list_any (gives public_only rows.now v) bases.now)) }
{
    let mut row = vec![in alloc; false; rows.len()]?;
    for base in bases {
        add_base(&mut row, base, rows, public_only);
    }
    Ok(Sequence::from_vec(row))
}

/// For each class the classes that are its virtual bases, or those of them that public edges alone lead to.
///
/// A class has what its direct bases have, and its direct virtual bases.
pub(crate) fn virtual_rows(
    alloc: Global,
    classes: &[ClassRec<ClassId>],
    public_only: bool,
) -> Result<Vec<Sequence<bool>>, NoMemory>
    requires { IsHierarchy classes.now }
    ensures { IfOk result (λ rows. (length rows.items ≡ length classes.now) × AreRows classes.now public_only rows.items) }
{
    let mut rows = Vec::new(alloc);
    for class in classes {
        let row = row_of(alloc, class.bases.as_slice(), &rows, public_only)?;
        rows.push(row)?;
    }
    Ok(rows)
}

/// What the row of a class says of another; nothing is marked past the rows.
pub(crate) fn is_marked(rows: &[Sequence<bool>], c: ClassId, v: ClassId) -> bool
    ensures { result ≡ mark rows.now c.0 v.0 }
{
    match rows.get(c.0 as usize) {
        Some(row) => row.as_slice().get(v.0 as usize).copied().unwrap_or(false),
        None => false,
    }
}
