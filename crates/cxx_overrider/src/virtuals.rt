//! Which signatures are virtual in which classes.

ghost use Rattle.std.specs.Prelude.{◌≡◌, ◌<◌, ◌≤◌, ◌↔◌, ℕ, false, IsTrue, IfOk, OnOk, Some, None, IsSome, length, slice_index_or};
ghost use Rattle.cxx_overrider.specs.Functions.{Signature, signature_of, says_virtual};
ghost use Rattle.cxx_overrider.specs.Overriding.{HasVirtual};
ghost use Rattle.cxx_overrider.specs.invariants.Numbers.{IsNumbering, IsNumberOf};
ghost use Rattle.cxx_overrider.specs.invariants.Marks.{mark_of, AreMarks, IsMarkRow, MarksNext, HasMarkedBase, SaysVirtual};

use crate::FunctionId;
use crate::signatures::{Numbering, declaration, own_function};
use cxx_hierarchy::{ClassId, Destructor, Hierarchy};
use foundation::{NoMemory, Sequence};
use std::alloc::Global;

/// For the numbers in their order whether each is marked. A row ends at its last mark.
pub type MarkRow = Sequence<bool>;

/// Makes a row longer, without a mark, until it has so many numbers.
fn lengthen(row: &mut MarkRow, count: usize) -> Result<(), NoMemory>
    requires { length row.old ≤ count }
    ensures size { OnOk result (length row.new ≡ count) }
    ensures same { (m : ℕ) → slice_index_or row.new m false ≡ slice_index_or row.old m false }
{
    while row.len() < count {
        row.push(false)?;
    }
    Ok(())
}

/// Says of the number behind those that a row tells of whether it is marked. Without a mark the row stays as it is.
pub fn put_mark(row: &mut MarkRow, n: usize, flag: bool) -> Result<(), NoMemory>
    requires { length row.old ≤ n }
    ensures { OnOk result (MarksNext row.old n flag row.new) }
{
    if flag {
        lengthen(row, n)?;
        row.push(true)?;
    }
    Ok(())
}

/// The same row in no more memory than it needs.
pub fn fitted(alloc: Global, row: &MarkRow) -> Result<MarkRow, NoMemory>
    ensures { IfOk result (λ same. same ≡ row.now) }
{
    let marks = row.as_slice();
    let mut items = Vec::with_capacity(alloc, marks.len())?;
    items.extend_from_slice(marks)?;
    Ok(Sequence::from_vec(items))
}

/// Whether a number is marked in the row of a class.
pub fn is_marked(rows: &[MarkRow], c: ClassId, n: usize) -> bool
    ensures { result ≡ mark_of rows.now c n }
{
    match rows.get(c.0 as usize) {
        Some(row) => row.as_slice().get(n).copied().unwrap_or(false),
        None => false,
    }
}

/// Whether the declaration has the word `virtual`.
fn says_virtual(h: &Hierarchy, f: FunctionId) -> bool
    requires { f.class.0 < length h.now }
    ensures { result ≡ says_virtual h.now f }
{
    match declaration(h, f) {
        Some(function) => function.is_virtual,
        None => matches!(h.class(f.class).destructor, Destructor::Virtual),
    }
}

/// Whether the class itself declares a function of the signature with the word `virtual`.
fn says_own_virtual(h: &Hierarchy, numbering: &Numbering, c: ClassId, n: usize) -> bool
    requires known { c.0 < length h.now }
    requires numbering { IsNumbering h.now numbering.now.rows.items numbering.now.count }
    ensures { (s : Signature) → IsNumberOf h.now numbering.now.rows.items n s → (IsTrue result ↔ SaysVirtual h.now c s) }
{
    h.keeps();
    match own_function(&numbering.rows, c, n) {
        Some(f) => says_virtual(h, f),
        None => false,
    }
}

/// Whether a direct base has the mark.
pub fn has_marked_base(h: &Hierarchy, rows: &[MarkRow], c: ClassId, n: usize) -> bool
    requires { c.0 < length h.now }
    ensures { IsTrue result ↔ HasMarkedBase h.now rows.now c n }
{
    for base in h.class(c).bases.as_slice() {
        if is_marked(rows, base.class, n) {
            return true;
        }
    }
    false
}

/// Whether the class or a base of it declares a function of the signature with the word `virtual`.
fn has_virtual(h: &Hierarchy, numbering: &Numbering, rows: &[MarkRow], c: ClassId, n: usize) -> bool
    requires known { c.0 < length h.now }
    requires numbering { IsNumbering h.now numbering.now.rows.items numbering.now.count }
    requires rows { AreMarks h.now numbering.now.rows.items (HasVirtual h.now) rows.now }
    requires size { length rows.now ≡ c.0 }
    ensures { (s : Signature) → IsNumberOf h.now numbering.now.rows.items n s → (IsTrue result ↔ HasVirtual h.now c s) }
{
    h.keeps();
    if has_marked_base(h, rows, c, n) {
        return true;
    }
    says_own_virtual(h, numbering, c, n)
}

fn virtual_row(
    alloc: Global,
    h: &Hierarchy,
    numbering: &Numbering,
    rows: &[MarkRow],
    c: ClassId,
) -> Result<MarkRow, NoMemory>
    requires known { c.0 < length h.now }
    requires numbering { IsNumbering h.now numbering.now.rows.items numbering.now.count }
    requires rows { AreMarks h.now numbering.now.rows.items (HasVirtual h.now) rows.now }
    requires size { length rows.now ≡ c.0 }
    ensures { IfOk result (IsMarkRow h.now numbering.now.rows.items numbering.now.count (HasVirtual h.now c)) }
{
    let mut row = Sequence::new(alloc);
    for n in 0..numbering.count {
        put_mark(&mut row, n, has_virtual(h, numbering, rows, c, n))?;
    }
    let row = fitted(alloc, &row)?;
    Ok(row)
}

/// For each class the signatures that are virtual in it.
pub fn virtual_rows(
    alloc: Global,
    h: &Hierarchy,
    numbering: &Numbering,
) -> Result<Vec<MarkRow>, NoMemory>
    requires { IsNumbering h.now numbering.now.rows.items numbering.now.count }
    ensures marks { IfOk result (λ rows. AreMarks h.now numbering.now.rows.items (HasVirtual h.now) rows.items) }
    ensures size { IfOk result (λ rows. length rows.items ≡ length h.now) }
{
    let mut rows = Vec::new(alloc);
    for number in 0..h.len() {
        let row = virtual_row(alloc, h, numbering, &rows, ClassId(number))?;
        rows.push(row)?;
    }
    Ok(rows)
}
