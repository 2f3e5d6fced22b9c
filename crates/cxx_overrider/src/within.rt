//! Which virtual functions the non-virtual part of a class declares, and which pure ones it leaves without an overrider,
//! by the numbers of their signatures.

ghost use Rattle.std.specs.Prelude.{◌≡◌, ℕ, [], false, IfOk, length, slice_index_or};
ghost use Rattle.cxx_hierarchy.specs.declared.records.ClassId.{ClassId};
ghost use Rattle.cxx_overrider.specs.invariants.Marks.{mark_of, AreMarks, IsMarkRow};
ghost use Rattle.cxx_overrider.specs.invariants.Parts.{numbers_of, AreSignatures, IsNextClass, TellsNext};
ghost use Rattle.cxx_overrider.specs.invariants.Pure.{LeavesPure};
ghost use Rattle.cxx_overrider.specs.invariants.Within.{HasVirtualWithin, IsAnswered, ListsMarked, AreListed, AreWithin};

use crate::parts::{NextClass, Signatures};
use crate::pure::{has_marked_part, has_pure_function, leaves_pure};
use crate::signatures::{NumberRow, own_function};
use crate::virtuals::{MarkRow, fitted, is_marked, put_mark};
use cxx_hierarchy::ClassId;
use foundation::{NoMemory, Sequence};
use std::alloc::Global;

/// Whether the non-virtual part of a class declares a virtual function of the signature.
fn has_virtual_within(next: &NextClass, n: usize) -> bool
    requires { IsNextClass HasVirtualWithin next.now }
    ensures { TellsNext HasVirtualWithin next.now n result }
{
    let signatures = next.signatures;
    signatures.h.keeps();
    if !is_marked(signatures.virtuals, next.c, n) {
        return false;
    }
    if has_marked_part(signatures.h, next.rows, next.c, n) {
        return true;
    }
    match own_function(&signatures.numbering.rows, next.c, n) {
        Some(_) => true,
        None => false,
    }
}

/// What is asked of the non-virtual part of a class.
#[derive(Clone, Copy, Debug)]
pub enum PartQuestion {
    /// Whether it leaves a virtual pure function of a signature without an overrider.
    LeavesPure,
    /// Whether it declares a virtual function of a signature.
    DeclaresVirtual,
}

/// The answer for a signature, from those of the classes before.
fn part_answer(next: &NextClass, question: PartQuestion, n: usize) -> bool
    requires { IsNextClass (λ h. IsAnswered h question) next.now }
    ensures { TellsNext (λ h. IsAnswered h question) next.now n result }
{
    match question {
        PartQuestion::LeavesPure => leaves_pure(next, n),
        PartQuestion::DeclaresVirtual => has_virtual_within(next, n),
    }
}

/// The answers for all signatures.
fn part_row(alloc: Global, next: &NextClass, question: PartQuestion) -> Result<MarkRow, NoMemory>
    requires { IsNextClass (λ h. IsAnswered h question) next.now }
    ensures { IfOk result (IsMarkRow next.now.signatures.now.h.now (numbers_of next.now.signatures.now) next.now.signatures.now.numbering.now.count (IsAnswered next.now.signatures.now.h.now question next.now.c)) }
{
    let mut row = Sequence::new(alloc);
    for n in 0..next.signatures.numbering.count {
        put_mark(&mut row, n, part_answer(next, question, n))?;
    }
    let row = fitted(alloc, &row)?;
    Ok(row)
}

/// For each class the signatures of which its non-virtual part is as the question says.
pub fn part_rows(
    alloc: Global,
    signatures: &Signatures,
    question: PartQuestion,
) -> Result<Vec<MarkRow>, NoMemory>
    requires { AreSignatures signatures.now }
    ensures marks { IfOk result (λ rows. AreMarks signatures.now.h.now (numbers_of signatures.now) (IsAnswered signatures.now.h.now question) rows.items) }
    ensures size { IfOk result (λ rows. length rows.items ≡ length signatures.now.h.now) }
{
    let mut rows = Vec::new(alloc);
    for number in 0..signatures.h.len() {
        let next = NextClass {
            signatures: &*signatures,
            rows: &rows,
            c: ClassId(number),
        };
        let row = part_row(alloc, &next, question)?;
        rows.push(row)?;
    }
    Ok(rows)
}

/// Rows without a mark for so many classes.
fn blank_rows(alloc: Global, classes: u32) -> Result<Vec<MarkRow>, NoMemory>
    ensures blank { IfOk result (λ rows. (c : ClassId) (n : ℕ) → mark_of rows.items c n ≡ false) }
    ensures size { IfOk result (λ rows. length rows.items ≡ classes) }
{
    let mut rows = Vec::new(alloc);
    for _ in 0..classes {
        rows.push(Sequence::new(alloc))?;
    }
    Ok(rows)
}

/// For each class the signatures of which its non-virtual part leaves a virtual pure function without an overrider. Where
/// no function is pure, nothing more is looked at.
pub fn pure_rows(alloc: Global, signatures: &Signatures) -> Result<Vec<MarkRow>, NoMemory>
    requires { AreSignatures signatures.now }
    ensures marks { IfOk result (λ rows. AreMarks signatures.now.h.now (numbers_of signatures.now) (LeavesPure signatures.now.h.now) rows.items) }
    ensures size { IfOk result (λ rows. length rows.items ≡ length signatures.now.h.now) }
{
    if has_pure_function(signatures.h) {
        let rows = part_rows(alloc, signatures, PartQuestion::LeavesPure)?;
        Ok(rows)
    } else {
        let blank = blank_rows(alloc, signatures.h.len())?;
        Ok(blank)
    }
}

/// The numbers below a bound that the row of a class marks, in their order.
fn numbers_marked(
    alloc: Global,
    rows: &[MarkRow],
    c: ClassId,
    bound: usize,
) -> Result<NumberRow, NoMemory>
    ensures { IfOk result (ListsMarked (slice_index_or rows.now c.0 []) bound) }
{
    let mut list = Sequence::new(alloc);
    for n in 0..bound {
        if is_marked(rows, c, n) {
            list.push(n)?;
        }
    }
    Ok(list)
}

/// The same for all rows.
fn number_lists(
    alloc: Global,
    rows: &[MarkRow],
    classes: u32,
    bound: usize,
) -> Result<Vec<NumberRow>, NoMemory>
    ensures lists { IfOk result (λ lists. AreListed rows.now bound lists.items) }
    ensures size { IfOk result (λ lists. length lists.items ≡ classes) }
{
    let mut lists = Vec::new(alloc);
    for number in 0..classes {
        let list = numbers_marked(alloc, rows, ClassId(number), bound)?;
        lists.push(list)?;
    }
    Ok(lists)
}

/// For each class the numbers, in their order, of the signatures of which its non-virtual part declares a virtual
/// function.
pub fn within_lists(alloc: Global, signatures: &Signatures) -> Result<Vec<NumberRow>, NoMemory>
    requires { AreSignatures signatures.now }
    ensures lists { IfOk result (λ lists. AreWithin signatures.now.h.now (numbers_of signatures.now) signatures.now.numbering.now.count lists.items) }
    ensures size { IfOk result (λ lists. length lists.items ≡ length signatures.now.h.now) }
{
    let rows = part_rows(alloc, signatures, PartQuestion::DeclaresVirtual)?;
    let count = signatures.numbering.count;
    let lists = number_lists(alloc, &rows, signatures.h.len(), count)?;
    Ok(lists)
}
