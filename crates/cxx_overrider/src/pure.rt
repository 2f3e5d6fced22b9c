//! Whether the non-virtual part of a class leaves a pure function without an overrider.

ghost use Rattle.std.specs.Prelude.{◌≡◌, ◌<◌, ◌↔◌, ℕ, true, false, IsTrue, Some, length, slice_get};
ghost use Rattle.cxx_hierarchy.specs.declared.records.ClassId.{ClassId};
ghost use Rattle.cxx_hierarchy.specs.declared.records.Function.{Function};
ghost use Rattle.cxx_overrider.specs.declared.FunctionId.{FunctionId};
ghost use Rattle.cxx_overrider.specs.Functions.{is_pure};
ghost use Rattle.cxx_overrider.specs.invariants.Marks.{mark_of, HasMarkedPart};
ghost use Rattle.cxx_overrider.specs.invariants.Parts.{IsNextClass, TellsNext};
ghost use Rattle.cxx_overrider.specs.invariants.Pure.{LeavesPure};

use crate::FunctionId;
use crate::parts::NextClass;
use crate::signatures::{declaration, own_function};
use crate::virtuals::{MarkRow, is_marked};
use cxx_hierarchy::{ClassId, Function, Hierarchy};

/// Whether the declaration ends in `= 0`.
pub fn is_pure(h: &Hierarchy, f: FunctionId) -> bool
    requires { f.class.0 < length h.now }
    ensures { result ≡ is_pure h.now f }
{
    match declaration(h, f) {
        Some(function) => function.is_pure,
        None => false,
    }
}

/// Whether one of the functions is pure.
fn has_pure(functions: &[Function<ClassId>]) -> bool
    ensures { result ≡ false → (i : ℕ) (f : Function ClassId) → slice_get functions.now i ≡ Some f → f.is_pure ≡ false }
{
    for function in functions {
        if function.is_pure {
            return true;
        }
    }
    false
}

/// Whether any function of the hierarchy is pure.
pub fn has_pure_function(h: &Hierarchy) -> bool
    ensures { result ≡ false → (f : FunctionId) → f.class.0 < length h.now → is_pure h.now f ≡ false }
{
    for number in 0..h.len() {
        if has_pure(h.class(ClassId(number)).functions.as_slice()) {
            return true;
        }
    }
    false
}

/// Whether a direct non-virtual base has the mark.
pub fn has_marked_part(h: &Hierarchy, rows: &[MarkRow], c: ClassId, n: usize) -> bool
    requires { c.0 < length h.now }
    ensures { IsTrue result ↔ HasMarkedPart h.now rows.now c n }
{
    for base in h.class(c).bases.as_slice() {
        if !base.is_virtual && is_marked(rows, base.class, n) {
            return true;
        }
    }
    false
}

/// Whether a function is pure, and its number marked in its class.
fn is_marked_pure(h: &Hierarchy, virtuals: &[MarkRow], f: FunctionId, n: usize) -> bool
    requires { f.class.0 < length h.now }
    ensures { IsTrue result ↔ ((is_pure h.now f ≡ true) × (mark_of virtuals.now f.class n ≡ true)) }
{
    is_pure(h, f) && is_marked(virtuals, f.class, n)
}

/// Whether a virtual pure function of the signature stands first on some path of non-virtual bases.
pub fn leaves_pure(next: &NextClass, n: usize) -> bool
    requires { IsNextClass LeavesPure next.now }
    ensures { TellsNext LeavesPure next.now n result }
{
    let signatures = next.signatures;
    signatures.h.keeps();
    if !is_marked(signatures.virtuals, next.c, n) {
        return false;
    }
    match own_function(&signatures.numbering.rows, next.c, n) {
        Some(f) => is_marked_pure(signatures.h, signatures.virtuals, f, n),
        None => has_marked_part(signatures.h, next.rows, next.c, n),
    }
}
