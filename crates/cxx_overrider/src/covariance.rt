//! Whether the return of a function fits those of the functions that it overrides (ISO C++03 10.3 p5).

ghost use Rattle.std.specs.Prelude.{◌≡◌, ◌<◌, ◌↔◌, ℕ, true, IsTrue, Some, MatchOption, length};
ghost use Rattle.cxx_hierarchy.specs.declared.records.ClassId.{ClassId};
ghost use Rattle.cxx_overrider.specs.declared.FunctionId.{FunctionId};
ghost use Rattle.cxx_overrider.specs.Overriding.{HasPart};
ghost use Rattle.cxx_overrider.specs.invariants.Numbers.{number_of};
ghost use Rattle.cxx_overrider.specs.invariants.Kinds.{AreKinds};
ghost use Rattle.cxx_overrider.specs.invariants.Tables.{AreTables};
ghost use Rattle.cxx_overrider.specs.Covariance.{pointer_to, IsCovariant, IsAmbiguousBase, Overrides};
ghost use Rattle.cxx_overrider.specs.invariants.ReturnFlags.{merged_faults, AreFaultsBetween, AreFaults, HasFineReturn, IsReturnFault};

use crate::FunctionId;
use crate::kinds::{BaseKind, KindRow, kind_of};
use crate::signatures::{declaration, number_of, own_function};
use crate::tables::Tables;
use crate::virtuals::{has_marked_base, is_marked};
use cxx_hierarchy::{ClassId, Hierarchy, ReturnType, Rule, ValueType};

/// How a return fails to fit the returns of overridden functions.
#[derive(Clone, Copy, Debug, PartialEq, Eq)]
pub struct ReturnFaults {
    pub mismatch: bool,
    pub incomplete: bool,
    pub ambiguous: bool,
}

const NO_FAULTS: ReturnFaults = ReturnFaults {
    mismatch: false,
    incomplete: false,
    ambiguous: false,
};

/// Two classes of which pointers are returned, the overriding function's and the overridden one's.
#[derive(Clone, Copy, Debug)]
pub struct Covariant {
    pub derived: ClassId,
    pub base: ClassId,
}

/// The class that a return points to.
fn pointee(t: &ReturnType<ClassId>) -> Option<ClassId>
    ensures { MatchOption result ((x : ClassId) → t.now ≡ pointer_to x → ⊥) (λ x. t.now ≡ pointer_to x) }
{
    match t {
        ReturnType::Void => None,
        ReturnType::Value(value) => match value {
            ValueType::Number(_) => None,
            ValueType::Pointer(class) => Some(*class),
        },
    }
}

fn is_same_type(a: &ValueType<ClassId>, b: &ValueType<ClassId>) -> bool
    ensures { IsTrue result ↔ (a.now ≡ b.now) }
{
    match a {
        ValueType::Number(a) => match b {
            ValueType::Number(b) => *a == *b,
            ValueType::Pointer(_) => false,
        },
        ValueType::Pointer(a) => match b {
            ValueType::Number(_) => false,
            ValueType::Pointer(b) => *a == *b,
        },
    }
}

fn is_same_return(t: &ReturnType<ClassId>, u: &ReturnType<ClassId>) -> bool
    ensures { IsTrue result ↔ (t.now ≡ u.now) }
{
    match t {
        ReturnType::Void => match u {
            ReturnType::Void => true,
            ReturnType::Value(_) => false,
        },
        ReturnType::Value(a) => match u {
            ReturnType::Void => false,
            ReturnType::Value(b) => is_same_type(a, b),
        },
    }
}

/// Whether a class is another one, or a base of it, direct or not.
pub fn is_part(h: &Hierarchy, kinds: &[KindRow], c: ClassId, d: ClassId) -> bool
    requires kinds { AreKinds h.now kinds.now }
    requires known { c.0 < length kinds.now }
    ensures { IsTrue result ↔ HasPart h.now c d }
{
    h.keeps();
    match kind_of(kinds, c, d) {
        BaseKind::NotBase => false,
        BaseKind::Unique(_) => true,
        BaseKind::Ambiguous => true,
    }
}

/// Whether a class has another one as a base more than once.
fn is_ambiguous_base(h: &Hierarchy, kinds: &[KindRow], c: ClassId, d: ClassId) -> bool
    requires kinds { AreKinds h.now kinds.now }
    requires known { c.0 < length kinds.now }
    ensures { IsTrue result ↔ IsAmbiguousBase h.now c d }
{
    h.keeps();
    match kind_of(kinds, c, d) {
        BaseKind::NotBase => false,
        BaseKind::Unique(_) => false,
        BaseKind::Ambiguous => true,
    }
}

/// The classes of two returns, where the one points to a class and the other to a proper base of it.
fn covariant_classes(
    h: &Hierarchy,
    kinds: &[KindRow],
    t: &ReturnType<ClassId>,
    u: &ReturnType<ClassId>,
) -> Option<Covariant>
    requires kinds { AreKinds h.now kinds.now }
    requires known { (x : ClassId) → t.now ≡ pointer_to x → x.0 < length kinds.now }
    ensures { MatchOption result ((x y : ClassId) → IsCovariant h.now t.now u.now x y → ⊥) (λ pair. IsCovariant h.now t.now u.now pair.derived pair.base) }
{
    let derived = match pointee(t) {
        Some(derived) => derived,
        None => return None,
    };
    let base = match pointee(u) {
        Some(base) => base,
        None => return None,
    };
    if derived == base {
        return None;
    }
    if is_part(h, kinds, derived, base) {
        Some(Covariant { derived, base })
    } else {
        None
    }
}

/// How the return of a function of a class fails to fit an overridden one.
fn faults_between(
    h: &Hierarchy,
    kinds: &[KindRow],
    c: ClassId,
    t: &ReturnType<ClassId>,
    u: &ReturnType<ClassId>,
) -> ReturnFaults
    requires kinds { AreKinds h.now kinds.now }
    requires known { (x : ClassId) → t.now ≡ pointer_to x → x.0 < length kinds.now }
    ensures { AreFaultsBetween h.now c t.now u.now result }
{
    match covariant_classes(h, kinds, t, u) {
        Some(pair) => ReturnFaults {
            mismatch: false,
            incomplete: c.0 < pair.derived.0,
            ambiguous: is_ambiguous_base(h, kinds, pair.derived, pair.base),
        },
        None => ReturnFaults {
            mismatch: !is_same_return(t, u),
            incomplete: false,
            ambiguous: false,
        },
    }
}

/// The function of a class that a function overrides.
fn overridden(
    h: &Hierarchy,
    tables: &Tables,
    f: FunctionId,
    n: usize,
    d: ClassId,
) -> Option<FunctionId>
    requires tables { AreTables h.now tables.now }
    requires known { f.class.0 < length h.now }
    requires number { number_of tables.now.numbering.rows.items f ≡ Some n }
    requires before { d.0 < f.class.0 }
    ensures { MatchOption result ((g : FunctionId) → g.class ≡ d → Overrides h.now f g → ⊥) (λ g. (g.class ≡ d) × Overrides h.now f g) }
{
    h.keeps();
    if !is_marked(&tables.virtuals, d, n) {
        return None;
    }
    if !is_part(h, &tables.kinds, f.class, d) {
        return None;
    }
    own_function(&tables.numbering.rows, d, n)
}

/// How the return of a function fails to fit that of the function of a class that it overrides.
fn faults_with(h: &Hierarchy, tables: &Tables, f: FunctionId, n: usize, d: ClassId) -> ReturnFaults
    requires tables { AreTables h.now tables.now }
    requires known { f.class.0 < length h.now }
    requires number { number_of tables.now.numbering.rows.items f ≡ Some n }
    requires before { d.0 < f.class.0 }
    ensures { AreFaults h.now f (λ x. x ≡ d) result }
{
    h.keeps();
    let g = match overridden(h, tables, f, n, d) {
        Some(g) => g,
        None => return NO_FAULTS,
    };
    match declaration(h, f) {
        None => NO_FAULTS,
        Some(a) => match declaration(h, g) {
            None => NO_FAULTS,
            Some(b) => faults_between(h, &tables.kinds, f.class, &a.ret, &b.ret),
        },
    }
}

fn merged(a: ReturnFaults, b: ReturnFaults) -> ReturnFaults
    ensures { result ≡ merged_faults a b }
{
    ReturnFaults {
        mismatch: a.mismatch | b.mismatch,
        incomplete: a.incomplete | b.incomplete,
        ambiguous: a.ambiguous | b.ambiguous,
    }
}

/// How the return of a function fails to fit those of all functions that it overrides.
fn all_faults(h: &Hierarchy, tables: &Tables, f: FunctionId, n: usize) -> ReturnFaults
    requires tables { AreTables h.now tables.now }
    requires known { f.class.0 < length h.now }
    requires number { number_of tables.now.numbering.rows.items f ≡ Some n }
    ensures { AreFaults h.now f (λ x. x.0 < f.class.0) result }
{
    h.keeps();
    if !has_marked_base(h, &tables.virtuals, f.class, n) {
        return NO_FAULTS;
    }
    let mut faults = NO_FAULTS;
    for number in 0..f.class.0 {
        faults = merged(faults, faults_with(h, tables, f, n, ClassId(number)));
    }
    faults
}

/// The rule that refuses the return of a function, by the returns of all functions that it overrides, direct or
/// not: first a mismatch with any of them, then a return class that is not complete, then an ambiguous base.
pub fn return_fault(h: &Hierarchy, tables: &Tables, f: FunctionId) -> Option<Rule>
    requires tables { AreTables h.now tables.now }
    requires known { f.class.0 < length h.now }
    ensures { MatchOption result (HasFineReturn h.now f) (IsReturnFault h.now f) }
{
    h.keeps();
    let n = match number_of(&tables.numbering.rows, f) {
        Some(n) => n,
        None => return None,
    };
    let faults = all_faults(h, tables, f, n);
    if faults.mismatch {
        return Some(Rule::ReturnMismatch);
    }
    if faults.incomplete {
        return Some(Rule::IncompleteClass);
    }
    if faults.ambiguous {
        return Some(Rule::AmbiguousCovariant);
    }
    None
}
