//! Which classes are bases of which, and how often.

ghost use Rattle.std.specs.Prelude.{◌≡◌, ◌<◌, ◌≤◌, [], length, take, IfOk, Contains};
ghost use Rattle.cxx_hierarchy.specs.declared.records.ClassId.{ClassId};
ghost use Rattle.cxx_hierarchy.specs.declared.records.Base.{Base};
ghost use Rattle.cxx_hierarchy.specs.Classes.{bases_of};
ghost use Rattle.cxx_overrider.specs.invariants.Kinds.{Counts, IsPartThrough, AreKinds, IsKindRow, IsMerged, kind_of, lifted_kind};

use crate::places::{Place, lifted};
use cxx_hierarchy::{Base, ClassId, Hierarchy};
use foundation::{NoMemory, Sequence};
use std::alloc::Global;

/// How often a class is among another one and its bases: never, once and where, or more than once.
#[derive(Clone, Copy, Debug, PartialEq, Eq)]
pub enum BaseKind {
    NotBase,
    Unique(Place),
    Ambiguous,
}

/// For the classes in their order how often each is among the class and its bases.
pub type KindRow = Sequence<BaseKind>;

/// How often `d` is among `c` and its bases.
pub fn kind_of(rows: &[KindRow], c: ClassId, d: ClassId) -> BaseKind
    ensures { result ≡ kind_of rows.now c d }
{
    match rows.get(c.0 as usize) {
        Some(row) => row
            .as_slice()
            .get(d.0 as usize)
            .copied()
            .unwrap_or(BaseKind::NotBase),
        None => BaseKind::NotBase,
    }
}

/// The kind where some subobjects count as one kind says, and those of one more direct base as the other.
fn merged(so_far: BaseKind, more: BaseKind) -> BaseKind
    ensures { IsMerged so_far more result }
{
    match so_far {
        BaseKind::NotBase => more,
        BaseKind::Ambiguous => BaseKind::Ambiguous,
        BaseKind::Unique(place) => match more {
            BaseKind::NotBase => so_far,
            BaseKind::Ambiguous => BaseKind::Ambiguous,
            BaseKind::Unique(other) => {
                if place == other {
                    so_far
                } else {
                    BaseKind::Ambiguous
                }
            }
        },
    }
}

/// The kind of the same subobjects in a class that has the base.
fn lifted_kind(base: &Base<ClassId>, kind: BaseKind) -> BaseKind
    ensures { result ≡ lifted_kind base.now kind }
{
    match kind {
        BaseKind::NotBase => BaseKind::NotBase,
        BaseKind::Unique(place) => BaseKind::Unique(lifted(base, place)),
        BaseKind::Ambiguous => BaseKind::Ambiguous,
    }
}

/// How often `d` is among the direct bases of `c` and their bases.
fn kind_through(h: &Hierarchy, rows: &[KindRow], c: ClassId, d: ClassId) -> BaseKind
    requires known { c.0 < length h.now }
    requires rows { AreKinds h.now rows.now }
    requires size { length rows.now ≡ c.0 }
    ensures { Counts (IsPartThrough h.now c d (length (bases_of h.now c))) result }
{
    h.keeps();
    let mut kind = BaseKind::NotBase;
    for base in h.class(c).bases.as_slice() {
        kind = merged(kind, lifted_kind(base, kind_of(rows, base.class, d)));
    }
    kind
}

/// The row of a class, behind the rows of the classes before it.
fn kind_row(alloc: Global, h: &Hierarchy, rows: &[KindRow], c: ClassId) -> Result<KindRow, NoMemory>
    requires known { c.0 < length h.now }
    requires rows { AreKinds h.now rows.now }
    requires size { length rows.now ≡ c.0 }
    ensures { IfOk result (IsKindRow h.now c) }
{
    h.keeps();
    let mut row = Sequence::from_vec(Vec::with_capacity(alloc, c.0 as usize + 1)?);
    for number in 0..c.0 {
        row.push(kind_through(h, rows, c, ClassId(number)))?;
    }
    row.push(BaseKind::Unique(Place::Itself))?;
    Ok(row)
}

/// For all classes how often each is among the others and their bases.
pub fn kind_rows(alloc: Global, h: &Hierarchy) -> Result<Vec<KindRow>, NoMemory>
    ensures rows { IfOk result (λ rows. AreKinds h.now rows.items) }
    ensures size { IfOk result (λ rows. length rows.items ≡ length h.now) }
{
    h.keeps();
    let mut rows = Vec::new(alloc);
    for number in 0..h.len() {
        let row = kind_row(alloc, h, &rows, ClassId(number))?;
        rows.push(row)?;
    }
    Ok(rows)
}
