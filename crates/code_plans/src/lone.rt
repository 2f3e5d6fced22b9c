//! Classes of which no base is set apart: the virtual pointer of the whole is that of all dynamic bases.

ghost use Rattle.std.specs.Prelude.{◌≡◌, ◌<◌, true, IfOk, length};
ghost use Rattle.std.specs.List.{list_all};
ghost use Rattle.cxx_hierarchy.specs.declared.records.ClassId.{ClassId};
ghost use Rattle.cxx_hierarchy.specs.declared.records.Base.{Base};
ghost use Rattle.abi_primary.specs.Kinds.{TellDynamic};
ghost use Rattle.abi_sound.specs.Places.{places_of};
ghost use Rattle.code_plans.specs.ClassTables.{IsLone, TellLone};
ghost use Rattle.code_plans.specs.invariants.Joins.{joins};

use abi_primary::{Primary, flag_of};
use abi_sound::SoundLayout;
use abi_vtt::path_ends::is_direct;
use cxx_hierarchy::{Base, ClassId, Hierarchy};
use foundation::NoMemory;
use std::alloc::Global;

/// Whether nothing in a direct base is set apart, in a class with this primary base: the base is not dynamic, or it is the
/// primary base and none of its own bases is set apart.
fn joins(primary: Primary, dynamic: &[bool], lone: &[bool], base: &Base<ClassId>) -> bool
    ensures { result ≡ joins primary dynamic.now lone.now base.now }
{
    if base.is_virtual {
        return false;
    }
    if !flag_of(dynamic, base.class) {
        return true;
    }
    is_direct(primary, base.class) && flag_of(lone, base.class)
}

/// Whether nothing in these direct bases is set apart.
fn all_join(primary: Primary, dynamic: &[bool], lone: &[bool], bases: &[Base<ClassId>]) -> bool
    ensures { result ≡ list_all (λ (base : Base ClassId). joins primary dynamic.now lone.now base) bases.now }
{
    bases.iter().all(|base| joins(primary, dynamic, lone, base))
}

/// Whether it is found, by the flags of the classes before it, that no base of a class is set apart.
fn is_lone<L: SoundLayout>(
    h: &Hierarchy,
    layout: &L,
    dynamic: &[bool],
    lone: &[bool],
    c: ClassId,
) -> bool
    requires layout { L.lays_out layout.now h.now }
    requires known { c.0 < length h.now }
    requires dynamic { TellDynamic h.now dynamic.now }
    requires lone { TellLone h.now (places_of h.now (L.rows layout.now)) lone.now }
    ensures { result ≡ true → IsLone h.now (places_of h.now (L.rows layout.now)) c }
{
    h.keeps();
    let bases = h.class(c).bases.as_slice();
    all_join(layout.layout(c).primary, dynamic, lone, bases)
}

/// For each class whether it is found that no base of it is set apart.
///
/// Errors: want of memory.
pub(crate) fn lone_flags<L: SoundLayout>(
    alloc: Global,
    h: &Hierarchy,
    layout: &L,
    dynamic: &[bool],
) -> Result<Vec<bool>, NoMemory>
    requires layout { L.lays_out layout.now h.now }
    requires dynamic { TellDynamic h.now dynamic.now }
    ensures { IfOk result (λ flags. TellLone h.now (places_of h.now (L.rows layout.now)) flags.items) }
{
    let mut flags = Vec::new(alloc);
    for n in 0..h.len() {
        let flag = is_lone(h, layout, dynamic, &flags, ClassId(n));
        flags.push(flag)?;
    }
    Ok(flags)
}
