//! The layout of the first classes of a hierarchy (Itanium C++ ABI 2.4).

ghost use Rattle.std.specs.Prelude.{◌≡◌, ◌+◌, ◌<◌, ◌≤◌, ◌⊎◌, ◌↔◌, IfOk, IfErr, OnOk, IsTrue, length};
ghost use Rattle.std.specs.List.{list_any};
ghost use Rattle.cxx_hierarchy.specs.Classes.{Classes};
ghost use Rattle.cxx_subobject.specs.Preorder.{preorder};
ghost use Rattle.abi_primary.specs.Kinds.{IsDynamic, TellDynamic};
ghost use Rattle.abi_primary.specs.NearlyEmpty.{IsNearlyEmpty};
ghost use Rattle.abi_layout.specs.Refusals.{IsWellLaid, StopsLayout, IsFirstStop};
ghost use Rattle.abi_layout.specs.invariants.LaidSoFar.{IsLaidSoFar, is_shifted_base};

use crate::class_layout::AbiLayout;
use crate::component::PartList;
use crate::keeping::kept;
use crate::known::Known;
use crate::laid_row::{ClassFacts, NextClass, lay_out_class};
use crate::shifted::is_shifted;
use abi_primary::{
    Primary, dynamic_flags, flag_of, is_nearly_empty, list_if_virtual, primary_among,
};
use abi_sound::ClassLayout;
use cxx_hierarchy::{ClassId, Hierarchy, Stop};
use std::alloc::Global;

/// The first classes of a hierarchy, as far as they are laid out: their rows, what else is known of them, what their
/// members bring, which of them are nearly empty, and their primary bases.
#[derive(Drop)]
pub struct LaidSoFar {
    pub rows: Vec<ClassLayout>,
    pub known: Vec<Known>,
    pub members: Vec<PartList>,
    pub nearly: Vec<bool>,
    pub primaries: Vec<Primary>,
}

/// No class.
fn none_laid(alloc: Global) -> LaidSoFar
    ensures { (h : Classes) → IsLaidSoFar h 0 result.rows.items result.known.items result.members.items result.nearly.items result.primaries.items }
{
    LaidSoFar {
        rows: Vec::new(alloc),
        known: Vec::new(alloc),
        members: Vec::new(alloc),
        nearly: Vec::new(alloc),
        primaries: Vec::new(alloc),
    }
}

/// Whether a class has a virtual pointer of its own: it is dynamic and has no primary base.
fn has_pointer(dynamic: &[bool], c: ClassId, primary: Primary) -> bool
    ensures { (h : Classes) → TellDynamic h dynamic.now → c.0 < length h → IsTrue result ↔ (IsDynamic h c × (primary ≡ Primary.None)) }
{
    match primary {
        Primary::None => flag_of(dynamic, c),
        Primary::Direct(_) | Primary::Virtual(_) => false,
    }
}

/// Whether a class that has its row is nearly empty. The places of its bases are looked at only where all else is so.
fn is_nearly(
    h: &Hierarchy,
    c: ClassId,
    dynamic: &[bool],
    nearly: &[bool],
    rows: &[ClassLayout],
    known: &[Known],
) -> bool
    requires class { c.0 < length h.now }
    requires dynamic { TellDynamic h.now dynamic.now }
    requires before { c.0 ≤ length nearly.now }
    requires row { c.0 < length rows.now }
    ensures { IsTrue result ↔ IsNearlyEmpty h.now nearly.now (list_any (is_shifted_base h.now rows.now known.now) (preorder h.now c)) c }
{
    if !is_nearly_empty(h, c, dynamic, nearly, false) {
        return false;
    }
    !is_shifted(h, rows, known, c)
}

/// Lays out one class more.
///
/// Errors: the limit L6 exactly where the size of the class is above 500,000 bytes; else the refusal SharedPlace
/// exactly where a base brings one pair of class and place twice; want of memory.
fn lay_out_next(
    alloc: Global,
    h: &Hierarchy,
    c: ClassId,
    dynamic: &[bool],
    so_far: &mut LaidSoFar,
) -> Result<(), Stop>
    requires known { c.0 < length h.now }
    requires dynamic { TellDynamic h.now dynamic.now }
    requires laid { IsLaidSoFar h.now c.0 so_far.old.rows.items so_far.old.known.items so_far.old.members.items so_far.old.nearly.items so_far.old.primaries.items }
    ensures laid { OnOk result (IsLaidSoFar h.now (c.0 + 1) so_far.new.rows.items so_far.new.known.items so_far.new.members.items so_far.new.nearly.items so_far.new.primaries.items) }
    ensures stop { IfErr result (λ e. (e ≡ Stop.NoMemory) ⊎ StopsLayout h.now c e) }
{
    h.keeps();
    let list = list_if_virtual(alloc, h, c)?;
    let earlier = &so_far.primaries;
    let primary = primary_among(h, c, dynamic, &so_far.nearly, earlier, list.as_slice());
    let has_pointer = has_pointer(dynamic, c, primary);
    so_far.primaries.push(primary)?;
    let next = NextClass {
        c,
        class: h.class(c),
        primary,
        has_pointer,
        list: list.as_slice(),
        known: &so_far.known,
        members: &so_far.members,
        primaries: &so_far.primaries,
    };
    let ClassFacts { known, members } = lay_out_class(alloc, h, &next, &mut so_far.rows)?;
    so_far.known.push(kept(alloc, h, c, known))?;
    so_far.members.push(members)?;
    let is_nearly = is_nearly(h, c, dynamic, &so_far.nearly, &so_far.rows, &so_far.known);
    so_far.nearly.push(is_nearly)?;
    Ok(())
}

/// Lays out the first classes of a hierarchy, as many as are asked for (Itanium C++ ABI 2.4).
///
/// Errors: of the first class, in order, for which one of the two holds: the limit L6 exactly where its size is above
/// 500,000 bytes, else the refusal SharedPlace exactly where a base of it brings one pair of class and place twice;
/// want of memory.
pub fn lay_out_first(alloc: Global, h: &Hierarchy, count: u32) -> Result<AbiLayout, Stop>
    requires { count ≤ length h.now }
    ensures laid { IfOk result (λ l. IsWellLaid h.now count l) }
    ensures stop { IfErr result (λ e. (e ≡ Stop.NoMemory) ⊎ IsFirstStop h.now count e) }
{
    let dynamic = dynamic_flags(alloc, h)?;
    let mut so_far = none_laid(alloc);
    for n in 0..count {
        lay_out_next(alloc, h, ClassId(n), &dynamic, &mut so_far)?;
    }
    let LaidSoFar {
        rows,
        known: _,
        members: _,
        nearly: _,
        primaries: _,
    } = so_far;
    Ok(AbiLayout::from_rows(rows))
}
