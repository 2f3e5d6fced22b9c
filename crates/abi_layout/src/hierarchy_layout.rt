//! The layout of a hierarchy.

ghost use Rattle.std.specs.Prelude.{◌≡◌, ◌<◌, ◌≤◌, ◌⊎◌, ℕ, IfOk, IfErr, List, length};
ghost use Rattle.cxx_hierarchy.specs.Classes.{Classes};
ghost use Rattle.cxx_hierarchy.specs.declared.records.ClassId.{ClassId};
ghost use Rattle.cxx_hierarchy.specs.declared.stop.Stop.{Stop};
ghost use Rattle.cxx_hierarchy.specs.Hierarchies.{IsHierarchy};
ghost use Rattle.abi_sound.specs.declared.class_layout.ClassLayout.{ClassLayout};
ghost use Rattle.abi_layout.specs.Layouts.{IsLaid};
ghost use Rattle.abi_layout.specs.Refusals.{IsLargeClass, HasSharedPlace, IsWellLaid, IsFirstStop};
ghost use Rattle.abi_layout.specs.AbiLayouts.{IsAbiLayout};

use crate::class_layout::AbiLayout;
use crate::class_layouts::lay_out_first;
use cxx_hierarchy::{Hierarchy, Stop};
use std::alloc::Global;

/// Lays out the classes of a hierarchy (Itanium C++ ABI 2.4).
///
/// Errors: of the first class, in order, that is refused: the limit L6 exactly where its size is above 500,000 bytes,
/// else the refusal SharedPlace exactly where a base of it brings one pair of class and place twice; want of memory.
pub fn lay_out(alloc: Global, h: &Hierarchy) -> Result<AbiLayout, Stop>
    ensures layout { IfOk result (IsAbiLayout h.now) }
    ensures stop { IfErr result (λ e. (e ≡ Stop.NoMemory) ⊎ IsFirstStop h.now (length h.now) e) }
{
    h.keeps();
    let layout = lay_out_first(alloc, h, h.len())?;
    Ok(layout)
}

/// At most one list of rows is the layout of a hierarchy.
pub fn one_layout()
    ensures { (h : Classes) → (rows others : List ClassLayout) → IsHierarchy h → IsLaid h rows → IsLaid h others → rows ≡ others }
{}

/// Each hierarchy has a layout, whatever the sizes.
pub fn some_layout()
    ensures { (h : Classes) → IsHierarchy h → (rows : List ClassLayout) × IsLaid h rows }
{}

/// Whether a class takes more than the limit of sizes, and whether a base of it brings one pair of class and place twice,
/// is decided, whatever the classes before it are. So the first classes of a hierarchy have a layout, or a first one that
/// is refused.
pub fn some_answer()
    ensures size { (h : Classes) → IsHierarchy h → (c : ClassId) → c.0 < length h → IsLargeClass h c ⊎ (IsLargeClass h c → ⊥) }
    ensures place { (h : Classes) → IsHierarchy h → (c : ClassId) → c.0 < length h → HasSharedPlace h c ⊎ (HasSharedPlace h c → ⊥) }
    ensures answer { (h : Classes) → (count : ℕ) → IsHierarchy h → count ≤ length h → ((rows : List ClassLayout) × IsWellLaid h count rows) ⊎ ((stop : Stop) × IsFirstStop h count stop) }
{}

/// Of the first classes of a hierarchy at most one is the first that is refused, in one way, and none where they are
/// laid out.
pub fn one_answer()
    ensures stop { (h : Classes) → (count : ℕ) → (first second : Stop) → IsHierarchy h → count ≤ length h → IsFirstStop h count first → IsFirstStop h count second → first ≡ second }
    ensures apart { (h : Classes) → (count : ℕ) → (rows : List ClassLayout) → (stop : Stop) → IsHierarchy h → count ≤ length h → IsWellLaid h count rows → IsFirstStop h count stop → ⊥ }
{}
