//! The subobjects of a class, and which of them have a virtual pointer of their own.

ghost use Rattle.std.specs.Prelude.{◌≡◌, ◌<◌, true, All, Some, length};
ghost use Rattle.cxx_hierarchy.specs.declared.records.ClassId.{ClassId};
ghost use Rattle.cxx_subobject.specs.Subobjects.{class_of};
ghost use Rattle.abi_vtt.specs.Vtts.{needs_word};
ghost use Rattle.code_blocks.specs.Blocks.{is_set_apart};
ghost use Rattle.code_plans.specs.PlanSites.{IsLaidPlanSite, plan_places, plan_setup};

use crate::plan_sites::PlanSite;
use abi_sound::SoundLayout;
use abi_tables::{has_virtual, is_dynamic_by};
use abi_vtt::path_ends::{ends_in_primary, is_proper, is_shared};
use cxx_hierarchy::ClassId;
use cxx_subobject::{Subobject, class_of};

/// The class of a subobject.
pub(crate) fn class_at(s: &Subobject) -> ClassId
    requires { (d : ClassId) × (class_of s.now ≡ Some d) }
    ensures { class_of s.now ≡ Some result }
{
    match class_of(s) {
        Some(class) => class,
        None => unreachable!(),
    }
}

/// Whether a subobject of class `d` has a virtual pointer that no other one sets: it is dynamic, and not the non-virtual primary
/// base of the subobject that directly derives it.
pub(crate) fn is_set_apart<L: SoundLayout>(site: &PlanSite<L>, s: &Subobject, d: ClassId) -> bool
    requires site { IsLaidPlanSite L.lays_out L.rows site.now }
    requires class { class_of s.now ≡ Some d }
    requires known { d.0 < length site.now.h.now }
    requires path { All (λ (c : ClassId). c.0 < length site.now.h.now) s.now.path }
    ensures { result ≡ is_set_apart (plan_setup L.rows site.now) s.now }
{
    if !is_dynamic_by(site.h, site.tables.dynamic.as_slice(), d) {
        return false;
    }
    !ends_in_primary(site.h, site.layout, s.path.as_slice())
}

/// Whether a subobject of class `d` that is set apart has a word in the sub-VTT: a base that has virtual bases or lies below one
/// (Itanium C++ ABI 2.6.2).
pub(crate) fn needs_word<L: SoundLayout>(site: &PlanSite<L>, s: &Subobject, d: ClassId) -> bool
    requires layout { L.lays_out site.now.layout.now site.now.h.now }
    requires class { class_of s.now ≡ Some d }
    requires known { d.0 < length site.now.h.now }
    requires apart { is_set_apart (plan_setup L.rows site.now) s.now ≡ true }
    ensures { result ≡ needs_word site.now.h.now (plan_places L.rows site.now) s.now }
{
    if !is_proper(s) {
        return false;
    }
    has_virtual(site.h, site.layout, d) || is_shared(s.root)
}
