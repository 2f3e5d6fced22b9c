//! What the frames of bases are handed (Itanium C++ ABI 2.6.2).

ghost use Rattle.std.specs.Prelude.{◌≡◌, ◌<◌, false, true, if◌then◌else◌, None, Some, length};
ghost use Rattle.cxx_hierarchy.specs.VirtualBases.{HasVirtualBase, IsDirectBase};
ghost use Rattle.abi_vtt.specs.Blocks.{block_distance, shared_distance as shared_distance_of};
ghost use Rattle.abi_vtt.specs.Vtts.{has_vtt};
ghost use Rattle.code_blocks.specs.Blocks.{whose_of};
ghost use Rattle.code_plans.specs.PlanSites.{IsLaidPlanSite, plan_places};

use crate::lengths::{base_before, length_at, shared_before};
use crate::plan_sites::PlanSite;
use abi_sound::SoundLayout;
use abi_tables::has_virtual;
use byte_code::Whose;
use cxx_hierarchy::ClassId;
use path_plan::Form;

/// Whose complete object a plan works in.
pub(crate) fn whose(form: Form) -> Whose
    ensures { result ≡ whose_of form }
{
    match form {
        Form::InFull => Whose::Itself,
        Form::AsBase => Whose::Handed,
    }
}

/// How many words behind the sub-VTT of class `c` that of its direct base `b` begins (Itanium C++ ABI 2.6.2).
fn base_distance<L: SoundLayout>(site: &PlanSite<L>, c: ClassId, b: ClassId) -> u32
    requires site { IsLaidPlanSite L.lays_out L.rows site.now }
    requires known { c.0 < length site.now.h.now }
    requires base { IsDirectBase site.now.h.now c false b }
    ensures { has_vtt site.now.h.now b ≡ true → result ≡ block_distance site.now.h.now (plan_places L.rows site.now) c b }
{
    site.h.keeps();
    let bases = site.h.class(c).bases.as_slice();
    // a cut is never met: the words of all classes are few, by `few_words` of the site
    base_before(site.h, site.layout, site.tables.blocks.as_slice(), b, bases).saturating_add(1)
}

/// At which word of the VTT of class `c` the sub-VTT of its virtual base `v` begins (Itanium C++ ABI 2.6.2).
fn shared_distance<L: SoundLayout>(site: &PlanSite<L>, c: ClassId, v: ClassId) -> u32
    requires site { IsLaidPlanSite L.lays_out L.rows site.now }
    requires known { c.0 < length site.now.h.now }
    requires base { HasVirtualBase site.now.h.now c v }
    ensures { has_vtt site.now.h.now v ≡ true → result ≡ shared_distance_of site.now.h.now (plan_places L.rows site.now) c v }
{
    site.h.keeps();
    let blocks = site.tables.blocks.as_slice();
    let bases = site.layout.layout(c).virtual_bases.as_slice();
    let before = shared_before(site.h, site.layout, blocks, v, bases);
    // a cut is never met: the words of all classes are few, by `few_words` of the site
    length_at(blocks, c).saturating_add(before)
}

/// How many words behind the sub-VTT of class `c` that of its direct base `b` begins, where `b` has virtual bases.
pub(crate) fn base_vtt<L: SoundLayout>(site: &PlanSite<L>, c: ClassId, b: ClassId) -> Option<u32>
    requires site { IsLaidPlanSite L.lays_out L.rows site.now }
    requires known { c.0 < length site.now.h.now }
    requires base { IsDirectBase site.now.h.now c false b }
    ensures { result ≡ (if has_vtt site.now.h.now b then Some (block_distance site.now.h.now (plan_places L.rows site.now) c b) else None) }
{
    site.h.keeps();
    if has_virtual(site.h, site.layout, b) {
        Some(base_distance(site, c, b))
    } else {
        None
    }
}

/// At which word of the VTT of class `c` the sub-VTT of its virtual base `v` begins, where `v` has virtual bases.
pub(crate) fn shared_vtt<L: SoundLayout>(site: &PlanSite<L>, c: ClassId, v: ClassId) -> Option<u32>
    requires site { IsLaidPlanSite L.lays_out L.rows site.now }
    requires known { c.0 < length site.now.h.now }
    requires base { HasVirtualBase site.now.h.now c v }
    ensures { result ≡ (if has_vtt site.now.h.now v then Some (shared_distance_of site.now.h.now (plan_places L.rows site.now) c v) else None) }
{
    site.h.keeps();
    if has_virtual(site.h, site.layout, v) {
        Some(shared_distance(site, c, v))
    } else {
        None
    }
}
