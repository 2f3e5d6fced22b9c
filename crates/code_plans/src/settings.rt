//! How a virtual pointer is set: by which table, and at which place.

ghost use Rattle.std.specs.Prelude.{◌≡◌, ◌<◌, true, if◌then◌else◌, IfOk, length};
ghost use Rattle.cxx_hierarchy.specs.VirtualBases.{HasVirtualBase};
ghost use Rattle.cxx_subobject.specs.declared.Root.TheVariants.{Whole};
ghost use Rattle.cxx_subobject.specs.Subobjects.{IsSubobject, subobject};
ghost use Rattle.byte_code.specs.declared.op.PointSource.TheVariants.{Directory, Vtt};
ghost use Rattle.path_plan.specs.declared.form.Form.TheVariants.{AsBase, InFull};
ghost use Rattle.abi_slots.specs.Listing.{vbase_number};
ghost use Rattle.abi_slots.specs.Slots.{word_number};
ghost use Rattle.abi_vtt.specs.Vtts.{has_vtt};
ghost use Rattle.code_blocks.specs.Blocks.{point_distance, setting_by};
ghost use Rattle.code_plans.specs.PlanSites.{IsLaidPlanSite, IsPlanSiteAt, plan_places, plan_setup};
ghost use Rattle.code_plans.specs.invariants.Walks.{vtt_word_number};

use crate::plan_sites::PlanSite;
use crate::walks::Point;
use abi_sound::SoundLayout;
use abi_tables::has_virtual;
use byte_code::{PointSource, Setting, Whose};
use cxx_hierarchy::ClassId;
use cxx_subobject::listing::longer_path;
use cxx_subobject::{Root, Subobject};
use foundation::NoMemory;

/// Where the address point of a table comes from: the class's own group, or a word of its VTT.
fn source<L: SoundLayout>(site: &PlanSite<L>, c: ClassId, owner: Whose, number: u32) -> PointSource
    requires layout { L.lays_out site.now.layout.now site.now.h.now }
    requires known { c.0 < length site.now.h.now }
    ensures { result ≡ (if has_vtt site.now.h.now c then Vtt owner c.0 number else Directory c.0) }
{
    if has_virtual(site.h, site.layout, c) {
        PointSource::Vtt {
            owner,
            class: c.0,
            number,
        }
    } else {
        PointSource::Directory(c.0)
    }
}

/// The setting of a virtual pointer in a complete object.
pub(crate) fn full_setting<L: SoundLayout>(
    site: &PlanSite<L>,
    c: ClassId,
    s: &Subobject,
    point: Point,
) -> Setting
    requires layout { L.lays_out site.now.layout.now site.now.h.now }
    requires known { c.0 < length site.now.h.now }
    requires valid { IsSubobject site.now.h.now c s.now }
    requires distance { point.distance ≡ point_distance (plan_setup L.rows site.now) c s.now }
    requires number { has_vtt site.now.h.now c ≡ true → point.number ≡ vtt_word_number (plan_setup L.rows site.now) c s.now }
    ensures { result ≡ setting_by (plan_setup L.rows site.now) InFull c s.now s.now.root }
{
    Setting {
        source: source(site, c, Whose::Itself, point.number),
        distance: point.distance,
        place: site.layout.place(site.h, c, s),
        through: None,
    }
}

/// How many bytes a subobject lies behind its virtual base `v`.
///
/// Errors: want of memory.
fn place_behind<L: SoundLayout>(
    site: &PlanSite<L>,
    v: ClassId,
    s: &Subobject,
) -> Result<u32, NoMemory>
    requires layout { L.lays_out site.now.layout.now site.now.h.now }
    requires known { v.0 < length site.now.h.now }
    requires valid { IsSubobject site.now.h.now v (subobject Whole s.now.path) }
    ensures { IfOk result (λ place. place ≡ (plan_places L.rows site.now).place v (subobject Whole s.now.path)) }
{
    let path = longer_path(site.alloc, s.path.as_slice(), &[])?;
    let whole = Subobject {
        root: Root::Whole,
        path,
    };
    Ok(site.layout.place(site.h, v, &whole))
}

/// The number of the word that leads from an object of class `c` to its virtual base `v`.
fn vbase_word<L: SoundLayout>(site: &PlanSite<L>, c: ClassId, v: ClassId) -> i32
    requires site { IsPlanSiteAt L.rows site.now }
    requires base { HasVirtualBase site.now.h.now c v }
    ensures { result ≡ word_number (vbase_number site.now.h.now (plan_places L.rows site.now) c v) }
{
    site.slots.vbase(c, v)
}

/// The setting of a virtual pointer in a base: one that lies behind a virtual base is found by the word of that base.
///
/// Errors: want of memory.
pub(crate) fn base_setting<L: SoundLayout>(
    site: &PlanSite<L>,
    c: ClassId,
    s: &Subobject,
    point: Point,
) -> Result<Setting, NoMemory>
    requires site { IsLaidPlanSite L.lays_out L.rows site.now }
    requires known { c.0 < length site.now.h.now }
    requires valid { IsSubobject site.now.h.now c s.now }
    requires distance { point.distance ≡ point_distance (plan_setup L.rows site.now) c s.now }
    requires number { has_vtt site.now.h.now c ≡ true → point.number ≡ vtt_word_number (plan_setup L.rows site.now) c s.now }
    ensures { IfOk result (λ setting. setting ≡ setting_by (plan_setup L.rows site.now) AsBase c s.now s.now.root) }
{
    let source = source(site, c, Whose::Handed, point.number);
    match s.root {
        Root::Whole => Ok(Setting {
            source,
            distance: point.distance,
            place: site.layout.place(site.h, c, s),
            through: None,
        }),
        Root::Shared(v) => Ok(Setting {
            source,
            distance: point.distance,
            place: place_behind(site, v, s)?,
            through: Some(vbase_word(site, c, v)),
        }),
    }
}
