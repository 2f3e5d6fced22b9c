//! The walk over the subobjects of a class that finds the tables of its virtual pointers (Itanium C++ ABI 2.6.2).

ghost use Rattle.std.specs.Prelude.{◌≡◌, ◌≤◌, ◌<◌, ◌+◌, ◌-◌, ◌*◌, ◌++◌, ◌∷◌, [], true, if◌then◌else◌, List, Some, length};
ghost use Rattle.cxx_hierarchy.specs.declared.records.ClassId.{ClassId};
ghost use Rattle.cxx_subobject.specs.declared.Subobject.{Subobject};
ghost use Rattle.cxx_subobject.specs.Subobjects.{class_of};
ghost use Rattle.abi_slots.specs.Limits.{most_offsets};
ghost use Rattle.abi_vtt.specs.Blocks.{before_by_class, words_by_class};
ghost use Rattle.abi_vtt.specs.Vtts.{has_vtt};
ghost use Rattle.code_blocks.specs.Blocks.{is_set_apart, point_distance};
ghost use Rattle.code_plans.specs.PlanSites.{IsLaidPlanSite, IsPlanSiteAt, plan_places, plan_setup};
ghost use Rattle.code_plans.specs.invariants.Walks.{IsAtPart, IsPast, capped_count, first_words_or, vtt_word_number};

use crate::lengths::base_sum;
use crate::parts::needs_word;
use crate::plan_sites::PlanSite;
use abi_sound::SoundLayout;
use cxx_hierarchy::ClassId;
use cxx_subobject::{Root, Subobject};

/// Where the walk over the subobjects of a class stands: the words of the tables that come first in a group, as far as it has
/// come; how many words stand before the first of their address points; and the number of the next word of the sub-VTT. Numbers
/// grow no further than 32 bits.
#[derive(Clone, Copy)]
pub(crate) struct Walk {
    pub(crate) words: u32,
    pub(crate) first: Option<u32>,
    pub(crate) item: u32,
}

/// Where the table of a subobject is found: the number of a word of the sub-VTT, and how many bytes behind the address point to
/// which it leads.
#[derive(Clone, Copy)]
pub(crate) struct Point {
    pub(crate) number: u32,
    pub(crate) distance: u64,
}

/// The walk before the first subobject of a class.
pub(crate) fn start<L: SoundLayout>(site: &PlanSite<L>, c: ClassId) -> Walk
    requires site { IsLaidPlanSite L.lays_out L.rows site.now }
    requires known { c.0 < length site.now.h.now }
    ensures { IsPast site.now.h.now (plan_places L.rows site.now) c [] result }
{
    let bases = site.h.class(c).bases.as_slice();
    let words = base_sum(site.h, site.layout, site.tables.blocks.as_slice(), bases);
    Walk {
        words: 0,
        first: None,
        item: words.saturating_add(1),
    }
}

/// How many words the table of a base of class `d` has before its address point.
fn before_words<L: SoundLayout>(site: &PlanSite<L>, d: ClassId) -> u32
    requires site { IsPlanSiteAt L.rows site.now }
    requires known { d.0 < length site.now.h.now }
    ensures is { result ≡ before_by_class site.now.h.now (plan_places L.rows site.now) (Some d) }
    ensures small { result ≤ most_offsets + 2 }
{
    site.slots.offsets(d, false).len() as u32 + 2
}

/// How many words the table of a base of class `d` has.
fn table_words<L: SoundLayout>(site: &PlanSite<L>, d: ClassId) -> u32
    requires site { IsPlanSiteAt L.rows site.now }
    requires known { d.0 < length site.now.h.now }
    ensures { result ≡ words_by_class site.now.h.now (plan_places L.rows site.now) (Some d) }
{
    before_words(site, d) + site.slots.entries(d).len() as u32
}

/// The words before the first address point, where a table with so many words before its own comes next.
fn first_or(first: Option<u32>, before: u32) -> u32
    ensures { result ≡ first_words_or first before }
{
    match first {
        None => before,
        Some(first) => first,
    }
}

/// The number of the word behind this one, where the subobject needs one.
fn item_after(item: u32, needs: bool) -> u32
    ensures { result ≡ capped_count (item + (if needs then 1 else 0)) }
{
    if needs { item.saturating_add(1) } else { item }
}

/// The walk behind a subobject that is set apart.
pub(crate) fn passed<L: SoundLayout>(
    site: &PlanSite<L>,
    walk: Walk,
    s: &Subobject,
    d: ClassId,
) -> Walk
    requires site { IsLaidPlanSite L.lays_out L.rows site.now }
    requires class { class_of s.now ≡ Some d }
    requires class_known { d.0 < length site.now.h.now }
    requires apart { is_set_apart (plan_setup L.rows site.now) s.now ≡ true }
    ensures { (c : ClassId) (before : List Subobject) → IsPast site.now.h.now (plan_places L.rows site.now) c before walk → IsPast site.now.h.now (plan_places L.rows site.now) c (before ++ s.now ∷ []) result }
{
    let item = item_after(walk.item, needs_word(site, s, d));
    match s.root {
        Root::Shared(_) => Walk {
            words: walk.words,
            first: walk.first,
            item,
        },
        Root::Whole => Walk {
            words: walk.words.saturating_add(table_words(site, d)),
            first: Some(first_or(walk.first, before_words(site, d))),
            item,
        },
    }
}

/// How many bytes behind the first address point of a group the next table's stands.
fn distance(walk: &Walk, before: u32) -> u64
    ensures { result ≡ 8 * (walk.now.words + before - first_words_or walk.now.first before) }
{
    let first = first_or(walk.first, before) as u64;
    8 * (walk.words as u64 + before as u64).saturating_sub(first)
}

/// Where the table of a subobject that is set apart is found: at the front of a group, or by a word of the sub-VTT.
pub(crate) fn point_of<L: SoundLayout>(
    site: &PlanSite<L>,
    c: ClassId,
    walk: &Walk,
    s: &Subobject,
    d: ClassId,
) -> Point
    requires site { IsLaidPlanSite L.lays_out L.rows site.now }
    requires known { c.0 < length site.now.h.now }
    requires class { class_of s.now ≡ Some d }
    requires class_known { d.0 < length site.now.h.now }
    requires at { IsAtPart site.now.h.now (plan_places L.rows site.now) c s.now walk.now }
    requires apart { is_set_apart (plan_setup L.rows site.now) s.now ≡ true }
    ensures distance { result.distance ≡ point_distance (plan_setup L.rows site.now) c s.now }
    ensures number { has_vtt site.now.h.now c ≡ true → result.number ≡ vtt_word_number (plan_setup L.rows site.now) c s.now }
{
    match s.root {
        Root::Whole => Point {
            number: 0,
            distance: distance(walk, before_words(site, d)),
        },
        Root::Shared(_) => Point {
            number: walk.item,
            distance: 0,
        },
    }
}
