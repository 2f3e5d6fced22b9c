//! How results are adjusted, where each conversion is settled once.

ghost use Rattle.std.specs.Prelude.{◌≡◌, ◌<◌, Some, IfOk, IfSome, OnOk, length};
ghost use Rattle.cxx_hierarchy.specs.Classes.{Classes};
ghost use Rattle.cxx_hierarchy.specs.VirtualBases.{HasVirtualBase};
ghost use Rattle.cxx_hierarchy.specs.declared.records.ClassId.{ClassId};
ghost use Rattle.abi_sound.specs.Places.{Places, places_of};
ghost use Rattle.abi_slots.specs.Slots.{AreSlots};
ghost use Rattle.abi_slots.specs.Groups.{vbase_bytes, adjust_by, return_for};
ghost use Rattle.abi_vtable.specs.invariants.Returns.{AreKnown};
ghost use Rattle.abi_vtable.specs.invariants.Sites.{IsTableSite};

use crate::table_sites::TableSite;
use abi_slots::functions::{base_of, conversion};
use abi_slots::{Conversion, ReturnAdjust, Slots};
use abi_sound::SoundLayout;
use abi_thunk::return_adjust;
use cxx_hierarchy::ClassId;
use cxx_overrider::FunctionId;
use cxx_subobject::Root;
use foundation::NoMemory;

/// A conversion, and the adjustment of a result that is converted so.
#[derive(Clone, Copy, Debug, PartialEq, Eq)]
pub struct KnownReturn {
    pub classes: Conversion,
    pub adjust: Option<ReturnAdjust>,
}

/// The adjustment of a conversion that is among those that are known.
fn find_known(known: &[KnownReturn], classes: Conversion) -> Option<Option<ReturnAdjust>>
    ensures { (h : Classes) (l : Places) → AreKnown h l known.now → IfSome result (λ adjust. adjust ≡ adjust_by h l (Some classes)) }
{
    for one in known {
        if one.classes.from.0 == classes.from.0 && one.classes.to.0 == classes.to.0 {
            return Some(one.adjust);
        }
    }
    None
}

/// The vbase word by which a result is adjusted to a base below a root, in bytes from the address point.
fn vbase_for(slots: &Slots, c: ClassId, root: Root) -> Option<i64>
    ensures { (h : Classes) (l : Places) → AreSlots h l slots.now → ((v : ClassId) → root ≡ Root.Shared v → HasVirtualBase h c v) → result ≡ vbase_bytes h l c root }
{
    match root {
        Root::Whole => None,
        Root::Shared(v) => Some(8 * (slots.vbase(c, v) as i64)),
    }
}

/// The adjustment of a conversion.
///
/// Errors: want of memory.
fn converted<L: SoundLayout>(
    site: &TableSite<L>,
    classes: Conversion,
) -> Result<Option<ReturnAdjust>, NoMemory>
    requires layout { L.lays_out site.now.layout.now site.now.h.now }
    requires site { IsTableSite site.now.h.now (L.rows site.now.layout.now) site.now.overriders.now site.now.slots.now }
    requires known { classes.from.0 < length site.now.h.now }
    ensures { IfOk result (λ adjust. adjust ≡ adjust_by site.now.h.now (places_of site.now.h.now (L.rows site.now.layout.now)) (Some classes)) }
{
    let base = match base_of(site.alloc, site.h, classes.from, classes.to)? {
        Some(base) => base,
        // never met where f overrides g: its class has that of g as a base, by `HasNoFault`
        None => return Ok(None),
    };
    let vbase = vbase_for(site.slots, classes.from, base.root);
    Ok(return_adjust(site.h, site.layout, classes.from, &base, vbase))
}

/// How the result of a function is adjusted at an entry that was listed for another. A conversion that is met for the first
/// time is put behind those that are known.
///
/// Errors: want of memory.
pub(crate) fn return_for<L: SoundLayout>(
    site: &TableSite<L>,
    known: &mut Vec<KnownReturn>,
    f: FunctionId,
    g: FunctionId,
) -> Result<Option<ReturnAdjust>, NoMemory>
    requires layout { L.lays_out site.now.layout.now site.now.h.now }
    requires site { IsTableSite site.now.h.now (L.rows site.now.layout.now) site.now.overriders.now site.now.slots.now }
    requires known { AreKnown site.now.h.now (places_of site.now.h.now (L.rows site.now.layout.now)) known.old.items }
    requires first { f.class.0 < length site.now.h.now }
    requires second { g.class.0 < length site.now.h.now }
    ensures adjust { IfOk result (λ adjust. adjust ≡ return_for site.now.h.now (places_of site.now.h.now (L.rows site.now.layout.now)) f g) }
    ensures known { OnOk result (AreKnown site.now.h.now (places_of site.now.h.now (L.rows site.now.layout.now)) known.new.items) }
{
    let classes = match conversion(site.h, f, g) {
        Some(classes) => classes,
        None => return Ok(None),
    };
    match find_known(known, classes) {
        Some(adjust) => return Ok(adjust),
        None => {}
    }
    let adjust = converted(site, classes)?;
    known.push(KnownReturn { classes, adjust })?;
    Ok(adjust)
}
