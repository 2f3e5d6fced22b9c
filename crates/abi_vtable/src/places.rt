//! Where the parts of a view lie in the complete object.

ghost use Rattle.std.specs.Prelude.{◌≡◌, true, IfOk};
ghost use Rattle.cxx_hierarchy.specs.Classes.{Classes};
ghost use Rattle.cxx_subobject.specs.Subobjects.{IsSubobject};
ghost use Rattle.abi_sound.specs.Places.{places_of};
ghost use Rattle.abi_slots.specs.Views.{IsView, seen, place};
ghost use Rattle.abi_slots.specs.Groups.{this_adjust};
ghost use Rattle.abi_vtable.specs.invariants.Parts.{view_of_parts};

use crate::view::{ViewPart, ViewParts};
use abi_slots::ThisAdjust;
use abi_sound::SoundLayout;
use abi_thunk::this_adjust;
use cxx_hierarchy::Hierarchy;
use cxx_subobject::{Root, Subobject, is_same_root, join};
use foundation::NoMemory;
use std::alloc::Global;

/// Where a part of a view is in the complete object. Few parts are asked for it, and a long path takes time.
///
/// Errors: want of memory.
pub(crate) fn seen_of(
    alloc: Global,
    h: &Hierarchy,
    x: &ViewParts,
    part: &ViewPart,
) -> Result<Subobject, NoMemory>
    requires view { IsView h.now (view_of_parts x.now) }
    requires valid { IsSubobject h.now x.now.class part.now.at }
    ensures seen { IfOk result (λ s. s ≡ seen (view_of_parts x.now) part.now.at) }
    ensures valid { IfOk result (λ s. IsSubobject h.now x.now.complete s) }
{
    join(alloc, h, x.complete, &x.at, &part.at)
}

/// The place of a part in the complete object, in bytes.
///
/// Errors: want of memory.
pub(crate) fn place_of_part<L: SoundLayout>(
    alloc: Global,
    h: &Hierarchy,
    layout: &L,
    x: &ViewParts,
    part: &ViewPart,
) -> Result<u32, NoMemory>
    requires layout { L.lays_out layout.now h.now }
    requires view { IsView h.now (view_of_parts x.now) }
    requires valid { IsSubobject h.now x.now.class part.now.at }
    ensures { IfOk result (λ n. n ≡ place (places_of h.now (L.rows layout.now)) (view_of_parts x.now) part.now.at) }
{
    let seen = seen_of(alloc, h, x, part)?;
    Ok(layout.place(h, x.complete, &seen))
}

/// Whether a part has the same path in the complete object as in the view: it lies below a virtual base, or the view is the
/// whole object.
fn is_seen_alike(x: &ViewParts, part: &ViewPart) -> bool
    ensures { (h : Classes) → IsView h (view_of_parts x.now) → IsSubobject h x.now.class part.now.at → result ≡ true → part.now.at ≡ seen (view_of_parts x.now) part.now.at }
{
    if !is_same_root(part.at.root, Root::Whole) {
        return true;
    }
    if !is_same_root(x.at.root, Root::Whole) {
        return false;
    }
    let count = x.at.path.len();
    if count != 1 {
        return false;
    }
    true
}

/// How `this` is adjusted from one part of a view to another.
///
/// Errors: want of memory.
pub(crate) fn adjust_between<L: SoundLayout>(
    alloc: Global,
    h: &Hierarchy,
    layout: &L,
    x: &ViewParts,
    from: &ViewPart,
    to: &ViewPart,
    vcall: Option<i64>,
) -> Result<Option<ThisAdjust>, NoMemory>
    requires layout { L.lays_out layout.now h.now }
    requires view { IsView h.now (view_of_parts x.now) }
    requires from { IsSubobject h.now x.now.class from.now.at }
    requires to { IsSubobject h.now x.now.class to.now.at }
    ensures { IfOk result (λ adjust. adjust ≡ this_adjust (places_of h.now (L.rows layout.now)) x.now.complete (seen (view_of_parts x.now) from.now.at) (seen (view_of_parts x.now) to.now.at) vcall) }
{
    if is_seen_alike(x, from) && is_seen_alike(x, to) {
        return Ok(this_adjust(h, layout, x.complete, &from.at, &to.at, vcall));
    }
    let start = seen_of(alloc, h, x, from)?;
    let end = seen_of(alloc, h, x, to)?;
    Ok(this_adjust(h, layout, x.complete, &start, &end, vcall))
}
