//! Which base subobjects of a view have a word in its sub-VTT.

ghost use Rattle.std.specs.Prelude.{◌≡◌, length};
ghost use Rattle.abi_sound.specs.Places.{places_of};
ghost use Rattle.abi_vtt.specs.Vtts.{needs_word};
ghost use Rattle.abi_vtt.specs.invariants.Marks.{AreVirtualMarks};
ghost use Rattle.abi_vtt.specs.invariants.Growing.{IsKnownPart};

use crate::marks::is_marked;
use crate::path_ends::{ends_in_primary, is_proper, is_shared};
use abi_sound::SoundLayout;
use abi_vtable::view::ViewPart;
use cxx_hierarchy::Hierarchy;

/// Whether a part of a view has a word of its own in the sub-VTT: a dynamic base that has virtual bases or lies below one, and
/// is not the non-virtual primary base of the subobject that directly derives it.
pub(crate) fn needs_word<L: SoundLayout>(
    h: &Hierarchy,
    layout: &L,
    marks: &[bool],
    part: &ViewPart,
) -> bool
    requires layout { L.lays_out layout.now h.now }
    requires marks { AreVirtualMarks h.now (length h.now) marks.now }
    requires part { IsKnownPart h.now part.now }
    ensures { result ≡ needs_word h.now (places_of h.now (L.rows layout.now)) part.now.at }
{
    if !is_proper(&part.at) {
        return false;
    }
    if !part.is_dynamic {
        return false;
    }
    if !is_marked(marks, part.class) && !is_shared(part.at.root) {
        return false;
    }
    !ends_in_primary(h, layout, part.at.path.as_slice())
}
