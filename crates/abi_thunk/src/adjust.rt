//! The two adjustments.

ghost use Rattle.std.specs.Prelude.{◌≡◌, ◌<◌, ◌-ℤ◌, pos, length, position, nat_eq};
ghost use Rattle.cxx_hierarchy.specs.declared.records.ClassId.{ClassId};
ghost use Rattle.cxx_subobject.specs.Subobjects.{IsSubobject, shared_base};
ghost use Rattle.abi_sound.specs.Places.{places_of};
ghost use Rattle.abi_slots.specs.Groups.{this_adjust, return_adjust, root_base};

use abi_slots::{ReturnAdjust, ThisAdjust};
use abi_sound::places::place_of_number;
use abi_sound::{ClassLayout, SoundLayout};
use cxx_hierarchy::{ClassId, Hierarchy};
use cxx_subobject::{Root, Subobject};

/// The number of a virtual base in the row of a class.
fn number_of_virtual(row: &ClassLayout, v: ClassId) -> Option<usize>
    ensures { result ≡ position (λ (w : ClassId). nat_eq w.0 v.0) row.now.virtual_bases }
{
    row.virtual_bases.as_slice().iter().position(|w| w.0 == v.0)
}

/// The place of a virtual base in an object of a class, in bytes. It takes no memory.
pub fn shared_place<L: SoundLayout>(h: &Hierarchy, layout: &L, c: ClassId, v: ClassId) -> u32
    requires layout { L.lays_out layout.now h.now }
    requires known { c.0 < length h.now }
    ensures { result ≡ (places_of h.now (L.rows layout.now)).place c (shared_base v) }
{
    let row = layout.layout(c);
    place_of_number(row.virtual_places.as_slice(), number_of_virtual(row, v))
}

/// The place of the virtual base below which a subobject lies, or of the subobject itself.
fn root_place<L: SoundLayout>(h: &Hierarchy, layout: &L, c: ClassId, s: &Subobject) -> u32
    requires layout { L.lays_out layout.now h.now }
    requires known { c.0 < length h.now }
    requires subobject { IsSubobject h.now c s.now }
    ensures { result ≡ (places_of h.now (L.rows layout.now)).place c (root_base s.now.root s.now) }
{
    match s.root {
        Root::Whole => layout.place(h, c, s),
        Root::Shared(v) => shared_place(h, layout, c, v),
    }
}

/// How far it is from one place to another, in bytes.
fn distance(from: u32, to: u32) -> i64
    ensures { result ≡ pos to -ℤ pos from }
{
    to as i64 - from as i64
}

/// How `this` is adjusted in an object of class `c`, from the subobject `from` to `to`, which contains it: by a constant, or
/// to the virtual base below which `from` lies, and then by the vcall word at a byte offset from the address point of its
/// table. None comes exactly where no vcall word is given and nothing is to be added. It takes no memory.
pub fn this_adjust<L: SoundLayout>(
    h: &Hierarchy,
    layout: &L,
    c: ClassId,
    from: &Subobject,
    to: &Subobject,
    vcall: Option<i64>,
) -> Option<ThisAdjust>
    requires layout { L.lays_out layout.now h.now }
    requires known { c.0 < length h.now }
    requires from { IsSubobject h.now c from.now }
    requires to { IsSubobject h.now c to.now }
    ensures { result ≡ this_adjust (places_of h.now (L.rows layout.now)) c from.now to.now vcall }
{
    let start = layout.place(h, c, from);
    match vcall {
        None => {
            let constant = distance(start, layout.place(h, c, to));
            if constant == 0 {
                return None;
            }
            Some(ThisAdjust {
                constant,
                vcall: None,
            })
        }
        Some(bytes) => Some(ThisAdjust {
            constant: distance(start, root_place(h, layout, c, from)),
            vcall: Some(bytes),
        }),
    }
}

/// How a result that points to an object of class `from` is adjusted to its base subobject at `path`: by a constant, or by
/// the vbase word at a byte offset from the address point of its table, and then by a constant. None comes exactly where no
/// vbase word is given and nothing is to be added. It takes no memory.
pub fn return_adjust<L: SoundLayout>(
    h: &Hierarchy,
    layout: &L,
    from: ClassId,
    path: &Subobject,
    vbase: Option<i64>,
) -> Option<ReturnAdjust>
    requires layout { L.lays_out layout.now h.now }
    requires known { from.0 < length h.now }
    requires path { IsSubobject h.now from path.now }
    ensures { result ≡ return_adjust (places_of h.now (L.rows layout.now)) from path.now vbase }
{
    let place = layout.place(h, from, path);
    match vbase {
        None => {
            if place == 0 {
                return None;
            }
            Some(ReturnAdjust {
                vbase: None,
                constant: place as i64,
            })
        }
        Some(bytes) => Some(ReturnAdjust {
            vbase: Some(bytes),
            constant: distance(root_place(h, layout, from, path), place),
        }),
    }
}
