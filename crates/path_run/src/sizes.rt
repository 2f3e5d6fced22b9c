//! The sizes of objects, by a layout.

ghost use Rattle.std.specs.Prelude.{◌≡◌, IfOk};
ghost use Rattle.abi_sound.specs.Places.{places_of};
ghost use Rattle.path_machine.specs.invariants.Steps.{size_in};

use abi_sound::SoundLayout;
use cxx_hierarchy::{ClassId, Hierarchy};
use foundation::NoMemory;
use std::alloc::Global;

/// The size of an object of each class, in bytes.
///
/// Errors: want of memory.
pub(crate) fn sizes_of<L: SoundLayout>(
    alloc: Global,
    h: &Hierarchy,
    layout: &L,
) -> Result<Vec<u32>, NoMemory>
    requires layout { L.lays_out layout.now h.now }
    ensures { IfOk result (λ sizes. size_in sizes.items ≡ (places_of h.now (L.rows layout.now)).size) }
{
    let mut sizes = Vec::new(alloc);
    for number in 0..h.len() {
        sizes.push(layout.layout(ClassId(number)).size)?;
    }
    Ok(sizes)
}
