//! The lines of a step.

ghost use Rattle.std.specs.Prelude.{◌≡◌, ◌++◌, Contains, OnOk};
ghost use Rattle.path_model.specs.declared.outs.Out.{Out};
ghost use Rattle.abi_sound.specs.Places.{places_of};
ghost use Rattle.text_told.specs.OutTexts.{IsTold, text_of};

use abi_sound::SoundLayout;
use cxx_hierarchy::Hierarchy;
use foundation::NoMemory;
use path_model::Out;
use std::alloc::Global;
use text_told::append_out;

/// Puts the lines of what a step told behind a text.
///
/// Errors: want of memory.
pub(crate) fn append_told<L: SoundLayout>(
    alloc: Global,
    h: &Hierarchy,
    layout: &L,
    text: &mut Vec<u8>,
    outs: &[Out],
) -> Result<(), NoMemory>
    requires layout { L.lays_out layout.now h.now }
    requires told { (out : Out) → Contains outs.now out → IsTold h.now out }
    ensures { OnOk result (text.new.items ≡ text.old.items ++ text_of h.now (places_of h.now (L.rows layout.now)) outs.now) }
{
    for out in outs {
        append_out(alloc, h, layout, text, out)?;
    }
    Ok(())
}
