//! The text of a dump, read from memory.

ghost use Rattle.std.specs.Prelude.{◌≡◌, ◌++◌, ◌<◌, IfOk, OnOk, length};
ghost use Rattle.abi_sound.specs.Places.{places_of};
ghost use Rattle.byte_machine.specs.Heap.{object_at};
ghost use Rattle.byte_machine.specs.MachineState.{machine_image, state_of};
ghost use Rattle.text_bytes.specs.RawDumps.{object_text, raw_dump, raw_items, contents_lines};
ghost use Rattle.text_bytes.specs.RawTexts.{IsKnownObject};

use crate::items::push_rows;
use crate::led::push_led;
use crate::rows::leaf_rows;
use abi_print::text::{append, append_class, append_number};
use abi_sound::SoundLayout;
use byte_machine::{Machine, Opened};
use byte_memory::Memory;
use cxx_hierarchy::{ClassId, Hierarchy};
use foundation::NoMemory;
use std::alloc::Global;
use text_told::dump::{append_lines, sort_by_place};
use text_told::items::Item;
use text_told::pointers::pointers_of;

/// What lies in an object of a class that starts at an address: its virtual pointers, and behind them its leaves.
fn raw_items<M: Memory, L: SoundLayout>(
    alloc: Global,
    h: &Hierarchy,
    layout: &L,
    machine: &Machine<M>,
    start: u64,
    c: ClassId,
) -> Result<Vec<Item>, NoMemory>
    requires layout { L.lays_out layout.now h.now }
    requires known { c.0 < length h.now }
    ensures { IfOk result (λ items. items.items ≡ raw_items h.now (places_of h.now (L.rows layout.now)) (machine_image machine.now) (state_of machine.now).memory (state_of machine.now).objects start c) }
{
    h.keeps();
    let mut items = Vec::new(alloc);
    let pointers = pointers_of(alloc, h, layout, c)?;
    push_led(alloc, h, machine, &mut items, start, &pointers)?;
    let rows = leaf_rows(alloc, h, layout, c)?;
    push_rows(alloc, h, machine, &mut items, start, rows.as_slice())?;
    Ok(items)
}

/// Puts the lines of what lies in an object of a class by place at the end of a text; the object starts at an address.
fn append_contents<M: Memory, L: SoundLayout>(
    alloc: Global,
    text: &mut Vec<u8>,
    h: &Hierarchy,
    layout: &L,
    machine: &Machine<M>,
    start: u64,
    c: ClassId,
) -> Result<(), NoMemory>
    requires layout { L.lays_out layout.now h.now }
    requires known { c.0 < length h.now }
    ensures { OnOk result (text.new.items ≡ text.old.items ++ contents_lines h.now (places_of h.now (L.rows layout.now)) (machine_image machine.now) (state_of machine.now).memory (state_of machine.now).objects start c) }
{
    h.keeps();
    let size = layout.layout(c).size;
    let mut items = raw_items(alloc, h, layout, machine, start, c)?;
    sort_by_place(&mut items, size)?;
    append_lines(alloc, text, size, &items)?;
    Ok(())
}

/// Puts the dump of a heap object at the end of a text.
fn append_object<M: Memory, L: SoundLayout>(
    alloc: Global,
    text: &mut Vec<u8>,
    h: &Hierarchy,
    layout: &L,
    machine: &Machine<M>,
    object: Opened,
) -> Result<(), NoMemory>
    requires layout { L.lays_out layout.now h.now }
    requires known { object.class < length h.now }
    ensures { OnOk result (text.new.items ≡ text.old.items ++ object_text h.now (places_of h.now (L.rows layout.now)) (machine_image machine.now) (state_of machine.now).memory (state_of machine.now).objects object) }
{
    let c = ClassId(object.class);
    append(text, b"dump #")?;
    append_number(alloc, text, object.number)?;
    append(text, b" ")?;
    append_class(text, h, c)?;
    append(text, b" ")?;
    append_number(alloc, text, layout.layout(c).size)?;
    append_contents(alloc, text, h, layout, machine, object.start, c)?;
    Ok(())
}

/// Puts the dump of the heap object that has an address at the end of a text, and nothing where none has it.
///
/// Errors: want of memory.
pub(crate) fn append_raw_dump<M: Memory, L: SoundLayout>(
    alloc: Global,
    text: &mut Vec<u8>,
    h: &Hierarchy,
    layout: &L,
    machine: &Machine<M>,
    at: u64,
) -> Result<(), NoMemory>
    requires layout { L.lays_out layout.now h.now }
    requires known { IsKnownObject h.now (object_at (state_of machine.now).objects at) }
    ensures { OnOk result (text.new.items ≡ text.old.items ++ raw_dump h.now (places_of h.now (L.rows layout.now)) (machine_image machine.now) (state_of machine.now).memory (state_of machine.now).objects at) }
{
    match machine.opened(at) {
        None => Ok(()),
        Some(object) => append_object(alloc, text, h, layout, machine, object),
    }
}
