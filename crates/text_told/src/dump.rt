//! The text of a dump.

ghost use Rattle.std.specs.Prelude.{◌≡◌, ◌++◌, ◌<◌, ◌≤◌, ◌+◌, ◌*◌, ◌^◌, ℕ, Contains, IfOk, OnOk};
ghost use Rattle.abi_sound.specs.Places.{places_of};
ghost use Rattle.text_told.specs.declared.items.Item.{Item};
ghost use Rattle.text_told.specs.Dumps.{AreDumpedLeaves, bit_of, by_place, dump_text, gap_text, item_text, lines_from, object_lines};

use crate::items::{Item, items_of};
use abi_print::text::{append, append_class, append_number};
use abi_sound::SoundLayout;
use cxx_hierarchy::{ClassId, Hierarchy};
use foundation::NoMemory;
use path_model::DumpLeaf;
use std::alloc::Global;

/// The bit at which an item begins, counted from the first bit of the object.
fn bit_of(item: &Item) -> u64
    ensures { result ≡ bit_of item.now }
{
    8 * item.place as u64 + item.first as u64
}

/// Sorts items by their places, and at one place by their first bits; each begins before the end of the object, whose size is in
/// bytes. Errors: want of memory.
pub fn sort_by_place(items: &mut Vec<Item>, size: u32) -> Result<(), NoMemory>
    requires { (item : Item) → Contains items.old.items item → bit_of item < 8 * size }
    ensures { OnOk result (items.new.items ≡ by_place size items.old.items) }
{
    items.sort_by_key(|item| bit_of(item))?;
    Ok(())
}

/// Puts the gap from a place to another at the end of a text, if there is one.
fn append_gap(alloc: Global, text: &mut Vec<u8>, from: u32, to: u32) -> Result<(), NoMemory>
    ensures { OnOk result (text.new.items ≡ text.old.items ++ gap_text from to) }
{
    if from >= to {
        return Ok(());
    }
    append(text, b"\n")?;
    append_number(alloc, text, from)?;
    append(text, b" pad ")?;
    append_number(alloc, text, to - from)?;
    Ok(())
}

fn append_item(alloc: Global, text: &mut Vec<u8>, item: &Item) -> Result<(), NoMemory>
    ensures { OnOk result (text.new.items ≡ text.old.items ++ item_text item.now) }
{
    append(text, b"\n")?;
    append_number(alloc, text, item.place)?;
    append(text, b" ")?;
    append(text, item.text.as_slice())?;
    Ok(())
}

/// Puts the lines of items at the end of a text, from a place to the end of the object: each behind the gap before it, and the
/// gap behind the last one. Errors: want of memory.
pub fn append_lines(
    alloc: Global,
    text: &mut Vec<u8>,
    end: u32,
    items: &[Item],
) -> Result<(), NoMemory>
    requires { (item : Item) → Contains items.now item → item.place + item.size < 2 ^ 32 }
    ensures { OnOk result (text.new.items ≡ text.old.items ++ lines_from end 0 items.now) }
{
    let mut at = 0;
    for item in items {
        append_gap(alloc, text, at, item.place)?;
        append_item(alloc, text, item)?;
        at = at.max(item.place + item.size);
    }
    append_gap(alloc, text, at, end)?;
    Ok(())
}

/// Puts the lines of what lies in an object of a class by place at the end of a text.
fn append_contents<L: SoundLayout>(
    alloc: Global,
    text: &mut Vec<u8>,
    h: &Hierarchy,
    layout: &L,
    c: ClassId,
    leaves: &[DumpLeaf],
) -> Result<(), NoMemory>
    requires layout { L.lays_out layout.now h.now }
    requires dumped { AreDumpedLeaves h.now c leaves.now }
    ensures { OnOk result (text.new.items ≡ text.old.items ++ object_lines h.now (places_of h.now (L.rows layout.now)) c leaves.now) }
{
    h.keeps();
    let size = layout.layout(c).size;
    let mut items = items_of(alloc, h, layout, c, leaves)?;
    sort_by_place(&mut items, size)?;
    append_lines(alloc, text, size, &items)?;
    Ok(())
}

/// Puts the dump of a heap object at the end of a text: its number, class and size, and by place its virtual pointers, its
/// leaves and its gaps.
///
/// Errors: want of memory.
pub(crate) fn append_dump<L: SoundLayout>(
    alloc: Global,
    text: &mut Vec<u8>,
    h: &Hierarchy,
    layout: &L,
    number: u32,
    c: ClassId,
    leaves: &[DumpLeaf],
) -> Result<(), NoMemory>
    requires layout { L.lays_out layout.now h.now }
    requires dumped { AreDumpedLeaves h.now c leaves.now }
    ensures { OnOk result (text.new.items ≡ text.old.items ++ dump_text h.now (places_of h.now (L.rows layout.now)) number c leaves.now) }
{
    append(text, b"dump #")?;
    append_number(alloc, text, number)?;
    append(text, b" ")?;
    append_class(text, h, c)?;
    append(text, b" ")?;
    append_number(alloc, text, layout.layout(c).size)?;
    append_contents(alloc, text, h, layout, c, leaves)?;
    Ok(())
}
