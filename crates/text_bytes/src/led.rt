//! Virtual pointers, as they stand in memory (Itanium C++ ABI 2.5.2).

ghost use Rattle.std.specs.Prelude.{◌≡◌, ◌++◌, ◌<◌, IfOk, OnOk, map};
ghost use Rattle.byte_machine.specs.Effects.{bytes_before};
ghost use Rattle.byte_machine.specs.MachineState.{machine_image, state_of};
ghost use Rattle.byte_machine.specs.Running.{table_word};
ghost use Rattle.abi_print.specs.TableTexts.{optional_class_name};
ghost use Rattle.text_bytes.specs.RawDumps.{behind_top, class_of_info, class_name_text, led_item, led_text};

use abi_print::text::{append, append_class};
use byte_machine::Machine;
use byte_memory::Memory;
use cxx_hierarchy::{ClassId, Hierarchy};
use foundation::{NoMemory, Sequence};
use std::alloc::Global;
use text_told::items::{Item, append_signed};
use text_told::pointers::TablePointer;

/// The word that stands so many bytes behind the address point to which the virtual pointer at an address leads, where one is read.
#[tactic(auto, unfolding(byte_machine::specs::Running::table_of))]
fn table_word<M: Memory>(machine: &Machine<M>, at: u64, bytes: u64) -> Option<u64>
    ensures { result ≡ table_word (machine_image machine.now) (state_of machine.now).memory at bytes }
{
    match machine.memory().load(at, 8) {
        Ok(table) => machine.image().number(table.wrapping_add(bytes)),
        Err(_) => None,
    }
}

/// The word that stands so many bytes before it.
fn word_before<M: Memory>(machine: &Machine<M>, at: u64, bytes: u64) -> Option<u64>
    requires { 0 < bytes }
    ensures { result ≡ table_word (machine_image machine.now) (state_of machine.now).memory at (bytes_before bytes) }
{
    table_word(machine, at, 0u64.wrapping_sub(bytes))
}

/// Puts how far an address lies behind the complete object to which the offset to top leads at the end of a text.
fn append_behind(
    alloc: Global,
    text: &mut Vec<u8>,
    at: u64,
    top: Option<u64>,
) -> Result<(), NoMemory>
    ensures { OnOk result (text.new.items ≡ text.old.items ++ behind_top at top) }
{
    match top {
        None => append(text, b"?")?,
        Some(top) => {
            let start = at.wrapping_add(top);
            append_signed(alloc, text, at.saturating_sub(start) as i128)?;
        }
    }
    Ok(())
}

/// The number of a class at the begin of its type information.
fn class_at<M: Memory>(machine: &Machine<M>, info: Option<u64>) -> Option<u64>
    ensures { result ≡ class_of_info (machine_image machine.now) info }
{
    machine.image().number(info?)
}

/// Puts the name of the class of a number at the end of a text.
fn append_numbered(text: &mut Vec<u8>, h: &Hierarchy, class: Option<u64>) -> Result<(), NoMemory>
    ensures { OnOk result (text.new.items ≡ text.old.items ++ class_name_text h.now class) }
{
    match class {
        None => append(text, b"?")?,
        Some(number) => {
            if number < h.len() as u64 {
                append_class(text, h, ClassId(number as u32))?;
            }
        }
    }
    Ok(())
}

/// Puts the name of a class at the end of a text, where there is one.
fn append_named(text: &mut Vec<u8>, h: &Hierarchy, class: Option<ClassId>) -> Result<(), NoMemory>
    ensures { OnOk result (text.new.items ≡ text.old.items ++ optional_class_name h.now class) }
{
    match class {
        None => {}
        Some(class) => append_class(text, h, class)?,
    }
    Ok(())
}

/// The text of the virtual pointer at an address behind its place.
fn led_text<M: Memory>(
    alloc: Global,
    h: &Hierarchy,
    machine: &Machine<M>,
    at: u64,
    class: Option<ClassId>,
) -> Result<Vec<u8>, NoMemory>
    ensures { IfOk result (λ text. text.items ≡ led_text h.now (machine_image machine.now) (state_of machine.now).memory at class) }
{
    let mut text = Vec::new(alloc);
    append(&mut text, b"vptr ")?;
    append_named(&mut text, h, class)?;
    append(&mut text, b"@")?;
    append_behind(alloc, &mut text, at, word_before(machine, at, 16))?;
    append(&mut text, b" of ")?;
    append_numbered(&mut text, h, class_at(machine, word_before(machine, at, 8)))?;
    Ok(text)
}

/// A virtual pointer of an object that starts at an address, as an item.
fn led_item<M: Memory>(
    alloc: Global,
    h: &Hierarchy,
    machine: &Machine<M>,
    start: u64,
    pointer: TablePointer,
) -> Result<Item, NoMemory>
    ensures { IfOk result (λ item. item ≡ led_item h.now (machine_image machine.now) (state_of machine.now).memory start pointer) }
{
    let at = start.wrapping_add(pointer.place as u64);
    let text = led_text(alloc, h, machine, at, pointer.class)?;
    Ok(Item {
        place: pointer.place,
        first: 0,
        size: 8,
        text: Sequence::from_vec(text),
    })
}

/// Puts the virtual pointers of an object that starts at an address behind other items.
///
/// Errors: want of memory.
pub(crate) fn push_led<M: Memory>(
    alloc: Global,
    h: &Hierarchy,
    machine: &Machine<M>,
    items: &mut Vec<Item>,
    start: u64,
    pointers: &[TablePointer],
) -> Result<(), NoMemory>
    ensures { OnOk result (items.new.items ≡ items.old.items ++ map (led_item h.now (machine_image machine.now) (state_of machine.now).memory start) pointers.now) }
{
    for pointer in pointers {
        items.push(led_item(alloc, h, machine, start, *pointer)?)?;
    }
    Ok(())
}
