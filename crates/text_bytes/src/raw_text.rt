//! The text of what a byte machine tells.

ghost use Rattle.std.specs.Prelude.{◌≡◌, ◌++◌, ◌∷◌, [], IfOk, OnErr, OnOk, codes};
ghost use Rattle.abi_sound.specs.Places.{places_of};
ghost use Rattle.byte_machine.specs.MachineState.{machine_image, state_of};
ghost use Rattle.abi_print.specs.LayoutTexts.{declared_class_name};
ghost use Rattle.text_bytes.specs.RawDumps.{address_text};
ghost use Rattle.text_bytes.specs.RawTexts.{HasText, function_at_block, function_name_text, is_raw_traced, raw_line, raw_text};

use crate::called::CalledFunctions;
use crate::dump::append_raw_dump;
use crate::items::append_address;
use abi_print::text::{append, append_class, append_function};
use abi_sound::SoundLayout;
use byte_machine::{Machine, RawOut};
use byte_memory::Memory;
use cxx_hierarchy::{ClassId, Hierarchy};
use cxx_overrider::FunctionId;
use foundation::NoMemory;
use std::alloc::Global;
use text_told::items::append_signed;

fn append_function_at(
    text: &mut Vec<u8>,
    h: &Hierarchy,
    function: Option<FunctionId>,
) -> Result<(), NoMemory>
    ensures { OnOk result (text.new.items ≡ text.old.items ++ function_name_text h.now function) }
{
    match function {
        None => {}
        Some(function) => append_function(text, h, function)?,
    }
    Ok(())
}

/// Puts a called function and its `this` at the end of a text.
fn append_call<M: Memory>(
    alloc: Global,
    text: &mut Vec<u8>,
    h: &Hierarchy,
    called: &CalledFunctions,
    machine: &Machine<M>,
    block: u32,
    this: u64,
) -> Result<(), NoMemory>
    ensures { OnOk result (text.new.items ≡ text.old.items ++ codes "call " ++ function_name_text h.now (function_at_block called.now block) ++ codes " " ++ address_text (state_of machine.now).objects this) }
{
    append(text, b"call ")?;
    append_function_at(text, h, called.function(block))?;
    append(text, b" ")?;
    append_address(alloc, text, machine, this)?;
    Ok(())
}

/// Puts what happens to a class subobject, its class and its address at the end of a text.
fn append_event<M: Memory>(
    alloc: Global,
    text: &mut Vec<u8>,
    h: &Hierarchy,
    machine: &Machine<M>,
    event: &[u8],
    class: ClassId,
    at: u64,
) -> Result<(), NoMemory>
    ensures { OnOk result (text.new.items ≡ text.old.items ++ event.now ++ declared_class_name h.now class ++ codes " " ++ address_text (state_of machine.now).objects at) }
{
    append(text, event)?;
    append_class(text, h, class)?;
    append(text, b" ")?;
    append_address(alloc, text, machine, at)?;
    Ok(())
}

/// Puts what is told at the end of a text, without the line feed at its end.
fn append_told<M: Memory, L: SoundLayout>(
    alloc: Global,
    h: &Hierarchy,
    layout: &L,
    called: &CalledFunctions,
    machine: &Machine<M>,
    text: &mut Vec<u8>,
    raw: RawOut,
) -> Result<(), NoMemory>
    requires layout { L.lays_out layout.now h.now }
    requires has_text { HasText h.now (state_of machine.now).objects raw }
    ensures { OnOk result (text.new.items ≡ text.old.items ++ raw_line h.now (places_of h.now (L.rows layout.now)) called.now (machine_image machine.now) (state_of machine.now).memory (state_of machine.now).objects raw) }
{
    match raw {
        RawOut::Number(number) => append_signed(alloc, text, number),
        RawOut::Address(at) => append_address(alloc, text, machine, at),
        RawOut::Class(class) => append_class(text, h, ClassId(class)),
        RawOut::Dump(at) => append_raw_dump(alloc, text, h, layout, machine, at),
        RawOut::Call(block, this) => append_call(alloc, text, h, called, machine, block, this),
        RawOut::Built(class, at) => {
            append_event(alloc, text, h, machine, b"built ", ClassId(class), at)
        }
        RawOut::Ending(class, at) => {
            append_event(alloc, text, h, machine, b"ending ", ClassId(class), at)
        }
    }
}

/// Puts the text of what a machine tells at the end of a text, as its memory and its heap objects are: a number, an address, the
/// name of a class, a dump, or a line of a trace, with its line feed. A call names its function by the numbers of all code.
///
/// Errors: want of memory, after which the text is as it was.
pub fn append_raw<M: Memory, L: SoundLayout>(
    alloc: Global,
    h: &Hierarchy,
    layout: &L,
    called: &CalledFunctions,
    machine: &Machine<M>,
    text: &mut Vec<u8>,
    raw: RawOut,
) -> Result<(), NoMemory>
    requires layout { L.lays_out layout.now h.now }
    requires has_text { HasText h.now (state_of machine.now).objects raw }
    ensures ok { OnOk result (text.new.items ≡ text.old.items ++ raw_text h.now (places_of h.now (L.rows layout.now)) called.now (machine_image machine.now) (state_of machine.now).memory (state_of machine.now).objects raw) }
    ensures err { OnErr result (text.new.items ≡ text.old.items) }
{
    let mut line = Vec::new(alloc);
    append_told(alloc, h, layout, called, machine, &mut line, raw)?;
    line.push(b'\n')?;
    text.extend_from_slice(&line)?;
    Ok(())
}

/// Whether it is told in a trace alone: a call of a member function, the end of a construction, the begin of a destruction.
pub fn is_traced(raw: RawOut) -> bool
    ensures { result ≡ is_raw_traced raw }
{
    matches!(
        raw,
        RawOut::Call(..) | RawOut::Built(..) | RawOut::Ending(..)
    )
}
