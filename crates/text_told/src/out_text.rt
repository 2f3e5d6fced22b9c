//! The text of what a run tells.

ghost use Rattle.std.specs.Prelude.{◌≡◌, ◌++◌, ◌∷◌, [], IfOk, OnErr, OnOk, codes};
ghost use Rattle.abi_sound.specs.Places.{places_of};
ghost use Rattle.abi_print.specs.LayoutTexts.{declared_class_name};
ghost use Rattle.abi_print.specs.TableTexts.{function_text};
ghost use Rattle.text_told.specs.Fields.{NamesPart, part_text};
ghost use Rattle.text_told.specs.OutTexts.{IsTold, NamesPartOrNull, line_text, out_text, pointer_text};

use crate::dump::append_dump;
use crate::items::append_signed;
use crate::locations::append_part;
use abi_print::text::{append, append_class, append_function};
use abi_sound::SoundLayout;
use cxx_hierarchy::{ClassId, Hierarchy};
use cxx_overrider::FunctionId;
use cxx_subobject::Location;
use foundation::NoMemory;
use path_model::Out;
use std::alloc::Global;

fn append_pointer<L: SoundLayout>(
    alloc: Global,
    text: &mut Vec<u8>,
    h: &Hierarchy,
    layout: &L,
    at: &Option<Location>,
) -> Result<(), NoMemory>
    requires layout { L.lays_out layout.now h.now }
    requires names { NamesPartOrNull h.now at.now }
    ensures { OnOk result (text.new.items ≡ text.old.items ++ pointer_text h.now (places_of h.now (L.rows layout.now)) at.now) }
{
    match at {
        None => append(text, b"null")?,
        Some(at) => append_part(alloc, text, h, layout, at)?,
    }
    Ok(())
}

/// Puts what happens to a class subobject, its class and where it is at the end of a text.
fn append_event<L: SoundLayout>(
    alloc: Global,
    text: &mut Vec<u8>,
    h: &Hierarchy,
    layout: &L,
    event: &[u8],
    class: ClassId,
    at: &Location,
) -> Result<(), NoMemory>
    requires layout { L.lays_out layout.now h.now }
    requires names { NamesPart h.now at.now }
    ensures { OnOk result (text.new.items ≡ text.old.items ++ event.now ++ declared_class_name h.now class ++ codes " " ++ part_text h.now (places_of h.now (L.rows layout.now)) at.now) }
{
    append(text, event)?;
    append_class(text, h, class)?;
    append(text, b" ")?;
    append_part(alloc, text, h, layout, at)?;
    Ok(())
}

/// Puts a called function and its `this` at the end of a text.
fn append_call<L: SoundLayout>(
    alloc: Global,
    text: &mut Vec<u8>,
    h: &Hierarchy,
    layout: &L,
    function: FunctionId,
    at: &Location,
) -> Result<(), NoMemory>
    requires layout { L.lays_out layout.now h.now }
    requires names { NamesPart h.now at.now }
    ensures { OnOk result (text.new.items ≡ text.old.items ++ codes "call " ++ function_text h.now function ++ codes " " ++ part_text h.now (places_of h.now (L.rows layout.now)) at.now) }
{
    append(text, b"call ")?;
    append_function(text, h, function)?;
    append(text, b" ")?;
    append_part(alloc, text, h, layout, at)?;
    Ok(())
}

/// Puts what is told at the end of a text, without the line feed at its end.
fn append_told<L: SoundLayout>(
    alloc: Global,
    text: &mut Vec<u8>,
    h: &Hierarchy,
    layout: &L,
    out: &Out,
) -> Result<(), NoMemory>
    requires layout { L.lays_out layout.now h.now }
    requires told { IsTold h.now out.now }
    ensures { OnOk result (text.new.items ≡ text.old.items ++ line_text h.now (places_of h.now (L.rows layout.now)) out.now) }
{
    match out {
        Out::Number(number) => append_signed(alloc, text, *number),
        Out::Pointer(at) => append_pointer(alloc, text, h, layout, at),
        Out::TypeName(class) => append_class(text, h, *class),
        Out::Dump(number, class, leaves) => {
            append_dump(alloc, text, h, layout, *number, *class, leaves.as_slice())
        }
        Out::Call(function, at) => append_call(alloc, text, h, layout, *function, at),
        Out::Built(class, at) => append_event(alloc, text, h, layout, b"built ", *class, at),
        Out::Ending(class, at) => append_event(alloc, text, h, layout, b"ending ", *class, at),
    }
}

/// Puts the text of what a run tells at the end of a text: a number, a pointer, the name of a class, a dump, or a line of a
/// trace, with its line feed.
///
/// Errors: want of memory, after which the text is as it was.
pub fn append_out<L: SoundLayout>(
    alloc: Global,
    h: &Hierarchy,
    layout: &L,
    text: &mut Vec<u8>,
    out: &Out,
) -> Result<(), NoMemory>
    requires layout { L.lays_out layout.now h.now }
    requires told { IsTold h.now out.now }
    ensures ok { OnOk result (text.new.items ≡ text.old.items ++ out_text h.now (places_of h.now (L.rows layout.now)) out.now) }
    ensures err { OnErr result (text.new.items ≡ text.old.items) }
{
    let mut line = Vec::new(alloc);
    append_told(alloc, &mut line, h, layout, out)?;
    line.push(b'\n')?;
    text.extend_from_slice(&line)?;
    Ok(())
}
