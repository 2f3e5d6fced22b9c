//! The bytes of pointers to data members, as text.

ghost use Rattle.std.specs.Prelude.{◌≤◌, ◌<◌, length};
ghost use Rattle.foundation.specs.Limits.{source_limit};
ghost use Rattle.abi_slots.specs.Slots.{AreSlots};
ghost use Rattle.abi_sound.specs.Places.{places_of};
ghost use Rattle.cxx_overrider.specs.Overriders.{AreOverriders};

use abi_layout::lay_out;
use abi_memptr::{MemberPointer, member_pointer, to_bytes};
use abi_slots::{CodeNumbers, Slots};
use abi_sound::SoundLayout;
use byte_code::ByteList;
use cxx_decl_parser::parse_source;
use cxx_hierarchy::{ClassId, Hierarchy, Stop, build};
use cxx_overrider::{Overriders, check_overriders};
use cxx_text::tokens;
use foundation::{NoMemory, Sequence};
use std::alloc::{AllocError, Global};

// A line with each byte as a number.
fn bytes_line(alloc: Global, bytes: &[u8]) -> Result<String, AllocError> {
    let mut text = String::from_str(alloc, "bytes")?;
    for byte in bytes {
        text.push_str(&format!(in alloc; " {byte}")?)?;
    }
    text.push('\n')?;
    Ok(text)
}

// The bytes of the pointer to a data member that a class itself declares, or None where it declares none of the name.
fn data_bytes<L: SoundLayout>(
    alloc: Global,
    h: &Hierarchy,
    overriders: &Overriders,
    layout: &L,
    slots: &Slots,
    class: ClassId,
    member: &[u8],
) -> Result<Option<ByteList>, NoMemory>
    requires layout { L.lays_out layout.now h.now }
    requires overriders { AreOverriders h.now overriders.now }
    requires slots { AreSlots h.now (places_of h.now (L.rows layout.now)) slots.now }
    requires known { class.0 < length h.now }
{
    let codes = CodeNumbers::new(alloc, Sequence::new(alloc))?;
    let Ok(pointer) = member_pointer(alloc, h, class, member) else {
        return Ok(None);
    };
    if let MemberPointer::Function(_, _) = pointer {
        return Ok(None);
    }
    let bytes = to_bytes(alloc, h, overriders, layout, slots, &codes, &pointer)?;
    Ok(Some(bytes))
}

/// The bytes of the pointer to a data member that a class itself declares; nothing where it declares none of the name.
pub fn pointer_text(
    alloc: Global,
    source: &[u8],
    class: &[u8],
    member: &[u8],
) -> Result<String, Stop>
    requires { length source.now ≤ source_limit }
{
    let list = tokens(alloc, source)?;
    let source = parse_source(alloc, source, &list)?;
    let h = build(alloc, &source.records)?;
    let Some(class) = h.find(class) else {
        return Ok(String::new(alloc));
    };
    if class.0 >= h.len() {
        return Ok(String::new(alloc));
    }
    let overriders = check_overriders(alloc, &h)?;
    let layout = lay_out(alloc, &h)?;
    let slots = Slots::new(alloc, &h, &overriders, &layout)?;
    let Some(bytes) = data_bytes(alloc, &h, &overriders, &layout, &slots, class, member)? else {
        return Ok(String::new(alloc));
    };
    let line = bytes_line(alloc, bytes.as_slice())?;
    Ok(line)
}
