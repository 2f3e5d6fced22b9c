//! The members of all subobjects of an object.

ghost use Rattle.std.specs.Prelude.{◌≡◌, ◌++◌, ◌+◌, ◌<◌, ◌^◌, ℕ, IfOk, OnOk, Some, length};
ghost use Rattle.abi_sound.specs.Places.{places_of};
ghost use Rattle.text_bytes.specs.LeafRows.{placed_in, placed_members};

use abi_print::text::append;
use abi_sound::{SoundLayout, first_bit, member_place};
use cxx_hierarchy::{ClassId, Hierarchy};
use cxx_subobject::{class_of, list_subobjects};
use foundation::{NoMemory, Sequence};
use std::alloc::Global;
use text_told::fields::append_declarer;
use text_told::items::Text;

/// A member of a subobject of an object: its place there in bytes and the first bit of its value in the byte there, the class that
/// declares it and its number in that class, and what stands before its name.
#[derive(Drop)]
pub struct PlacedMember {
    pub place: u32,
    pub first: u8,
    pub class: ClassId,
    pub number: u32,
    pub before: Text,
}

fn copy_of(alloc: Global, text: &[u8]) -> Result<Text, NoMemory>
    ensures { IfOk result (λ copy. copy ≡ text.now) }
{
    let mut copy = Vec::new(alloc);
    append(&mut copy, text)?;
    Ok(Sequence::from_vec(copy))
}

/// Puts the members of a class behind others; its subobject lies at a place, and `before` stands before the names of them.
fn push_members<L: SoundLayout>(
    alloc: Global,
    h: &Hierarchy,
    layout: &L,
    list: &mut Vec<PlacedMember>,
    place: u32,
    before: &[u8],
    b: ClassId,
) -> Result<(), NoMemory>
    requires layout { L.lays_out layout.now h.now }
    requires known { b.0 < length h.now }
    requires small { (m : ℕ) → place + (places_of h.now (L.rows layout.now)).member b m < 2 ^ 32 }
    ensures { OnOk result (list.new.items ≡ list.old.items ++ placed_in h.now (places_of h.now (L.rows layout.now)) place before.now (Some b)) }
{
    h.keeps();
    for m in 0..h.class(b).members.len() {
        list.push(PlacedMember {
            place: place + member_place(layout, b, m as u32),
            first: first_bit(layout, b, m as u32),
            class: b,
            number: m as u32,
            before: copy_of(alloc, before)?,
        })?;
    }
    Ok(())
}

/// The members of all subobjects of an object of a class, in preorder.
///
/// Errors: want of memory.
pub fn placed_members<L: SoundLayout>(
    alloc: Global,
    h: &Hierarchy,
    layout: &L,
    c: ClassId,
) -> Result<Vec<PlacedMember>, NoMemory>
    requires layout { L.lays_out layout.now h.now }
    requires known { c.0 < length h.now }
    ensures { IfOk result (λ list. list.items ≡ placed_members h.now (places_of h.now (L.rows layout.now)) c) }
{
    h.keeps();
    let mut list = Vec::new(alloc);
    let parts = list_subobjects(alloc, h, c)?;
    for s in parts.as_slice() {
        let mut before = Vec::new(alloc);
        append_declarer(alloc, &mut before, h, s)?;
        match class_of(s) {
            Some(b) => push_members(
                alloc,
                h,
                layout,
                &mut list,
                layout.place(h, c, s),
                &before,
                b,
            )?,
            // never met: `list_subobjects` lists subobjects alone, and each has a class
            None => {}
        }
    }
    Ok(list)
}
