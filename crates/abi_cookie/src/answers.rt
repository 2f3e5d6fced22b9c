//! What is answered where the text of an array is asked for.

ghost use Rattle.std.specs.Prelude.{◌≡◌, ◌<◌, ◌≤◌, IfOk, length};
ghost use Rattle.cxx_hierarchy.specs.Limits.{most_elements};
ghost use Rattle.cxx_overrider.specs.Overriders.{AreOverriders};
ghost use Rattle.abi_sound.specs.Places.{places_of};
ghost use Rattle.abi_cookie.specs.Answers.{IsArrayAnswer};

use crate::cookies::cookie_size;
use crate::texts::array_text;
use abi_sound::SoundLayout;
use cxx_hierarchy::{ClassId, Hierarchy};
use cxx_overrider::Overriders;
use foundation::{NoMemory, Sequence};
use std::alloc::Global;

/// The most bytes of a region.
const MOST_BYTES: u64 = 1_048_576;

/// The text of an array, or why there is none.
#[derive(Drop)]
pub enum ArrayAnswer {
    /// The class is abstract.
    Abstract,
    /// The region would have more than 1,048,576 bytes.
    TooLarge,
    /// The bytes, the elements and those that are ended, a line each.
    Text(Sequence<u8>),
}

/// Makes an array of so many elements of a class in a new memory and ends it, and tells of both.
///
/// The answer is `Abstract` exactly where the class has a pure final overrider, else `TooLarge` exactly where the region would have
/// more than 1,048,576 bytes. Errors: want of memory.
pub fn array_answer<L: SoundLayout>(
    alloc: Global,
    h: &Hierarchy,
    overriders: &Overriders,
    layout: &L,
    c: ClassId,
    n: u32,
) -> Result<ArrayAnswer, NoMemory>
    requires layout { L.lays_out layout.now h.now }
    requires overriders { AreOverriders h.now overriders.now }
    requires known { c.0 < length h.now }
    requires some_count { 1 ≤ n }
    requires few { n ≤ most_elements }
    requires align { (places_of h.now (L.rows layout.now)).align c ≤ 8 }
    ensures { IfOk result (IsArrayAnswer h.now (places_of h.now (L.rows layout.now)) c n) }
{
    if overriders.is_abstract(c) {
        return Ok(ArrayAnswer::Abstract);
    }
    let size = layout.layout(c).size;
    let cookie = cookie_size(h, layout, c);
    let bytes = cookie as u64 + n as u64 * size as u64;
    if bytes > MOST_BYTES {
        return Ok(ArrayAnswer::TooLarge);
    }
    let text = array_text(alloc, size, cookie, n)?;
    Ok(ArrayAnswer::Text(Sequence::from_vec(text)))
}
