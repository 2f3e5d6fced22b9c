//! What a listing says, class by class.

ghost use Rattle.std.specs.Prelude.{◌≡◌, ◌<◌, ◌^◌, ◌⊎◌, IfOk, IfErr, length};
ghost use Rattle.abi_foreign.specs.Refusals.{IsRefused};
ghost use Rattle.abi_foreign.specs.invariants.Said.{AreSaid};

use crate::class_lines::read_class;
use crate::cursor::Cursor;
use crate::listing_stop::ListingStop;
use crate::said::ClassSaid;
use cxx_hierarchy::{ClassId, Hierarchy};
use foundation::Sequence;
use std::alloc::Global;

/// What the lines of a listing say of each class.
///
/// Errors: `Form`, exactly where the text is not of the form of a listing, with the first line that is not of the form that stands at
/// its place, or is too many, or is missing; want of memory.
pub(crate) fn read_listing(
    alloc: Global,
    h: &Hierarchy,
    text: &[u8],
) -> Result<Sequence<ClassSaid>, ListingStop>
    requires { length text.now < 2 ^ 31 }
    ensures ok { IfOk result (λ saids. AreSaid h.now text.now saids) }
    ensures err { IfErr result (λ stop. (stop ≡ ListingStop.NoMemory) ⊎ IsRefused h.now text.now stop) }
{
    let mut saids = Sequence::new(alloc);
    let mut cursor = Cursor {
        rest: text,
        line: 1,
    };
    for n in 0..h.len() {
        let (said, after) = read_class(alloc, h, ClassId(n), cursor)?;
        saids.push(said)?;
        cursor = after;
    }
    if !cursor.rest.is_empty() {
        return Err(cursor.refused());
    }
    Ok(saids)
}
