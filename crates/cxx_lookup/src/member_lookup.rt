//! The declaration that a name finds.

ghost use Rattle.std.specs.Prelude.{◌≡◌, ◌<◌, ◌↔◌, IsTrue, IfOk, IfErr, MatchOption, length};
ghost use Rattle.cxx_subobject.specs.Subobjects.{IsSubobject};
ghost use Rattle.cxx_subobject.specs.Inside.{IsInside};
ghost use Rattle.cxx_lookup.specs.Lookup.{place_of_found, IsFound, IsLookupFault};
ghost use Rattle.cxx_lookup.specs.invariants.Searches.{AreIn, IsPlaceIn, found_at, IsHidden, GoesOver, AreHidden, IsHighest};

use crate::declarations::declarations;
use crate::{Found, LookupFault};
use cxx_hierarchy::{ClassId, Hierarchy};
use cxx_subobject::{containment_is_order, contains};
use std::alloc::Global;

/// Whether the subobject of one declaration has that of another in it.
fn hides(h: &Hierarchy, c: ClassId, one: &Found, other: &Found) -> bool
    requires one { IsSubobject h.now c (place_of_found one.now) }
    requires other { IsSubobject h.now c (place_of_found other.now) }
    ensures { IsTrue result ↔ IsInside h.now (place_of_found one.now) (place_of_found other.now) }
{
    contains(h, c, one.place(), other.place())
}

/// Whether the hider, the declaration of that number in a list, hides another. No hider hides none.
fn is_hidden(h: &Hierarchy, c: ClassId, list: &[Found], hider: Option<usize>, found: &Found) -> bool
    requires list { AreIn h.now c list.now }
    requires hider { IsPlaceIn list.now hider }
    requires found { IsSubobject h.now c (place_of_found found.now) }
    ensures { IsTrue result ↔ IsHidden h.now (found_at list.now hider) found.now }
{
    match hider {
        None => false,
        Some(number) => hides(h, c, &list[number], found),
    }
}

/// Whether a declaration hides the best one so far. It goes over none.
fn goes_over(h: &Hierarchy, c: ClassId, list: &[Found], best: Option<usize>, found: &Found) -> bool
    requires list { AreIn h.now c list.now }
    requires best { IsPlaceIn list.now best }
    requires found { IsSubobject h.now c (place_of_found found.now) }
    ensures { IsTrue result ↔ GoesOver h.now found.now (found_at list.now best) }
{
    match best {
        None => true,
        Some(number) => hides(h, c, found, &list[number]),
    }
}

/// The number of a declaration that the hider does not hide, nor any other that the hider does not hide.
fn highest(h: &Hierarchy, c: ClassId, list: &[Found], hider: Option<usize>) -> Option<usize>
    requires list { AreIn h.now c list.now }
    requires hider { IsPlaceIn list.now hider }
    ensures { MatchOption result (AreHidden h.now (found_at list.now hider) list.now (length list.now)) (IsHighest h.now (found_at list.now hider) list.now (length list.now)) }
{
    h.keeps();
    containment_is_order();
    let mut best: Option<usize> = None;
    for (number, found) in list.iter().enumerate() {
        if is_hidden(h, c, list, hider, found) {
            continue;
        }
        if goes_over(h, c, list, best, found) {
            best = Some(number);
        }
    }
    best
}

/// What a name means in a class: the one declaration that no other hides (ISO C++03 10.2).
///
/// Errors: `NoSuchMember` exactly where no subobject of the class declares the name, `AmbiguousName` exactly where
/// two declarations are left; want of memory.
pub fn lookup(alloc: Global, h: &Hierarchy, c: ClassId, name: &[u8]) -> Result<Found, LookupFault>
    requires known { c.0 < length h.now }
    ensures ok { IfOk result (IsFound h.now c name.now) }
    ensures err { IfErr result (IsLookupFault h.now c name.now) }
{
    h.keeps();
    containment_is_order();
    let mut list = declarations(alloc, h, c, name)?;
    let Some(best) = highest(h, c, &list, None) else {
        return Err(LookupFault::NoSuchMember);
    };
    if highest(h, c, &list, Some(best)).is_some() {
        return Err(LookupFault::AmbiguousName);
    }
    Ok(list.swap_remove(best))
}
