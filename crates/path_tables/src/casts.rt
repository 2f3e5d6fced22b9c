//! Where a cast leads, among the subobjects of a class (ISO C++03 5.2.7 p8).

ghost use Rattle.std.specs.Prelude.{◌≡◌, ◌↔◌, IsTrue, Some, None};
ghost use Rattle.cxx_subobject.specs.Subobjects.{IsSubobject};
ghost use Rattle.foundation.specs.Only.{IsOnly};
ghost use Rattle.cxx_search.specs.Casts.{CastsDown, CastsAcross};
ghost use Rattle.path_tables.specs.invariants.Targets.{AreAmong, IsWanted, is_passed_over, IsOther, IsOtherAt, IsPlaceOf, IsCastTo};

use crate::parts::is_of_class;
use cxx_hierarchy::{ClassId, Hierarchy};
use cxx_subobject::{Subobject, contains, is_public_base};

/// A cast to the class `target` from a subobject in a view, both among the subobjects of class c, which are `parts` in
/// preorder.
#[derive(Clone, Copy)]
pub(crate) struct Cast<'a> {
    pub h: &'a Hierarchy,
    pub c: ClassId,
    pub parts: &'a [Subobject],
    pub target: ClassId,
    pub view: &'a Subobject,
    pub source: &'a Subobject,
}

/// Whether a subobject is a target of a cast, and where this is asked one in which the source lies.
fn is_wanted(cast: &Cast, over: bool, t: &Subobject) -> bool
    requires among { AreAmong cast.now.h.now cast.now.c cast.now.parts.now cast.now.view.now cast.now.source.now }
    requires t { IsSubobject cast.now.h.now cast.now.c t.now }
    ensures { IsTrue result ↔ IsWanted cast.now.h.now cast.now.target cast.now.view.now cast.now.source.now over t.now }
{
    if !is_of_class(t, cast.target) {
        return false;
    }
    if !contains(cast.h, cast.c, cast.view, t) {
        return false;
    }
    if over {
        contains(cast.h, cast.c, t, cast.source)
    } else {
        true
    }
}

/// Whether this is the place to be passed over.
fn is_at(skip: Option<usize>, i: usize) -> bool
    ensures { result ≡ is_passed_over skip i }
{
    match skip {
        Some(place) => place == i,
        None => false,
    }
}

/// Whether a wanted target stands at a place that is not passed over.
fn is_other(cast: &Cast, over: bool, skip: Option<usize>, i: usize, t: &Subobject) -> bool
    requires among { AreAmong cast.now.h.now cast.now.c cast.now.parts.now cast.now.view.now cast.now.source.now }
    requires t { IsSubobject cast.now.h.now cast.now.c t.now }
    ensures { IsTrue result ↔ IsOther (IsWanted cast.now.h.now cast.now.target cast.now.view.now cast.now.source.now over) skip i t.now }
{
    if is_at(skip, i) {
        return false;
    }
    is_wanted(cast, over, t)
}

/// A place where a wanted target stands, but for the one that is passed over.
fn other_wanted(cast: &Cast, over: bool, skip: Option<usize>) -> Option<usize>
    requires { AreAmong cast.now.h.now cast.now.c cast.now.parts.now cast.now.view.now cast.now.source.now }
    ensures { IsOtherAt (IsWanted cast.now.h.now cast.now.target cast.now.view.now cast.now.source.now over) cast.now.parts.now skip result }
{
    cast.h.keeps();
    let parts = cast.parts;
    for (i, t) in parts.iter().enumerate() {
        if is_other(cast, over, skip, i, t) {
            return Some(i);
        }
    }
    None
}

/// The first place, unless another wanted target stands at another.
fn if_only(cast: &Cast, over: bool, first: usize) -> Option<usize>
    requires among { AreAmong cast.now.h.now cast.now.c cast.now.parts.now cast.now.view.now cast.now.source.now }
    requires first { IsOtherAt (IsWanted cast.now.h.now cast.now.target cast.now.view.now cast.now.source.now over) cast.now.parts.now None (Some first) }
    ensures { IsPlaceOf (IsOnly (IsWanted cast.now.h.now cast.now.target cast.now.view.now cast.now.source.now over)) cast.now.parts.now result }
{
    cast.h.keeps();
    match other_wanted(cast, over, Some(first)) {
        Some(_) => None,
        None => Some(first),
    }
}

/// The place of the one target, if there is exactly one.
fn only_target(cast: &Cast, over: bool) -> Option<usize>
    requires { AreAmong cast.now.h.now cast.now.c cast.now.parts.now cast.now.view.now cast.now.source.now }
    ensures { IsPlaceOf (IsOnly (IsWanted cast.now.h.now cast.now.target cast.now.view.now cast.now.source.now over)) cast.now.parts.now result }
{
    cast.h.keeps();
    match other_wanted(cast, over, None) {
        Some(first) => if_only(cast, over, first),
        None => None,
    }
}

/// The place of the subobject to which a cast down leads, if it leads there.
fn down_place(cast: &Cast) -> Option<usize>
    requires { AreAmong cast.now.h.now cast.now.c cast.now.parts.now cast.now.view.now cast.now.source.now }
    ensures { IsPlaceOf (CastsDown cast.now.h.now cast.now.target cast.now.view.now cast.now.source.now) cast.now.parts.now result }
{
    cast.h.keeps();
    let parts = cast.parts;
    let i = only_target(cast, true)?;
    if is_public_base(cast.h, cast.c, &parts[i], cast.source) {
        Some(i)
    } else {
        None
    }
}

/// The same of a cast across.
fn across_place(cast: &Cast) -> Option<usize>
    requires { AreAmong cast.now.h.now cast.now.c cast.now.parts.now cast.now.view.now cast.now.source.now }
    ensures { IsPlaceOf (CastsAcross cast.now.h.now cast.now.target cast.now.view.now cast.now.source.now) cast.now.parts.now result }
{
    cast.h.keeps();
    let parts = cast.parts;
    if !is_public_base(cast.h, cast.c, cast.view, cast.source) {
        return None;
    }
    let i = only_target(cast, false)?;
    if is_public_base(cast.h, cast.c, cast.view, &parts[i]) {
        Some(i)
    } else {
        None
    }
}

/// The place of the subobject to which a cast leads: down, else across.
pub(crate) fn cast_place(cast: &Cast) -> Option<usize>
    requires { AreAmong cast.now.h.now cast.now.c cast.now.parts.now cast.now.view.now cast.now.source.now }
    ensures { IsCastTo cast.now.h.now cast.now.target cast.now.view.now cast.now.source.now cast.now.parts.now result }
{
    match down_place(cast) {
        Some(i) => Some(i),
        None => across_place(cast),
    }
}
