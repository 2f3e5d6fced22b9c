//! The hint of a `dynamic_cast` (Itanium C++ ABI 2.9.7).
//!
//! Before there is any object, the classes alone can tell where the source lies in an object of the target's class: at one place, not
//! there as a public base, or there more than once. The one who casts looks at that place first.

ghost use Rattle.std.specs.Prelude.{◌≡◌, ◌<◌, IfOk, Contains, filter, length};
ghost use Rattle.std.specs.List.{list_any};
ghost use Rattle.cxx_subobject.specs.declared.Subobject.{Subobject};
ghost use Rattle.cxx_subobject.specs.Subobjects.{IsSubobject, whole_of, is_of_class};
ghost use Rattle.cxx_search.specs.Searches.{is_public_in, the_only};
ghost use Rattle.path_model.specs.Uses.{is_shared};
ghost use Rattle.abi_sound.specs.Places.{places_of};
ghost use Rattle.code_statements.specs.Hints.{sources, plain_place, hint_by, hint_of};

use abi_sound::SoundLayout;
use code_ops::reads::is_shared;
use cxx_hierarchy::{ClassId, Hierarchy};
use cxx_subobject::listing::longer_path;
use cxx_subobject::{Root, Subobject, SubobjectList, class_of, is_public_base, list_subobjects};
use foundation::{NoMemory, Sequence};
use std::alloc::Global;

/// The hint that says nothing.
const NO_HINT: i64 = -1;
/// The hint that no source is a public base of an object of the target's class.
const NOT_PUBLIC: i64 = -2;
/// The hint that two sources at least are public bases of it, and none lies in a virtual base.
const SEVERAL: i64 = -3;

/// The whole of an object of a class.
fn whole_of(alloc: Global, c: ClassId) -> Result<Subobject, NoMemory>
    ensures { IfOk result (λ s. s ≡ whole_of c) }
{
    Ok(Subobject {
        root: Root::Whole,
        path: longer_path(alloc, &[c], &[])?,
    })
}

/// Whether a subobject is of a class.
fn is_of_class(class: ClassId, s: &Subobject) -> bool
    ensures { result ≡ is_of_class class s.now }
{
    match class_of(s) {
        Some(d) => class.0 == d.0,
        None => false,
    }
}

/// The subobjects of class `from` in an object of class `to`.
fn sources(
    alloc: Global,
    h: &Hierarchy,
    from: ClassId,
    to: ClassId,
) -> Result<SubobjectList, NoMemory>
    requires { to.0 < length h.now }
    ensures { IfOk result (λ list. list ≡ sources h.now from to) }
{
    let mut list = list_subobjects(alloc, h, to)?.into_vec();
    list.retain(|s| is_of_class(from, s));
    Ok(Sequence::from_vec(list))
}

/// Whether a subobject of an object of class `c` is a public base of it.
fn is_public(h: &Hierarchy, c: ClassId, whole: &Subobject, s: &Subobject) -> bool
    requires whole { whole.now ≡ whole_of c }
    requires base { IsSubobject h.now c s.now }
    ensures { result ≡ is_public_in h.now (whole_of c) s.now }
{
    h.keeps();
    is_public_base(h, c, whole, s)
}

/// How many of these subobjects are public bases of an object of class `c`.
fn count_public(h: &Hierarchy, c: ClassId, whole: &Subobject, list: &[Subobject]) -> usize
    requires whole { whole.now ≡ whole_of c }
    requires bases { (s : Subobject) → Contains list.now s → IsSubobject h.now c s }
    ensures { result ≡ length (filter (is_public_in h.now (whole_of c)) list.now) }
{
    let mut count = 0;
    for s in list {
        if is_public(h, c, whole, s) {
            count += 1;
        }
    }
    count
}

/// The place of the only one of these subobjects of an object of class `c`, where it lies in no virtual base.
fn only_place<L: SoundLayout>(
    h: &Hierarchy,
    layout: &L,
    c: ClassId,
    list: &[Subobject],
) -> Option<u32>
    requires layout { L.lays_out layout.now h.now }
    requires known { c.0 < length h.now }
    requires bases { (s : Subobject) → Contains list.now s → IsSubobject h.now c s }
    ensures { result ≡ plain_place ((places_of h.now (L.rows layout.now)).place c) (the_only list.now) }
{
    match list {
        [s] => {
            if is_shared(s) {
                None
            } else {
                Some(layout.place(h, c, s))
            }
        }
        _ => None,
    }
}

/// Whether one of these subobjects lies in a virtual base.
fn has_shared(list: &[Subobject]) -> bool
    ensures { result ≡ list_any is_shared list.now }
{
    list.iter().any(|s| is_shared(s))
}

/// The hint by how many sources are public bases, by the place of the only source, and by whether some source lies in a virtual base.
fn hint_by(public: usize, place: Option<u32>, shared: bool) -> i64
    ensures { result ≡ hint_by public place shared }
{
    if public == 0 {
        return NOT_PUBLIC;
    }
    match place {
        Some(place) => place as i64,
        None => {
            if public >= 2 && !shared {
                SEVERAL
            } else {
                NO_HINT
            }
        }
    }
}

/// What a `dynamic_cast` from a pointer to class `from` is told of an object of class `to`, in bytes (Itanium C++ ABI 2.9.7): -2 where
/// no subobject of class `from` is a public base of it; else the place of the only one, where that lies in no virtual base; else -3
/// where two at least are public bases and none lies in a virtual base; else -1.
///
/// It takes as long as a walk over the subobjects of the object.
///
/// Errors: want of memory.
pub fn hint_of<L: SoundLayout>(
    alloc: Global,
    h: &Hierarchy,
    layout: &L,
    from: ClassId,
    to: ClassId,
) -> Result<i64, NoMemory>
    requires layout { L.lays_out layout.now h.now }
    requires known { to.0 < length h.now }
    ensures { IfOk result (λ hint. hint ≡ hint_of h.now (places_of h.now (L.rows layout.now)) from to) }
{
    let list = sources(alloc, h, from, to)?;
    let whole = whole_of(alloc, to)?;
    let bases = list.as_slice();
    let public = count_public(h, to, &whole, bases);
    let place = only_place(h, layout, to, bases);
    Ok(hint_by(public, place, has_shared(bases)))
}
