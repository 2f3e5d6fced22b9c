//! Whether the places of base subobjects are the sums along their paths.

ghost use Rattle.std.specs.Prelude.{◌≡◌, ◌<◌, ◌↔◌, IsTrue, Some, true, false, nat_eq, length, position, slice_get};
ghost use Rattle.cxx_hierarchy.specs.declared.records.ClassId.{ClassId};
ghost use Rattle.abi_sound.specs.Places.{direct_base_place, virtual_place, place_along, place_from, root_place, place_in_class};
ghost use Rattle.abi_print.specs.LayoutTexts.{proper};
ghost use Rattle.abi_foreign.specs.invariants.Sums.{AreSumsOf, HasNoSum};

use crate::class_lines::proper_of;
use crate::said::ClassSaid;
use abi_sound::ClassLayout;
use abi_sound::places::{number_of_base, place_of_number};
use cxx_hierarchy::{ClassId, Hierarchy};
use cxx_subobject::{Root, Subobject};

/// The row of a class.
fn row_at(rows: &[ClassLayout], c: ClassId) -> &ClassLayout
    requires { c.0 < length rows.now }
    ensures { slice_get rows.now c.0 ≡ Some result.now }
{
    &rows[c.0 as usize]
}

/// The place of a direct non-virtual base in its class, in bytes; 0 where it is none.
fn base_place(h: &Hierarchy, rows: &[ClassLayout], c: ClassId, b: ClassId) -> u32
    requires { length rows.now ≡ length h.now }
    ensures { result ≡ direct_base_place h.now rows.now c b }
{
    if c.0 >= h.len() {
        return 0;
    }
    let number = number_of_base(h.class(c).bases.as_slice(), b);
    place_of_number(row_at(rows, c).base_places.as_slice(), number)
}

/// Whether a number is the sum of the places of the direct bases along a path.
#[tactic(auto, using(crate::proofs::SumFacts::along_more, crate::proofs::SumFacts::along_less, crate::proofs::SumFacts::along_none))]
fn is_sum_along(h: &Hierarchy, rows: &[ClassLayout], c: ClassId, path: &[ClassId], sum: u32) -> bool
    requires { length rows.now ≡ length h.now }
    ensures { IsTrue result ↔ (sum ≡ place_along h.now rows.now c path.now) }
{
    match path.split_first() {
        Some((b, rest)) => {
            let first = base_place(h, rows, c, *b);
            if first > sum {
                return false;
            }
            is_sum_along(h, rows, *b, rest, sum - first)
        }
        None => sum == 0,
    }
}

/// Whether a number is the sum of the places along a path and below its first class.
#[tactic(auto, using(crate::proofs::SumFacts::from_first, crate::proofs::SumFacts::from_none))]
fn is_sum_below(h: &Hierarchy, rows: &[ClassLayout], path: &[ClassId], sum: u32) -> bool
    requires { length rows.now ≡ length h.now }
    ensures { IsTrue result ↔ (sum ≡ place_from h.now rows.now path.now) }
{
    match path.split_first() {
        Some((d, rest)) => is_sum_along(h, rows, *d, rest, sum),
        None => sum == 0,
    }
}

/// The number of a class among virtual bases.
fn number_of_virtual(virtuals: &[ClassId], v: ClassId) -> Option<usize>
    ensures { result ≡ position (λ (w : ClassId). nat_eq w.0 v.0) virtuals.now }
{
    virtuals.iter().position(|w| w.0 == v.0)
}

/// The place of a virtual base in a class, in bytes; 0 where it is none.
fn virtual_place(rows: &[ClassLayout], c: ClassId, v: ClassId) -> u32
    requires { c.0 < length rows.now }
    ensures { result ≡ virtual_place rows.now c v }
{
    let row = row_at(rows, c);
    let number = number_of_virtual(row.virtual_bases.as_slice(), v);
    place_of_number(row.virtual_places.as_slice(), number)
}

/// The place of the root of a subobject of class `c`, in bytes.
fn root_place(rows: &[ClassLayout], c: ClassId, root: Root) -> u32
    requires { c.0 < length rows.now }
    ensures { result ≡ root_place rows.now c root }
{
    match root {
        Root::Whole => 0,
        Root::Shared(v) => virtual_place(rows, c, v),
    }
}

/// Whether a place is that of a subobject of class `c` by the rows: the sum of the places along its path, behind the place of
/// the virtual base in which it lies, if it lies in one.
#[tactic(auto, using(crate::proofs::SumFacts::behind_root, crate::proofs::SumFacts::before_root))]
fn is_place(h: &Hierarchy, rows: &[ClassLayout], c: ClassId, s: &Subobject, place: u32) -> bool
    requires count { length rows.now ≡ length h.now }
    requires known { c.0 < length h.now }
    ensures { IsTrue result ↔ (place ≡ place_in_class h.now rows.now c s.now) }
{
    let root = root_place(rows, c, s.root);
    if root > place {
        return false;
    }
    is_sum_below(h, rows, s.path.as_slice(), place - root)
}

/// The subobject of a number.
fn nth_subobject(list: &[Subobject], n: usize) -> &Subobject
    requires { n < length list.now }
    ensures { slice_get list.now n ≡ Some result.now }
{
    &list[n]
}

/// The place of a number.
fn nth_place(places: &[u32], n: usize) -> u32
    requires { n < length places.now }
    ensures { slice_get places.now n ≡ Some result }
{
    places[n]
}

/// Whether each place that the lines of a class say of a base subobject is the sum along its path.
pub(crate) fn are_sums(h: &Hierarchy, rows: &[ClassLayout], c: ClassId, said: &ClassSaid) -> bool
    requires count { length rows.now ≡ length h.now }
    requires known { c.0 < length h.now }
    requires each { length said.now.places ≡ length (proper said.now.list) }
    ensures yes { result ≡ true → AreSumsOf h.now rows.now c (proper said.now.list) said.now.places }
    ensures no { result ≡ false → HasNoSum h.now rows.now c (proper said.now.list) said.now.places }
{
    let list = proper_of(said.list.as_slice());
    let places = said.places.as_slice();
    for n in 0..list.len() {
        if !is_place(h, rows, c, nth_subobject(list, n), nth_place(places, n)) {
            return false;
        }
    }
    true
}
