//! What a class declares, for every number: past the last class there is nothing.

ghost use Rattle.std.specs.Prelude.{◌≡◌, ◌<◌, Some, option_copied, length, slice_get};
ghost use Rattle.cxx_hierarchy.specs.Classes.{bases_of, members_of};
ghost use Rattle.path_plan.specs.Plans.{virtual_order};
ghost use Rattle.path_numbers.specs.Numbers.{AreClassNumbers};

use cxx_hierarchy::{Base, ClassId, Hierarchy, Member};
use path_numbers::Numbers;

/// The direct bases of a class.
pub(crate) fn bases_of(h: &Hierarchy, c: ClassId) -> &[Base<ClassId>]
    ensures { result.now ≡ bases_of h.now c }
{
    if c.0 >= h.len() {
        return &[];
    }
    h.class(c).bases.as_slice()
}

/// The data members that a class declares.
pub(crate) fn members_of(h: &Hierarchy, c: ClassId) -> &[Member<ClassId>]
    ensures { result.now ≡ members_of h.now c }
{
    if c.0 >= h.len() {
        return &[];
    }
    h.class(c).members.as_slice()
}

/// The virtual bases of a class, in the order in which they are built (ISO C++03 12.6.2 p5).
pub(crate) fn order_of<'n>(h: &Hierarchy, numbers: &'n Numbers, c: ClassId) -> &'n [ClassId]
    requires { AreClassNumbers h.now numbers.now }
    ensures { result.now ≡ virtual_order h.now c }
{
    h.keeps();
    if c.0 >= h.len() {
        return &[];
    }
    numbers.virtual_bases(c)
}

/// The direct base at a place.
pub(crate) fn base_at(h: &Hierarchy, c: ClassId, i: usize) -> Option<&Base<ClassId>>
    ensures { option_copied result ≡ slice_get (bases_of h.now c) i }
{
    bases_of(h, c).get(i)
}

/// The data member at a place.
pub(crate) fn member_at(h: &Hierarchy, c: ClassId, m: usize) -> Option<&Member<ClassId>>
    ensures { option_copied result ≡ slice_get (members_of h.now c) m }
{
    members_of(h, c).get(m)
}

/// The class at a place of an order.
pub(crate) fn class_at(order: &[ClassId], place: usize) -> ClassId
    requires { place < length order.now }
    ensures { slice_get order.now place ≡ Some result }
{
    order[place]
}
