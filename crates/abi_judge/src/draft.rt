//! Rows under judgement, and where they place the bases of a class.

ghost use Rattle.std.specs.Prelude.{◌≡◌, ◌≤◌, ◌<◌, ◌*◌, ◌^◌, Some, length, nat_eq, position, slice_get};
ghost use Rattle.cxx_hierarchy.specs.declared.records.ClassId.{ClassId};
ghost use Rattle.std.specs.Option.{option_copied};
ghost use Rattle.cxx_hierarchy.specs.Limits.{most_classes};
ghost use Rattle.abi_sound.specs.Sound.{most_class_bytes};
ghost use Rattle.cxx_subobject.specs.Subobjects.{IsSubobject, class_of};
ghost use Rattle.abi_sound.specs.Places.{direct_base_place, nth_holder, place_along, place_from, place_in_class, places_of, primary_in, root_place, virtual_place, member_place, first_bit};
ghost use Rattle.abi_judge.specs.Rules.{HasFirstHolders};
ghost use Rattle.abi_primary.specs.PrimaryBase.{is_direct_primary};
ghost use Rattle.abi_judge.specs.invariants.Things.{setting_of, align_of, is_top, part_thing};
ghost use Rattle.abi_judge.specs.invariants.Drafts.{AreDraftRows};

use crate::things::PlacedPart;
use abi_primary::{Primary, flag_of};
use abi_sound::ClassLayout;
use abi_sound::places::{number_of_base, place_of_number};
use cxx_hierarchy::{ClassId, Hierarchy};
use cxx_subobject::{Root, Subobject};

/// A hierarchy, the rows of a layout that is judged, and which classes are dynamic.
#[derive(Clone, Copy)]
pub(crate) struct Draft<'a> {
    pub h: &'a Hierarchy,
    pub rows: &'a [ClassLayout],
    pub dynamic: &'a [bool],
}

/// The number of a class among virtual bases.
fn number_of_virtual(virtuals: &[ClassId], v: ClassId) -> Option<usize>
    ensures { result ≡ position (λ (w : ClassId). nat_eq w.0 v.0) virtuals.now }
{
    virtuals.iter().position(|w| w.0 == v.0)
}

/// The holder of this number, if there is one.
fn holder_of_number(holders: &[Option<Subobject>], number: Option<usize>) -> Option<&Subobject>
    ensures { option_copied result ≡ nth_holder holders.now number }
{
    match number {
        Some(n) => match holders.get(n) {
            Some(holder) => holder.as_ref(),
            None => None,
        },
        None => None,
    }
}

impl<'a> Draft<'a> {
    /// The row of a class.
    pub(crate) fn row(&self, c: ClassId) -> &'a ClassLayout
        requires { c.0 < length self.now.rows.now }
        ensures { slice_get self.now.rows.now c.0 ≡ Some result.now }
    {
        &self.rows[c.0 as usize]
    }

    /// The place of a direct non-virtual base in its class, in bytes; 0 where it is none.
    pub(crate) fn base_place(&self, c: ClassId, b: ClassId) -> u64
        requires { AreDraftRows self.now }
        ensures is { result ≡ direct_base_place self.now.h.now self.now.rows.now c b }
        ensures small { result ≤ most_class_bytes }
    {
        if c.0 >= self.h.len() {
            return 0;
        }
        let number = number_of_base(self.h.class(c).bases.as_slice(), b);
        place_of_number(self.row(c).base_places.as_slice(), number) as u64
    }

    /// The place of a virtual base in a class, in bytes; 0 where it is none.
    pub(crate) fn virtual_place(&self, c: ClassId, v: ClassId) -> u64
        requires draft { AreDraftRows self.now }
        requires known { c.0 < length self.now.h.now }
        ensures is { result ≡ virtual_place self.now.rows.now c v }
        ensures small { result ≤ most_class_bytes }
    {
        let row = self.row(c);
        let number = number_of_virtual(row.virtual_bases.as_slice(), v);
        place_of_number(row.virtual_places.as_slice(), number) as u64
    }

    /// The place of a member in the class that declares it, in bytes; 0 where there is none.
    #[inline(never)]
    pub(crate) fn member_place(&self, d: ClassId, m: u32) -> u64
        requires draft { AreDraftRows self.now }
        requires known { d.0 < length self.now.h.now }
        ensures is { result ≡ member_place self.now.rows.now d m }
        ensures small { result ≤ most_class_bytes }
    {
        place_of_number(self.row(d).member_places.as_slice(), Some(m as usize)) as u64
    }

    /// The first bit of the value of a member, in the byte at its place: 0 where there is no such member.
    pub(crate) fn first_bit(&self, d: ClassId, m: u32) -> u8
        requires draft { AreDraftRows self.now }
        requires known { d.0 < length self.now.h.now }
        ensures { result ≡ first_bit self.now.rows.now d m }
    {
        match self.row(d).member_bits.as_slice().get(m as usize) {
            Some(bits) => bits.first,
            None => 0,
        }
    }

    /// The sum of the places of the direct bases along a path, in bytes.
    fn place_along(&self, c: ClassId, path: &[ClassId]) -> u64
        requires draft { AreDraftRows self.now }
        requires short { length path.now ≤ 2 ^ 32 }
        ensures is { result ≡ place_along self.now.h.now self.now.rows.now c path.now }
        ensures small { result ≤ length path.now * most_class_bytes }
    {
        match path.split_first() {
            Some((b, rest)) => self.base_place(c, *b) + self.place_along(*b, rest),
            None => 0,
        }
    }

    /// The sum of the places along a path and below its first class, in bytes.
    fn place_from(&self, path: &[ClassId]) -> u64
        requires draft { AreDraftRows self.now }
        requires short { length path.now ≤ most_classes }
        ensures is { result ≡ place_from self.now.h.now self.now.rows.now path.now }
        ensures small { result ≤ most_classes * most_class_bytes }
    {
        match path.split_first() {
            Some((d, rest)) => self.place_along(*d, rest),
            None => 0,
        }
    }

    /// The place of the root of a subobject in an object of class `c`, in bytes.
    fn root_place(&self, c: ClassId, root: Root) -> u64
        requires draft { AreDraftRows self.now }
        requires known { c.0 < length self.now.h.now }
        ensures is { result ≡ root_place self.now.rows.now c root }
        ensures small { result ≤ most_class_bytes }
    {
        match root {
            Root::Whole => 0,
            Root::Shared(v) => self.virtual_place(c, v),
        }
    }

    /// The place of a subobject in an object of class `c`, in bytes.
    #[inline(never)]
    pub(crate) fn place(&self, c: ClassId, s: &Subobject) -> u64
        requires draft { AreDraftRows self.now }
        requires known { c.0 < length self.now.h.now }
        requires subobject { IsSubobject self.now.h.now c s.now }
        ensures is { result ≡ place_in_class self.now.h.now self.now.rows.now c s.now }
        ensures small { result ≤ 2 ^ 31 }
    {
        self.root_place(c, s.root) + self.place_from(s.path.as_slice())
    }

    /// Whether a class has another as its direct primary base.
    fn is_direct_primary(&self, a: ClassId, b: ClassId) -> bool
        requires draft { AreDraftRows self.now }
        ensures { result ≡ is_direct_primary (primary_in (slice_get self.now.rows.now a.0)) b }
    {
        match self.rows.get(a.0 as usize) {
            Some(row) => match row.primary {
                Primary::Direct(p) => p.0 == b.0,
                Primary::Virtual(_) => false,
                Primary::None => false,
            },
            None => false,
        }
    }

    /// The subobject of class `c` that holds its virtual base `v`.
    pub(crate) fn holder(&self, c: ClassId, v: ClassId) -> Option<&Subobject>
        requires draft { AreDraftRows self.now }
        requires known { c.0 < length self.now.h.now }
        ensures { option_copied result ≡ (places_of self.now.h.now self.now.rows.now).holder c v }
    {
        let row = self.row(c);
        let number = number_of_virtual(row.virtual_bases.as_slice(), v);
        holder_of_number(row.holders.as_slice(), number)
    }

    /// Whether a subobject of class `e` is the primary base of none in an object of that class.
    fn is_top(&self, e: ClassId, s: &Subobject) -> bool
        requires draft { AreDraftRows self.now }
        requires known { e.0 < length self.now.h.now }
        requires held { HasFirstHolders self.now.h.now (places_of self.now.h.now self.now.rows.now) e }
        requires subobject { IsSubobject self.now.h.now e s.now }
        ensures { result ≡ is_top (places_of self.now.h.now self.now.rows.now) e s.now }
    {
        match s.path.as_slice() {
            [.., a, b] => !self.is_direct_primary(*a, *b),
            _ => match s.root {
                Root::Whole => true,
                Root::Shared(v) => match self.holder(e, v) {
                    Some(_) => false,
                    None => true,
                },
            },
        }
    }

    /// The number of which the place of a subobject of class `d` has to be a multiple: the alignment of a complete object where it
    /// is one, and else that of a base.
    fn align_of(&self, s: &Subobject, d: ClassId) -> u32
        requires draft { AreDraftRows self.now }
        requires known { d.0 < length self.now.h.now }
        requires class { class_of s.now ≡ Some d }
        ensures { result ≡ align_of (places_of self.now.h.now self.now.rows.now) s.now d }
    {
        let row = self.row(d);
        match s.root {
            Root::Whole => {
                if s.path.len() == 1 {
                    row.align
                } else {
                    row.nvalign
                }
            }
            Root::Shared(_) => row.nvalign,
        }
    }

    /// The subobject of class `e` as a thing at a place; it is of class `d`.
    pub(crate) fn part(&self, e: ClassId, s: &Subobject, d: ClassId, place: u64) -> PlacedPart
        requires draft { AreDraftRows self.now }
        requires known { e.0 < length self.now.h.now }
        requires held { HasFirstHolders self.now.h.now (places_of self.now.h.now self.now.rows.now) e }
        requires subobject { IsSubobject self.now.h.now e s.now }
        requires class { class_of s.now ≡ Some d }
        ensures { result ≡ part_thing (setting_of self.now) place e s.now d }
    {
        self.h.keeps();
        PlacedPart {
            class: d,
            place,
            align: self.align_of(s, d),
            is_dynamic: flag_of(self.dynamic, d),
            is_top: self.is_top(e, s),
        }
    }
}
