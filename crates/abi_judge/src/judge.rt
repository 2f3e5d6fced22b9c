//! The judgement of a class, rule by rule.

ghost use Rattle.std.specs.Prelude.{◌≡◌, ◌<◌, ◌≤◌, ◌↔◌, IsTrue, IfOk, Some, false, length, slice_get};
ghost use Rattle.std.specs.List.{filter_map, list_all};
ghost use Rattle.abi_sound.specs.Sound.{most_class_bytes};
ghost use Rattle.cxx_hierarchy.specs.VirtualBases.{IsDirectBase, HasVirtualBase};
ghost use Rattle.abi_primary.specs.Kinds.{IsDynamic};
ghost use Rattle.cxx_subobject.specs.declared.Subobject.{Subobject};
ghost use Rattle.cxx_subobject.specs.Preorder.{preorder};
ghost use Rattle.cxx_subobject.specs.Subobjects.{IsSubobject};
ghost use Rattle.abi_sound.specs.Places.{places_of};
ghost use Rattle.abi_sound.specs.Chains.{primary_part};
ghost use Rattle.abi_judge.specs.Rules.{MayBeJudged, IsFault, KeepsPrimary, KeepsPlace, HasFirstHolders};
ghost use Rattle.abi_judge.specs.invariants.Drafts.{AreDraftRows, IsDraftTo};
ghost use Rattle.abi_judge.specs.invariants.Things.{is_multiple, is_fit, fits_in_size, span_in};
ghost use Rattle.abi_judge.specs.invariants.Apart.{AreLong};
ghost use Rattle.abi_judge.specs.invariants.Places.{LiesAtHeld, LiesAtPrimary, AllLie, IsFaultOfThings};

use crate::apart::{has_twice, shares_bits};
use crate::draft::Draft;
use crate::rules::SoundRule;
use crate::things::Thing;
use crate::walk::class_or_first;
use abi_primary::{Primary, dynamic_flags, flag_of};
use abi_sound::ClassLayout;
use cxx_hierarchy::{ClassId, Hierarchy};
use cxx_subobject::{Subobject, is_same, list_subobjects};
use foundation::NoMemory;
use std::alloc::Global;

impl<'a> Draft<'a> {
    /// Whether a class names another as a base that is not virtual, and that is dynamic.
    fn has_dynamic_base(&self, c: ClassId, b: ClassId) -> bool
        requires draft { AreDraftRows self.now }
        requires known { c.0 < length self.now.h.now }
        ensures { IsTrue result ↔ (IsDirectBase self.now.h.now c false b × IsDynamic self.now.h.now b) }
    {
        if has_direct_base(self.h, c, b) {
            flag_of(self.dynamic, b)
        } else {
            false
        }
    }

    /// Whether a class has another as a virtual base, and that is dynamic.
    fn has_dynamic_virtual_base(&self, c: ClassId, v: ClassId) -> bool
        requires draft { AreDraftRows self.now }
        requires known { c.0 < length self.now.h.now }
        ensures { IsTrue result ↔ (HasVirtualBase self.now.h.now c v × IsDynamic self.now.h.now v) }
    {
        if self.h.has_virtual_base(c, v) {
            flag_of(self.dynamic, v)
        } else {
            false
        }
    }

    /// Whether the primary base of a class is a dynamic base of it, or there is none.
    fn keeps_primary(&self, c: ClassId) -> bool
        requires draft { AreDraftRows self.now }
        requires known { c.0 < length self.now.h.now }
        requires held { HasFirstHolders self.now.h.now (places_of self.now.h.now self.now.rows.now) c }
        ensures { IsTrue result ↔ KeepsPrimary self.now.h.now (places_of self.now.h.now self.now.rows.now) c }
    {
        match self.row(c).primary {
            Primary::None => true,
            Primary::Direct(b) => self.has_dynamic_base(c, b),
            Primary::Virtual(v) => self.has_dynamic_virtual_base(c, v),
        }
    }

    /// Whether a subobject of class `c` lies at a virtual base of it, where it holds that.
    fn lies_at_held(&self, c: ClassId, v: ClassId, s: &Subobject) -> bool
        requires draft { AreDraftRows self.now }
        requires known { c.0 < length self.now.h.now }
        requires subobject { IsSubobject self.now.h.now c s.now }
        ensures { IsTrue result ↔ LiesAtHeld self.now.h.now self.now.rows.now c v s.now }
    {
        match self.holder(c, v) {
            Some(t) => {
                if is_same(t, s) {
                    self.virtual_place(c, v) == self.place(c, s)
                } else {
                    true
                }
            }
            None => true,
        }
    }

    /// Whether a subobject of class `c` and its primary base have one place.
    fn lies_at_primary(&self, c: ClassId, s: &Subobject) -> bool
        requires draft { AreDraftRows self.now }
        requires known { c.0 < length self.now.h.now }
        requires subobject { IsSubobject self.now.h.now c s.now }
        ensures { IsTrue result ↔ LiesAtPrimary (places_of self.now.h.now self.now.rows.now) c s.now }
    {
        let d = class_or_first(s);
        match self.row(d).primary {
            Primary::None => true,
            Primary::Direct(b) => self.base_place(d, b) == 0,
            Primary::Virtual(v) => self.lies_at_held(c, v, s),
        }
    }

    /// Whether each subobject of class `c` lies where its primary base does.
    fn all_lie(&self, c: ClassId, list: &[Subobject]) -> bool
        requires draft { AreDraftRows self.now }
        requires known { c.0 < length self.now.h.now }
        requires list { list.now ≡ preorder self.now.h.now c }
        ensures { IsTrue result ↔ AllLie (places_of self.now.h.now self.now.rows.now) c list.now }
    {
        for s in list {
            if !self.lies_at_primary(c, s) {
                return false;
            }
        }
        true
    }

    /// Whether the size of a class is not 0, and each subobject lies where its primary base does.
    fn keeps_place(&self, c: ClassId, list: &[Subobject]) -> bool
        requires draft { AreDraftRows self.now }
        requires known { c.0 < length self.now.h.now }
        requires list { list.now ≡ preorder self.now.h.now c }
        ensures { IsTrue result ↔ KeepsPlace self.now.h.now (places_of self.now.h.now self.now.rows.now) c }
    {
        if self.row(c).size == 0 {
            false
        } else {
            self.all_lie(c, list)
        }
    }
}

/// Whether a class names another as a base that is not virtual.
fn has_direct_base(h: &Hierarchy, c: ClassId, b: ClassId) -> bool
    requires { c.0 < length h.now }
    ensures { IsTrue result ↔ IsDirectBase h.now c false b }
{
    for base in h.class(c).bases.as_slice() {
        if !base.is_virtual && base.class.0 == b.0 {
            return true;
        }
    }
    false
}

/// Whether a place is a multiple of an alignment; of 0 only 0 is.
fn is_multiple(align: u64, place: u64) -> bool
    ensures { result ≡ is_multiple align place }
{
    if align == 0 {
        place == 0
    } else {
        place % align == 0
    }
}

/// Whether a thing lies as its alignment asks, or as the bounds of a bit-field do.
fn is_fit(thing: &Thing) -> bool
    ensures { result ≡ is_fit thing.now }
{
    match thing {
        Thing::Leaf(leaf) => match leaf.width {
            None => is_multiple(leaf.size as u64, leaf.place) && leaf.first == 0,
            Some(n) => leaf.first < 8 && leaf.first as u64 + n as u64 <= 64,
        },
        Thing::Part(part) => is_multiple(part.align as u64, part.place),
    }
}

/// Whether a thing lies inside so many bytes.
fn is_inside(size: u32, thing: &Thing) -> bool
    ensures { result ≡ fits_in_size size thing.now }
{
    let size = size as u64;
    match thing {
        Thing::Leaf(leaf) => {
            let bits = match leaf.width {
                None => 8 * leaf.size as u64,
                Some(n) => n as u64,
            };
            leaf.place <= size && 8 * leaf.place + leaf.first as u64 + bits <= 8 * size
        }
        Thing::Part(part) => { part.place < size && (!part.is_dynamic || part.place + 8 <= size) }
    }
}

fn are_fit(things: &[Thing]) -> bool
    ensures { result ≡ list_all is_fit things.now }
{
    things.iter().all(|thing| is_fit(thing))
}

fn are_inside(size: u32, things: &[Thing]) -> bool
    ensures { result ≡ list_all (fits_in_size size) things.now }
{
    things.iter().all(|thing| is_inside(size, thing))
}

/// The first rule that a class of a draft does not keep, where the classes before it are sound.
fn fault_in(alloc: Global, draft: &Draft, c: ClassId) -> Result<Option<SoundRule>, NoMemory>
    requires draft { AreDraftRows draft.now }
    requires next { MayBeJudged draft.now.h.now draft.now.rows.now c }
    ensures { IfOk result (IsFault draft.now.h.now (places_of draft.now.h.now draft.now.rows.now) c) }
{
    if !draft.keeps_primary(c) {
        return Ok(Some(SoundRule::Primary));
    }
    let list = list_subobjects(alloc, draft.h, c)?;
    if !draft.keeps_place(c, list.as_slice()) {
        return Ok(Some(SoundRule::Place));
    }
    let things = draft.things(alloc, c)?;
    let fault = fault_of_things(alloc, &things, draft.row(c).size)?;
    Ok(fault)
}

/// The first rule of a sound layout that a class does not keep by these rows, and None exactly where it is sound. The classes
/// before it have to be sound.
///
/// Errors: want of memory.
pub fn fault_of_class(
    alloc: Global,
    h: &Hierarchy,
    rows: &[ClassLayout],
    c: ClassId,
) -> Result<Option<SoundRule>, NoMemory>
    requires { MayBeJudged h.now rows.now c }
    ensures { IfOk result (IsFault h.now (places_of h.now rows.now) c) }
{
    h.keeps();
    let dynamic = dynamic_flags(alloc, h)?;
    let draft = Draft {
        h,
        rows,
        dynamic: &dynamic,
    };
    fault_in(alloc, &draft, c)
}

/// The first rule that the things in an object of this size do not keep.
fn fault_of_things(
    alloc: Global,
    things: &[Thing],
    size: u32,
) -> Result<Option<SoundRule>, NoMemory>
    requires size { size ≤ most_class_bytes }
    requires long { AreLong (filter_map span_in things.now) }
    ensures { IfOk result (IsFaultOfThings size things.now) }
{
    if !are_fit(things) {
        return Ok(Some(SoundRule::Align));
    }
    if !are_inside(size, things) {
        return Ok(Some(SoundRule::Inside));
    }
    if shares_bits(alloc, things, size)? {
        return Ok(Some(SoundRule::Overlap));
    }
    if has_twice(alloc, things)? {
        return Ok(Some(SoundRule::Twice));
    }
    Ok(None)
}
