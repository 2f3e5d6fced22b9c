//! The words of the group of a view.

ghost use Rattle.std.specs.Prelude.{◌≡◌, ◌<◌, ◌↔◌, true, IsTrue, IfOk, Some, length};
ghost use Rattle.cxx_hierarchy.specs.declared.records.ClassId.{ClassId};
ghost use Rattle.cxx_hierarchy.specs.Classes.{Classes};
ghost use Rattle.cxx_hierarchy.specs.VirtualBases.{HasVirtualBase};
ghost use Rattle.cxx_subobject.specs.Subobjects.{IsSubobject};
ghost use Rattle.abi_primary.specs.Kinds.{TellDynamic};
ghost use Rattle.abi_sound.specs.Places.{Places, places_of};
ghost use Rattle.abi_slots.specs.Groups.{is_shared_base};
ghost use Rattle.abi_slots.specs.Slots.{AreSlots, IsVirtualBase};
ghost use Rattle.abi_slots.specs.Views.{IsView};
ghost use Rattle.abi_tables.specs.Counts.{group_words, words_of_class};
ghost use Rattle.abi_tables.specs.invariants.Weights.{AreNumbers, IsHeldIn, cut, head_words, sides_of, top_words, view_at};

use crate::kinds::{is_dynamic, is_dynamic_by};
use crate::numbers::{MOST_WORDS, capped, number_of};
use abi_primary::dynamic_flags;
use abi_slots::Slots;
use abi_sound::SoundLayout;
use cxx_hierarchy::{ClassId, Hierarchy};
use cxx_subobject::{Root, Subobject, contains};
use foundation::NoMemory;
use std::alloc::Global;

/// The words of the table of a class.
fn class_table(slots: &Slots, c: ClassId, is_shared: bool) -> u32
    ensures { (h : Classes) (l : Places) → AreSlots h l slots.now → c.0 < length h → (is_shared ≡ true → IsVirtualBase h c) → result ≡ words_of_class h l is_shared (Some c) }
{
    slots.offsets(c, is_shared).len() as u32 + 2 + slots.entries(c).len() as u32
}

/// The words of the table of a head that is no virtual base.
fn head_word_count<L: SoundLayout>(
    h: &Hierarchy,
    _layout: &L,
    slots: &Slots,
    flags: &[bool],
    c: ClassId,
) -> u32
    requires slots { AreSlots h.now (places_of h.now (L.rows _layout.now)) slots.now }
    requires flags { TellDynamic h.now flags.now }
    requires known { c.0 < length h.now }
    ensures { result ≡ head_words h.now (places_of h.now (L.rows _layout.now)) c }
{
    if is_dynamic_by(h, flags, c) {
        class_table(slots, c, false)
    } else {
        0
    }
}

/// For each class the words of its table, where it is a head and no virtual base.
///
/// Errors: want of memory.
pub(crate) fn head_word_counts<L: SoundLayout>(
    alloc: Global,
    h: &Hierarchy,
    layout: &L,
    slots: &Slots,
) -> Result<Vec<u32>, NoMemory>
    requires { AreSlots h.now (places_of h.now (L.rows layout.now)) slots.now }
    ensures { IfOk result (λ words. AreNumbers h.now (head_words h.now (places_of h.now (L.rows layout.now))) words.items) }
{
    let flags = dynamic_flags(alloc, h)?;
    let mut words = Vec::new(alloc);
    for n in 0..h.len() {
        let word = head_word_count(h, layout, slots, &flags, ClassId(n));
        words.push(word.min(MOST_WORDS + 1))?;
    }
    Ok(words)
}

/// Whether a subobject is a virtual base of the complete object, itself.
fn is_shared_base(s: &Subobject) -> bool
    ensures { result ≡ is_shared_base s.now }
{
    match s.root {
        Root::Whole => false,
        Root::Shared(_) => s.path.len() == 1,
    }
}

/// Whether a subobject that lies in `x`, of an object of class `c`, holds a virtual base of it.
fn is_held<L: SoundLayout>(h: &Hierarchy, layout: &L, c: ClassId, x: &Subobject, v: ClassId) -> bool
    requires layout { L.lays_out layout.now h.now }
    requires known { c.0 < length h.now }
    requires valid { IsSubobject h.now c x.now }
    requires base { HasVirtualBase h.now c v }
    ensures { IsTrue result ↔ IsHeldIn h.now (places_of h.now (L.rows layout.now)) c x.now v }
{
    h.keeps();
    match layout.holder(c, v) {
        Some(holder) => contains(h, c, x, holder),
        None => false,
    }
}

/// The words of the table of a virtual base in the group of a view, if it has one there.
fn top_word_count<L: SoundLayout>(
    h: &Hierarchy,
    layout: &L,
    slots: &Slots,
    c: ClassId,
    x: &Subobject,
    d: ClassId,
    v: ClassId,
) -> u32
    requires layout { L.lays_out layout.now h.now }
    requires slots { AreSlots h.now (places_of h.now (L.rows layout.now)) slots.now }
    requires view { IsView h.now (view_at c x.now d) }
    requires base { HasVirtualBase h.now d v }
    ensures { result ≡ top_words h.now (places_of h.now (L.rows layout.now)) (view_at c x.now d) v }
{
    h.keeps();
    if !is_dynamic(h, v) {
        return 0;
    }
    if is_held(h, layout, c, x, v) {
        return 0;
    }
    class_table(slots, v, true)
}

/// The words of the group of the view `x`, of class `d`, in an object of class `c`.
pub(crate) fn view_words<L: SoundLayout>(
    h: &Hierarchy,
    layout: &L,
    slots: &Slots,
    sides: &[u32],
    c: ClassId,
    x: &Subobject,
    d: ClassId,
) -> u32
    requires layout { L.lays_out layout.now h.now }
    requires slots { AreSlots h.now (places_of h.now (L.rows layout.now)) slots.now }
    requires sides { AreNumbers h.now (sides_of h.now (places_of h.now (L.rows layout.now)) (head_words h.now (places_of h.now (L.rows layout.now)))) sides.now }
    requires view { IsView h.now (view_at c x.now d) }
    ensures { result ≡ cut (group_words h.now (places_of h.now (L.rows layout.now)) (view_at c x.now d)) }
{
    h.keeps();
    let mut sum = capped(
        class_table(slots, d, is_shared_base(x)),
        number_of(sides, d),
    );
    for v in layout.layout(d).virtual_bases.as_slice() {
        let top = top_word_count(h, layout, slots, c, x, d, *v);
        sum = capped(sum, capped(top, number_of(sides, *v)));
    }
    sum
}
