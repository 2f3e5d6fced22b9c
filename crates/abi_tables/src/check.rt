//! The limit on the words of tables.

ghost use Rattle.std.specs.Prelude.{◌≡◌, ◌+◌, ◌≤◌, ◌<◌, ◌⊎◌, ℕ, IfErr, IfOk, OnOk, length};
ghost use Rattle.cxx_subobject.specs.Subobjects.{IsSubobject, class_of};
ghost use Rattle.abi_sound.specs.Places.{Places, places_of};
ghost use Rattle.abi_slots.specs.Slots.{AreSlots};
ghost use Rattle.abi_vtt.specs.Vtts.{HasDynamicClass};
ghost use Rattle.abi_tables.specs.Counts.{AreVttLengths, words_of_all_classes, words_of_all_vtts, class_words, most_words, words_of_view};
ghost use Rattle.abi_tables.specs.invariants.Weights.{AreNumbers, cut, head_words, sides_of};

use crate::numbers::{MOST_WORDS, capped, sides_of};
use crate::view_words::{head_word_counts, view_words};
use crate::views::group_views;
use crate::vtt_lengths::VttLengths;
use abi_slots::Slots;
use abi_sound::SoundLayout;
use cxx_hierarchy::{ClassId, Hierarchy, LimitNo, Stop};
use cxx_subobject::{Subobject, class_of};
use foundation::NoMemory;
use std::alloc::Global;

/// The words of the group of a view.
fn words_of_view<L: SoundLayout>(
    h: &Hierarchy,
    layout: &L,
    slots: &Slots,
    sides: &[u32],
    c: ClassId,
    x: &Subobject,
) -> u32
    requires layout { L.lays_out layout.now h.now }
    requires slots { AreSlots h.now (places_of h.now (L.rows layout.now)) slots.now }
    requires sides { AreNumbers h.now (sides_of h.now (places_of h.now (L.rows layout.now)) (head_words h.now (places_of h.now (L.rows layout.now)))) sides.now }
    requires known { c.0 < length h.now }
    requires valid { IsSubobject h.now c x.now }
    requires dynamic { HasDynamicClass h.now x.now }
    ensures { result ≡ cut (words_of_view h.now (places_of h.now (L.rows layout.now)) c x.now (class_of x.now)) }
{
    match class_of(x) {
        Some(d) => view_words(h, layout, slots, sides, c, x, d),
        // never met: the clause `valid` says that it is a subobject, and each has a class (`class_of` of cxx_subobject)
        None => 0,
    }
}

/// The words of all groups of a class, and of its VTT.
///
/// Errors: want of memory.
fn class_words<L: SoundLayout>(
    alloc: Global,
    h: &Hierarchy,
    layout: &L,
    slots: &Slots,
    sides: &[u32],
    lengths: &VttLengths,
    c: ClassId,
) -> Result<u32, NoMemory>
    requires layout { L.lays_out layout.now h.now }
    requires slots { AreSlots h.now (places_of h.now (L.rows layout.now)) slots.now }
    requires sides { AreNumbers h.now (sides_of h.now (places_of h.now (L.rows layout.now)) (head_words h.now (places_of h.now (L.rows layout.now)))) sides.now }
    requires lengths { AreVttLengths h.now (places_of h.now (L.rows layout.now)) lengths.now.lengths }
    requires known { c.0 < length h.now }
    ensures { IfOk result (λ words. words ≡ cut (class_words h.now (places_of h.now (L.rows layout.now)) c)) }
{
    let list = group_views(alloc, h, layout, c)?;
    let mut sum = 0;
    for x in list.as_slice() {
        sum = capped(sum, words_of_view(h, layout, slots, sides, c, x));
    }
    Ok(capped(sum, lengths.vtt_len(c)))
}

/// The words of the classes so far, and those of one class more. Past the limit it counts no further.
///
/// Errors: want of memory.
fn with_class<L: SoundLayout>(
    alloc: Global,
    h: &Hierarchy,
    layout: &L,
    slots: &Slots,
    sides: &[u32],
    lengths: &VttLengths,
    c: ClassId,
    sum: u32,
) -> Result<u32, NoMemory>
    requires layout { L.lays_out layout.now h.now }
    requires slots { AreSlots h.now (places_of h.now (L.rows layout.now)) slots.now }
    requires sides { AreNumbers h.now (sides_of h.now (places_of h.now (L.rows layout.now)) (head_words h.now (places_of h.now (L.rows layout.now)))) sides.now }
    requires lengths { AreVttLengths h.now (places_of h.now (L.rows layout.now)) lengths.now.lengths }
    requires known { c.0 < length h.now }
    ensures { IfOk result (λ words. (n : ℕ) → sum ≡ cut n → words ≡ cut (n + class_words h.now (places_of h.now (L.rows layout.now)) c)) }
{
    if sum > MOST_WORDS {
        return Ok(sum);
    }
    let words = class_words(alloc, h, layout, slots, sides, lengths, c)?;
    Ok(capped(sum, words))
}

/// The words of all groups and VTTs.
///
/// Errors: want of memory.
fn all_words<L: SoundLayout>(
    alloc: Global,
    h: &Hierarchy,
    layout: &L,
    slots: &Slots,
) -> Result<u32, NoMemory>
    requires layout { L.lays_out layout.now h.now }
    requires slots { AreSlots h.now (places_of h.now (L.rows layout.now)) slots.now }
    ensures { IfOk result (λ words. words ≡ cut (words_of_all_classes h.now (places_of h.now (L.rows layout.now)))) }
{
    let heads = head_word_counts(alloc, h, layout, slots)?;
    let sides = sides_of(alloc, h, layout, &heads)?;
    let lengths = VttLengths::new(alloc, h, layout)?;
    let mut sum = 0;
    for n in 0..h.len() {
        sum = with_class(alloc, h, layout, slots, &sides, &lengths, ClassId(n), sum)?;
    }
    Ok(sum)
}

/// The words of the VTTs of all classes, as far as the limit.
fn vtt_words(h: &Hierarchy, lengths: &VttLengths) -> u32
    ensures { (l : Places) → AreVttLengths h.now l lengths.now.lengths → result ≡ cut (words_of_all_vtts h.now l) }
{
    let mut sum = 0;
    for n in 0..h.len() {
        sum = capped(sum, lengths.vtt_len(ClassId(n)));
    }
    sum
}

/// Whether the words of the VTTs alone are within the limit on all words. It asks for nothing that classes list, so that a
/// hierarchy which passes the limit by far is refused at little cost.
///
/// Errors: the limit L7 exactly where the words of the VTTs, without those of groups, are more than 1,048,576, so that the words
/// of all groups and VTTs are more too; want of memory.
pub fn check_vtts<L: SoundLayout>(alloc: Global, h: &Hierarchy, layout: &L) -> Result<(), Stop>
    requires { L.lays_out layout.now h.now }
    ensures few { OnOk result (words_of_all_vtts h.now (places_of h.now (L.rows layout.now)) ≤ most_words) }
    ensures many { IfErr result (λ stop. (stop ≡ Stop.NoMemory) ⊎ ((stop ≡ Stop.Limit LimitNo.L7) × (most_words < words_of_all_vtts h.now (places_of h.now (L.rows layout.now))))) }
    ensures right { IfErr result (λ stop. (stop ≡ Stop.NoMemory) ⊎ ((stop ≡ Stop.Limit LimitNo.L7) × (most_words < words_of_all_classes h.now (places_of h.now (L.rows layout.now))))) }
{
    let lengths = VttLengths::new(alloc, h, layout)?;
    if vtt_words(h, &lengths) > MOST_WORDS {
        return Err(Stop::Limit(LimitNo::L7));
    }
    Ok(())
}

/// Whether the words of all groups and VTTs are within the limit.
///
/// Errors: the limit L7 exactly where they are more than 1,048,576; want of memory.
pub fn check_words<L: SoundLayout>(
    alloc: Global,
    h: &Hierarchy,
    layout: &L,
    slots: &Slots,
) -> Result<(), Stop>
    requires layout { L.lays_out layout.now h.now }
    requires slots { AreSlots h.now (places_of h.now (L.rows layout.now)) slots.now }
    ensures few { OnOk result (words_of_all_classes h.now (places_of h.now (L.rows layout.now)) ≤ most_words) }
    ensures many { IfErr result (λ stop. (stop ≡ Stop.NoMemory) ⊎ ((stop ≡ Stop.Limit LimitNo.L7) × (most_words < words_of_all_classes h.now (places_of h.now (L.rows layout.now))))) }
{
    if all_words(alloc, h, layout, slots)? > MOST_WORDS {
        return Err(Stop::Limit(LimitNo::L7));
    }
    Ok(())
}
