//! The lengths of VTTs.

ghost use Rattle.std.specs.Prelude.{◌≡◌, ◌+◌, ◌<◌, IfOk, length, min};
ghost use Rattle.cxx_hierarchy.specs.declared.records.ClassId.{ClassId};
ghost use Rattle.cxx_hierarchy.specs.Classes.{Classes};
ghost use Rattle.abi_sound.specs.Places.{Places, places_of};
ghost use Rattle.abi_primary.specs.Kinds.{TellDynamic};
ghost use Rattle.abi_tables.specs.Counts.{AreVttLengths, most_words, vtt_words};
ghost use Rattle.abi_tables.specs.invariants.Weights.{AreNumbers, base_words, dynamic_word, sub_words, virtual_word};

use crate::kinds::is_dynamic_by;
use crate::numbers::{capped, number_of, own_sums, pair_sums, shared_sums, sides_of};
use crate::views::has_virtual;
use abi_primary::dynamic_flags;
use abi_sound::SoundLayout;
use cxx_hierarchy::{ClassId, Hierarchy};
use foundation::{NoMemory, Sequence};
use std::alloc::Global;

/// How many words the VTT of each class has: 0 where a class has no virtual base, and 1,048,577 where there are more than
/// 1,048,576.
#[derive(Drop)]
pub struct VttLengths {
    lengths: Sequence<u32>,
}

/// A word, where a class is dynamic.
fn dynamic_word(h: &Hierarchy, flags: &[bool], c: ClassId) -> u32
    requires known { c.0 < length h.now }
    requires flags { TellDynamic h.now flags.now }
    ensures { result ≡ dynamic_word h.now c }
{
    if is_dynamic_by(h, flags, c) { 1 } else { 0 }
}

/// For each class a word, where it is dynamic.
///
/// Errors: want of memory.
fn dynamic_words(alloc: Global, h: &Hierarchy, flags: &[bool]) -> Result<Vec<u32>, NoMemory>
    requires { TellDynamic h.now flags.now }
    ensures { IfOk result (λ words. AreNumbers h.now (dynamic_word h.now) words.items) }
{
    let mut words = Vec::new(alloc);
    for n in 0..h.len() {
        words.push(dynamic_word(h, flags, ClassId(n)))?;
    }
    Ok(words)
}

/// A word, where a class is dynamic and has virtual bases.
fn virtual_word<L: SoundLayout>(h: &Hierarchy, layout: &L, flags: &[bool], c: ClassId) -> u32
    requires layout { L.lays_out layout.now h.now }
    requires known { c.0 < length h.now }
    requires flags { TellDynamic h.now flags.now }
    ensures { result ≡ virtual_word h.now c }
{
    if is_dynamic_by(h, flags, c) && has_virtual(h, layout, c) {
        1
    } else {
        0
    }
}

/// For each class a word, where it is dynamic and has virtual bases.
///
/// Errors: want of memory.
fn virtual_words<L: SoundLayout>(
    alloc: Global,
    h: &Hierarchy,
    layout: &L,
    flags: &[bool],
) -> Result<Vec<u32>, NoMemory>
    requires layout { L.lays_out layout.now h.now }
    requires flags { TellDynamic h.now flags.now }
    ensures { IfOk result (λ words. AreNumbers h.now (virtual_word h.now) words.items) }
{
    let mut words = Vec::new(alloc);
    for n in 0..h.len() {
        words.push(virtual_word(h, layout, flags, ClassId(n)))?;
    }
    Ok(words)
}

/// The words of a sub-VTT without those of the sub-VTTs in it, from those for its bases.
fn sub_word_count<L: SoundLayout>(h: &Hierarchy, layout: &L, bases: &[u32], c: ClassId) -> u32
    requires layout { L.lays_out layout.now h.now }
    requires known { c.0 < length h.now }
    ensures { AreNumbers h.now (base_words h.now (places_of h.now (L.rows layout.now))) bases.now → result ≡ min (sub_words h.now (places_of h.now (L.rows layout.now)) c) (most_words + 1) }
{
    if !has_virtual(h, layout, c) {
        return 0;
    }
    capped(1, number_of(bases, c))
}

/// For each class the words of its sub-VTT without those of the sub-VTTs in it.
fn sub_word_counts<L: SoundLayout>(
    alloc: Global,
    h: &Hierarchy,
    layout: &L,
    bases: &[u32],
) -> Result<Vec<u32>, NoMemory>
    requires layout { L.lays_out layout.now h.now }
    requires bases { AreNumbers h.now (base_words h.now (places_of h.now (L.rows layout.now))) bases.now }
    ensures { IfOk result (λ words. AreNumbers h.now (sub_words h.now (places_of h.now (L.rows layout.now))) words.items) }
{
    let mut words = Vec::new(alloc);
    for n in 0..h.len() {
        words.push(sub_word_count(h, layout, bases, ClassId(n)))?;
    }
    Ok(words)
}

/// For each class the words of a sub-VTT for the bases of its view.
fn base_words<L: SoundLayout>(
    alloc: Global,
    h: &Hierarchy,
    layout: &L,
) -> Result<Vec<u32>, NoMemory>
    requires { L.lays_out layout.now h.now }
    ensures { IfOk result (λ words. AreNumbers h.now (base_words h.now (places_of h.now (L.rows layout.now))) words.items) }
{
    let flags = dynamic_flags(alloc, h)?;
    let dynamic = dynamic_words(alloc, h, &flags)?;
    let below_shared = sides_of(alloc, h, layout, &dynamic)?;
    let shared = pair_sums(alloc, h, &dynamic, &below_shared)?;
    let with_virtual = virtual_words(alloc, h, layout, &flags)?;
    let own = sides_of(alloc, h, layout, &with_virtual)?;
    let words = shared_sums(alloc, h, layout, &own, &shared)?;
    Ok(words)
}

impl VttLengths {
    /// The lengths of the VTTs of a hierarchy, over a layout.
    ///
    /// Errors: want of memory.
    pub fn new<L: SoundLayout>(
        alloc: Global,
        h: &Hierarchy,
        layout: &L,
    ) -> Result<VttLengths, NoMemory>
        requires { L.lays_out layout.now h.now }
        ensures { IfOk result (λ made. AreVttLengths h.now (places_of h.now (L.rows layout.now)) made.lengths) }
    {
        h.keeps();
        let bases = base_words(alloc, h, layout)?;
        let counts = sub_word_counts(alloc, h, layout, &bases)?;
        let own = own_sums(alloc, h, &counts)?;
        let lengths = shared_sums(alloc, h, layout, &own, &own)?;
        Ok(VttLengths {
            lengths: Sequence::from_vec(lengths),
        })
    }

    /// The words of the VTT of a class. It takes no memory.
    pub fn vtt_len(&self, c: ClassId) -> u32
        ensures { (h : Classes) (l : Places) → AreVttLengths h l self.now.lengths → c.0 < length h → result ≡ min (vtt_words h l c) (most_words + 1) }
    {
        number_of(self.lengths.as_slice(), c)
    }
}
