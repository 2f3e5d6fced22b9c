//! What is kept of each class, once for a program.

ghost use Rattle.std.specs.Prelude.{◌≡◌, ◌≤◌, ◌<◌, true, IfOk, length};
ghost use Rattle.abi_sound.specs.Places.{places_of};
ghost use Rattle.abi_vtt.specs.Vtts.{has_vtt};
ghost use Rattle.abi_vtt.specs.Blocks.{block_length};
ghost use Rattle.abi_tables.specs.Counts.{words_of_all_classes, most_words, vtt_words};
ghost use Rattle.code_plans.specs.ClassTables.{AreBlocks};

use crate::lengths::shared_sum;
use crate::lone::lone_flags;
use abi_primary::dynamic_flags;
use abi_sound::SoundLayout;
use abi_tables::{VttLengths, has_virtual};
use cxx_hierarchy::{ClassId, Hierarchy};
use foundation::{NoMemory, Sequence};
use std::alloc::Global;

/// For each class whether it is dynamic, whether it is found that no base of it has a virtual pointer of its own, and how many
/// words its sub-VTT has, where it has virtual bases (Itanium C++ ABI 2.6.2).
#[derive(Drop)]
pub struct ClassTables {
    pub(crate) dynamic: Sequence<bool>,
    pub(crate) lone: Sequence<bool>,
    pub(crate) blocks: Sequence<u32>,
}

/// How many words the sub-VTT of a class with virtual bases has: those of its VTT, of which there are so many, without the
/// sub-VTTs of its virtual bases. It is 0 for another class.
fn block_len<L: SoundLayout>(
    h: &Hierarchy,
    layout: &L,
    blocks: &[u32],
    c: ClassId,
    words: u32,
) -> u32
    requires layout { L.lays_out layout.now h.now }
    requires known { c.0 < length h.now }
    requires size { length blocks.now ≡ c.0 }
    requires blocks { AreBlocks h.now (places_of h.now (L.rows layout.now)) blocks.now }
    requires words { words ≡ vtt_words h.now (places_of h.now (L.rows layout.now)) c }
    requires few { words ≤ most_words }
    ensures { has_vtt h.now c ≡ true → result ≡ block_length h.now (places_of h.now (L.rows layout.now)) c }
{
    h.keeps();
    if !has_virtual(h, layout, c) {
        return 0;
    }
    let shared = layout.layout(c).virtual_bases.as_slice();
    // a cut at 0 is never met: the words are those of the whole VTT, by the clause `words`
    words.saturating_sub(shared_sum(h, layout, blocks, shared))
}

/// For each class with virtual bases how many words its sub-VTT has.
///
/// Errors: want of memory.
fn block_lens<L: SoundLayout>(
    alloc: Global,
    h: &Hierarchy,
    layout: &L,
) -> Result<Vec<u32>, NoMemory>
    requires layout { L.lays_out layout.now h.now }
    requires few { words_of_all_classes h.now (places_of h.now (L.rows layout.now)) ≤ most_words }
    ensures size { IfOk result (λ blocks. length blocks.items ≡ length h.now) }
    ensures blocks { IfOk result (λ blocks. AreBlocks h.now (places_of h.now (L.rows layout.now)) blocks.items) }
{
    let lengths = VttLengths::new(alloc, h, layout)?;
    let mut blocks = Vec::new(alloc);
    for n in 0..h.len() {
        let words = lengths.vtt_len(ClassId(n));
        let block = block_len(h, layout, &blocks, ClassId(n), words);
        blocks.push(block)?;
    }
    Ok(blocks)
}

impl ClassTables {
    ghost use Rattle.code_plans.specs.ClassTables.{AreKeptTables};

    /// The tables of the classes of a hierarchy, over a layout.
    ///
    /// Errors: want of memory.
    pub fn new<L: SoundLayout>(
        alloc: Global,
        h: &Hierarchy,
        layout: &L,
    ) -> Result<ClassTables, NoMemory>
        requires layout { L.lays_out layout.now h.now }
        requires few { words_of_all_classes h.now (places_of h.now (L.rows layout.now)) ≤ most_words }
        ensures { IfOk result (AreKeptTables h.now (places_of h.now (L.rows layout.now))) }
    {
        let dynamic = dynamic_flags(alloc, h)?;
        let lone = lone_flags(alloc, h, layout, &dynamic)?;
        let blocks = block_lens(alloc, h, layout)?;
        Ok(ClassTables {
            dynamic: Sequence::from_vec(dynamic),
            lone: Sequence::from_vec(lone),
            blocks: Sequence::from_vec(blocks),
        })
    }
}
