//! What is kept of a class: what it lists, and the numbers of its words.

ghost use Rattle.std.specs.Prelude.{◌≤◌, length};
ghost use Rattle.abi_slots.specs.Limits.{most_entries, most_offsets};

use crate::words::{KeyList, OffsetList};
use cxx_overrider::FunctionId;
use foundation::Sequence;

/// For each entry the function of the class's own that has it.
pub type DeclaredList = Sequence<Option<FunctionId>>;

/// Numbers of entries, from the address point upwards.
pub type EntryNumbers = Sequence<u32>;

/// Numbers of words, from the address point.
pub type WordNumbers = Sequence<i32>;

/// What a class lists, and at which numbers.
///
/// `numbers` are those of the entries of its functions, by their indices; `vbases` those of the words to its virtual bases, by
/// the numbers of their classes. `shared_offsets` is what the class lists as a virtual base of another, and `vcalls` has the
/// numbers of its vcall words then, by the numbers of signatures. Where no word is, there is 0.
#[derive(Drop)]
pub struct SlotRow {
    pub entries: KeyList,
    pub declared: DeclaredList,
    pub numbers: EntryNumbers,
    pub offsets: OffsetList,
    pub vbases: WordNumbers,
    pub shared_offsets: OffsetList,
    pub vcalls: WordNumbers,
    ghost few_entries: { length entries ≤ most_entries },
    ghost few_offsets: { length offsets ≤ most_offsets },
    ghost few_shared: { length shared_offsets ≤ most_offsets },
}
