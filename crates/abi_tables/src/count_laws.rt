//! The numbers are those of the tables themselves.

ghost use Rattle.std.specs.Prelude.{◌≡◌, List, length};
ghost use Rattle.std.specs.List.{sum_by};
ghost use Rattle.cxx_hierarchy.specs.Classes.{Classes};
ghost use Rattle.cxx_hierarchy.specs.declared.records.ClassId.{ClassId};
ghost use Rattle.abi_sound.specs.Places.{Places};
ghost use Rattle.abi_slots.specs.declared.words.Group.{Group};
ghost use Rattle.abi_slots.specs.declared.words.Table.{Table};
ghost use Rattle.abi_slots.specs.declared.words.VttWord.{VttWord};
ghost use Rattle.abi_slots.specs.Groups.{IsGroup, view_of_group};
ghost use Rattle.abi_vtt.specs.Vtts.{vtt_items, IsVtt};
ghost use Rattle.abi_tables.specs.Counts.{group_words};

/// The tables of a group have so many words as are counted of its view, and a VTT has a word for each of its items. So it is
/// in any hierarchy and for any places.
pub fn counted()
    ensures group { (h : Classes) (l : Places) (group : Group) → (of : IsGroup h l group) → sum_by (λ (table : Table). length table.words) group.tables ≡ group_words h l (view_of_group group of.class) }
    ensures vtt { (h : Classes) (l : Places) (c : ClassId) (words : List VttWord) → IsVtt h l c words → length words ≡ length (vtt_items h l c) }
{}
