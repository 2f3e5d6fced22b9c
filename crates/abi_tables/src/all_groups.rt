//! The groups of all classes.

ghost use Rattle.std.specs.Prelude.{◌≡◌, ◌≤◌, ◌<◌, ◌⊎◌, IfOk, IfErr, OnOk};
ghost use Rattle.cxx_overrider.specs.Overriders.{AreOverriders};
ghost use Rattle.abi_sound.specs.Places.{places_of};
ghost use Rattle.abi_slots.specs.Slots.{AreSlots};
ghost use Rattle.abi_tables.specs.Counts.{words_of_all_classes, most_words};
ghost use Rattle.abi_tables.specs.Tables.{AreGroups};

use crate::check_words;
use crate::group_list::push_groups;
use abi_slots::{GroupList, Slots};
use abi_sound::SoundLayout;
use cxx_hierarchy::{ClassId, Hierarchy, LimitNo, Stop};
use cxx_overrider::Overriders;
use foundation::Sequence;
use std::alloc::Global;

/// The groups of all classes, in class order, each class's own group first.
///
/// Errors: the limit L7 exactly where the words of all groups and VTTs are more than 1,048,576; want of memory.
pub fn build_tables<L: SoundLayout>(
    alloc: Global,
    h: &Hierarchy,
    o: &Overriders,
    layout: &L,
    slots: &Slots,
) -> Result<GroupList, Stop>
    requires layout { L.lays_out layout.now h.now }
    requires overriders { AreOverriders h.now o.now }
    requires slots { AreSlots h.now (places_of h.now (L.rows layout.now)) slots.now }
    ensures groups { IfOk result (AreGroups h.now (places_of h.now (L.rows layout.now))) }
    ensures few { OnOk result (words_of_all_classes h.now (places_of h.now (L.rows layout.now)) ≤ most_words) }
    ensures many { IfErr result (λ stop. (stop ≡ Stop.NoMemory) ⊎ ((stop ≡ Stop.Limit LimitNo.L7) × (most_words < words_of_all_classes h.now (places_of h.now (L.rows layout.now))))) }
{
    check_words(alloc, h, layout, slots)?;
    let mut groups = Sequence::new(alloc);
    for n in 0..h.len() {
        push_groups(alloc, h, o, layout, slots, ClassId(n), &[], &mut groups)?;
    }
    Ok(groups)
}
