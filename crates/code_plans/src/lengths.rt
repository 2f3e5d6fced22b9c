//! How many words the sub-VTTs of the bases of a class have together, and those before one of them.

ghost use Rattle.std.specs.Prelude.{◌≡◌, ◌<◌, All, filter, get_or, length, map};
ghost use Rattle.cxx_hierarchy.specs.declared.records.ClassId.{ClassId};
ghost use Rattle.cxx_hierarchy.specs.declared.records.Base.{Base};
ghost use Rattle.abi_sound.specs.Places.{places_of};
ghost use Rattle.abi_slots.specs.Rows.{class_of_base};
ghost use Rattle.abi_vtt.specs.Vtts.{has_vtt, is_built_base};
ghost use Rattle.abi_vtt.specs.Blocks.{lengths_before, lengths_of};
ghost use Rattle.code_plans.specs.ClassTables.{AreBlocks};
ghost use Rattle.code_plans.specs.invariants.Walks.{capped_count};

use abi_sound::SoundLayout;
use abi_tables::has_virtual;
use cxx_hierarchy::{Base, ClassId, Hierarchy};

/// The length of a class, and 0 behind the end.
pub(crate) fn length_at(blocks: &[u32], d: ClassId) -> u32
    ensures { result ≡ get_or blocks.now d.0 0 }
{
    match blocks.get(d.0 as usize) {
        Some(length) => *length,
        None => 0,
    }
}

/// The words of the sub-VTTs of those of these virtual bases that have virtual bases.
pub(crate) fn shared_sum<L: SoundLayout>(
    h: &Hierarchy,
    layout: &L,
    blocks: &[u32],
    classes: &[ClassId],
) -> u32
    requires layout { L.lays_out layout.now h.now }
    requires blocks { AreBlocks h.now (places_of h.now (L.rows layout.now)) blocks.now }
    requires known { All (λ (d : ClassId). d.0 < length blocks.now) classes.now }
    ensures { result ≡ capped_count (lengths_of h.now (places_of h.now (L.rows layout.now)) (filter (has_vtt h.now) classes.now)) }
{
    match classes {
        [] => 0,
        [d, rest @ ..] => {
            let more = shared_sum(h, layout, blocks, rest);
            if has_virtual(h, layout, *d) {
                length_at(blocks, *d).saturating_add(more)
            } else {
                more
            }
        }
    }
}

/// The words of those before virtual base `v`.
pub(crate) fn shared_before<L: SoundLayout>(
    h: &Hierarchy,
    layout: &L,
    blocks: &[u32],
    v: ClassId,
    classes: &[ClassId],
) -> u32
    requires layout { L.lays_out layout.now h.now }
    requires blocks { AreBlocks h.now (places_of h.now (L.rows layout.now)) blocks.now }
    requires known { All (λ (d : ClassId). d.0 < length blocks.now) classes.now }
    ensures { result ≡ capped_count (lengths_before h.now (places_of h.now (L.rows layout.now)) v (filter (has_vtt h.now) classes.now)) }
{
    match classes {
        [] => 0,
        [d, rest @ ..] => {
            if !has_virtual(h, layout, *d) {
                return shared_before(h, layout, blocks, v, rest);
            }
            if d.0 == v.0 {
                return 0;
            }
            let more = shared_before(h, layout, blocks, v, rest);
            length_at(blocks, *d).saturating_add(more)
        }
    }
}

/// Whether a direct base is not virtual and has virtual bases.
fn is_built<L: SoundLayout>(h: &Hierarchy, layout: &L, base: &Base<ClassId>) -> bool
    requires layout { L.lays_out layout.now h.now }
    requires known { base.now.class.0 < length h.now }
    ensures { result ≡ is_built_base h.now base.now }
{
    !base.is_virtual && has_virtual(h, layout, base.class)
}

/// The words of the sub-VTTs of those of these direct bases that are not virtual and have virtual bases.
pub(crate) fn base_sum<L: SoundLayout>(
    h: &Hierarchy,
    layout: &L,
    blocks: &[u32],
    bases: &[Base<ClassId>],
) -> u32
    requires layout { L.lays_out layout.now h.now }
    requires blocks { AreBlocks h.now (places_of h.now (L.rows layout.now)) blocks.now }
    requires known { All (λ (base : Base ClassId). base.class.0 < length blocks.now) bases.now }
    ensures { result ≡ capped_count (lengths_of h.now (places_of h.now (L.rows layout.now)) (map class_of_base (filter (is_built_base h.now) bases.now))) }
{
    match bases {
        [] => 0,
        [base, rest @ ..] => {
            let more = base_sum(h, layout, blocks, rest);
            if is_built(h, layout, base) {
                length_at(blocks, base.class).saturating_add(more)
            } else {
                more
            }
        }
    }
}

/// The words of those before the base of class `b`.
pub(crate) fn base_before<L: SoundLayout>(
    h: &Hierarchy,
    layout: &L,
    blocks: &[u32],
    b: ClassId,
    bases: &[Base<ClassId>],
) -> u32
    requires layout { L.lays_out layout.now h.now }
    requires blocks { AreBlocks h.now (places_of h.now (L.rows layout.now)) blocks.now }
    requires known { All (λ (base : Base ClassId). base.class.0 < length blocks.now) bases.now }
    ensures { result ≡ capped_count (lengths_before h.now (places_of h.now (L.rows layout.now)) b (map class_of_base (filter (is_built_base h.now) bases.now))) }
{
    match bases {
        [] => 0,
        [base, rest @ ..] => {
            if !is_built(h, layout, base) {
                return base_before(h, layout, blocks, b, rest);
            }
            if base.class.0 == b.0 {
                return 0;
            }
            let more = base_before(h, layout, blocks, b, rest);
            length_at(blocks, base.class).saturating_add(more)
        }
    }
}
