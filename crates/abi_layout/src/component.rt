//! What a class is made of: its components, and how far its layout has come.

ghost use Rattle.std.specs.Prelude.{◌≡◌, ◌+◌, ◌^◌, ◌<◌, ◌≤◌, ◌++◌, All, OnOk, map};
ghost use Rattle.abi_emptybase.specs.Table.{moved_part};
ghost use Rattle.abi_layout.specs.Limits.{size_limit};
ghost use Rattle.abi_layout.specs.Placements.{parts_at};
ghost use Rattle.abi_layout.specs.invariants.Alignments.{AreFit};

use abi_emptybase::Part;
use foundation::{NoMemory, Sequence};

/// Class subobjects, by their places in an object, in bytes.
pub type PartList = Sequence<Part>;

/// A base or a member that is to be placed in a class: whether it is an empty base, its alignment and how many bytes
/// it takes, for a bit-field its width in bits, and the class subobjects in it, by their places in it.
#[derive(Debug, Drop)]
pub struct Component {
    pub is_empty: bool,
    pub align: u32,
    pub takes: u32,
    pub width: Option<u32>,
    pub parts: PartList,
}

/// How far the layout of a class has come: where its data end, in bytes, the first bit that a bit-field may take, its size
/// and alignment in bytes, and the class subobjects that were placed.
#[derive(Debug, Drop)]
pub struct Stage {
    pub dsize: u32,
    pub free_bit: u32,
    pub size: u32,
    pub align: u32,
    pub parts: PartList,
}

/// Puts parts, this many bytes further, behind the others.
pub(crate) fn push_moved(list: &mut PartList, parts: &[Part], at: u32) -> Result<(), NoMemory>
    requires { All (λ part. part.place + at < 2 ^ 32) parts.now }
    ensures { OnOk result (list.new ≡ list.old ++ map (moved_part at) parts.now) }
{
    for part in parts {
        list.push(Part {
            class: part.class,
            place: part.place + at,
        })?;
    }
    Ok(())
}

/// Puts what components bring at their places behind the others.
pub(crate) fn push_placed(
    list: &mut PartList,
    components: &[Component],
    places: &[u32],
) -> Result<(), NoMemory>
    requires fit { AreFit components.now }
    requires places { All (λ place. place ≤ size_limit) places.now }
    ensures { OnOk result (list.new ≡ list.old ++ parts_at components.now places.now) }
{
    if let Some((component, components)) = components.split_first() {
        if let Some((place, places)) = places.split_first() {
            push_moved(list, component.parts.as_slice(), *place)?;
            push_placed(list, components, places)?;
        }
    }
    Ok(())
}
