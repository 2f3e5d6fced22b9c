//! Where a component ends, and which bits hold it: a bit-field is placed by bits (Itanium C++ ABI 2.4, II.1).

ghost use Rattle.std.specs.Prelude.{◌≡◌, ◌*◌, ◌+◌, ◌≤◌, if◌then◌else◌};
ghost use Rattle.abi_layout.specs.Limits.{size_limit};
ghost use Rattle.abi_layout.specs.Placements.{IsBitPlace, IsComponentAt, bit_in, bits_by, bytes_for_bits, component_end, free_bit_by};
ghost use Rattle.abi_layout.specs.invariants.Alignments.{IsAlignment, IsFit};

use crate::component::{Component, Stage};
use abi_sound::Bits;

/// How many bytes hold so many bits.
fn bytes_of(bits: u32) -> u32
    requires { bits ≤ 10 * size_limit }
    ensures { result ≡ bytes_for_bits bits }
{
    (bits + 7) / 8
}

/// The first free bit in the byte at a place.
fn bit_in(stage: &Stage, at: u32) -> u32
    requires { at ≤ size_limit + 8 }
    ensures { result ≡ bit_in stage.now at }
{
    stage.free_bit.max(8 * at)
}

/// The place of a bit-field of this width, whose type has so many bytes: the byte of the least free bit from which on it lies in
/// one unit of that type.
pub(crate) fn bit_place(stage: &Stage, bytes: u32, width: u32) -> u32
    requires alignment { IsAlignment bytes }
    requires fits { width ≤ 8 * bytes }
    requires bounded { stage.now.free_bit ≤ 8 * size_limit }
    ensures place { IsBitPlace stage.now bytes width result }
    ensures within { result ≤ size_limit + 8 }
{
    let unit = 8 * bytes;
    if stage.free_bit % unit + width <= unit {
        stage.free_bit / 8
    } else {
        (stage.free_bit / unit + 1) * bytes
    }
}

/// Where a component ends that lies at a place, in bytes.
pub(crate) fn end_of(stage: &Stage, component: &Component, at: u32) -> u32
    requires component { IsFit component.now }
    requires free { stage.now.free_bit ≤ 8 * size_limit }
    requires bounded { at ≤ size_limit + 8 }
    ensures { result ≡ component_end stage.now component.now at }
{
    match component.width {
        None => at + component.takes,
        Some(width) => bytes_of(bit_in(stage, at) + width),
    }
}

/// The free bit behind a component that lies at a place, where the data of the stage end there once it is placed.
pub(crate) fn free_after(stage: &Stage, component: &Component, at: u32, data_end: u32) -> u32
    requires component { IsFit component.now }
    requires free { stage.now.free_bit ≤ 8 * size_limit }
    requires bounded { at ≤ size_limit + 8 }
    requires ends { data_end ≡ (if component.now.is_empty then stage.now.dsize else component_end stage.now component.now at) }
    requires data { data_end ≤ size_limit }
    ensures { result ≡ free_bit_by component.now.width stage.now component.now at }
{
    match component.width {
        None => 8 * data_end,
        Some(width) => bit_in(stage, at) + width,
    }
}

/// The bits that hold a component at its place.
pub(crate) fn bits_of(stage: &Stage, component: &Component, at: u32) -> Bits
    requires component { IsFit component.now }
    requires placed { IsComponentAt stage.now component.now at }
    requires bounded { at ≤ size_limit + 8 }
    ensures { result ≡ bits_by component.now.width stage.now component.now at }
{
    match component.width {
        None => Bits {
            first: 0,
            width: 8 * component.takes,
        },
        Some(width) => Bits {
            first: (bit_in(stage, at) - 8 * at) as u8,
            width,
        },
    }
}
