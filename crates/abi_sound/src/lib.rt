//! What a layout is, and the laws of a sound one (Itanium C++ ABI 2.2 and 2.4, on LP64).
//!
//! This crate owns the record of a class's layout (`ClassLayout`), where things lie by the rows of a layout (`Places`,
//! `Locations`), which subobjects share a virtual pointer (`Chains`), and the laws of any layout, whatever rules made it
//! (`IsSoundLayout`, class by class `IsSoundClass`): leaves and virtual pointers have disjoint bits and lie inside, subobjects
//! of one class lie at different places, all but bit-fields lie aligned, and a virtual base that is held lies at its holder.
//!
//! The layers above may rely on the trait `SoundLayout` and its laws alone: sizes of classes, and places of subobjects
//! in their complete object and of members in their class, in bytes, with the first bit of a member in the byte there.
#![tactic(auto)]

pub mod class_layout;
pub mod places;
pub mod sound_layout;

pub use crate::class_layout::{BitList, Bits, ClassLayout, ClassList, HolderList, PlaceList};
pub use crate::places::{first_bit, member_place};
pub use crate::sound_layout::SoundLayout;
