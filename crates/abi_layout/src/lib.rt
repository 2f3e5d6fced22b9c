//! The layout of classes in bytes (Itanium C++ ABI 2.2 and 2.4, on LP64).
//!
//! This crate owns the definition of the layout that the rules of the ABI give to every hierarchy (`IsLaid`): primary
//! bases and virtual pointers, the places of bases, members and virtual bases, and which subobject holds a virtual base;
//! and which classes are refused, for their size or for a shared place (`Refusals`). `lay_out` gives the layout or the
//! first refusal, and its contract says that the layout is sound (`IsSoundLayout` of abi_sound): leaves and virtual pointers
//! have disjoint bits and lie inside, subobjects of one class lie at different places, all but bit-fields lie aligned, and a
//! virtual base that is held lies at its holder. Bit-fields lie by bits (`IsBitPlace`), and each alignment is 1, 2, 4 or 8.
//!
//! The layers above may rely on the trait `SoundLayout` and its laws alone, over `Places`: sizes of classes, and places
//! of subobjects in their complete object and of members in their class, in bytes.
#![tactic(auto)]

pub mod arrangement;
mod base_places;
mod bit_places;
mod brought;
mod brought_plainly;
pub mod class_layout;
pub mod class_layouts;
pub mod component;
pub mod hierarchy_layout;
pub mod holding;
mod keeping;
pub mod known;
pub mod laid_row;
mod member;
pub mod placed_bases;
pub mod placed_class;
pub mod placing;
mod repeats;
mod rows;
pub mod scene;
mod shifted;
pub mod sound_layout;
pub mod soundness;
mod virtual_places;

pub use crate::class_layout::AbiLayout;
pub use crate::class_layouts::lay_out_first;
pub use crate::hierarchy_layout::{lay_out, one_answer, one_layout, some_answer, some_layout};
pub use crate::soundness::laid_is_sound;
pub use abi_primary::Primary;
pub use abi_sound::{ClassLayout, ClassList, HolderList, PlaceList, SoundLayout};
