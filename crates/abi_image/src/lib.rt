//! The image of a program's virtual tables, VTTs and type information, in bytes (Itanium C++ ABI 2.5.2, 2.6.2, 2.9.5).
//!
//! The image is made of words of eight bytes, the lowest first. It begins with a directory of two words for each class: the
//! first address point of its own group, and the address of its VTT. Behind it stand the groups, table by table without gaps,
//! the VTTs, the type information of each class with its bases behind it, and the records of entries with their thunks.
//!
//! This crate owns what such an image is (`Encoded`: the relation `HasTables` of abi_slots over the words of its bytes, and the
//! address points in order) and what its parts have to keep (`Conditions`). The layer above may rely on `encode`, which gives
//! that image: a machine that reads its bytes by the readers of byte_code finds the words of the tables.
#![tactic(auto)]

pub mod bytes;
pub mod directory;
pub mod draft;
pub mod encoding;
pub mod entries;
mod finding;
pub mod image;
pub mod infos;
pub mod numbers;
pub mod parts;
pub mod points;
pub mod regions;
pub mod table_words;
pub mod vtts;

pub use crate::encoding::encode;
pub use crate::image::{Image, Point, PointList};

/// The address at which the bytes of an image begin.
pub const BASE: u64 = 4096;
