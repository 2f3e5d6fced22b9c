//! What a program is run over: its code, and the image of its tables.
//!
//! A program becomes blocks of ops with the numbers of its functions (`abi_lower`), and the tables, VTTs and type information of all
//! its classes become the words of an image in which entries run that code (`abi_tables`, `abi_image`). This crate puts them
//! together and shows that they fit: groups have names of their own, each word of a VTT names a table, and each entry that runs
//! code has a number.
//!
//! It owns `AreAllTables`, `HasImage` (`specs/Made.antt`), `IsWorldOf` and `HasWorld` (`specs/Worlds.antt`). The layer above may rely
//! on `build`: what it gives is that of a world in which a byte state may stand for a state of the program (`IsProgramWorld` of
//! agree_relation), over whatever sound layout.
#![tactic(auto)]

pub mod built;
pub mod image;
pub mod tables;

pub use crate::built::{Built, build};
pub use crate::image::program_image;
pub use crate::tables::{ProgramTables, program_tables};
