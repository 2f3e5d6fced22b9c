//! The code that a byte machine runs, and the bytes of the image that it reads.
//!
//! An op names registers of its frame by their numbers, and gives sizes, offsets and widths in bytes; none names a path or a
//! declaration. The crate owns the records `Code`, `Block`, `Op`, `Finish`, `Check`, `Width`, `BitWidth` and `ImageBytes`, and how
//! numbers stand in words (`specs/Numbers.antt`): two's complement, in a register modulo 2^64, in n bytes modulo 256^n and in n
//! bits modulo 2^n. It owns how words stand in an image (`specs/Images.antt`), and how entries of virtual tables, their thunks and
//! type information stand in words (`specs/Records.antt`).
//!
//! The layer above may rely on the lemmas of `proofs/Words.antt`: a number in the range of a `Width` or a `BitWidth` comes back
//! from its low bytes or bits, and from its word; and on the readers of `ImageBytes`, which take no memory: each gives what stands
//! at an address, where such a word or record stands there. `BaseReader` reads the same, and counts how often it has read the
//! record of a base (`specs/Readers.antt`).
#![tactic(auto)]

pub mod base_reader;
pub mod code;
pub mod image;
pub mod op;
pub mod width;

pub use crate::base_reader::BaseReader;
pub use crate::code::{Block, BlockList, ByteList, Code, ImageBytes, OpList};
pub use crate::image::{BaseRecord, EntryRecord, InfoRecord, ThunkRecord, number_at};
pub use crate::op::{
    ArithKind, BaseHand, Check, Finish, FinishList, NumberKind, Op, Opening, Phase, PointSource,
    PrintAs, RegisterList, ResultUse, Setting, TraceKind, Whose,
};
pub use crate::width::{BitWidth, Width};
