//! Frames.

use byte_code::FinishList;

/// What the frame of a base's constructor or destructor was handed: the address and the class number of its complete object, the
/// address of its VTT, and the address and the class number of the subobject around. All are 0 elsewhere.
#[derive(Clone, Copy, Debug, PartialEq, Eq)]
pub struct Handed {
    pub owner: u64,
    pub owner_class: u32,
    pub vtt: u64,
    pub outer: u64,
    pub outer_class: u32,
}

/// What the return of a frame does: the register of the frame below that takes the result, the number of the class to which the
/// declaration found points, what is added to the result, and what follows. `vbase` is where a word of the result's table stands,
/// in bytes from the address point, or 0; `add` is added after that word.
#[derive(Drop)]
pub struct Kept {
    pub to: Option<u32>,
    pub class: Option<u32>,
    pub vbase: u64,
    pub add: u64,
    pub finish: FinishList,
}

/// A frame: its registers, what it was handed, the next block, the block where it began, how many elements of an array follow and
/// how many bytes the next one lies behind, modulo 2^64, whether it counts as an open call, and what its return does.
#[derive(Drop)]
pub struct Frame {
    pub registers: Vec<Option<u64>>,
    pub handed: Handed,
    pub block: u32,
    pub start: u32,
    pub again: u32,
    pub stride: u64,
    pub is_call: bool,
    pub kept: Kept,
}
