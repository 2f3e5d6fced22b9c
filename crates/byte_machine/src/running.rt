//! What the ops of a block work on.

ghost use Rattle.std.specs.Prelude.{◌≡◌, None, replicate};

use crate::frames::Frame;
use crate::heap::Heap;
use crate::stack::{FrameStack, SpareLists};
use crate::turn::{MachineTurn, RawOutList};
use abi_dyncast::{KnownParts, WorkList};
use byte_code::{FinishList, ImageBytes};
use byte_memory::Memory;
use byte_shadow::Shadow;
use std::alloc::Global;

/// What no op changes: the image, how many registers a frame has, and for how many parts a cast has room.
#[derive(Drop)]
pub struct Setup {
    pub image: ImageBytes,
    pub size: u32,
    pub parts: usize,
    /// The registers of a frame in which none is set, to be copied into frames that are opened.
    pub unset: Vec<Option<u64>>,
    pub alloc: Global,
    ghost cleared: { unset.items ≡ replicate size None },
}

/// What the ops of a block work on. The last of the frames that were opened is the innermost.
#[derive(Drop)]
pub struct Running<M: Memory> {
    pub heap: Heap<M>,
    pub shadow: Shadow,
    pub work: WorkList,
    /// What was told of the image, on containment.
    pub known: KnownParts,
    pub globals: Vec<Option<u64>>,
    /// The registers of frames that were left, for frames that are opened later.
    pub spare: SpareLists,
    /// The lists of what followed returns that were done, for calls that are made later.
    pub lists: Vec<FinishList>,
    /// The frames that the block opened.
    pub opened: Vec<Frame>,
    /// The frame whose block runs.
    pub top: Frame,
    pub below: FrameStack,
    /// How many calls are open.
    pub calls: u32,
    pub outs: RawOutList,
    pub line: u32,
}

/// What stops a block: an answer, or a return, with what follows it.
#[derive(Drop)]
pub enum Stop {
    Answers(MachineTurn),
    Returned(FinishList),
}

impl<M: Memory> Running<M> {
    ghost use Rattle.std.specs.Prelude.{◌<◌, length};
    ghost use Rattle.byte_machine.specs.Running.{register, with_register};
    ghost use Rattle.byte_machine.specs.invariants.States.{running_of, KeepsRoomAndOuts};

    /// The word that a register of the frame has, None where it is unset.
    pub fn register(&self, number: u32) -> Option<u64>
        ensures { result ≡ register (running_of self.now) number }
    {
        match self.top.registers.get(number as usize) {
            Some(word) => *word,
            None => None,
        }
    }

    /// Sets or unsets a register of the frame.
    pub fn put(&mut self, _setup: &Setup, number: u32, word: Option<u64>)
        requires { number < length self.old.top.registers.items }
        ensures put { running_of self.new ≡ with_register (running_of self.old) number word }
        ensures kept { KeepsRoomAndOuts _setup.now.image self.old self.new }
    {
        self.top.registers[number as usize] = word;
    }
}
