//! What a turn answers and tells.

ghost use Rattle.std.specs.Prelude.{◌≡◌, if◌then◌else◌, None, Some};
ghost use Rattle.byte_machine.specs.Turn.{kept_answer};

use foundation::Sequence;

/// What a turn answers.
#[derive(Clone, Copy, Debug, PartialEq, Eq)]
pub enum MachineTurn {
    /// The block ran, and the next one follows.
    Went,
    /// The program ended.
    Ended,
    /// A check refused: its rule's number, and the line of the block.
    Refused(u8, u32),
    /// No step is left.
    OutOfSteps,
    /// A limit was met: its number.
    Limit(u8),
}

/// What a program told.
#[derive(Clone, Copy, Debug, PartialEq, Eq)]
pub enum RawOut {
    Number(i128),
    /// An address; 0 is null.
    Address(u64),
    /// The number of a class.
    Class(u32),
    /// An address in a heap object that is to be dumped.
    Dump(u64),
    /// A frame was opened: its block, and its `this`.
    Call(u32, u64),
    /// The subobject of the class with that number at an address is constructed.
    Built(u32, u64),
    /// The destruction of the subobject of the class with that number at an address begins.
    Ending(u32, u64),
}

/// What a program told, in order.
pub type RawOutList = Sequence<RawOut>;

/// Whether the run goes on after an answer.
#[inline(always)]
pub fn goes_on(turn: MachineTurn) -> bool
    ensures { kept_answer turn ≡ (if result then None else Some turn) }
{
    matches!(turn, MachineTurn::Went)
}
