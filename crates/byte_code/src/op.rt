//! The kinds of op.

use crate::width::{BitWidth, Width};
use foundation::Sequence;

/// What an `Arith` op computes: a comparison gives 1 where it holds, else 0.
#[derive(Clone, Copy, Debug, PartialEq, Eq)]
pub enum ArithKind {
    Add,
    Subtract,
    Multiply,
    Less,
    LessEqual,
    Equal,
    NotEqual,
}

/// What a `Convert` op makes of a number.
#[derive(Clone, Copy, Debug, PartialEq, Eq)]
pub enum NumberKind {
    /// 1 where the number is not 0, else 0.
    Truth,
    /// The number that its low bytes stand for.
    Bytes(Width),
    /// The number that its low bits stand for.
    Bits(BitWidth),
}

/// How a `Print` op reads its register.
#[derive(Clone, Copy, Debug, PartialEq, Eq)]
pub enum PrintAs {
    /// As the number that its low bytes stand for.
    Number(Width),
    /// As an address.
    Address,
    /// As the number of a class.
    Class,
}

/// The seven phases of a class subobject (ISO C++03 3.8 p1, 12.7).
#[derive(Clone, Copy, Debug, PartialEq, Eq)]
pub enum Phase {
    /// Nothing of it was begun.
    Raw,
    /// Its bases are under construction.
    InBases,
    /// Its members and its body are.
    ReadyBuilding,
    /// It is constructed.
    Complete,
    /// Its destructor's body and its members are under way.
    ReadyEnding,
    /// Its bases are.
    EndingBases,
    /// It has ended.
    Ended,
}

/// A test that refuses the step by its rule's number. An unset register meets only rule 5, and the address 0 only rule 1.
#[derive(Clone, Copy, Debug, PartialEq, Eq)]
pub enum Check {
    /// 1: the address is 0.
    NotNull {
        register: u32,
    },
    /// 2: the address lies in a heap object whose region is closed.
    Open {
        register: u32,
    },
    /// 3: the subobject of the class at the address plus `offset` is not ready.
    Ready {
        register: u32,
        offset: u64,
        class: u32,
    },
    /// 4: the subobject of the class at the address plus `offset` is neither the view of its complete object nor a base of that
    /// view.
    InView {
        register: u32,
        offset: u64,
        class: u32,
    },
    /// 5: the register is unset.
    SetRegister {
        register: u32,
    },
    /// 5: a byte of the leaf is unset that stands at the address in `base` plus `offset`.
    SetLeaf {
        base: u32,
        offset: u32,
        width: Width,
    },
    /// 5: a bit of the leaf is unset that stands from the bit `first` on of the byte at the address in `base` plus `offset`.
    SetBits {
        base: u32,
        offset: u32,
        first: u8,
        width: BitWidth,
    },
    /// 6: the entry of this number in the table of the address has no code.
    HasCode {
        register: u32,
        entry: u32,
    },
    /// 7: no subobject of the class has been begun at the address plus `offset`.
    Derived {
        register: u32,
        offset: u64,
        class: u32,
    },
    /// 8: the subobject of the class at the address belongs to another complete object than itself.
    Whole {
        register: u32,
        class: u32,
    },
    /// 9: the subobject of the class at the address belongs to another complete object than the heap object that has the address.
    HeapObject {
        register: u32,
        class: u32,
    },
    /// 10: the heap object that has the address is not complete.
    Complete {
        register: u32,
    },
    /// 11: in every case.
    Never,
    /// 12: the result of the operation is no number of the signed width.
    Fits {
        kind: ArithKind,
        width: Width,
        left: u32,
        right: u32,
    },
}

/// An op that may also stand in the list that follows the return of a call.
#[derive(Clone, Copy, Debug, PartialEq, Eq)]
pub enum Finish {
    /// Tests, and refuses the step where the test fails.
    Check(Check),
    /// Puts the address in `base` plus `offset` into a register; the address 0 stays 0, and the unset state is passed on.
    Add {
        to: u32,
        base: u32,
        offset: u64,
    },
    /// Adds to the address in `base` the word of its table with this number, counted from the address point; the address 0 stays
    /// 0, and the unset state is passed on.
    AddVbase {
        to: u32,
        base: u32,
        word: i32,
    },
    /// Converts a number; the unset state is passed on.
    Convert {
        to: u32,
        from: u32,
        kind: NumberKind,
    },
    /// Passes on a word, or the unset state.
    Move {
        to: u32,
        from: u32,
    },
    /// Passes on a word, or the unset state, to a global.
    WriteGlobal {
        global: u32,
        from: u32,
    },
}

/// Ops that follow the return of a call, in order.
pub type FinishList = Sequence<Finish>;

/// Registers of a frame, by number.
pub type RegisterList = Sequence<u32>;

/// What becomes of the result of a call or of a `new`: the register of the caller that takes it, the number of the class that the
/// declaration found points to, where its result is a pointer, and what follows the return.
#[derive(Drop)]
pub struct ResultUse {
    pub to: Option<u32>,
    pub class: Option<u32>,
    pub finish: FinishList,
}

/// The complete object that a constructor or destructor works in: the object at `this` itself, or the one that its frame was
/// handed.
#[derive(Clone, Copy, Debug, PartialEq, Eq)]
pub enum Whose {
    Itself,
    Handed,
}

/// What the frame of a base's constructor or destructor is handed besides `this`: its complete object, the number of the class
/// around it, which stands at `this`, and where its class has a virtual base how many words behind the VTT of the frame that opens
/// it its own sub-VTT stands. For `Itself` that VTT is the one of the class, by the directory.
#[derive(Clone, Copy, Debug, PartialEq, Eq)]
pub struct BaseHand {
    pub owner: Whose,
    pub class: u32,
    pub vtt: Option<u32>,
}

/// How frames of a base, or of the elements of a member, are opened within a constructor or destructor: how many bytes behind
/// `this` the first one lies, its block, what a base is handed, how many elements there are, and how far the next one lies, modulo
/// 2^64. Where there are none, nothing is opened.
#[derive(Clone, Copy, Debug, PartialEq, Eq)]
pub struct Opening {
    pub place: u32,
    pub block: u32,
    pub hand: Option<BaseHand>,
    pub count: u32,
    pub stride: u64,
}

/// Where a table's address point comes from: the first one of the class's own group, by the directory, or the word of a number in
/// a VTT: for `Itself` in the one of the class, by the directory, else in the one that the frame was handed.
#[derive(Clone, Copy, Debug, PartialEq, Eq)]
pub enum PointSource {
    Directory(u32),
    Vtt {
        owner: Whose,
        class: u32,
        number: u32,
    },
}

/// The setting of a virtual pointer: the source's address plus `distance` bytes is stored `place` bytes behind `this`. Where
/// `through` names a vbase word, that word of the first table of the frame's VTT is added to the place.
#[derive(Clone, Copy, Debug, PartialEq, Eq)]
pub struct Setting {
    pub source: PointSource,
    pub distance: u64,
    pub place: u32,
    pub through: Option<i32>,
}

/// What a `Trace` op tells.
#[derive(Clone, Copy, Debug, PartialEq, Eq)]
pub enum TraceKind {
    /// The block and the `this` of the frame that was opened last.
    Call,
    /// That the subobject of the class at `this` is constructed.
    Built(u32),
    /// That its destruction begins.
    Ending(u32),
}

/// One op. Registers are numbers of the frame's registers, of which the first one has `this`; offsets and sizes are in bytes, and
/// addresses wrap at 2^64.
#[derive(Drop)]
pub enum Op {
    /// An op that may also follow a return.
    Does(Finish),
    /// Puts a word into a register.
    Const {
        to: u32,
        value: u64,
    },
    /// Passes on a global, or the unset state.
    ReadGlobal {
        to: u32,
        global: u32,
    },
    /// Puts the bytes at the address in `base` plus `offset` into a register; a signed width is sign-extended.
    Load {
        to: u32,
        base: u32,
        offset: u32,
        width: Width,
    },
    /// Stores the low bytes of a register at the address in `base` plus `offset`.
    Store {
        from: u32,
        base: u32,
        offset: u32,
        width: Width,
    },
    /// Gives so many bytes at the address in `to` plus `offset` the values and the set state of those at the address in `from`
    /// plus `offset`.
    Copy {
        to: u32,
        from: u32,
        offset: u32,
        bytes: u8,
    },
    /// Puts the bits from the bit `first` on of the byte at the address in `base` plus `offset` into a register, the lowest first; a
    /// signed width is sign-extended.
    LoadBits {
        to: u32,
        base: u32,
        offset: u32,
        first: u8,
        width: BitWidth,
    },
    /// Stores the low bits of a register there, and changes no other bit.
    StoreBits {
        from: u32,
        base: u32,
        offset: u32,
        first: u8,
        width: BitWidth,
    },
    /// Gives so many bits, from the bit `first` on of the byte at the address in `to` plus `offset`, the values and the set state of
    /// those at the address in `from` plus `offset`.
    CopyBits {
        to: u32,
        from: u32,
        offset: u32,
        first: u8,
        bits: u8,
    },
    /// Computes a word from two, read in a width.
    Arith {
        kind: ArithKind,
        width: Width,
        to: u32,
        left: u32,
        right: u32,
    },
    /// Puts the number of the class of the view that has the address into a register.
    TypeOf {
        to: u32,
        base: u32,
    },
    /// Puts the address of the view that has the address into a register; the address 0 stays 0, and the unset state is passed on.
    Top {
        to: u32,
        base: u32,
    },
    /// Puts the answer of a dynamic_cast of the subobject of `class` at the address in `base` to the class `target` into a
    /// register; the address 0 stays 0, and the unset state is passed on. The hint is that of `__dynamic_cast` (Itanium C++ ABI
    /// 2.9.7): where it is at least 0, each part of the target class has its only part of `class` so many bytes behind itself.
    Cast {
        to: u32,
        base: u32,
        class: u32,
        target: u32,
        hint: i64,
    },
    /// Tells what a register has.
    Print {
        from: u32,
        what: PrintAs,
    },
    /// Tells that the heap object that has the address is to be dumped.
    Dump {
        from: u32,
    },
    /// Opens the frame of the code of an entry, with an adjusted `this` and these arguments.
    CallEntry {
        this: u32,
        entry: u32,
        arguments: RegisterList,
        result: ResultUse,
    },
    /// Opens the frame of a block, with `this` and these arguments.
    CallCode {
        block: u32,
        this: u32,
        arguments: RegisterList,
        result: ResultUse,
    },
    /// Opens a region, lists it as a heap object of the class with that number, and opens the frame of a block over its address.
    New {
        size: u32,
        class: u32,
        block: u32,
        result: ResultUse,
    },
    /// Opens the frame of the code of an entry, with an adjusted `this`; of the address 0 it does nothing.
    DeleteEntry {
        this: u32,
        entry: u32,
    },
    /// Opens the frame of a block, with `this`; of the address 0 it does nothing.
    DeleteCode {
        this: u32,
        block: u32,
    },
    /// Opens the frame of a part, within a constructor or destructor.
    Open(Opening),
    /// Sets a virtual pointer.
    SetTable(Setting),
    /// Begins the subobject of the class at `this`, in its complete object.
    Begin {
        class: u32,
        owner: Whose,
    },
    /// Puts the subobject of the class at `this` into a phase; a heap object that has ended is closed.
    SetPhase {
        class: u32,
        phase: Phase,
    },
    /// Makes the subobject of the class at `this` the view of its complete object.
    SetView {
        class: u32,
        owner: Whose,
    },
    /// Makes the subobject around, which the frame was handed, the view of the complete object that it was handed.
    ViewBack,
    /// Names the next block.
    Jump {
        block: u32,
    },
    /// Names the next block, where the register is not 0.
    JumpIf {
        register: u32,
        block: u32,
    },
    /// Tells a line of a trace.
    Trace(TraceKind),
    /// Closes the frame, and gives its result, of the class with that number where it is a pointer.
    Return {
        from: Option<u32>,
        class: Option<u32>,
    },
    /// Ends the program.
    End,
}
