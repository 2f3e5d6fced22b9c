//! The words of virtual tables.

use cxx_hierarchy::ClassId;
use cxx_overrider::FunctionId;
use cxx_subobject::{ClassPath, Subobject};
use foundation::Sequence;

/// Which code of a function an entry runs. A destructor has two entries (Itanium C++ ABI 2.5.2).
#[derive(Clone, Copy, Debug, PartialEq, Eq)]
pub enum CodeKind {
    Plain,
    Complete,
    Deleting,
}

/// How `this` is adjusted: a constant in bytes is added, and then the vcall word at a byte offset from the address point
/// of the table that is found there, if there is one.
#[derive(Clone, Copy, Debug, PartialEq, Eq)]
pub struct ThisAdjust {
    pub constant: i64,
    pub vcall: Option<i64>,
}

/// How a result that is not null is adjusted: the vbase word at a byte offset from the address point of its table is
/// added, if there is one, and then a constant in bytes.
#[derive(Clone, Copy, Debug, PartialEq, Eq)]
pub struct ReturnAdjust {
    pub vbase: Option<i64>,
    pub constant: i64,
}

/// The word of an entry: nothing, a pure function, or the code of a function with its adjustments.
#[derive(Clone, Copy, Debug, PartialEq, Eq)]
pub enum EntryWord {
    Unused,
    Pure(FunctionId),
    Code(FunctionId, CodeKind, Option<ThisAdjust>, Option<ReturnAdjust>),
}

/// A word of a virtual table (Itanium C++ ABI 2.5.2). Offsets are bytes.
#[derive(Clone, Copy, Debug, PartialEq, Eq)]
pub enum TableWord {
    Vcall(i64, FunctionId),
    Vbase(i64, ClassId),
    Top(i64),
    Info(ClassId),
    Entry(EntryWord),
}

/// The class that a result points to, and another one to a base of which it is converted.
#[derive(Clone, Copy, Debug, PartialEq, Eq)]
pub struct Conversion {
    pub from: ClassId,
    pub to: ClassId,
}

/// An entry that a class lists: the function that it was listed for, and which code.
#[derive(Clone, Copy, Debug, PartialEq, Eq)]
pub struct EntryKey {
    pub function: FunctionId,
    pub kind: CodeKind,
}

/// An offset that a class lists: to a virtual base, or from a virtual base to the final overrider of a function that the
/// class at the end of a path declares. The path goes down from that virtual base.
#[derive(Debug, Drop)]
pub enum Offset {
    ToBase(ClassId),
    ToOverrider(ClassPath, FunctionId),
}

pub type KeyList = Sequence<EntryKey>;

pub type OffsetList = Sequence<Offset>;

pub type WordList = Sequence<TableWord>;

/// A virtual table: the class of the subobject to which it belongs and that subobject's place in the complete object, in
/// bytes, the number of words before the address point, and the words from low to high.
#[derive(Debug, Drop)]
pub struct Table {
    pub class: ClassId,
    pub place: u32,
    pub before: u32,
    pub words: WordList,
}

pub type TableList = Sequence<Table>;

/// The name of a group of tables: the class of the complete object, and the subobject of it that is the view.
#[derive(Debug, Drop)]
pub struct GroupName {
    pub complete: ClassId,
    pub view: Subobject,
}

/// The tables of a view, in their order.
#[derive(Debug, Drop)]
pub struct Group {
    pub name: GroupName,
    pub tables: TableList,
}

/// The groups of a class, or of all classes, in their order.
pub type GroupList = Sequence<Group>;

/// A word of a VTT: a group of tables, and the number of a table in it, from 0 (Itanium C++ ABI 2.6.2).
#[derive(Debug, Drop)]
pub struct VttWord {
    pub group: GroupName,
    pub table: usize,
}

/// The words of a VTT, in their order.
pub type VttList = Sequence<VttWord>;

/// A direct base in the record of a class (Itanium C++ ABI 2.9.5). `offset_flags` is 1 for a virtual base plus 2 for a public
/// one, plus 256 times its place in bytes; of a virtual base 256 times where the word that leads to it lies behind the address
/// point, in bytes.
#[derive(Clone, Copy, Debug, PartialEq, Eq)]
pub struct InfoBase {
    pub class: ClassId,
    pub offset_flags: i64,
}

/// The direct bases of a class, in declaration order.
pub type InfoBaseList = Sequence<InfoBase>;

/// What the record of a class says of its bases: none; the only one, public and at the start; or flags and all direct ones. The
/// flags are 1 where some class has two of its subobjects, plus 2 where two edges lead to one virtual base.
#[derive(Debug, Drop)]
pub enum TypeInfo {
    Plain,
    Single(ClassId),
    Many(u32, InfoBaseList),
}
