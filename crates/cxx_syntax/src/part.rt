//! The parts of a class and the items of a source, as they are read.

use crate::source_text::{BodyList, Global, InitList};
use crate::tree::BodyTree;
use cxx_hierarchy::{ClassRec, Function, Member, Name};

/// A part of a class.
#[derive(Drop)]
pub enum ClassPart {
    /// An access label, and whether it is `public`.
    Label(bool),
    /// A field, and the byte of its type's first token.
    Field(Member<Name>, u32),
    /// A function, the byte of its return type's first token, and its body where it is not pure.
    Function(Function<Name>, u32, Option<BodyTree>),
    /// The byte of a constructor's name, its initializers and its body.
    Constructor(u32, InitList, BodyTree),
    /// Whether a destructor is declared virtual, the byte of its name, and its body.
    Destructor(bool, u32, BodyTree),
}

/// An item of a source.
#[derive(Drop)]
pub enum Item {
    /// A class, and the bodies in it.
    Class(ClassRec<Name>, BodyList),
    /// A forward declaration.
    Forward,
    Global(Global),
    Main(BodyTree),
}
