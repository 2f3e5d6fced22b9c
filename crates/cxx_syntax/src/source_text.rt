//! The text of a source, as its declarations say it.

use crate::tree::{BodyTree, Constant, Spot};
use cxx_hierarchy::{Name, RecordList, ValueType};
use foundation::Sequence;

/// A variable outside the classes; `ty_at` is the byte of its type's first token, `at` that of its name.
#[derive(Drop)]
pub struct Global {
    pub name: Name,
    pub ty: ValueType<Name>,
    pub ty_at: u32,
    pub at: u32,
}

/// What a body is the body of; a function by its number in its class record.
#[derive(Clone, Copy, Debug, PartialEq, Eq)]
pub enum BodyOwner {
    Function(u32),
    Constructor,
    Destructor,
}

/// An initializer of a constructor: a member, and the constant that it starts with.
#[derive(Drop)]
pub struct Init {
    pub name: Spot,
    pub value: Constant,
}

/// A body inside the class of this name; only a constructor has initializers.
#[derive(Drop)]
pub struct Body {
    pub class: Name,
    pub owner: BodyOwner,
    pub inits: InitList,
    pub tree: BodyTree,
}

pub type InitList = Sequence<Init>;

pub type GlobalList = Sequence<Global>;

pub type BodyList = Sequence<Body>;

/// A source: the classes, the variables and the bodies in their classes, each in source order, and `main`.
///
/// `main_place` is how many of the bodies stand before `main`, and how many there are where there is no `main`.
#[derive(Drop)]
pub struct SourceText {
    pub records: RecordList,
    pub globals: GlobalList,
    pub bodies: BodyList,
    pub main: Option<BodyTree>,
    pub main_place: usize,
}
