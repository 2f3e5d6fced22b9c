//! The trees of bodies, as their text says them.

use cxx_hierarchy::{Name, ValueType};
use foundation::Sequence;

/// A name and its place in bytes.
#[derive(Drop)]
pub struct Spot {
    pub name: Name,
    pub at: u32,
}

/// A pointer: a variable, or `this` and its place.
#[derive(Drop)]
pub enum PointerText {
    Name(Spot),
    This(u32),
}

/// A constant and the place of its first token: whether `-` stands before a number, and the number; or a truth value.
#[derive(Drop)]
pub enum Constant {
    Number(bool, u64, u32),
    Truth(bool, u32),
}

/// What an operator takes.
#[derive(Drop)]
pub enum Operand {
    Name(Spot),
    This(u32),
    Constant(Constant),
}

/// One step of a place: a member, and the index of an element with its place.
#[derive(Drop)]
pub struct PlacePart {
    pub name: Spot,
    pub index: Option<(u64, u32)>,
}

pub type PlacePartList = Sequence<PlacePart>;

/// A member of what a pointer names, or one inside it.
#[derive(Drop)]
pub struct PlaceText {
    pub pointer: PointerText,
    pub parts: PlacePartList,
}

pub type OperandList = Sequence<Operand>;

/// A call of a member function; `class` stands before `::`.
#[derive(Drop)]
pub struct CallText {
    pub pointer: PointerText,
    pub class: Option<Spot>,
    pub name: Spot,
    pub arguments: OperandList,
}

/// How a cast is written.
#[derive(Clone, Copy, Debug, PartialEq, Eq)]
pub enum CastKind {
    Static,
    Dynamic,
    Plain,
}

/// A cast of a pointer to a pointer to the class `target`.
#[derive(Drop)]
pub struct CastText {
    pub kind: CastKind,
    pub target: Spot,
    pub pointer: PointerText,
}

/// An operator of two operands.
#[derive(Clone, Copy, Debug, PartialEq, Eq)]
pub enum BinaryOp {
    Add,
    Subtract,
    Multiply,
    Less,
    LessEqual,
    Equal,
    NotEqual,
}

/// What stands to the right of `=`.
#[derive(Drop)]
pub enum Right {
    Operand(Operand),
    Binary(Operand, BinaryOp, Operand),
    Not(Operand),
    Place(PlaceText),
    Address(PlaceText),
    Call(CallText),
    New(Spot),
    Cast(CastText),
    TypeEqual(PointerText, Spot),
}

/// What a statement does. In a declaration the number is the place of the type's first token.
#[derive(Drop)]
#[cycle(tree)]
pub enum StatementKind {
    Declare(ValueType<Name>, u32, Spot, Option<Right>),
    Assign(Spot, Right),
    Write(PlaceText, Operand),
    Copy(PointerText, PointerText),
    Call(CallText),
    Delete(PointerText),
    If(Operand, BodyTree, Option<BodyTree>),
    While(Operand, BodyTree),
    Return(Option<Operand>),
    Print(Operand),
    PrintType(PointerText),
    PrintView(PointerText),
    Dump(PointerText),
}

/// A statement; `at` and `line` are the place and the line of its first token.
#[derive(Drop)]
#[cycle(tree)]
pub struct Statement {
    pub kind: StatementKind,
    pub at: u32,
    pub line: u32,
}

/// A block; `line` and `close_line` are the lines of its opening and of its closing brace.
#[derive(Drop)]
#[cycle(tree)]
pub struct BodyTree {
    pub statements: Vec<Statement>,
    pub line: u32,
    pub close_line: u32,
}
