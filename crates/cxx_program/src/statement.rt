//! What a statement does.

use crate::operand::{Argument, ArgumentList, Conversion, TypedOperand, Variable};
use cxx_hierarchy::{ClassId, Scalar};
use cxx_overrider::FunctionId;
use cxx_subobject::Subobject;
use foundation::Sequence;

/// A class member that a place passes through: the subobject in which it was found, its number in that subobject's
/// class, the index of the element, which is 0 where the member is no array, and the member's class.
#[derive(Debug, Drop)]
pub struct PassedMember {
    pub base: Subobject,
    pub member: u32,
    pub index: u32,
    pub class: ClassId,
}

pub type PassedList = Sequence<PassedMember>;

/// A place, `pointer->passed. .. .member[index]`: the pointer and the class that it points to, the class members that
/// are passed through, and the last name: its subobject in the class of the last one passed, its number and index.
#[derive(Debug, Drop)]
pub struct TypedPlace {
    pub pointer: TypedOperand,
    pub class: ClassId,
    pub passed: PassedList,
    pub base: Subobject,
    pub member: u32,
    pub index: u32,
}

/// A cast of a pointer (ISO C++03 5.2.7, 5.2.9, 5.4).
#[derive(Debug, Drop)]
pub enum TypedCast {
    /// To the same class.
    Same,
    /// To a proper base, this subobject of the class that the pointer points to.
    Up(Subobject),
    /// To a derived class, whose subobject is the one that the pointer points to.
    Down(ClassId, Subobject),
    /// A `dynamic_cast` to a class that is neither the same nor a base.
    Dynamic(ClassId),
}

/// A call of a member function (ISO C++03 5.2.2).
#[derive(Debug, Drop)]
pub struct TypedCall {
    pub pointer: TypedOperand,
    /// The class that the pointer points to.
    pub class: ClassId,
    /// The class before `::`, as a proper base of that class; none where no class stands there, or the same one.
    pub qualifier: Option<Subobject>,
    /// Where the function was found: a subobject of the class before `::`, or of the pointer's class where none stands there.
    pub base: Subobject,
    /// The function that was found.
    pub function: FunctionId,
    /// Whether the final overrider runs in its place: the function is virtual, and no class stands before `::`.
    pub is_dispatched: bool,
    pub arguments: ArgumentList,
}

/// An operator of two numbers.
#[derive(Clone, Copy, Debug, PartialEq, Eq)]
pub enum Arithmetic {
    Add,
    Subtract,
    Multiply,
    Less,
    LessEqual,
    Equal,
    NotEqual,
}

/// What stands to the right of `=`.
#[derive(Debug, Drop)]
pub enum TypedRight {
    Operand(TypedOperand),
    /// Two numbers, in their common type (ISO C++03 5 p9).
    Arithmetic(Arithmetic, Scalar, TypedOperand, TypedOperand),
    /// Whether two pointers, converted to one class, are the same, or for `!=`, which the truth value says, are not
    /// (ISO C++03 5.10).
    SamePointer(bool, Argument, Argument),
    Not(TypedOperand),
    /// The value of a member that is a number or a pointer.
    Read(TypedPlace),
    /// A pointer to a class member, with the member's class.
    Address(TypedPlace, ClassId),
    Call(TypedCall),
    New(ClassId),
    Cast(TypedCast, TypedOperand),
    /// `typeid(*pointer) == typeid(class)`.
    TypeEqual(TypedOperand, ClassId),
}

/// A right side, and how its value becomes one of the type that is wanted.
#[derive(Debug, Drop)]
pub struct Converted {
    pub right: TypedRight,
    pub conversion: Conversion,
}

/// What a statement does. A class beside a pointer is the one that the pointer points to.
#[derive(Debug, Drop)]
pub enum TypedKind {
    /// The declaration of a local of this number.
    Declare(usize, Option<Converted>),
    Assign(Variable, Converted),
    Write(TypedPlace, Argument),
    /// `*to = *from`.
    Copy(TypedOperand, TypedOperand, ClassId),
    Call(TypedCall),
    Delete(TypedOperand, ClassId),
    /// The condition of an `if`, and the numbers of the first statements behind its first and behind its second block.
    If(TypedOperand, usize, usize),
    /// The condition of a `while`, and the number of the first statement behind its block.
    While(TypedOperand, usize),
    Return(Option<Argument>),
    Print(TypedOperand),
    /// `print(typeid(*pointer));`
    PrintType(TypedOperand, ClassId),
    /// `print(dynamic_cast<void*>(pointer));`
    PrintView(TypedOperand, ClassId),
    Dump(TypedOperand, ClassId),
}

/// A statement with the line of its first token, from 1, and the number of the statement to which control goes on behind
/// it: the number of all statements stands for the end of the body.
#[derive(Debug, Drop)]
pub struct TypedStatement {
    pub kind: TypedKind,
    pub line: u32,
    pub next: usize,
}
