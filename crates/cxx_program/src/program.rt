//! Bodies, and a program as a whole.

use crate::operand::{Conversion, TypedOperand};
use crate::statement::TypedStatement;
use cxx_hierarchy::{ClassId, ValueType};
use cxx_overrider::FunctionId;
use foundation::Sequence;

/// The types of variables, by number.
pub type TypeList = Sequence<ValueType<ClassId>>;

/// Whose body it is.
#[derive(Clone, Copy, Debug, PartialEq, Eq)]
pub enum Owner {
    Main,
    Function(FunctionId),
    Constructor(ClassId),
    Destructor(ClassId),
}

/// An initializer of a constructor: the number of the member in the class, and its value.
#[derive(Debug, Drop)]
pub struct TypedInit {
    pub member: u32,
    pub operand: TypedOperand,
    pub conversion: Conversion,
}

pub type TypedInitList = Sequence<TypedInit>;

pub type TypedList = Sequence<TypedStatement>;

/// A body: the types of its locals with the parameters first, the initializers of a constructor, the statements in text
/// order, and the lines of its opening and its closing brace.
#[derive(Debug, Drop)]
pub struct TypedBody {
    pub owner: Owner,
    pub locals: TypeList,
    pub inits: TypedInitList,
    pub statements: TypedList,
    pub line: u32,
    pub close_line: u32,
}

pub type TypedBodyList = Sequence<TypedBody>;

/// A program: the types of its globals, the bodies of member functions, constructors and destructors in source order, and
/// `main`.
#[derive(Debug, Drop)]
pub struct TypedProgram {
    pub globals: TypeList,
    pub bodies: TypedBodyList,
    pub main: Option<TypedBody>,
}
