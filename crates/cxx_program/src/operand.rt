//! Variables, operands and conversions.

use cxx_hierarchy::Scalar;
use cxx_subobject::Subobject;
use foundation::Sequence;

/// A variable: the number of a global, or of a local of the body that runs. Parameters come first.
#[derive(Clone, Copy, Debug, PartialEq, Eq)]
pub enum Variable {
    Global(usize),
    Local(usize),
}

/// What a statement takes: the value of a variable, `this`, or a number. `false` is 0 and `true` is 1.
#[derive(Clone, Copy, Debug, PartialEq, Eq)]
pub enum TypedOperand {
    Variable(Variable),
    This,
    Number(i64),
}

/// How a value becomes one of the type that is wanted (ISO C++03 4.5, 4.7, 4.10, 4.12).
#[derive(Debug, Drop)]
pub enum Conversion {
    /// A number, to a number of this type.
    Number(Scalar),
    /// A number, to what a bit-field of this type and so many bits keeps of it (ISO C++03 9.6).
    Bits(Scalar, u32),
    /// A null pointer constant, to a null pointer.
    Null,
    /// A pointer, to one to the same class.
    Same,
    /// A pointer, to one to a proper base: the base is this subobject of the class that it points to.
    Base(Subobject),
}

/// An operand that is converted.
#[derive(Debug, Drop)]
pub struct Argument {
    pub operand: TypedOperand,
    pub conversion: Conversion,
}

pub type ArgumentList = Sequence<Argument>;
