//! Programs in which every name has its meaning and every conversion its path.
//!
//! A typed program names a variable by its number, a class by its number, a member by the subobject that declares it and
//! its number there, and a converted pointer by the subobject of its class that is the base (ISO C++03 4.10, 10.2). The
//! statements of a body stand in one list in text order: a statement says to which one control goes on, so that whoever
//! runs a body follows numbers alone. This crate owns that form and the definition of a program whose types fit
//! (`IsTypedProgram`), and no definition of what a source resolves to.
//!
//! The layers above may rely on the form alone: `cxx_resolve` says which program belongs to a source, `path_model` what
//! its steps do.
#![tactic(auto)]

pub mod operand;
pub mod program;
pub mod statement;

pub use crate::operand::{Argument, ArgumentList, Conversion, TypedOperand, Variable};
pub use crate::program::{
    Owner, TypeList, TypedBody, TypedBodyList, TypedInit, TypedInitList, TypedList, TypedProgram,
};
pub use crate::statement::{
    Arithmetic, Converted, PassedList, PassedMember, TypedCall, TypedCast, TypedKind, TypedPlace,
    TypedRight, TypedStatement,
};
