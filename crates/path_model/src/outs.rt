//! What a run tells, in terms of the language.

use cxx_hierarchy::{ClassId, LimitNo};
use cxx_overrider::FunctionId;
use cxx_subobject::Location;
use foundation::Sequence;
use path_rules::Undefined;

/// The value of a variable or of a leaf: none yet, a number, a null pointer, or a pointer to a class subobject.
#[derive(Debug, Drop)]
pub enum Value {
    Unset,
    Number(i128),
    Null,
    Pointer(Location),
}

/// A leaf of an object that is dumped, and its value.
#[derive(Debug, Drop)]
pub struct DumpLeaf {
    pub at: Location,
    pub value: Value,
}

pub type LeafList = Sequence<DumpLeaf>;

/// What one step tells. The number of a heap object counts from 1.
#[derive(Debug, Drop)]
pub enum Out {
    /// A number that is printed.
    Number(i128),
    /// A pointer that is printed; none is null.
    Pointer(Option<Location>),
    /// The name of a class that is printed.
    TypeName(ClassId),
    /// A heap object that is dumped: its number, its class, and its leaves.
    Dump(u32, ClassId, LeafList),
    /// A member function that is called, and its `this`.
    Call(FunctionId, Location),
    /// A class subobject whose construction is done.
    Built(ClassId, Location),
    /// A class subobject whose destruction begins.
    Ending(ClassId, Location),
}

pub type OutList = Sequence<Out>;

/// What a step comes to.
#[derive(Clone, Copy, Debug, PartialEq, Eq)]
pub enum Turn {
    /// It was taken.
    Went,
    /// The run has ended.
    Ended,
    /// The rule refuses it; the line is that of the statement's first token, or of a body's closing brace.
    Refused(Undefined, u32),
    /// No step is left.
    OutOfSteps,
    /// It would pass the limit.
    Limit(LimitNo),
}
