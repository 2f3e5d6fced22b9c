//! Class records, and the hierarchy that a list of records makes.
//!
//! A record is what a class definition says: bases, members, functions, and the order of its parts. Records
//! are generic in the reference `R` to a class: a `Name` as the source spells it, a `ClassId` once it is
//! resolved. This crate owns the definition of a class record, of the class pass (`faults_of`: all faults of a
//! list of records in the order of the pass) and of a hierarchy: the records of the classes in source order, with
//! each reference replaced by the number of the class that it names (`resolved`).
//!
//! The layer above may rely on: `build` gives the hierarchy of records without a fault, and else the first fault;
//! the class of number `n` is the n-th definition of the source; `find` gives the class of a name, and None
//! exactly where no class has it; `Hierarchy::keeps` tells `IsHierarchy`, what every hierarchy keeps: names apart,
//! bases and member objects of smaller numbers than their class (ISO C++03 10), at most 1,024 classes. The virtual
//! bases of each class (`HasVirtualBase`) are looked up in a table that `build` makes.
#![tactic(auto)]

mod class_pass;
pub mod hierarchy;
pub mod names;
pub mod records;
mod resolution;
pub mod stop;
mod virtual_rows;

pub use crate::class_pass::{MOST_CLASSES, MOST_ELEMENTS};
pub use crate::hierarchy::{Hierarchy, build};
pub use crate::names::NameTable;
pub use crate::records::{
    Base, BaseList, ClassId, ClassRec, Destructor, FieldType, Function, FunctionList, Member,
    MemberList, Name, Param, ParamList, PartAt, PartKind, PartOrder, RecordList, ReturnType,
    Scalar, ValueType,
};
pub use crate::stop::{LimitNo, Rule, Stop};
