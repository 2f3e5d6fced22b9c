//! Why a step of a run is refused.
//!
//! Some steps have no meaning: they use a pointer that leads nowhere, or an object that is not ready, or a value that was
//! never set (ISO C++03 12.7 and others; docs/LANGUAGE.md has the list). This crate owns the names of these rules, in
//! the order of their numbers (`undefined_no`): where a step breaks more than one, the least number counts. It has no call.
//!
//! The layers above may rely on the numbers alone: those of the printed text, `undefined U<no> <Name> line <n>`.
#![tactic(auto)]

/// Why a step is refused. The numbers are those of the printed text, `undefined U<no> <Name> line <n>`.
#[derive(Clone, Copy, Debug, PartialEq, Eq)]
pub enum Undefined {
    NullUse,
    Dangling,
    NotReady,
    OutsideView,
    Unset,
    PureCall,
    BadDowncast,
    NonVirtualDelete,
    NotHeapObject,
    NotComplete,
    MissingReturn,
    Overflow,
}
