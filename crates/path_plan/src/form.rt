//! What a plan is of.

/// What is built or destroyed: a complete object with its virtual bases, or a base of one without them (Itanium C++ ABI 5.1.4.3).
#[derive(Clone, Copy, Debug, PartialEq, Eq)]
pub enum Form {
    InFull,
    AsBase,
}
