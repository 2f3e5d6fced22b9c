//! Pointers to members (Itanium C++ ABI 2.3; ISO C++03 4.11, 5.3.1, 5.5, 8.3.3).
//!
//! A pointer to a data member is the member's place in the object: 8 bytes, and -1 for null. A pointer to a function is two words. The
//! first is odd for a virtual function and leads to an entry of the virtual table; for another one it is even and names the code. The
//! second is what is added to `this` first. This crate owns what such pointers are and how they go from a base to a derived class
//! (`specs/Pointers.antt`), their bytes (`specs/PointerBytes.antt`), what a call through one runs (`specs/PointerCalls.antt`), and the
//! text that tells it (`specs/Answers.antt`).
//!
//! The layer above may rely on: `member_pointer` and `convert` give that pointer or that refusal; `to_bytes` gives those bytes;
//! `apply` reads bytes alone and finds the final overrider in the whole object and its `this`; `member_answer` gives the text or the
//! first rule that refuses. All of it holds over any sound layout.
#![tactic(auto)]

pub mod answers;
pub mod calls;
pub mod conversions;
pub mod laws;
pub mod pointer_bytes;
pub mod pointers;
mod texts;

pub use crate::answers::{MemberAnswer, member_answer};
pub use crate::calls::{Applied, apply};
pub use crate::conversions::convert;
pub use crate::laws::data_bytes_name_fields;
pub use crate::pointer_bytes::to_bytes;
pub use crate::pointers::{MemberFault, MemberPointer, MemberRule, member_pointer};
