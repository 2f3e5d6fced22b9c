//! Arrays by `new[]` and `delete[]`, with cookies (Itanium C++ ABI 2.7).
//!
//! Where the destructor of a class is not trivial, `delete[]` has to know how many elements it ends: `new[]` stores the count in the
//! 8 bytes before element 0, in a cookie that keeps the alignment of the class. This crate owns which class needs a cookie
//! (`NeedsCookie`), its size (`IsCookie`), where elements lie and in which order they are ended (`elements`, `ended_elements`),
//! when a memory holds an array (`IsArray`), and the text of an array (`array_text`).
//!
//! The layer above may rely on: `new_array` gives element 0 of an array, over any memory, and `delete_array` takes it, whatever was
//! stored in the elements between; with a cookie it ends each element once, from the last to the first, and without one none.
//! `array_answer` tells the text of an array of a class, or why there is none.
#![tactic(auto)]

pub mod answers;
pub mod arrays;
pub mod cookies;
pub mod laws;
pub mod texts;

pub use crate::answers::{ArrayAnswer, array_answer};
pub use crate::arrays::{AddressList, array_count, delete_array, new_array};
pub use crate::cookies::{cookie_size, needs_cookie};
pub use crate::laws::{
    arrays_stay, each_ended_once, elements_lie_apart, none_ended, one_answer, some_answer,
};
