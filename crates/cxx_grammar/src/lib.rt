//! The grammar of the language: a small part of C++ (ISO C++03 annex A).
//!
//! This crate owns the definitions of what each token is to the grammar (`Sort`, `lexemes`), of the grammar as data
//! (`grammar`) and what it derives (`Derives`, `Begins`), and of the first event at which reading stops (`Event`):
//! E1, E21 or E2 at the first token that continues no reading, and, where a token does continue one, L3 at the
//! 65th open block and E7 at a second main.
//!
//! The layers above may rely on: `lexemes` gives each token its sort; and a reader that follows the table (`run`)
//! answers by the grammar, since the table is proved to say what the grammar says.
#![tactic(auto)]

pub mod cursor;
pub mod laws;
pub mod lexing;
pub mod sort;
pub mod words;

pub use crate::cursor::{name_of, next, refusal, take, take_name, take_number};
pub use crate::laws::{one_event, some_event};
pub use crate::lexing::lexemes;
pub use crate::sort::{Lexeme, Sort, is_name, is_same};
