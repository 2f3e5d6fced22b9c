//! The tokens of a text (ISO C++03 2.4 to 2.13).
//!
//! This crate owns the definitions of what one token is on its own (`IsToken`), of white space and comments
//! (`Blank`), of the longest token at a place (`IsLongest`), and of how these cover a text (`AreTokens`).
//!
//! The layer above may rely on: `tokens` gives each token with its place in bytes, its line from 1 and the value
//! of a number, up to the end of the text or up to the first place where no token stands; each token is the
//! longest that may stand at its place; and each text has one list of tokens and one such place. Which words are
//! names, and which tokens make a source, is not judged here.
#![tactic(auto)]

pub mod blank;
pub mod bytes;
pub mod longest;
pub mod scan;
pub mod token;

pub use crate::longest::MOST_WORD_BYTES;
pub use crate::scan::{one_token_list, some_token_list, tokens};
pub use crate::token::{Kind, Token, TokenList, Tokens};
