//! What all readers share.

use cxx_grammar::Lexeme;
use cxx_hierarchy::Stop;
use std::alloc::Global;

/// The bytes of a text, and where the trees that are read of it are made.
#[derive(Drop)]
pub struct Text<'t> {
    pub alloc: Global,
    pub bytes: &'t [u8],
}

/// What was read at the front of a list, and what follows it.
pub type Reading<'a, T> = Result<(T, &'a [Lexeme]), Stop>;
