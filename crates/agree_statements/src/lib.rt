//! The blocks of statements do their statements.
//!
//! A statement is next on the path side (`specs/Statements.antt`: `IsNext`), and a byte state in which its block begins stands for
//! that state (`BeginsBlock`). Then the ops of the block lead to a byte state that agrees with where the statement moves: it stands for
//! the next state with the same events told, or both have ended, refused by the same rule at the same line. That holds for each plain
//! statement (`specs/Statements.antt`: `is_plain_statement`): prints, dumps, declarations, assignments, writes, `if` and `while`, with every
//! right side but a call and a `new`. What calls, makes, destroys, copies or returns is for the crates above.
//!
//! This crate owns what writing free registers leaves (`Registers`), how tests of registers decide the uses of the path side
//! (`Tests`), where a block begins, and which statements are plain (`Statements`), and when a part is seen from a view (`Seen`). It
//! has no code.
//!
//! The layer above may rely on the lemmas of `proofs/`: `plain_does` for each plain statement; calculations of numbers as words
//! (`Numbers`), operands, tests, arguments, conversions and places lead to the word of what the path side has, and `leads_given` and
//! `finished` lead from there to the next statement.
#![tactic(auto)]
