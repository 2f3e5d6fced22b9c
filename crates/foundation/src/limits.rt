//! Limits that the ends of the program keep on both sides of the language.

/// The most bytes of a source, and of any other input.
pub const SOURCE_LIMIT: usize = 262_144;

/// The most steps of a run.
pub const MOST_STEPS: u32 = 4_000_000;
