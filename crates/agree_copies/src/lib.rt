//! The block of a copy `*to = *from` does its statement.
//!
//! A copy gives each leaf of one part the old value of the same leaf of another part of its class, and the block copies leaf by leaf.
//! That comes to the same: two leaves are one or lie apart, and where the two parts have a leaf in common it is the same leaf of both
//! (`SameParts`). What stands in memory after each copy is `LeafCopies`, that the ops go along with the leaves is `CopiedLeaves`, and the
//! tests are those of `CoverTests`.
//!
//! This crate owns two definitions, which only its lemmas use: when parts are the same in both (`IsLike`), and what stands behind some
//! copies (`CopiedSo`). It has no code. The layer above may rely on `copy_does` (`CopyStep`).
#![tactic(auto)]
