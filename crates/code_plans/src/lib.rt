//! The ops of plans: virtual pointers, the frames of parts, own events, and how a block of a plan ends.
//!
//! This crate turns the definitions of `code_blocks/specs/Blocks.antt` into ops. A virtual pointer is set by a table of the
//! class's own group or by a word of its VTT (Itanium C++ ABI 2.6.2); which one, and at which distance, is found in one walk
//! over the subobjects of the class, and kept for all its plans (`ClassPointers`). Where no base has a virtual pointer of its
//! own, no subobject is listed. What all classes need is kept once for the program (`ClassTables`).
//!
//! It owns when those tables are those of a class (`AreKeptTables`, `ArePointers`), what a site is (`IsPlanSite`) and when
//! items are an end of a plan (`AreLeft`). The layer above may rely on `push_event`, `push_tail` and `push_block`, which put
//! the ops of the definitions behind others, and on `event_append`: what follows an event's ops stands behind them.
#![tactic(auto)]

pub mod class_tables;
pub mod events;
pub mod hands;
pub mod lengths;
pub mod lone;
pub mod openings;
pub mod parts;
pub mod plan_sites;
pub mod pointers;
pub mod settings;
pub mod tails;
pub mod walks;

pub use crate::class_tables::ClassTables;
pub use crate::events::push_event;
pub use crate::openings::push_openings;
pub use crate::plan_sites::{ClassPlan, PlanSite};
pub use crate::pointers::{ClassPointers, push_pointers};
pub use crate::tails::{push_block, push_tail};
