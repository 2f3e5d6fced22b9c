//! When a byte state stands for a state of the subobject machine.
//!
//! A world is a program with its classes, a sound layout, its tables in an image and its code (`Worlds`). Memory, heap objects and
//! notes stand for the objects of a state column by column (`Columns`): regions, leaves, phases, views and virtual pointers. The
//! frames of the machine stand for bodies and plans (`Frames`), where a plan is a stack of parts, each with what is left of the
//! items of its class (`Goings`). This crate owns these definitions and `StandsForState`, and it has no code.
//!
//! The layers above may rely on the lemmas of `proofs/`: what the machine finds where columns stand, in terms of the rules (regions and
//! the list of objects, phases, owners, views, whether a part lies in a view, downcasts, leaves), and that columns still stand after
//! a leaf was stored, an object was made, or one was closed.
#![tactic(auto)]
