//! Laws of leaves, of copies and of classes with virtual functions, on which no crate rests.
//!
//! A leaf is an element of a member that is a number or a pointer. The definitions of path_model list the leaves of a part (`leaves_of`) and
//! copy them (`copied`); this crate says what these lists and copies are, in other words. It owns when a leaf lies in a part (`LiesIn`), that
//! a list has exactly those leaves (`ListsLeaves`), and which places lead to a leaf (`IsLeafPlace`).
//!
//! Whoever uses `leaves_of` and `copied` may rely on the laws: the list has each leaf of the part once and no other; a leaf lies in a part
//! exactly where a place leads to it, and one place alone does; and a copy gives each leaf of the one part the old value of the leaf to which
//! the same place leads from the other part, and leaves all other leaves alone. And whoever reads `is_polymorphic` of cxx_expression may
//! rely on this: it finds a virtual function exactly where the class or a base of it declares one (`IsPolymorphic` of cxx_program).
#![tactic(auto)]

pub mod laws;

pub use crate::laws::{
    copies_give_old_values, leaves_are_listed, places_lead_to_leaves, polymorphic_is_found,
};
