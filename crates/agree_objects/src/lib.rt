//! Blocks of `new` and `delete` do what the subobject machine does (ISO C++03 5.3.4, 5.3.5).
//!
//! The crate owns two definitions: a heap that has grown (`Grown.Grows`), and what is known of the values that bodies hold
//! (`Grown.AreHeld`). Its lemmas say that what stood for values and frames stands for them in a heap with one object more; that
//! the frame which a `new` or a `delete` opens stands for the plan of the heap object, over the body that waits; what the tests of
//! a `delete` decide; that the entry of a deleting destructor in a table leads to the plan of the whole object; and of whole
//! blocks, that they agree with the move of the subobject machine: refused by the least rule, past limit 8 or 10, or the state with
//! the plan on top.
//!
//! The layer above may rely on the lemmas `assign_new_does` and `declare_new_does` (`proofs/NewSteps.antt`) and `delete_does`
//! (`proofs/DeleteSteps.antt`). It has no code.
#![tactic(auto)]
