//! Blocks of calls, of returns and of the ends of bodies do what the subobject machine does.
//!
//! A call is the statement itself, or the right side of a declaration or of an assignment. Its block reads and tests what the call
//! uses, opens the frame of the function that runs, and tells the call; or the least rule refuses it, or limit 10 stops it. A return
//! gives its result, moved to the class of the declaration that was found, to the body that waits, which may be refused too; that of
//! `main`, and the end of its body, end the run. The end of a function with a result is refused by rule 11. No return stands in the
//! body of a constructor or of a destructor.
//!
//! This crate owns two definitions: when virtual pointers in memory show the views of a state (`Shown.ShowsViews`), and
//! `Shown.NamesOpen`. The layer above may rely on the lemmas of `proofs/`: `call_does`, `declared_call_does` and `assigned_call_does`
//! (`CallStatements`); `return_does` (`ReturnStatements`), where the found conversion of the body on top keeps numbers, as it does in
//! each state of a run (`found_moves` of `Founds`); `function_closes` and `main_closes` over a body that is at its end (`AtEnd` of
//! `Closings`); and on those that say, of ops that run from a byte state that stands for a state of the program, how a pointer is
//! moved to a base and a value converted, and what a call keeps for its return. What is read and tested at the front of a block is
//! proved in agree_statements.
#![tactic(auto)]
