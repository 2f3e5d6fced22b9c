//! A machine that runs blocks of ops over a memory, one block a step: the byte side of the whole language.
//!
//! It knows no declaration: it sees registers of frames, addresses, numbers of classes, and words of an image. The crate owns the
//! meaning of one turn: `specs/Effects.antt` says what each kind of op does, one line a kind, over `specs/Checks.antt`,
//! `Values.antt`, `Calls.antt` and `Plans.antt`; `specs/Runs.antt` what the ops of a block lead to, with what follows a return;
//! `specs/Turn.antt` what a turn is: once an answer ended the run it changes nothing and gives that answer again, with no step
//! left it answers OutOfSteps, else it runs the block of the innermost frame. `Machine` is proved to be moved by these turns
//! alone.
//!
//! What runs is a flat form of the code, which `Machine::new` makes: one kind for each common op, and one for neighbours that often
//! stand together (`specs/invariants/Flat.antt` says for which ops each stands). Frames wait in a stack of their own (`stack`), which
//! keeps most of them in few bytes where many wait (`short`).
//!
//! The layer above may rely on `Machine::step`, over `state_of` (`specs/MachineState.antt`), and on the lemmas of `proofs/`, one
//! for each op and outcome, from which what a block leads to is composed: `Leads.antt` and `TurnLeads.antt` for whole blocks,
//! `CheckLeads`, `ValueLeads`, `CallLeads`, `ReturnLeads`, `PlanLeads` and `ControlLeads` for ops, and `Registers`, `Ranges`,
//! `Tables`, `Objects` and `Counted` for what they ask.
#![tactic(auto)]

mod block;
mod callees;
mod calls;
mod checks;
mod entering;
mod finishing;
mod flat;
mod flat_run;
mod flatten;
pub mod frames;
mod fuse;
mod hands;
pub mod heap;
pub mod machine;
mod numbers;
mod ops;
mod outs;
mod plans;
mod returns;
pub mod running;
mod short;
mod simple;
mod stack;
mod step;
pub mod turn;
mod values;
mod views;
mod words;

pub use crate::frames::{Frame, Handed, Kept};
pub use crate::heap::Opened;
pub use crate::machine::Machine;
pub use crate::turn::{MachineTurn, RawOut, RawOutList};
