//! The byte machine does what the subobject machine does.
//!
//! The subobject machine of a program names subobjects by their paths; the byte machine has the program's code, the image of its
//! tables and its memory. This crate runs the second and shows that its run is that of the first: one turn by `turn`, a whole run
//! by `run_machine`, and a program from its classes on by `execute`, which builds what the machine is given (`abi_world`). One block
//! agrees with one step by what is proved of each kind of block (`proofs/Turns.antt`): plain statements (agree_statements), copies
//! (agree_copies), calls and returns (agree_calls), `new` and `delete` (agree_objects), events of plans and the ends of bodies
//! (agree_plans), and of each state that a run reaches (agree_runs).
//!
//! It owns `BlockLeads` (`specs/Blocks.antt`), `StandsInSomeWorld` (`specs/Standing.antt`), `Agreed` (`specs/Agreed.antt`), `Executes`
//! (`specs/Reaches.antt`) and `IsExecution` (`specs/Executions.antt`). The layer above may rely on `execute`: the text and the end of
//! the run are those of the subobject machine's run (`told` of text_told), the turns of the returned machine made them, and its last
//! answer tells the same end.
#![tactic(auto)]

pub mod ending;
pub mod execution;
pub mod law;
pub mod run;

pub use crate::execution::{Execution, execute};
pub use crate::law::turn;
pub use crate::run::{Ran, run_machine};
