//! Laws of whole runs on the byte machine: how many steps the machine that a run hands out has taken.
//!
//! abi_refine says that turns lead from the start to the state of that machine and made the text (`Executes`, `IsExecution`). This
//! crate says how many steps these turns are. It owns how many turns lead to a state (`turn_count`), how many steps a run takes
//! (`step_count`), and that a state has taken so many (`TakesSteps`, `HasTaken`). It has no code that is run.
//!
//! Whoever has the machine of a run may rely on the law `turns_are_steps`: each turn is one step, the last one too, whether it ends
//! the run, is refused, meets a limit or has lines that pass the limit on the text; a run that is out of steps takes none more and
//! has taken all. Steps taken and steps left are together those that the run was given.
#![tactic(auto)]

pub mod laws;

pub use crate::laws::turns_are_steps;
