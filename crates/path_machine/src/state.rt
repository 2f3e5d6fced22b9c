//! The machine of a run.

ghost use Rattle.std.specs.Prelude.{◌≡◌, ◌≤◌, ◌<◌, true, false, None, IfOk, OnOk, OnErr, IsErr};
ghost use Rattle.foundation.specs.Limits.{most_steps};
ghost use Rattle.path_model.specs.States.{is_body};
ghost use Rattle.path_machine.specs.invariants.Steps.{size_in};
ghost use Rattle.path_machine.specs.invariants.Setups.{IsSetup};
ghost use Rattle.path_machine.specs.invariants.Ends.{IsFinished, HasMoved};
ghost use Rattle.path_machine.specs.Turns.{taken_by, budget_of, ended_with, lacked_memory, IsAtStep, IsInRun, TurnAgrees};

use crate::machine::Machine;
use crate::moving::move_on;
use crate::next::Next;
use crate::run::Run;
use crate::starting::started;
use crate::telling::Telling;
use foundation::NoMemory;
use path_model::{Turn, plans_fit, runs_are_typed, runs_go_on, statements_are_settled};
use path_tables::Answers;

/// A machine that runs a program: the state that it is in, what was answered of views so far, how many steps it took, how
/// many it may take, the answer that ended the run, and whether memory was wanting.
#[derive(Drop)]
pub struct PathState {
    pub(crate) machine: Machine,
    pub(crate) answers: Answers,
    pub(crate) taken: u32,
    pub(crate) budget: u32,
    pub(crate) end: Option<Turn>,
    pub(crate) failed: bool,
}

impl PathState {
    /// The machine at the start of a run of so many steps, which are no more than the limit on them.
    ///
    /// Errors: want of memory.
    pub fn new(run: &Run, budget: u32) -> Result<PathState, NoMemory>
        requires setup { IsSetup run.now }
        requires main { is_body run.now.program.now.main ≡ true }
        requires budget { budget ≤ most_steps }
        ensures start { IfOk result (λ state. IsInRun run.now.world.h.now (size_in run.now.sizes.now) run.now.program.now state None) }
        ensures none { IfOk result (λ state. taken_by state ≡ 0) }
        ensures budget { IfOk result (λ state. budget_of state ≡ budget) }
        ensures going { IfOk result (λ state. ended_with state ≡ None) }
        ensures ready { IfOk result (λ state. lacked_memory state ≡ false) }
    {
        let alloc = run.alloc;
        match run.program.main.as_ref() {
            None => unreachable!(),
            Some(main) => {
                let machine = started(alloc, run.program, main)?;
                Ok(PathState {
                    machine,
                    answers: Answers::new(alloc),
                    taken: 0,
                    budget,
                    end: None,
                    failed: false,
                })
            }
        }
    }

    /// The next step of the run.
    ///
    /// It puts what the step tells behind what was told before, with what a trace alone shows where there is a trace.
    /// An answer other than Went ends the run, and comes again at each later call.
    ///
    /// Errors: want of memory. Each later call then answers so too, and changes nothing.
    pub fn step(&mut self, run: &Run, outs: &mut Telling) -> Result<Turn, NoMemory>
        requires setup { IsSetup run.now }
        requires main { is_body run.now.program.now.main ≡ true }
        requires stands { lacked_memory self.old ≡ false → IsInRun run.now.world.h.now (size_in run.now.sizes.now) run.now.program.now self.old (ended_with self.old) }
        ensures stands { IfOk result (λ turn. IsInRun run.now.world.h.now (size_in run.now.sizes.now) run.now.program.now self.new (ended_with self.new)) }
        ensures agrees { IfOk result (λ turn. TurnAgrees run.now.world.h.now (size_in run.now.sizes.now) run.now.program.now self.old self.new outs.old outs.new (ended_with self.old) turn) }
        ensures ready { OnOk result (lacked_memory self.new ≡ false) }
        ensures failed { OnErr result (lacked_memory self.new ≡ true) }
        ensures again { lacked_memory self.old ≡ true → IsErr result }
        ensures same { lacked_memory self.old ≡ true → (self.new ≡ self.old) × (outs.new ≡ outs.old) }
    {
        if self.failed {
            return Err(NoMemory);
        }
        match self.next_turn(run, outs) {
            Ok(turn) => Ok(turn),
            Err(error) => {
                self.failed = true;
                Err(error)
            }
        }
    }

    /// The next step of a run that never wanted memory.
    ///
    /// Errors: want of memory. The machine is then of no use.
    fn next_turn(&mut self, run: &Run, outs: &mut Telling) -> Result<Turn, NoMemory>
        requires setup { IsSetup run.now }
        requires main { is_body run.now.program.now.main ≡ true }
        requires stands { IsInRun run.now.world.h.now (size_in run.now.sizes.now) run.now.program.now self.old (ended_with self.old) }
        ensures stands { IfOk result (λ turn. IsInRun run.now.world.h.now (size_in run.now.sizes.now) run.now.program.now self.new (ended_with self.new)) }
        ensures agrees { IfOk result (λ turn. TurnAgrees run.now.world.h.now (size_in run.now.sizes.now) run.now.program.now self.old self.new outs.old outs.new (ended_with self.old) turn) }
        ensures failed { IfOk result (λ turn. self.new.failed ≡ self.old.failed) }
    {
        runs_go_on();
        match self.end {
            Some(turn) => return Ok(turn),
            None => {}
        }
        if self.taken >= self.budget {
            return Ok(self.finish(Turn::OutOfSteps));
        }
        match self.move_on(run, outs)? {
            Next::Goes => {
                self.taken += 1;
                Ok(Turn::Went)
            }
            Next::Ends => {
                self.taken += 1;
                Ok(self.finish(Turn::Ended))
            }
            Next::Refuses(rule, line) => Ok(self.finish(Turn::Refused(rule, line))),
            Next::Limited(limit) => Ok(self.finish(Turn::Limit(limit))),
            Next::Wrong => unreachable!(),
        }
    }

    /// The step of the frame on top, which is not counted yet.
    ///
    /// Errors: want of memory. The machine is then of no use.
    fn move_on(&mut self, run: &Run, outs: &mut Telling) -> Result<Next, NoMemory>
        requires setup { IsSetup run.now }
        requires main { is_body run.now.program.now.main ≡ true }
        requires at { IsAtStep run.now.world.h.now (size_in run.now.sizes.now) run.now.program.now self.old }
        requires room { self.old.taken < self.old.budget }
        ensures { IfOk result (λ next. HasMoved run.now.world.h.now (size_in run.now.sizes.now) run.now.program.now self.old self.new outs.old outs.new next) }
    {
        runs_are_typed();
        plans_fit();
        statements_are_settled();
        runs_go_on();
        let next = move_on(run, &mut self.machine, &mut self.answers, outs)?;
        Ok(next)
    }

    /// The run has ended with this answer.
    fn finish(&mut self, turn: Turn) -> Turn
        ensures { IsFinished self.old self.new turn result }
    {
        self.end = Some(turn);
        turn
    }
}
