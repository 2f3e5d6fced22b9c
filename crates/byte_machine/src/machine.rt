//! The machine.

ghost use Rattle.std.specs.Prelude.{◌≡◌, ◌+◌, ◌<◌, ◌^◌, length, []};
ghost use Rattle.byte_machine.specs.invariants.Flat.{AreFlatBlocks};
ghost use Rattle.abi_dyncast.specs.Casts.{room};
ghost use Rattle.abi_dyncast.specs.Known.{TellsTruth};

use crate::entering::{enter_main, same_words};
use crate::flat::FlatBlock;
use crate::flatten::flat_blocks;
use crate::heap::{Heap, Opened};
use crate::running::{Running, Setup};
use crate::stack::FrameStack;
use crate::step::run_step;
use crate::turn::{MachineTurn, RawOutList, goes_on};
use abi_dyncast::{KnownParts, WorkList};
use byte_code::{Code, ImageBytes};
use byte_memory::Memory;
use byte_shadow::Shadow;
use foundation::{NoMemory, Sequence};
use std::alloc::Global;

/// A machine over a memory, with its image and its code.
#[derive(Drop)]
pub struct Machine<M: Memory> {
    setup: Setup,
    code: Code,
    flat: Vec<FlatBlock>,
    running: Running<M>,
    taken: u32,
    left: u32,
    answer: Option<MachineTurn>,
    failed: bool,
    ghost counts: { taken + left < 2 ^ 32 },
    ghost few: { length code.blocks < 2 ^ 32 },
    ghost size: { setup.size ≡ code.registers },
    ghost room: { room running.work ≡ setup.parts },
    ghost known: { TellsTruth setup.image running.known },
    ghost flats: { length flat.items ≡ length code.blocks },
    ghost same: { AreFlatBlocks code.blocks flat.items },
    ghost settled: { length running.opened.items ≡ 0 },
    ghost told: { running.outs ≡ [] },
}

impl<M: Memory> Machine<M> {
    ghost use Rattle.std.specs.Prelude.{IfOk, OnOk, OnErr, IsErr, true, false};
    ghost use Rattle.byte_machine.specs.Heap.{object_at};
    ghost use Rattle.byte_machine.specs.Turn.{Turns, HasTurn, start_state};
    ghost use Rattle.byte_machine.specs.MachineState.{machine_code, machine_image, cast_room, fixed_in, state_of, has_failed};

    /// A machine before its first step, with globals that are 0 and registers that are unset.
    ///
    /// `largest` is the greatest number of inheritance subobjects of a class: room for a cast is reserved for so many parts.
    /// `steps` says how many blocks may run. Errors: want of memory.
    pub fn new(
        alloc: Global,
        memory: M,
        image: ImageBytes,
        code: Code,
        largest: usize,
        steps: u32,
    ) -> Result<Machine<M>, NoMemory>
    where
        M: Drop,
        requires few { length code.blocks < 2 ^ 32 }
        ensures state { IfOk result (λ m. state_of m ≡ start_state (M.meaning memory) code steps) }
        ensures code { IfOk result (λ m. machine_code m ≡ code) }
        ensures image { IfOk result (λ m. machine_image m ≡ image) }
        ensures parts { IfOk result (λ m. cast_room m ≡ largest) }
        ensures failed { IfOk result (λ m. has_failed m ≡ false) }
    {
        let flat = flat_blocks(alloc, code.blocks.as_slice())?;
        let running = Running {
            heap: Heap::new(alloc, memory),
            shadow: Shadow::new(alloc),
            work: WorkList::reserve(alloc, largest)?,
            known: KnownParts::reserve(alloc)?,
            globals: same_words(alloc, code.globals, Some(0))?,
            spare: Vec::new(alloc),
            lists: Vec::new(alloc),
            opened: Vec::new(alloc),
            top: enter_main(alloc, &code)?,
            below: FrameStack::new(alloc, code.registers),
            calls: 0,
            outs: Sequence::new(alloc),
            line: 0,
        };
        let setup = Setup {
            image,
            size: code.registers,
            parts: largest,
            unset: same_words(alloc, code.registers, None)?,
            alloc,
        };
        Ok(Machine {
            setup,
            code,
            flat,
            running,
            taken: 0,
            left: steps,
            answer: None,
            failed: false,
        })
    }

    /// The memory.
    pub fn memory(&self) -> &M
        ensures { M.meaning result.now ≡ (state_of self.now).memory }
    {
        self.running.heap.memory()
    }

    /// The image that the machine was made with.
    pub fn image(&self) -> &ImageBytes
        ensures { result.now ≡ machine_image self.now }
    {
        &self.setup.image
    }

    /// The code that the machine was made with.
    pub fn code(&self) -> &Code
        ensures { result.now ≡ machine_code self.now }
    {
        &self.code
    }

    /// The heap object whose region has the address, open or closed; None exactly where there is none.
    pub fn opened(&self, at: u64) -> Option<Opened>
        ensures { result ≡ object_at (state_of self.now).objects at }
    {
        self.running.heap.opened(at)
    }

    /// One turn, whose outs are put at the end of `outs`.
    ///
    /// After NoMemory `outs` has its old items, and each later step answers NoMemory too.
    #[inline(always)]
    #[tactic(auto, using(crate::proofs::Flattened::zip_from))]
    pub fn step(&mut self, outs: &mut RawOutList) -> Result<MachineTurn, NoMemory>
        requires { has_failed self.old ≡ false → HasTurn (fixed_in self.old) (machine_code self.old) (state_of self.old) outs.old }
        ensures turn { IfOk result (λ turn.
            Turns (fixed_in self.old) (machine_code self.old) (state_of self.old) outs.old (state_of self.new) outs.new turn) }
        ensures code { machine_code self.new ≡ machine_code self.old }
        ensures image { machine_image self.new ≡ machine_image self.old }
        ensures parts { cast_room self.new ≡ cast_room self.old }
        ensures ok { OnOk result (has_failed self.new ≡ false) }
        ensures failed { OnErr result (has_failed self.new ≡ true) }
        ensures outs { OnErr result (outs.new ≡ outs.old) }
        ensures again { has_failed self.old ≡ true → IsErr result }
    {
        if self.failed {
            return Err(NoMemory);
        }
        if let Some(turn) = self.answer {
            return Ok(turn);
        }
        if self.left == 0 {
            self.answer = Some(MachineTurn::OutOfSteps);
            return Ok(MachineTurn::OutOfSteps);
        }
        match run_step(&self.setup, &self.code, &self.flat, &mut self.running, outs) {
            Err(error) => {
                self.failed = true;
                Err(error)
            }
            Ok(turn) => {
                self.taken += 1;
                self.left -= 1;
                if !goes_on(turn) {
                    self.answer = Some(turn);
                }
                Ok(turn)
            }
        }
    }
}
