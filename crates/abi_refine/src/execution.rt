//! A program, built and run on the byte machine.

ghost use Rattle.std.specs.Prelude.{◌≡◌, ◌≤◌, true, Some, IfOk};
ghost use Rattle.foundation.specs.Limits.{most_steps};
ghost use Rattle.cxx_hierarchy.specs.declared.stop.LimitNo.TheVariants.{L9};
ghost use Rattle.cxx_overrider.specs.Overriders.{AreOverriders};
ghost use Rattle.cxx_program.specs.Typed.{IsTypedProgram};
ghost use Rattle.path_model.specs.States.{is_body};
ghost use Rattle.path_model.specs.Runs.{run_of};
ghost use Rattle.abi_sound.specs.Places.{places_of};
ghost use Rattle.abi_tables.specs.Counts.{words_of_all_classes, most_words};
ghost use Rattle.code_ops.specs.Setups.{setup};
ghost use Rattle.abi_lower.specs.Bounds.{IsSmall};
ghost use Rattle.text_told.specs.Told.{told, told_ending};
ghost use Rattle.byte_machine.specs.MachineState.{machine_code, machine_image, state_of};
ghost use Rattle.abi_refine.specs.Executions.{IsExecution};

use crate::run::{Ran, run_machine};
use abi_slots::CodeNumbers;
use abi_sound::SoundLayout;
use abi_world::{Built, build};
use byte_machine::Machine;
use byte_memory::PageMemory;
use cxx_hierarchy::Hierarchy;
use cxx_overrider::Overriders;
use cxx_program::TypedProgram;
use cxx_subobject::MOST_SUBOBJECTS;
use foundation::{NoMemory, Sequence};
use std::alloc::Global;
use text_told::End;

/// What a run showed, its steps and how it ended; and the machine that ran it, with the numbers of its functions.
#[derive(Drop)]
pub struct Execution {
    pub text: Sequence<u8>,
    pub steps: u32,
    pub end: End,
    pub numbers: CodeNumbers,
    pub machine: Machine<PageMemory>,
}

/// Builds a typed program that has a `main`, and runs it on the byte machine for at most so many steps.
///
/// The machine has the tables, the code and the memory of the program, and no path of a subobject; the text and the end of its run
/// are those of the subobject machine's, with the lines of a trace or without. Where the text passes its limit, `steps` are those whose lines stand in it.
///
/// Errors: want of memory.
pub fn execute<L: SoundLayout>(
    alloc: Global,
    h: &Hierarchy,
    overriders: &Overriders,
    layout: &L,
    program: &TypedProgram,
    steps: u32,
    trace: bool,
) -> Result<Execution, NoMemory>
    requires layout { L.lays_out layout.now h.now }
    requires overriders { AreOverriders h.now overriders.now }
    requires words { words_of_all_classes h.now (places_of h.now (L.rows layout.now)) ≤ most_words }
    requires typed { IsTypedProgram h.now program.now }
    requires main { is_body program.now.main ≡ true }
    requires small { IsSmall program.now }
    requires budget { steps ≤ most_steps }
    ensures text { IfOk result (λ run. run.text ≡ (told h.now (places_of h.now (L.rows layout.now)) program.now trace steps).text) }
    ensures end { IfOk result (λ run. told_ending run.end ≡ (told h.now (places_of h.now (L.rows layout.now)) program.now trace steps).ending) }
    ensures steps { IfOk result (λ run. (run.end ≡ End.Limit L9 → ⊥) → run.steps ≡ (run_of h.now (places_of h.now (L.rows layout.now)).size program.now steps).steps) }
    ensures machine { IfOk result (λ run. IsExecution (setup h.now (L.rows layout.now) program.now) steps trace run.numbers (machine_code run.machine) (machine_image run.machine) (state_of run.machine) run.text run.end) }
{
    let Built {
        code,
        numbers,
        image,
    } = build(alloc, h, overriders, layout, program)?;
    let memory = PageMemory::new(alloc);
    let mut machine = Machine::new(alloc, memory, image, code, MOST_SUBOBJECTS as usize, steps)?;
    let Ran { text, steps, end } = run_machine(
        alloc,
        h,
        layout,
        program,
        &numbers,
        &mut machine,
        trace,
    )?;
    Ok(Execution {
        text: Sequence::from_vec(text),
        steps,
        end,
        numbers,
        machine,
    })
}
