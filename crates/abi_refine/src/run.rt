//! A whole run.

ghost use Rattle.std.specs.Prelude.{◌≡◌, ◌≤◌, ◌++◌, ◌∷◌, ◌&&◌, [], false, not, Contains, IfOk, OnOk};
ghost use Rattle.foundation.specs.Limits.{most_steps};
ghost use Rattle.cxx_hierarchy.specs.declared.stop.LimitNo.TheVariants.{L9};
ghost use Rattle.path_model.specs.Runs.{run_of};
ghost use Rattle.byte_machine.specs.MachineState.{machine_code, machine_image, cast_room, fixed_in, state_of, has_failed};
ghost use Rattle.text_bytes.specs.RawTexts.{HasText, is_raw_traced, raw_texts, raw_outs_to_show};
ghost use Rattle.abi_sound.specs.Places.{places_of};
ghost use Rattle.code_ops.specs.Setups.{setup, places};
ghost use Rattle.text_told.specs.Told.{IsRun};
ghost use Rattle.abi_refine.specs.Endings.{counted_by, turn_of};
ghost use Rattle.abi_refine.specs.Executions.{text_of_turn};
ghost use Rattle.abi_refine.specs.Reaches.{Executes};
ghost use Rattle.abi_refine.specs.Standing.{StandsInSomeWorld, state_after};

use crate::ending::end_of;
use crate::law::turn;
use abi_slots::CodeNumbers;
use abi_sound::SoundLayout;
use byte_machine::{Machine, RawOut};
use byte_memory::Memory;
use cxx_hierarchy::{Hierarchy, LimitNo};
use cxx_program::TypedProgram;
use foundation::{NoMemory, Sequence};
use std::alloc::Global;
use text_bytes::{CalledFunctions, append_raw, is_traced};
use text_told::{End, TEXT_LIMIT};

/// The text of a run, the number of its steps, and how it ended.
#[derive(Drop)]
pub struct Ran {
    pub text: Vec<u8>,
    pub steps: u32,
    pub end: End,
}

/// Whether a thing that a turn told has no line: it is told in a trace alone, and the run has none.
fn is_hidden(trace: bool, raw: RawOut) -> bool
    ensures { result ≡ (not trace && is_raw_traced raw) }
{
    !trace && is_traced(raw)
}

/// Puts the text of one thing that a turn told, read on the machine that it left, at the end of a text, unless it is hidden.
///
/// Errors: want of memory.
fn append_one<M: Memory, L: SoundLayout>(
    alloc: Global,
    h: &Hierarchy,
    layout: &L,
    called: &CalledFunctions,
    machine: &Machine<M>,
    text: &mut Vec<u8>,
    trace: bool,
    raw: RawOut,
) -> Result<(), NoMemory>
    requires layout { L.lays_out layout.now h.now }
    requires has_text { HasText h.now (state_of machine.now).objects raw }
    ensures { OnOk result (text.new.items ≡ text.old.items ++ raw_texts h.now (places_of h.now (L.rows layout.now)) called.now (machine_image machine.now) (state_of machine.now).memory (state_of machine.now).objects (raw_outs_to_show trace (raw ∷ []))) }
{
    if is_hidden(trace, raw) {
        return Ok(());
    }
    append_raw(alloc, h, layout, called, machine, text, raw)?;
    Ok(())
}

/// The lines of what a turn told, with those of a trace or without, read on the machine that it left.
///
/// Errors: want of memory.
#[inline(always)]
fn lines_of<M: Memory, L: SoundLayout>(
    alloc: Global,
    h: &Hierarchy,
    layout: &L,
    called: &CalledFunctions,
    machine: &Machine<M>,
    trace: bool,
    outs: &[RawOut],
) -> Result<Vec<u8>, NoMemory>
    requires layout { L.lays_out layout.now h.now }
    requires has_text { (raw : RawOut) → Contains outs.now raw → HasText h.now (state_of machine.now).objects raw }
    ensures { IfOk result (λ lines. lines.items ≡ raw_texts h.now (places_of h.now (L.rows layout.now)) called.now (machine_image machine.now) (state_of machine.now).memory (state_of machine.now).objects (raw_outs_to_show trace outs.now)) }
{
    let mut text = Vec::new(alloc);
    for out in outs {
        append_one(alloc, h, layout, called, machine, &mut text, trace, *out)?;
    }
    Ok(text)
}

/// Puts lines at the end of a text; most turns tell nothing. Errors: want of memory.
#[inline(always)]
fn append_lines(text: &mut Vec<u8>, lines: &[u8]) -> Result<(), NoMemory>
    ensures { OnOk result (text.new.items ≡ text.old.items ++ lines.now) }
{
    if lines.is_empty() {
        return Ok(());
    }
    text.extend_from_slice(lines)?;
    Ok(())
}

/// Turns a machine, over whatever memory, that stands for the start of a program until an answer ends the run, or its text passes
/// the limit. The text has the lines of a trace or not.
///
/// Errors: want of memory.
pub fn run_machine<M: Memory, L: SoundLayout>(
    alloc: Global,
    h: &Hierarchy,
    layout: &L,
    program: &TypedProgram,
    numbers: &CodeNumbers,
    machine: &mut Machine<M>,
    trace: bool,
) -> Result<Ran, NoMemory>
    requires layout { L.lays_out layout.now h.now }
    requires stands { StandsInSomeWorld (setup h.now (L.rows layout.now) program.now) (machine_code machine.old) numbers.now (fixed_in machine.old) (state_after (setup h.now (L.rows layout.now) program.now) 0) (state_of machine.old) }
    requires first { (state_of machine.old).taken ≡ 0 }
    requires budget { (state_of machine.old).left ≤ most_steps }
    requires ready { has_failed machine.old ≡ false }
    ensures run { IfOk result (λ ran. let x = setup h.now (L.rows layout.now) program.now in IsRun x.h (places x) x.program trace (state_of machine.old).left ran.text.items ran.end) }
    ensures executes { IfOk result (λ ran. Executes (fixed_in machine.old) (machine_code machine.old) (text_of_turn (setup h.now (L.rows layout.now) program.now) numbers.now (machine_image machine.old) trace) (state_of machine.old) (state_of machine.new) ran.text.items ran.end) }
    ensures ended { IfOk result (λ ran. (ran.end ≡ End.Limit L9 → ⊥) → (state_of machine.new).answer ≡ Some (turn_of ran.end)) }
    ensures steps { IfOk result (λ ran. (ran.end ≡ End.Limit L9 → ⊥) → let x = setup h.now (L.rows layout.now) program.now in ran.steps ≡ (run_of x.h (places x).size x.program (state_of machine.old).left).steps) }
    ensures code { machine_code machine.new ≡ machine_code machine.old }
    ensures image { machine_image machine.new ≡ machine_image machine.old }
    ensures parts { cast_room machine.new ≡ cast_room machine.old }
{
    let called = CalledFunctions::new(alloc, numbers.rows())?;
    let mut text = Vec::new(alloc);
    let mut steps = 0u32;
    loop {
        let mut outs = Sequence::new(alloc);
        let answer = turn(h, layout, program, numbers, machine, &mut outs)?;
        match end_of(answer) {
            Some(end) => {
                let steps = counted(steps, end);
                return Ok(Ran { text, steps, end });
            }
            None => {}
        }
        let lines = lines_of(alloc, h, layout, &called, machine, trace, outs.as_slice())?;
        if text.len() + lines.len() > TEXT_LIMIT {
            return Ok(Ran {
                text,
                steps,
                end: End::Limit(LimitNo::L9),
            });
        }
        append_lines(&mut text, &lines)?;
        steps += 1;
    }
}

/// The steps of a run that ends behind so many: the end of `main` is one more.
fn counted(steps: u32, end: End) -> u32
    requires { steps ≤ most_steps }
    ensures { result ≡ counted_by steps end }
{
    match end {
        End::Done => steps + 1,
        _ => steps,
    }
}
