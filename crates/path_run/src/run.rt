//! A whole run.

ghost use Rattle.std.specs.Prelude.{◌≡◌, ◌≤◌, true, IfOk};
ghost use Rattle.foundation.specs.Limits.{most_steps};
ghost use Rattle.cxx_overrider.specs.Overriders.{AreOverriders};
ghost use Rattle.cxx_program.specs.Typed.{IsTypedProgram};
ghost use Rattle.path_model.specs.States.{is_body};
ghost use Rattle.path_machine.specs.invariants.Setups.{IsSetup};
ghost use Rattle.path_machine.specs.invariants.Steps.{size_in};
ghost use Rattle.abi_sound.specs.Places.{places_of};
ghost use Rattle.text_told.specs.Told.{IsRun, told, told_ending};

use crate::sizes::sizes_of;
use crate::turn::turn;
use abi_sound::SoundLayout;
use cxx_hierarchy::Hierarchy;
use cxx_overrider::Overriders;
use cxx_program::TypedProgram;
use foundation::{NoMemory, Sequence};
use path_bodies::BodyIndex;
use path_machine::{PathState, Run};
use path_numbers::Numbers;
use path_tables::World;
use std::alloc::Global;
use text_told::End;

/// The lines of a run, and how it ended.
#[derive(Drop)]
pub struct PathRun {
    pub text: Sequence<u8>,
    pub end: End,
}

/// Turns the machine of a run until an answer ends it.
fn run_all<L: SoundLayout>(
    layout: &L,
    run: &Run,
    steps: u32,
    trace: bool,
) -> Result<PathRun, NoMemory>
    requires layout { L.lays_out layout.now run.now.world.h.now }
    requires setup { IsSetup run.now }
    requires main { is_body run.now.program.now.main ≡ true }
    requires sizes { size_in run.now.sizes.now ≡ (places_of run.now.world.h.now (L.rows layout.now)).size }
    requires budget { steps ≤ most_steps }
    ensures { IfOk result (λ ran. IsRun run.now.world.h.now (places_of run.now.world.h.now (L.rows layout.now)) run.now.program.now trace steps ran.text ran.end) }
{
    let mut state = PathState::new(run, steps)?;
    let mut text = Vec::new(run.alloc);
    loop {
        let ended = turn(layout, run, &mut state, &mut text, trace)?;
        match ended {
            Some(end) => return Ok(PathRun {
                text: Sequence::from_vec(text),
                end,
            }),
            None => {}
        }
    }
}

/// Runs a typed program that has a `main`, for at most so many steps, with a trace or without; places and sizes are those of the
/// layout.
///
/// Errors: want of memory.
pub fn run_paths<L: SoundLayout>(
    alloc: Global,
    h: &Hierarchy,
    overriders: &Overriders,
    layout: &L,
    program: &TypedProgram,
    steps: u32,
    trace: bool,
) -> Result<PathRun, NoMemory>
    requires layout { L.lays_out layout.now h.now }
    requires overriders { AreOverriders h.now overriders.now }
    requires typed { IsTypedProgram h.now program.now }
    requires main { is_body program.now.main ≡ true }
    requires budget { steps ≤ most_steps }
    ensures text { IfOk result (λ run. run.text ≡ (told h.now (places_of h.now (L.rows layout.now)) program.now trace steps).text) }
    ensures end { IfOk result (λ run. told_ending run.end ≡ (told h.now (places_of h.now (L.rows layout.now)) program.now trace steps).ending) }
{
    h.keeps();
    let numbers = Numbers::new(alloc, h)?;
    let index = BodyIndex::new(alloc, program)?;
    let sizes = sizes_of(alloc, h, layout)?;
    let run = Run {
        alloc,
        world: World {
            h,
            numbers: &numbers,
            overriders,
        },
        program,
        index: &index,
        sizes: sizes.as_slice(),
    };
    let ran = run_all(layout, &run, steps, trace)?;
    Ok(ran)
}
