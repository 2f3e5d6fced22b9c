//! One turn of a run.

ghost use Rattle.std.specs.Prelude.{◌≡◌, [], true, None, IfOk};
ghost use Rattle.path_model.specs.States.{is_body};
ghost use Rattle.path_machine.specs.invariants.Setups.{IsSetup};
ghost use Rattle.path_machine.specs.invariants.Steps.{size_in};
ghost use Rattle.path_machine.specs.Turns.{IsAtStep, ended_with};
ghost use Rattle.abi_sound.specs.Places.{Places, places_of};
ghost use Rattle.path_run.specs.invariants.Going.{RunGoesOn, Stepped, Turned, turn_end};

use crate::lines::append_told;
use abi_sound::SoundLayout;
use cxx_hierarchy::LimitNo;
use foundation::NoMemory;
use path_machine::{PathState, Run, Telling};
use path_model::Turn;
use text_told::{End, TEXT_LIMIT};

/// The end that an answer is; None for a step that was taken.
fn end_of(turn: Turn) -> Option<End>
    ensures { result ≡ turn_end turn }
{
    match turn {
        Turn::Went => None,
        Turn::Ended => Some(End::Done),
        Turn::Refused(rule, line) => Some(End::Undefined(rule, line)),
        Turn::OutOfSteps => Some(End::OutOfSteps),
        Turn::Limit(limit) => Some(End::Limit(limit)),
    }
}

/// The next step, and what it tells; the end of the run, where it has ended.
///
/// Errors: want of memory.
fn step(run: &Run, state: &mut PathState, telling: &mut Telling) -> Result<Option<End>, NoMemory>
    requires setup { IsSetup run.now }
    requires main { is_body run.now.program.now.main ≡ true }
    requires at_step { IsAtStep run.now.world.h.now (size_in run.now.sizes.now) run.now.program.now state.old }
    requires going { ended_with state.old ≡ None }
    requires fresh { telling.old.outs ≡ [] }
    ensures { IfOk result (λ end. (l : Places) → size_in run.now.sizes.now ≡ l.size → Stepped run.now.world.h.now l run.now.program.now telling.old.trace state.old state.new telling.new.outs end) }
{
    let turn = state.step(run, telling)?;
    Ok(end_of(turn))
}

/// Whether nothing was told.
fn is_silent(telling: &Telling) -> bool
    ensures { result ≡ true → telling.now.outs ≡ [] }
{
    match telling.outs.as_slice() {
        [] => true,
        _ => false,
    }
}

/// The next step, with its lines behind those before; the end of the run, where it has ended. A step whose lines pass the
/// limit on the text leaves none.
///
/// Errors: want of memory.
pub(crate) fn turn<L: SoundLayout>(
    layout: &L,
    run: &Run,
    state: &mut PathState,
    text: &mut Vec<u8>,
    trace: bool,
) -> Result<Option<End>, NoMemory>
    requires layout { L.lays_out layout.now run.now.world.h.now }
    requires setup { IsSetup run.now }
    requires main { is_body run.now.program.now.main ≡ true }
    requires sizes { size_in run.now.sizes.now ≡ (places_of run.now.world.h.now (L.rows layout.now)).size }
    requires going { RunGoesOn run.now.world.h.now (places_of run.now.world.h.now (L.rows layout.now)) run.now.program.now trace state.old text.old.items }
    ensures { IfOk result (λ end. Turned run.now.world.h.now (places_of run.now.world.h.now (L.rows layout.now)) run.now.program.now trace state.old state.new text.new.items end) }
{
    let mut telling = Telling::new(run.alloc, trace);
    match step(run, state, &mut telling)? {
        Some(end) => return Ok(Some(end)),
        None => {}
    }
    if is_silent(&telling) {
        return Ok(None);
    }
    let mut lines = Vec::new(run.alloc);
    append_told(
        run.alloc,
        run.world.h,
        layout,
        &mut lines,
        telling.outs.as_slice(),
    )?;
    if text.len() + lines.len() > TEXT_LIMIT {
        return Ok(Some(End::Limit(LimitNo::L9)));
    }
    text.extend_from_slice(&lines)?;
    Ok(None)
}
