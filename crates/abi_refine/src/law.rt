//! One turn.

ghost use Rattle.std.specs.Prelude.{◌≡◌, IfOk, OnOk, OnErr, [], false, true};
ghost use Rattle.path_model.specs.Runs.{move};
ghost use Rattle.code_ops.specs.Setups.{setup, places};
ghost use Rattle.byte_machine.specs.Turn.{Turns};
ghost use Rattle.byte_machine.specs.MachineState.{machine_code, machine_image, cast_room, fixed_in, state_of, has_failed};
ghost use Rattle.abi_refine.specs.Standing.{StandsInSomeWorld, state_after};
ghost use Rattle.abi_refine.specs.Agreed.{AgreedNext};

use abi_slots::CodeNumbers;
use abi_sound::SoundLayout;
use byte_machine::{Machine, MachineTurn, RawOutList};
use byte_memory::Memory;
use cxx_hierarchy::Hierarchy;
use cxx_program::TypedProgram;
use foundation::NoMemory;

/// One turn of a machine that stands for the state of the program after as many steps as it has taken.
///
/// It agrees with the program's next step, and is a turn of the machine's own meaning. After NoMemory `outs` is as before, and the
/// machine answers NoMemory from then on.
#[inline(always)]
pub fn turn<M: Memory, L: SoundLayout>(
    _h: &Hierarchy,
    _layout: &L,
    _program: &TypedProgram,
    _numbers: &CodeNumbers,
    machine: &mut Machine<M>,
    outs: &mut RawOutList,
) -> Result<MachineTurn, NoMemory>
    requires stands { StandsInSomeWorld (setup _h.now (L.rows _layout.now) _program.now) (machine_code machine.old) _numbers.now (fixed_in machine.old) (state_after (setup _h.now (L.rows _layout.now) _program.now) (state_of machine.old).taken) (state_of machine.old) }
    requires ready { has_failed machine.old ≡ false }
    requires none { outs.old ≡ [] }
    ensures agreed { IfOk result (λ turn. AgreedNext (setup _h.now (L.rows _layout.now) _program.now) (machine_code machine.old) _numbers.now (fixed_in machine.old) (state_of machine.old) (state_of machine.new) outs.new turn) }
    ensures turned { IfOk result (λ turn. Turns (fixed_in machine.old) (machine_code machine.old) (state_of machine.old) [] (state_of machine.new) outs.new turn) }
    ensures code { machine_code machine.new ≡ machine_code machine.old }
    ensures image { machine_image machine.new ≡ machine_image machine.old }
    ensures parts { cast_room machine.new ≡ cast_room machine.old }
    ensures ready { OnOk result (has_failed machine.new ≡ false) }
    ensures failed { OnErr result (has_failed machine.new ≡ true) }
    ensures outs { OnErr result (outs.new ≡ []) }
{
    let turn = machine.step(outs)?;
    Ok(turn)
}
