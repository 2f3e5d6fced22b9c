//! The law of dumps in memory: the bytes behind a turn are what the step tells.

ghost use Rattle.std.specs.Prelude.{◌≡◌, List};
ghost use Rattle.path_model.specs.Runs.{outs_in};
ghost use Rattle.byte_code.specs.declared.code.Code.{Code};
ghost use Rattle.byte_machine.specs.declared.turn.MachineTurn.{MachineTurn};
ghost use Rattle.byte_machine.specs.declared.turn.MachineTurn.TheVariants.{Went};
ghost use Rattle.byte_machine.specs.declared.turn.RawOut.{RawOut};
ghost use Rattle.byte_machine.specs.Running.{Fixed};
ghost use Rattle.byte_machine.specs.Turn.{ByteState};
ghost use Rattle.code_ops.specs.Setups.{Setup};
ghost use Rattle.abi_slots.specs.declared.code_numbers.CodeRow.{CodeRow};
ghost use Rattle.abi_refine.specs.Agreed.{AgreedNext, move_after};
ghost use Rattle.dump_laws.specs.DumpsHeld.{AgreeOnDumps};

/// A turn that went and agrees with the step that is next, as each turn of `abi_refine::turn` does, tells a dump where the step does.
///
/// It then tells an address in the heap object of the dump, and nothing else. Behind the turn the bits of each leaf, where the layout
/// places it in that object, are the value that the dump names.
pub fn turns_tell_dumps()
    ensures { (x : Setup) (code : Code) (numbers : List CodeRow) (f : Fixed) (b b' : ByteState) (told : List RawOut) (turn : MachineTurn) → AgreedNext x code numbers f b b' told turn → turn ≡ Went → AgreeOnDumps x b' told (outs_in (move_after x b.taken)) }
{}
