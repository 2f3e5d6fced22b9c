//! The law of the ops of statements: which ones their blocks may have.

ghost use Rattle.std.specs.Prelude.{ℕ, List};
ghost use Rattle.cxx_program.specs.declared.program.TypedBody.{TypedBody};
ghost use Rattle.cxx_program.specs.declared.statement.TypedStatement.{TypedStatement};
ghost use Rattle.abi_slots.specs.declared.code_numbers.CodeRow.{CodeRow};
ghost use Rattle.byte_code.specs.declared.code.Code.{Code};
ghost use Rattle.code_ops.specs.Setups.{Setup, Routine};
ghost use Rattle.code_blocks.specs.Blocks.{Place, AtStatement, statement_ops};
ghost use Rattle.code_blocks.specs.Lowered.{IsLowered};
ghost use Rattle.code_laws.specs.Kinds.{AllMayStand, IsNthStatement, HasSuchBlock};

/// Each op of a statement may stand there by the table: of any statement, typed or not, in any body, whatever numbers the blocks have
/// (`ops`). So it is of the block of each statement in the code of a program (`code`).
pub fn statements_have_their_ops()
    ensures ops { (x : Setup) (at : Place → ℕ) (r : Routine) (body : TypedBody) (n : ℕ) (s : TypedStatement) → AllMayStand r s.kind (statement_ops x at r body n s) }
    ensures code { (x : Setup) (code : Code) (numbers : List CodeRow) (lowered : IsLowered x code numbers) (r : Routine) (n : ℕ) (s : TypedStatement) → IsNthStatement x r n s → HasSuchBlock code (lowered.at (AtStatement r n)) r s.kind }
{}
