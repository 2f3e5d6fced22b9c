//! What is asked of a `return`: its result, converted three times.

ghost use Rattle.std.specs.Prelude.{IfOk};
ghost use Rattle.path_tables.specs.Asked.{AreAnswers};
ghost use Rattle.path_tables.specs.Worlds.{IsWorld};
ghost use Rattle.path_refusals.specs.invariants.SideRules.{ResultRefuses};

use crate::moment::{Moment, Refusal};
use crate::views::{convert as convert_rule, read_converted};
use cxx_program::{Argument, Conversion};
use path_tables::Answers;
use path_values::{Scene, convert, value};

/// What a `return` with a result breaks: the result becomes one of the function's type, then one of the declaration's that was
/// found, then one of the variable's that takes it (ISO C++03 6.6.3).
///
/// Errors: want of memory.
pub(crate) fn result(
    moment: &Moment,
    answers: &mut Answers,
    scene: &Scene,
    a: &Argument,
    found: &Conversion,
    target: &Conversion,
) -> Refusal
    requires world { IsWorld moment.now.world }
    requires answers { AreAnswers moment.now.world.h.now answers.old }
    ensures answers { AreAnswers moment.now.world.h.now answers.new }
    ensures is { IfOk result (ResultRefuses moment.now.world.h.now moment.now.heap.now scene.now a.now found.now target.now) }
{
    let v = value(scene, &a.operand);
    match read_converted(moment, answers, v, &a.conversion)? {
        Some(rule) => return Ok(Some(rule)),
        None => {}
    }
    let own = convert(&moment.world, moment.heap, v, &a.conversion);
    match convert_rule(moment, answers, own, found)? {
        Some(rule) => return Ok(Some(rule)),
        None => {}
    }
    let declared = convert(&moment.world, moment.heap, own, found);
    convert_rule(moment, answers, declared, target)
}
