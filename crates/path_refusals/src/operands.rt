//! What is asked of operands that are read, converted and calculated with.

ghost use Rattle.std.specs.Prelude.{[], ◌∷◌, ◌++◌, IfOk};
ghost use Rattle.std.specs.List.{flat_map};
ghost use Rattle.cxx_hierarchy.specs.Classes.{Classes};
ghost use Rattle.path_model.specs.Values.{value_of_operand};
ghost use Rattle.path_model.specs.Uses.{Reads, Overflows, argument_uses};
ghost use Rattle.path_tables.specs.Asked.{AreAnswers};
ghost use Rattle.path_tables.specs.Worlds.{IsWorld};
ghost use Rattle.path_refusals.specs.invariants.Pieces.{SightRefuses};

use crate::moment::{Moment, Refusal};
use crate::pointers::reads;
use crate::rules::least;
use crate::views::read_converted;
use cxx_hierarchy::Scalar;
use cxx_program::{Argument, Arithmetic, TypedOperand};
use path_heap::Heap;
use path_rules::Undefined;
use path_tables::Answers;
use path_values::{Scene, overflows, value};

/// What an operand breaks that is read and converted.
///
/// Errors: want of memory.
pub(crate) fn argument(
    moment: &Moment,
    answers: &mut Answers,
    scene: &Scene,
    a: &Argument,
) -> Refusal
    requires world { IsWorld moment.now.world }
    requires answers { AreAnswers moment.now.world.h.now answers.old }
    ensures answers { AreAnswers moment.now.world.h.now answers.new }
    ensures is { IfOk result (SightRefuses moment.now.world.h.now moment.now.heap.now scene.now (λ s. argument_uses s a.now)) }
{
    let v = value(scene, &a.operand);
    read_converted(moment, answers, v, &a.conversion)
}

/// What two of them break.
///
/// Errors: want of memory.
pub(crate) fn two_arguments(
    moment: &Moment,
    answers: &mut Answers,
    scene: &Scene,
    a: &Argument,
    b: &Argument,
) -> Refusal
    requires world { IsWorld moment.now.world }
    requires answers { AreAnswers moment.now.world.h.now answers.old }
    ensures answers { AreAnswers moment.now.world.h.now answers.new }
    ensures is { IfOk result (SightRefuses moment.now.world.h.now moment.now.heap.now scene.now (λ s. argument_uses s a.now ++ argument_uses s b.now)) }
{
    let left = argument(moment, answers, scene, a)?;
    let right = argument(moment, answers, scene, b)?;
    Ok(least(left, right))
}

/// What the arguments of a call break.
///
/// Errors: want of memory.
pub(crate) fn arguments(
    moment: &Moment,
    answers: &mut Answers,
    scene: &Scene,
    list: &[Argument],
) -> Refusal
    requires world { IsWorld moment.now.world }
    requires answers { AreAnswers moment.now.world.h.now answers.old }
    ensures answers { AreAnswers moment.now.world.h.now answers.new }
    ensures is { IfOk result (SightRefuses moment.now.world.h.now moment.now.heap.now scene.now (λ s. flat_map (argument_uses s) list.now)) }
{
    let mut first = None;
    for a in list {
        first = least(first, argument(moment, answers, scene, a)?);
    }
    Ok(first)
}

/// What an operand breaks that is read.
pub(crate) fn read(heap: &Heap, scene: &Scene, x: &TypedOperand) -> Option<Undefined>
    ensures { (h : Classes) → SightRefuses h heap.now scene.now (λ s. Reads (value_of_operand s x.now) ∷ []) result }
{
    reads(heap, value(scene, x))
}

/// What a sum, difference, product or comparison breaks.
pub(crate) fn calculation(
    heap: &Heap,
    scene: &Scene,
    op: Arithmetic,
    t: Scalar,
    x: &TypedOperand,
    y: &TypedOperand,
) -> Option<Undefined>
    ensures { (h : Classes) → SightRefuses h heap.now scene.now (λ s. Reads (value_of_operand s x.now) ∷ Reads (value_of_operand s y.now) ∷ Overflows op t (value_of_operand s x.now) (value_of_operand s y.now) ∷ []) result }
{
    let a = value(scene, x);
    let b = value(scene, y);
    match least(reads(heap, a), reads(heap, b)) {
        Some(rule) => Some(rule),
        None => {
            if overflows(op, t, a, b) {
                Some(Undefined::Overflow)
            } else {
                None
            }
        }
    }
}
