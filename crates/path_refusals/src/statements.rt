//! The rule that refuses a statement.

ghost use Rattle.std.specs.Prelude.{◌≡◌, ℕ, IfOk};
ghost use Rattle.cxx_hierarchy.specs.declared.records.ClassId.{ClassId};
ghost use Rattle.cxx_hierarchy.specs.declared.records.ValueType.{ValueType};
ghost use Rattle.cxx_hierarchy.specs.declared.records.ValueType.TheVariants.{Pointer as PointerType};
ghost use Rattle.cxx_hierarchy.specs.declared.records.FieldType.TheVariants.{Value as ValueField};
ghost use Rattle.cxx_program.specs.declared.statement.TypedKind.TheVariants.{Declare, Write, Copy};
ghost use Rattle.cxx_program.specs.Typed.{Scope, HasType, IsPlace};
ghost use Rattle.path_model.specs.Values.{Sight};
ghost use Rattle.path_model.specs.Uses.{Wanted};
ghost use Rattle.path_model.specs.Rules.{statement_refusal};
ghost use Rattle.path_tables.specs.Asked.{AreAnswers};
ghost use Rattle.path_tables.specs.Worlds.{IsWorld};
ghost use Rattle.path_values.specs.Scenes.{SceneStands};
ghost use Rattle.path_values.specs.Given.{IsGiven};
ghost use Rattle.path_refusals.specs.invariants.Pieces.{SightStands};
ghost use Rattle.path_refusals.specs.invariants.SideRules.{ReturnRefuses};

use crate::calls::call;
use crate::copies::{has_virtual_base, side};
use crate::deletes::{delete, dump};
use crate::moment::{Moment, Refusal};
use crate::operands::{argument, read};
use crate::places::place;
use crate::returns::result;
use crate::rights::right;
use crate::rules::least;
use crate::views::{arrow_view, read_view};
use cxx_hierarchy::ClassId;
use cxx_program::{Argument, Conversion, Converted, TypedKind, TypedOperand, TypedPlace};
use path_tables::Answers;
use path_values::{Scene, value};

/// What an assignment to a member breaks.
///
/// Errors: want of memory.
fn written(
    moment: &Moment,
    answers: &mut Answers,
    scene: &Scene,
    to: &TypedPlace,
    x: &Argument,
) -> Refusal
    requires world { IsWorld moment.now.world }
    requires answers { AreAnswers moment.now.world.h.now answers.old }
    ensures answers { AreAnswers moment.now.world.h.now answers.new }
    ensures is { IfOk result (λ rule. (e : Scope) (s : Sight) (w : Wanted) (t : ValueType ClassId) → SightStands moment.now.world.h.now moment.now.heap.now scene.now e s → IsPlace moment.now.world.h.now e to.now (ValueField t) → rule ≡ statement_refusal moment.now.world.h.now s w (Write to.now x.now)) }
{
    let v = value(scene, &to.pointer);
    let left = place(moment, answers, v, to)?;
    let right = argument(moment, answers, scene, x)?;
    Ok(least(left, right))
}

/// What a copy of an object breaks.
///
/// Errors: want of memory.
fn copied(
    moment: &Moment,
    answers: &mut Answers,
    scene: &Scene,
    to: &TypedOperand,
    from: &TypedOperand,
    c: ClassId,
) -> Refusal
    requires world { IsWorld moment.now.world }
    requires answers { AreAnswers moment.now.world.h.now answers.old }
    ensures answers { AreAnswers moment.now.world.h.now answers.new }
    ensures is { IfOk result (λ rule. (e : Scope) (s : Sight) (w : Wanted) → SightStands moment.now.world.h.now moment.now.heap.now scene.now e s → HasType e to.now (PointerType c) → HasType e from.now (PointerType c) → rule ≡ statement_refusal moment.now.world.h.now s w (Copy to.now from.now c)) }
{
    let needed = has_virtual_base(&moment.world, c);
    let v = value(scene, to);
    let left = side(moment, answers, v, c, needed)?;
    let u = value(scene, from);
    let right = side(moment, answers, u, c, needed)?;
    Ok(least(left, right))
}

/// What a declaration breaks.
///
/// Errors: want of memory.
fn declared(
    moment: &Moment,
    answers: &mut Answers,
    scene: &Scene,
    from: &Option<Converted>,
) -> Refusal
    requires world { IsWorld moment.now.world }
    requires answers { AreAnswers moment.now.world.h.now answers.old }
    ensures answers { AreAnswers moment.now.world.h.now answers.new }
    ensures is { IfOk result (λ rule. (e : Scope) (s : Sight) (w : Wanted) (n : ℕ) → SceneStands moment.now.world.h.now moment.now.heap.now scene.now s → IsGiven moment.now.world.h.now e s w (Declare n from.now) → rule ≡ statement_refusal moment.now.world.h.now s w (Declare n from.now)) }
{
    match from {
        Some(x) => right(moment, answers, scene, &x.right, &x.conversion),
        None => Ok(None),
    }
}

/// What a `return` breaks.
///
/// Errors: want of memory.
fn returned(
    moment: &Moment,
    answers: &mut Answers,
    scene: &Scene,
    from: &Option<Argument>,
    found: &Conversion,
    target: &Conversion,
) -> Refusal
    requires world { IsWorld moment.now.world }
    requires answers { AreAnswers moment.now.world.h.now answers.old }
    ensures answers { AreAnswers moment.now.world.h.now answers.new }
    ensures is { IfOk result (ReturnRefuses moment.now.world.h.now moment.now.heap.now scene.now from.now found.now target.now) }
{
    match from {
        Some(a) => result(moment, answers, scene, a, found, target),
        None => Ok(None),
    }
}

/// The rule that refuses a statement, if one does. The conversions are those of who waits for a result.
///
/// Errors: want of memory.
pub fn refusal(
    moment: &Moment,
    answers: &mut Answers,
    scene: &Scene,
    found: &Conversion,
    target: &Conversion,
    kind: &TypedKind,
) -> Refusal
    requires world { IsWorld moment.now.world }
    requires answers { AreAnswers moment.now.world.h.now answers.old }
    ensures answers { AreAnswers moment.now.world.h.now answers.new }
    ensures is { IfOk result (λ rule. (e : Scope) (s : Sight) (w : Wanted) → SceneStands moment.now.world.h.now moment.now.heap.now scene.now s → IsGiven moment.now.world.h.now e s w kind.now → w.found ≡ found.now → w.target ≡ target.now → rule ≡ statement_refusal moment.now.world.h.now s w kind.now) }
{
    match kind {
        TypedKind::Declare(_, x) => declared(moment, answers, scene, x),
        TypedKind::Assign(_, x) => { right(moment, answers, scene, &x.right, &x.conversion) }
        TypedKind::Write(to, x) => written(moment, answers, scene, to, x),
        TypedKind::Copy(to, from, c) => copied(moment, answers, scene, to, from, *c),
        TypedKind::Call(to) => call(moment, answers, scene, to),
        TypedKind::Delete(x, c) => {
            let v = value(scene, x);
            delete(moment, answers, v, *c)
        }
        TypedKind::If(x, _, _) => Ok(read(moment.heap, scene, x)),
        TypedKind::While(x, _) => Ok(read(moment.heap, scene, x)),
        TypedKind::Return(a) => returned(moment, answers, scene, a, found, target),
        TypedKind::Print(x) => Ok(read(moment.heap, scene, x)),
        TypedKind::PrintType(x, _) => {
            let v = value(scene, x);
            arrow_view(moment, answers, v, true)
        }
        TypedKind::PrintView(x, _) => {
            let v = value(scene, x);
            read_view(moment, answers, v, true)
        }
        TypedKind::Dump(x, _) => {
            let v = value(scene, x);
            Ok(dump(moment.heap, v))
        }
    }
}
