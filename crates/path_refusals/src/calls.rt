//! What is asked of a call: its pointer, the way to the function, the view that dispatches, and its arguments.

ghost use Rattle.std.specs.Prelude.{◌≡◌, [], ◌∷◌, ◌||◌, IfOk};
ghost use Rattle.cxx_hierarchy.specs.declared.records.ClassId.{ClassId};
ghost use Rattle.cxx_subobject.specs.Locations.{ObjectPart};
ghost use Rattle.cxx_hierarchy.specs.declared.records.Function.{Function};
ghost use Rattle.cxx_program.specs.Typed.{Scope, IsCall};
ghost use Rattle.path_model.specs.Values.{Value as ValueOf, Objects, Sight, Pointer};
ghost use Rattle.path_model.specs.Uses.{Takes, takes, call_uses, is_shared_way};
ghost use Rattle.path_model.specs.Rules.{refused};
ghost use Rattle.path_heap.specs.Points.{Points};
ghost use Rattle.path_heap.specs.Stands.{HeapStands, HasBegun, Means};
ghost use Rattle.path_tables.specs.Asked.{AreAnswers};
ghost use Rattle.path_tables.specs.Worlds.{IsWorld};
ghost use Rattle.path_values.specs.Views.{IsCallable};
ghost use Rattle.path_refusals.specs.invariants.Pieces.{SightStands, CanTake};
ghost use Rattle.path_refusals.specs.invariants.SideRules.{FoundRefuses, WayRefuses, CallPointerRefuses};

use crate::moment::{Moment, Refusal};
use crate::operands::arguments;
use crate::pointers::arrow;
use crate::rules::least;
use crate::views::{is_shared, view_of};
use cxx_overrider::FunctionId;
use cxx_program::TypedCall;
use cxx_subobject::Subobject;
use path_heap::Value;
use path_rules::Undefined;
use path_tables::Answers;
use path_values::{Scene, goes_to, is_pure, to_base, value};

/// What a dispatched call on a part breaks: the final overrider is pure (ISO C++03 10.4 p6).
///
/// Errors: want of memory.
fn part_taken(moment: &Moment, answers: &mut Answers, n: u64, f: FunctionId) -> Refusal
    requires world { IsWorld moment.now.world }
    requires answers { AreAnswers moment.now.world.h.now answers.old }
    ensures answers { AreAnswers moment.now.world.h.now answers.new }
    ensures is { IfOk result (λ rule. (s : Objects) (p : ObjectPart) → HeapStands moment.now.world.h.now moment.now.heap.now s → Points moment.now.world.h.now s.classes n p → HasBegun s p → IsCallable moment.now.world.h.now p f → rule ≡ refused moment.now.world.h.now s (Takes (Pointer p) f ∷ [])) }
{
    if is_pure(moment.alloc, &moment.world, moment.heap, answers, n, f)? {
        Ok(Some(Undefined::PureCall))
    } else {
        Ok(None)
    }
}

/// The same of a receiver, where the call is dispatched.
///
/// Errors: want of memory.
fn taken(
    moment: &Moment,
    answers: &mut Answers,
    v: Value,
    f: FunctionId,
    is_dispatched: bool,
) -> Refusal
    requires world { IsWorld moment.now.world }
    requires answers { AreAnswers moment.now.world.h.now answers.old }
    ensures answers { AreAnswers moment.now.world.h.now answers.new }
    ensures is { IfOk result (λ rule. (s : Objects) (x : ValueOf) → HeapStands moment.now.world.h.now moment.now.heap.now s → Means moment.now.world.h.now s.classes v x → CanTake moment.now.world.h.now s f is_dispatched x → rule ≡ refused moment.now.world.h.now s (takes is_dispatched x f)) }
{
    if !is_dispatched {
        return Ok(None);
    }
    match v {
        Value::Unset => Ok(None),
        Value::Number(_) => Ok(None),
        Value::Null => Ok(None),
        Value::Pointer(n) => part_taken(moment, answers, n, f),
    }
}

/// Whether the class before `::` is behind a virtual base.
fn is_shared_way(qualifier: &Option<Subobject>) -> bool
    ensures { result ≡ is_shared_way qualifier.now }
{
    match qualifier {
        Some(i) => is_shared(i),
        None => false,
    }
}

/// Whether the way to the function needs the view of the pointer.
fn is_view_needed(call: &TypedCall) -> bool
    ensures { result ≡ (call.now.is_dispatched || is_shared_way call.now.qualifier) }
{
    if call.is_dispatched {
        return true;
    }
    is_shared_way(&call.qualifier)
}

/// What a call breaks from the subobject of the class before `::`, or of the pointer's, on.
///
/// Errors: want of memory.
fn found(moment: &Moment, answers: &mut Answers, v: Value, call: &TypedCall) -> Refusal
    requires world { IsWorld moment.now.world }
    requires answers { AreAnswers moment.now.world.h.now answers.old }
    ensures answers { AreAnswers moment.now.world.h.now answers.new }
    ensures is { IfOk result (FoundRefuses moment.now.world.h.now moment.now.heap.now v call.now) }
{
    match view_of(moment, answers, v, is_shared(&call.base))? {
        Some(rule) => Ok(Some(rule)),
        None => {
            let receiver = to_base(&moment.world, moment.heap, v, &call.base);
            taken(moment, answers, receiver, call.function, call.is_dispatched)
        }
    }
}

/// What a call breaks behind the arrow of its pointer, but for its arguments.
///
/// Errors: want of memory.
fn way(moment: &Moment, answers: &mut Answers, v: Value, call: &TypedCall) -> Refusal
    requires world { IsWorld moment.now.world }
    requires answers { AreAnswers moment.now.world.h.now answers.old }
    ensures answers { AreAnswers moment.now.world.h.now answers.new }
    ensures is { IfOk result (WayRefuses moment.now.world.h.now moment.now.heap.now v call.now) }
{
    match view_of(moment, answers, v, is_view_needed(call))? {
        Some(rule) => Ok(Some(rule)),
        None => {
            let from = goes_to(&moment.world, moment.heap, v, &call.qualifier);
            found(moment, answers, from, call)
        }
    }
}

/// What the pointer of a call breaks, and what is asked on the way from it.
///
/// Errors: want of memory.
fn pointer(moment: &Moment, answers: &mut Answers, v: Value, call: &TypedCall) -> Refusal
    requires world { IsWorld moment.now.world }
    requires answers { AreAnswers moment.now.world.h.now answers.old }
    ensures answers { AreAnswers moment.now.world.h.now answers.new }
    ensures is { IfOk result (CallPointerRefuses moment.now.world.h.now moment.now.heap.now v call.now) }
{
    match arrow(moment.heap, v) {
        Some(rule) => Ok(Some(rule)),
        None => way(moment, answers, v, call),
    }
}

/// What a call breaks (ISO C++03 5.2.2, 10.3 p12, 12.7 p3).
///
/// Errors: want of memory.
pub(crate) fn call(
    moment: &Moment,
    answers: &mut Answers,
    scene: &Scene,
    call: &TypedCall,
) -> Refusal
    requires world { IsWorld moment.now.world }
    requires answers { AreAnswers moment.now.world.h.now answers.old }
    ensures answers { AreAnswers moment.now.world.h.now answers.new }
    ensures is { IfOk result (λ rule. (e : Scope) (s : Sight) (f : Function ClassId) → SightStands moment.now.world.h.now moment.now.heap.now scene.now e s → IsCall moment.now.world.h.now e call.now f → rule ≡ refused moment.now.world.h.now s.objects (call_uses s call.now)) }
{
    let v = value(scene, &call.pointer);
    let to = pointer(moment, answers, v, call)?;
    let with = arguments(moment, answers, scene, call.arguments.as_slice())?;
    Ok(least(to, with))
}
