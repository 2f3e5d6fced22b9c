//! What is asked of a place: its pointer, the class members on its path, and the view where its first step needs it.

ghost use Rattle.std.specs.Prelude.{◌≡◌, IfOk};
ghost use Rattle.cxx_hierarchy.specs.declared.records.ClassId.{ClassId};
ghost use Rattle.cxx_subobject.specs.declared.Subobject.{Subobject};
ghost use Rattle.cxx_subobject.specs.Locations.{ObjectPart};
ghost use Rattle.path_model.specs.Values.{Objects};
ghost use Rattle.path_model.specs.Rules.{refused};
ghost use Rattle.path_model.specs.Typed.{IsPath};
ghost use Rattle.path_model.specs.Order.{asked_members, first_name_base};
ghost use Rattle.path_tables.specs.Asked.{AreAnswers};
ghost use Rattle.path_tables.specs.Worlds.{IsWorld};
ghost use Rattle.path_refusals.specs.invariants.Pieces.{IsReadyPart, TypedRefuses, OpenRefuses, way_uses, path_asked};

use crate::moment::{Moment, Refusal};
use crate::pointers::{arrow, is_unready};
use crate::views::{is_shared, view};
use cxx_program::{PassedMember, TypedPlace};
use cxx_subobject::Subobject;
use path_heap::Value;
use path_rules::Undefined;
use path_tables::Answers;
use path_values::passed_number;

/// What the class members on a path break, from a part that is ready: the first one that is not. Those behind a virtual base
/// are ready.
fn members(moment: &Moment, n: u64, path: &[PassedMember]) -> Option<Undefined>
    requires world { IsWorld moment.now.world }
    ensures { (s : Objects) (p : ObjectPart) (c : ClassId) (last : Subobject) → IsReadyPart moment.now.world.h.now moment.now.heap.now s n p c → IsPath moment.now.world.h.now c path.now last → result ≡ refused moment.now.world.h.now s (asked_members p path.now) }
{
    match path {
        [] => None,
        [x, rest @ ..] => {
            if is_shared(&x.base) {
                return None;
            }
            let next = passed_number(&moment.world, moment.heap, n, x);
            if is_unready(moment.heap, next) {
                return Some(Undefined::NotReady);
            }
            members(moment, next, rest)
        }
    }
}

/// The subobject in which the first name of a place is found.
fn first_base(place: &TypedPlace) -> &Subobject
    ensures { result.now ≡ first_name_base place.now.passed place.now.base }
{
    match place.passed.as_slice() {
        [] => &place.base,
        [x, ..] => &x.base,
    }
}

/// What a place breaks behind the arrow of its pointer.
///
/// Errors: want of memory.
fn path(moment: &Moment, answers: &mut Answers, v: Value, place: &TypedPlace) -> Refusal
    requires world { IsWorld moment.now.world }
    requires answers { AreAnswers moment.now.world.h.now answers.old }
    ensures answers { AreAnswers moment.now.world.h.now answers.new }
    ensures is { IsPath moment.now.world.h.now place.now.class place.now.passed place.now.base → IfOk result (OpenRefuses moment.now.world.h.now moment.now.heap.now v place.now.class (path_asked place.now)) }
{
    match v {
        Value::Unset => Ok(None),
        Value::Number(_) => Ok(None),
        Value::Null => Ok(None),
        Value::Pointer(n) => match members(moment, n, place.passed.as_slice()) {
            Some(rule) => Ok(Some(rule)),
            None => view(moment, answers, n, is_shared(first_base(place))),
        },
    }
}

/// What a place breaks, by the value of its pointer.
///
/// Errors: want of memory.
pub(crate) fn place(moment: &Moment, answers: &mut Answers, v: Value, place: &TypedPlace) -> Refusal
    requires world { IsWorld moment.now.world }
    requires answers { AreAnswers moment.now.world.h.now answers.old }
    ensures answers { AreAnswers moment.now.world.h.now answers.new }
    ensures is { IsPath moment.now.world.h.now place.now.class place.now.passed place.now.base → IfOk result (TypedRefuses moment.now.world.h.now moment.now.heap.now v place.now.class (way_uses place.now)) }
{
    match arrow(moment.heap, v) {
        Some(rule) => Ok(Some(rule)),
        None => path(moment, answers, v, place),
    }
}
