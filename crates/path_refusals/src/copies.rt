//! What is asked of a copy: both pointers, the class members that it covers, and the views where the class has a virtual base.

ghost use Rattle.std.specs.Prelude.{◌≡◌, ◌<◌, ◌≤◌, ◌++◌, ℕ, Some, IfOk, length, slice_get};
ghost use Rattle.cxx_hierarchy.specs.Classes.{members_of};
ghost use Rattle.cxx_subobject.specs.Locations.{ObjectPart};
ghost use Rattle.cxx_search.specs.Searches.{has_virtual_base};
ghost use Rattle.path_model.specs.Values.{Objects};
ghost use Rattle.path_model.specs.Uses.{arrow, uses_of_view, member_uses};
ghost use Rattle.path_model.specs.Order.{asked_covers, asked_covered};
ghost use Rattle.path_tables.specs.Asked.{AreAnswers};
ghost use Rattle.path_tables.specs.Worlds.{IsWorld};
ghost use Rattle.path_refusals.specs.invariants.Pieces.{TypedRefuses, OpenRefuses, IsReadyPart, TellsReadiness};
ghost use Rattle.path_refusals.specs.invariants.SideRules.{IsElementCovered};

use crate::deletes::is_complete;
use crate::moment::{Moment, Refusal};
use crate::pointers::{arrow, is_unready};
use crate::views::view;
use cxx_hierarchy::{ClassId, FieldType, Member};
use path_heap::Value;
use path_rules::Undefined;
use path_tables::{Answers, World};

/// Whether a class has a virtual base: then it takes more numbers in full than as a base.
pub(crate) fn has_virtual_base(world: &World, c: ClassId) -> bool
    requires world { IsWorld world.now }
    ensures { result ≡ has_virtual_base world.now.h.now c }
{
    world.h.keeps();
    if c.0 >= world.h.len() {
        return false;
    }
    world.numbers.as_base(c) < world.numbers.in_full(c)
}

/// A member by its place.
fn member_at(members: &[Member<ClassId>], i: usize) -> &Member<ClassId>
    requires { i < length members.now }
    ensures { slice_get members.now i ≡ Some result.now }
{
    &members[i]
}

/// Whether an element of class d is ready, and the class members in it.
#[cycle(covers)]
fn is_element_covered(moment: &Moment, e: u64, d: ClassId) -> bool
    requires world { IsWorld moment.now.world }
    ensures { IsElementCovered moment.now.world.h.now moment.now.heap.now e d result }
{
    if is_unready(moment.heap, e) {
        return false;
    }
    is_covered(moment, e, d)
}

/// Whether all elements of a member of a part that is ready are covered.
#[cycle(covers)]
fn is_member_covered(moment: &Moment, n: u64, c: ClassId, m: u32, member: &Member<ClassId>) -> bool
    requires world { IsWorld moment.now.world }
    requires listed { slice_get (members_of moment.now.world.h.now c) m ≡ Some member.now }
    ensures { (s : Objects) (p : ObjectPart) (k : ℕ) → IsReadyPart moment.now.world.h.now moment.now.heap.now s n p c → c.0 ≤ k → TellsReadiness moment.now.world.h.now s result (member_uses (asked_covers moment.now.world.h.now k) p m (Some member.now)) }
{
    match &member.ty {
        FieldType::Value(_) => true,
        FieldType::Object(d) => {
            for i in 0..member.elements() {
                let e = moment
                    .heap
                    .element(moment.world.numbers, moment.world.h, n, m, i);
                if !is_element_covered(moment, e, *d) {
                    return false;
                }
            }
            true
        }
    }
}

/// Whether the class members are ready that a part of class c has which is ready, and the class members in these. In what is
/// complete all are.
#[cycle(covers)]
fn is_covered(moment: &Moment, n: u64, c: ClassId) -> bool
    requires world { IsWorld moment.now.world }
    ensures { (s : Objects) (p : ObjectPart) (k : ℕ) → IsReadyPart moment.now.world.h.now moment.now.heap.now s n p c → c.0 < k → TellsReadiness moment.now.world.h.now s result (asked_covers moment.now.world.h.now k c p) }
{
    moment.world.h.keeps();
    if is_complete(moment.heap.phase(n)) {
        return true;
    }
    // never met for the class of a part: `IsReadyPart` says that it is one of the hierarchy
    if c.0 >= moment.world.h.len() {
        return true;
    }
    let members = moment.world.h.class(c).members.as_slice();
    for m in 0..members.len() {
        if !is_member_covered(moment, n, c, m as u32, member_at(members, m)) {
            return false;
        }
    }
    true
}

/// What a copy breaks behind the arrow of one of its pointers.
///
/// Errors: want of memory.
fn covered(moment: &Moment, answers: &mut Answers, v: Value, c: ClassId, needed: bool) -> Refusal
    requires world { IsWorld moment.now.world }
    requires answers { AreAnswers moment.now.world.h.now answers.old }
    ensures answers { AreAnswers moment.now.world.h.now answers.new }
    ensures is { IfOk result (OpenRefuses moment.now.world.h.now moment.now.heap.now v c (λ x. uses_of_view needed x ++ asked_covered moment.now.world.h.now c x)) }
{
    match v {
        Value::Unset => Ok(None),
        Value::Number(_) => Ok(None),
        Value::Null => Ok(None),
        Value::Pointer(n) => {
            if !is_covered(moment, n, c) {
                return Ok(Some(Undefined::NotReady));
            }
            view(moment, answers, n, needed)
        }
    }
}

/// What a copy breaks on one side, by the value of that pointer (ISO C++03 12.8 p13).
///
/// Errors: want of memory.
pub(crate) fn side(
    moment: &Moment,
    answers: &mut Answers,
    v: Value,
    c: ClassId,
    needed: bool,
) -> Refusal
    requires world { IsWorld moment.now.world }
    requires answers { AreAnswers moment.now.world.h.now answers.old }
    ensures answers { AreAnswers moment.now.world.h.now answers.new }
    ensures is { IfOk result (TypedRefuses moment.now.world.h.now moment.now.heap.now v c (λ x. arrow x ++ (uses_of_view needed x ++ asked_covered moment.now.world.h.now c x))) }
{
    match arrow(moment.heap, v) {
        Some(rule) => Ok(Some(rule)),
        None => covered(moment, answers, v, c, needed),
    }
}
