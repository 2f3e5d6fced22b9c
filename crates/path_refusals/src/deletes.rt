//! What is asked of a `delete` and of a dump.

ghost use Rattle.std.specs.Prelude.{◌≡◌, [], ◌∷◌, ◌++◌, true, not, IfOk};
ghost use Rattle.cxx_hierarchy.specs.Classes.{Classes};
ghost use Rattle.cxx_subobject.specs.Locations.{ObjectPart};
ghost use Rattle.cxx_overrider.specs.Virtuals.{is_virtual};
ghost use Rattle.cxx_search.specs.Searches.{destructor_of};
ghost use Rattle.path_plan.specs.Phases.{is_complete};
ghost use Rattle.path_model.specs.Values.{Objects, Pointer};
ghost use Rattle.path_model.specs.Uses.{Reads, Follows, Guards, Deletes, Dumps, uses_of_view};
ghost use Rattle.path_model.specs.Rules.{is_no_whole, is_incomplete};
ghost use Rattle.path_heap.specs.Points.{Points};
ghost use Rattle.path_heap.specs.Stands.{HeapStands, HasBegun, phase_of};
ghost use Rattle.path_tables.specs.Asked.{AreAnswers};
ghost use Rattle.path_tables.specs.Worlds.{IsWorld};
ghost use Rattle.path_refusals.specs.invariants.Pieces.{Refuses, SteadyRefuses, PartRefuses, ReadyRefuses};

use crate::moment::{Moment, Refusal};
use crate::views::read_view;
use cxx_hierarchy::ClassId;
use cxx_overrider::FunctionId;
use path_heap::{Heap, Phase, Value};
use path_rules::Undefined;
use path_tables::{Answers, World};

/// Whether a class has a virtual destructor (ISO C++03 10.3, 12.4 p7).
fn has_virtual_destructor(world: &World, c: ClassId) -> bool
    requires world { IsWorld world.now }
    ensures { result ≡ is_virtual world.now.h.now (destructor_of world.now.h.now c) }
{
    world.h.keeps();
    if c.0 >= world.h.len() {
        return false;
    }
    world.overriders.is_virtual(FunctionId {
        class: c,
        index: world.h.class(c).functions.len() as u32,
    })
}

/// Whether a part in this phase is constructed, and its destruction has not begun.
pub(crate) fn is_complete(phase: Phase) -> bool
    ensures { result ≡ is_complete (phase_of phase) }
{
    match phase {
        Phase::Complete => true,
        Phase::Raw
        | Phase::InBases
        | Phase::ReadyBuilding
        | Phase::ReadyEnding
        | Phase::EndingBases
        | Phase::Ended => false,
    }
}

/// Whether a part that has begun is the whole of its complete object.
fn is_whole(heap: &Heap, n: u64) -> bool
    ensures { (h : Classes) (s : Objects) (p : ObjectPart) → HeapStands h heap.now s → Points h s.classes n p → HasBegun s p → is_no_whole h s p ≡ not result }
{
    heap.whole(n) == n
}

/// Whether the heap object of a part is not complete.
fn is_incomplete(heap: &Heap, n: u64) -> bool
    ensures { (h : Classes) (s : Objects) (p : ObjectPart) → HeapStands h heap.now s → Points h s.classes n p → is_incomplete s p ≡ result }
{
    !is_complete(heap.phase(heap.heap_object(n)))
}

/// What a `delete` of a part that is ready breaks, through a virtual destructor.
fn owned(heap: &Heap, n: u64) -> Option<Undefined>
    ensures { (h : Classes) → ReadyRefuses h heap.now n (λ p. Deletes (Pointer p) true ∷ []) result }
{
    if !heap.is_in_heap_object(n) {
        return Some(Undefined::NotHeapObject);
    }
    if is_incomplete(heap, n) {
        Some(Undefined::NotComplete)
    } else {
        None
    }
}

/// What a `delete` of a part that is ready breaks (ISO C++03 5.3.5 p3).
fn deleted(heap: &Heap, n: u64, is_virtual: bool) -> Option<Undefined>
    ensures { (h : Classes) → ReadyRefuses h heap.now n (λ p. Deletes (Pointer p) is_virtual ∷ []) result }
{
    if is_virtual {
        return owned(heap, n);
    }
    if is_whole(heap, n) {
        owned(heap, n)
    } else {
        Some(Undefined::NonVirtualDelete)
    }
}

/// The same of a value that is no pointer to a part that is not ready.
fn deleted_of(heap: &Heap, v: Value, is_virtual: bool) -> Option<Undefined>
    ensures { (h : Classes) → SteadyRefuses h heap.now v (λ x. Deletes x is_virtual ∷ []) result }
{
    match v {
        Value::Unset => None,
        Value::Number(_) => None,
        Value::Null => None,
        Value::Pointer(n) => deleted(heap, n, is_virtual),
    }
}

/// What `delete` breaks, of a value and the class that its type points to.
///
/// Errors: want of memory.
pub(crate) fn delete(moment: &Moment, answers: &mut Answers, v: Value, c: ClassId) -> Refusal
    requires world { IsWorld moment.now.world }
    requires answers { AreAnswers moment.now.world.h.now answers.old }
    ensures answers { AreAnswers moment.now.world.h.now answers.new }
    ensures is { IfOk result (Refuses moment.now.world.h.now moment.now.heap.now v (λ x. Reads x ∷ (Guards x ∷ (uses_of_view (is_virtual moment.now.world.h.now (destructor_of moment.now.world.h.now c)) x ++ Deletes x (is_virtual moment.now.world.h.now (destructor_of moment.now.world.h.now c)) ∷ [])))) }
{
    let is_virtual = has_virtual_destructor(&moment.world, c);
    match read_view(moment, answers, v, is_virtual)? {
        Some(rule) => Ok(Some(rule)),
        None => Ok(deleted_of(moment.heap, v, is_virtual)),
    }
}

/// What a dump of a part breaks.
fn dumped(heap: &Heap, n: u64) -> Option<Undefined>
    ensures { (h : Classes) → PartRefuses h heap.now n (λ p. Reads (Pointer p) ∷ Follows (Pointer p) ∷ Dumps (Pointer p) ∷ []) result }
{
    if heap.is_closed(n) {
        return Some(Undefined::Dangling);
    }
    if is_incomplete(heap, n) {
        Some(Undefined::NotComplete)
    } else {
        None
    }
}

/// What a dump breaks.
pub(crate) fn dump(heap: &Heap, v: Value) -> Option<Undefined>
    ensures { (h : Classes) → Refuses h heap.now v (λ x. Reads x ∷ Follows x ∷ Dumps x ∷ []) result }
{
    match v {
        Value::Unset => Some(Undefined::Unset),
        Value::Number(_) => None,
        Value::Null => Some(Undefined::NullUse),
        Value::Pointer(n) => dumped(heap, n),
    }
}
