//! What is asked of a value before what it points to.

ghost use Rattle.std.specs.Prelude.{◌≡◌, [], ◌∷◌};
ghost use Rattle.cxx_hierarchy.specs.Classes.{Classes};
ghost use Rattle.cxx_subobject.specs.Locations.{ObjectPart};
ghost use Rattle.path_plan.specs.Phases.{is_ready};
ghost use Rattle.path_model.specs.Values.{Objects, Pointer};
ghost use Rattle.path_model.specs.Uses.{Reads, Guards, arrow};
ghost use Rattle.path_model.specs.Rules.{is_unready};
ghost use Rattle.path_heap.specs.Points.{Points};
ghost use Rattle.path_heap.specs.Stands.{HeapStands, phase_of};
ghost use Rattle.path_refusals.specs.invariants.Pieces.{Refuses, PartRefuses};

use path_heap::{Heap, Phase, Value};
use path_rules::Undefined;

/// Whether all bases of a part in this phase are constructed, and none has begun to end (ISO C++03 12.7).
fn is_ready(phase: Phase) -> bool
    ensures { result ≡ is_ready (phase_of phase) }
{
    match phase {
        Phase::ReadyBuilding | Phase::Complete | Phase::ReadyEnding => true,
        Phase::Raw | Phase::InBases | Phase::EndingBases | Phase::Ended => false,
    }
}

/// Whether a part is not ready.
pub(crate) fn is_unready(heap: &Heap, n: u64) -> bool
    ensures { (h : Classes) (s : Objects) (p : ObjectPart) → HeapStands h heap.now s → Points h s.classes n p → is_unready s p ≡ result }
{
    !is_ready(heap.phase(n))
}

/// What the reading of a pointer breaks: its heap object is closed (ISO C++03 3.8 p5).
fn closed(heap: &Heap, n: u64) -> Option<Undefined>
    ensures { (h : Classes) → PartRefuses h heap.now n (λ p. Reads (Pointer p) ∷ []) result }
{
    if heap.is_closed(n) {
        Some(Undefined::Dangling)
    } else {
        None
    }
}

/// What the reading of a value breaks.
pub(crate) fn reads(heap: &Heap, v: Value) -> Option<Undefined>
    ensures { (h : Classes) → Refuses h heap.now v (λ x. Reads x ∷ []) result }
{
    match v {
        Value::Unset => Some(Undefined::Unset),
        Value::Number(_) => None,
        Value::Null => None,
        Value::Pointer(n) => closed(heap, n),
    }
}

/// What a guarded use breaks, such as a conversion to a base: the part is not ready (ISO C++03 12.7 p2).
pub(crate) fn unready(heap: &Heap, n: u64) -> Option<Undefined>
    ensures { (h : Classes) → PartRefuses h heap.now n (λ p. Guards (Pointer p) ∷ []) result }
{
    if is_unready(heap, n) {
        Some(Undefined::NotReady)
    } else {
        None
    }
}

/// What reading and guarding break, of a part.
fn closed_or_unready(heap: &Heap, n: u64) -> Option<Undefined>
    ensures read { (h : Classes) → PartRefuses h heap.now n (λ p. Reads (Pointer p) ∷ Guards (Pointer p) ∷ []) result }
    ensures arrow { (h : Classes) → PartRefuses h heap.now n (λ p. arrow (Pointer p)) result }
{
    if heap.is_closed(n) {
        return Some(Undefined::Dangling);
    }
    unready(heap, n)
}

/// What a value that is read and guarded breaks: of a cast, a `delete`.
pub(crate) fn guarded(heap: &Heap, v: Value) -> Option<Undefined>
    ensures { (h : Classes) → Refuses h heap.now v (λ x. Reads x ∷ Guards x ∷ []) result }
{
    match v {
        Value::Unset => Some(Undefined::Unset),
        Value::Number(_) => None,
        Value::Null => None,
        Value::Pointer(n) => closed_or_unready(heap, n),
    }
}

/// What the pointer of `->`, `*` or `typeid` breaks.
pub(crate) fn arrow(heap: &Heap, v: Value) -> Option<Undefined>
    ensures { (h : Classes) → Refuses h heap.now v arrow result }
{
    match v {
        Value::Unset => Some(Undefined::Unset),
        Value::Number(_) => None,
        Value::Null => Some(Undefined::NullUse),
        Value::Pointer(n) => closed_or_unready(heap, n),
    }
}
