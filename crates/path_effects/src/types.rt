//! Comparisons of types (ISO C++03 5.2.8).

ghost use Rattle.cxx_hierarchy.specs.Classes.{Classes};
ghost use Rattle.path_model.specs.Values.{Value as ValueOf, Objects};
ghost use Rattle.path_model.specs.Effects.{type_equal};
ghost use Rattle.path_heap.specs.Stands.{HeapStands, Means};
ghost use Rattle.path_effects.specs.invariants.Begun.{IsBegun};

use cxx_hierarchy::ClassId;
use path_heap::{Heap, Value};
use path_values::{truth, view_type};

/// `typeid(*pointer) == typeid(class)` (ISO C++03 5.2.8).
pub(crate) fn type_equal(heap: &Heap, v: Value, d: ClassId) -> Value
    ensures { (h : Classes) (s : Objects) (w : ValueOf) → HeapStands h heap.now s → Means h s.classes v w → IsBegun s w → Means h s.classes result (type_equal h s d w) }
{
    match v {
        Value::Pointer(n) => match view_type(heap, n) {
            Some(c) => truth(d.0 == c.0),
            None => Value::Unset,
        },
        _ => Value::Unset,
    }
}
