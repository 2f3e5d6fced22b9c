//! Conversions of values (ISO C++03 4).

ghost use Rattle.std.specs.Prelude.{List};
ghost use Rattle.cxx_hierarchy.specs.declared.records.ClassId.{ClassId};
ghost use Rattle.cxx_hierarchy.specs.Scalars.{stored_as, kept_in};
ghost use Rattle.cxx_hierarchy.specs.Classes.{Classes};
ghost use Rattle.path_model.specs.Values.{Value as ValueOf, Objects, to_base, to_number, converted_to};
ghost use Rattle.path_heap.specs.Stands.{HeapStands, Means};
ghost use Rattle.path_tables.specs.Worlds.{IsWorld};
ghost use Rattle.path_values.specs.Conversions.{CanReach, CanConvert};

use crate::numbers::{kept, stored};
use cxx_hierarchy::Scalar;
use cxx_program::Conversion;
use cxx_subobject::Subobject;
use path_heap::{Heap, Value};
use path_tables::World;

/// What a variable of a number type keeps of a value, where it is a number (ISO C++03 4.7, 4.12).
pub fn to_number(t: Scalar, v: Value) -> Value
    ensures { (h : Classes) (classes : List ClassId) (w : ValueOf) → Means h classes v w → Means h classes result (to_number (stored_as t) w) }
{
    match v {
        Value::Number(z) => Value::Number(stored(t, z)),
        Value::Unset | Value::Null | Value::Pointer(_) => v,
    }
}

/// What a bit-field of a number type keeps of a value in so many bits, where it is a number (ISO C++03 9.6).
pub fn to_bits(t: Scalar, bits: u32, v: Value) -> Value
    ensures { (h : Classes) (classes : List ClassId) (w : ValueOf) → Means h classes v w → Means h classes result (to_number (kept_in t bits) w) }
{
    match v {
        Value::Number(z) => Value::Number(kept(t, bits, z)),
        Value::Unset | Value::Null | Value::Pointer(_) => v,
    }
}

/// A value, moved to a base of its class where it is a pointer (ISO C++03 4.10).
pub fn to_base(world: &World, heap: &Heap, v: Value, i: &Subobject) -> Value
    requires world { IsWorld world.now }
    ensures { (s : Objects) (w : ValueOf) → HeapStands world.now.h.now heap.now s → Means world.now.h.now s.classes v w → CanReach world.now.h.now s w i.now → Means world.now.h.now s.classes result (to_base i.now w) }
{
    match v {
        Value::Pointer(n) => Value::Pointer(heap.base(world.numbers, world.h, n, i)),
        Value::Unset | Value::Number(_) | Value::Null => v,
    }
}

/// A value, converted (ISO C++03 4.5, 4.7, 4.10, 4.12, 9.6).
pub fn convert(world: &World, heap: &Heap, v: Value, c: &Conversion) -> Value
    requires world { IsWorld world.now }
    ensures { (s : Objects) (w : ValueOf) → HeapStands world.now.h.now heap.now s → Means world.now.h.now s.classes v w → CanConvert world.now.h.now s w c.now → Means world.now.h.now s.classes result (converted_to w c.now) }
{
    match c {
        Conversion::Number(t) => to_number(*t, v),
        Conversion::Bits(t, bits) => to_bits(*t, *bits, v),
        Conversion::Null => Value::Null,
        Conversion::Same => v,
        Conversion::Base(i) => to_base(world, heap, v, i),
    }
}
