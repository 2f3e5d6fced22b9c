//! Sums, differences, products and comparisons of numbers, and truth values (ISO C++03 5).

ghost use Rattle.std.specs.Prelude.{◌≡◌, List, ℤ, ◌≤◌, ◌^◌, ◌*ℤ◌, ◌+ℤ◌, ◌-ℤ◌, ◌&&◌, unsigned_abs, IfSome};
ghost use Rattle.cxx_hierarchy.specs.declared.records.ClassId.{ClassId};
ghost use Rattle.cxx_hierarchy.specs.Classes.{Classes};
ghost use Rattle.cxx_hierarchy.specs.Scalars.{wrapped};
ghost use Rattle.cxx_hierarchy.specs.Hierarchies.{IsHierarchy};
ghost use Rattle.path_model.specs.Values.{Value as ValueOf, Number};
ghost use Rattle.path_model.specs.Effects.{truth_as_number, calculated_value, arithmetic_value, is_number_zero, negated, is_same_pointer};
ghost use Rattle.path_model.specs.Rules.{is_over, is_result_over, overflows};
ghost use Rattle.path_heap.specs.Stands.{Means};
ghost use Rattle.path_values.specs.Held.{HoldsResult};

use crate::numbers::{is_signed, wrap};
use cxx_hierarchy::Scalar;
use cxx_program::Arithmetic;
use path_heap::Value;

/// A truth value as a number: 1 or 0 (ISO C++03 4.5 p4).
pub fn truth(b: bool) -> Value
    ensures { (h : Classes) (classes : List ClassId) → Means h classes result (truth_as_number b) }
{
    Value::Number(if b { 1 } else { 0 })
}

/// Whether a number is 0.
fn is_number_zero(z: i128) -> bool
    ensures { result ≡ is_number_zero z }
{
    z == 0
}

/// Whether a value is the number 0.
pub fn is_zero(v: Value) -> bool
    ensures { (h : Classes) (classes : List ClassId) (z : ℤ) → Means h classes v (Number z) → result ≡ is_number_zero z }
{
    match v {
        Value::Number(z) => is_number_zero(z),
        Value::Unset | Value::Null | Value::Pointer(_) => false,
    }
}

/// `!x` (ISO C++03 5.3.1 p8).
pub fn negated(v: Value) -> Value
    ensures { (h : Classes) (classes : List ClassId) (w : ValueOf) → Means h classes v w → Means h classes result (negated w) }
{
    match v {
        Value::Number(z) => truth(is_number_zero(z)),
        Value::Unset | Value::Null | Value::Pointer(_) => Value::Unset,
    }
}

/// A sum, wrapped to the type (ISO C++03 5.7, 3.9.1 p4).
fn sum(t: Scalar, a: i128, b: i128) -> i128
    ensures { result ≡ wrapped t (a +ℤ b) }
{
    wrap(t, a.wrapping_add(b))
}

/// A difference, wrapped to the type (ISO C++03 5.7, 3.9.1 p4).
fn difference(t: Scalar, a: i128, b: i128) -> i128
    ensures { result ≡ wrapped t (a -ℤ b) }
{
    wrap(t, a.wrapping_sub(b))
}

/// A product, wrapped to the type (ISO C++03 5.6, 3.9.1 p4).
fn product(t: Scalar, a: i128, b: i128) -> i128
    ensures { result ≡ wrapped t (a *ℤ b) }
{
    wrap(t, a.wrapping_mul(b))
}

/// Two numbers of one type; a result outside the type wraps (ISO C++03 5.6, 5.7, 5.9, 5.10, 3.9.1 p4).
fn calculated(op: Arithmetic, t: Scalar, a: i128, b: i128) -> Value
    ensures { (h : Classes) (classes : List ClassId) → Means h classes result (calculated_value op t a b) }
{
    match op {
        Arithmetic::Add => Value::Number(sum(t, a, b)),
        Arithmetic::Subtract => Value::Number(difference(t, a, b)),
        Arithmetic::Multiply => Value::Number(product(t, a, b)),
        Arithmetic::Less => truth(a < b),
        Arithmetic::LessEqual => truth(a <= b),
        Arithmetic::Equal => truth(a == b),
        Arithmetic::NotEqual => truth(a != b),
    }
}

/// Two numbers, read in their common type (ISO C++03 5 p9); of anything else no value.
pub fn calculate(op: Arithmetic, t: Scalar, a: Value, b: Value) -> Value
    ensures { (h : Classes) (classes : List ClassId) (v w : ValueOf) → Means h classes a v → Means h classes b w → Means h classes result (arithmetic_value op t v w) }
{
    match (a, b) {
        (Value::Number(x), Value::Number(y)) => calculated(op, t, wrap(t, x), wrap(t, y)),
        _ => Value::Unset,
    }
}

/// Whether an exact result is no number of the type.
fn is_over(t: Scalar, z: i128) -> bool
    ensures { result ≡ is_over t z }
{
    wrap(t, z) != z
}

/// Whether a sum, difference or product is no number of the type.
fn is_result_over(op: Arithmetic, t: Scalar, a: i128, b: i128) -> bool
    requires left { unsigned_abs a ≤ 2 ^ 63 }
    requires right { unsigned_abs b ≤ 2 ^ 63 }
    ensures { result ≡ is_result_over op t a b }
{
    match op {
        Arithmetic::Add => is_over(t, a + b),
        Arithmetic::Subtract => is_over(t, a - b),
        Arithmetic::Multiply => is_over(t, a * b),
        Arithmetic::Less | Arithmetic::LessEqual | Arithmetic::Equal | Arithmetic::NotEqual =>
            false,
    }
}

/// Whether a result of two numbers of a signed type is no number of the type (ISO C++03 5 p5).
pub fn overflows(op: Arithmetic, t: Scalar, a: Value, b: Value) -> bool
    ensures { (h : Classes) (classes : List ClassId) (v w : ValueOf) → Means h classes a v → Means h classes b w → result ≡ overflows op t v w }
{
    match (a, b) {
        (Value::Number(x), Value::Number(y)) => {
            if is_signed(t) {
                is_result_over(op, t, wrap(t, x), wrap(t, y))
            } else {
                false
            }
        }
        _ => false,
    }
}

/// The result of two numbers, read in their common type (ISO C++03 5 p9); none of anything else, and none where it is no number
/// of a signed type (ISO C++03 5 p5).
pub fn held_result(op: Arithmetic, t: Scalar, a: Value, b: Value) -> Option<Value>
    ensures { IfSome result (λ r. (h : Classes) (classes : List ClassId) (v w : ValueOf) → Means h classes a v → Means h classes b w → HoldsResult h classes op t v w r) }
{
    match (a, b) {
        (Value::Number(_), Value::Number(_)) => {
            if overflows(op, t, a, b) {
                None
            } else {
                Some(calculate(op, t, a, b))
            }
        }
        _ => None,
    }
}

/// Whether both pointers are null or name one subobject (ISO C++03 5.10).
pub fn is_same(a: Value, b: Value) -> bool
    ensures { (h : Classes) (classes : List ClassId) (v w : ValueOf) → IsHierarchy h → Means h classes a v → Means h classes b w → result ≡ is_same_pointer v w }
{
    match (a, b) {
        (Value::Null, Value::Null) => true,
        (Value::Pointer(n), Value::Pointer(m)) => n == m,
        _ => false,
    }
}
