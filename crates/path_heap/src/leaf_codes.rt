//! Codes of values of leaves, and the values that they stand for.

ghost use Rattle.std.specs.Prelude.{◌≡◌, ◌<◌, ◌≤◌, ◌*◌, Some, IfSome};
ghost use Rattle.path_heap.specs.declared.state.Value.TheVariants.{Number, Pointer};
ghost use Rattle.path_heap.specs.invariants.LeafCodes.{pair_by_code, number_by_code, long_by_code};

use crate::state::Value;

/// What a code of two bits stands for; None says that another layer has the value.
#[inline(always)]
pub(crate) fn pair_by_code(code: u64) -> Option<Value>
    ensures { result ≡ pair_by_code code }
{
    match code {
        0 => Some(Value::Unset),
        1 => Some(Value::Number(0)),
        2 => Some(Value::Number(1)),
        _ => None,
    }
}

/// The code of two bits for a value that has one.
#[inline(always)]
pub(crate) fn pair_code(value: Value) -> Option<u64>
    ensures { IfSome result (λ code. (code < 3) × (pair_by_code code ≡ Some value)) }
{
    match value {
        Value::Unset => Some(0),
        Value::Number(0) => Some(1),
        Value::Number(1) => Some(2),
        Value::Number(_) | Value::Null | Value::Pointer(_) => None,
    }
}

/// What a code of a number between -half and half stands for; None says that another layer has the value.
#[inline(always)]
pub(crate) fn number_by_code(half: u64, code: u64) -> Option<Value>
    ensures { result ≡ number_by_code half code }
{
    if code == 0 {
        None
    } else {
        Some(Value::Number(code as i128 - half as i128))
    }
}

/// The code of a number between -half and half.
#[inline(always)]
pub(crate) fn number_code(half: u64, value: Value) -> Option<u64>
    requires { half ≤ 2305843009213693952 }
    ensures { IfSome result (λ code. (code < 2 * half) × (number_by_code half code ≡ Some value)) }
{
    match value {
        Value::Number(z) => shifted(half, z),
        Value::Unset | Value::Null | Value::Pointer(_) => None,
    }
}

/// How far a number between -half and half is from -half.
#[inline(always)]
fn shifted(half: u64, z: i128) -> Option<u64>
    requires { half ≤ 2305843009213693952 }
    ensures { IfSome result (λ code. (code < 2 * half) × (number_by_code half code ≡ Some (Number z))) }
{
    if z <= -(half as i128) || z >= half as i128 {
        None
    } else {
        Some((z + half as i128) as u64)
    }
}

/// How far 0 is from the least number that has a code of 64 bits.
const LONG_HALF: u64 = 0x2000_0000_0000_0000;

/// What a code of 64 bits stands for; None says that another layer has the value.
#[inline(always)]
pub(crate) fn long_by_code(code: u64) -> Option<Value>
    ensures { result ≡ long_by_code code }
{
    if code == 1 {
        return Some(Value::Null);
    }
    let rest = code / 2;
    if code % 2 == 1 {
        return number_by_code(LONG_HALF, rest);
    }
    if rest == 0 {
        None
    } else {
        Some(Value::Pointer(rest - 1))
    }
}

/// The code of 64 bits for a value that has one.
#[inline(always)]
pub(crate) fn long_code(value: Value) -> Option<u64>
    ensures { IfSome result (λ code. long_by_code code ≡ Some value) }
{
    match value {
        Value::Null => Some(1),
        Value::Number(z) => odd_code(z),
        Value::Pointer(n) => even_code(n),
        Value::Unset => None,
    }
}

/// The code of 64 bits for a number that has one.
fn odd_code(z: i128) -> Option<u64>
    ensures { IfSome result (λ code. long_by_code code ≡ Some (Number z)) }
{
    match shifted(LONG_HALF, z) {
        Some(code) => Some(2 * code + 1),
        None => None,
    }
}

/// The code of 64 bits for the number of a part.
fn even_code(n: u64) -> Option<u64>
    ensures { IfSome result (λ code. long_by_code code ≡ Some (Pointer n)) }
{
    if n < LONG_HALF { Some(2 * n + 2) } else { None }
}
