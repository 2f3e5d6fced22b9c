//! What the number types keep of a number of any size.

ghost use Rattle.std.specs.Prelude.{◌≡◌, ℤ, ℕ, ◌≤◌, ◌<◌, ◌^◌, ◌%◌, pos, ◌+ℤ◌, ◌-ℤ◌};
ghost use Rattle.std.specs.Int.{int_rem_euclid};
ghost use Rattle.cxx_hierarchy.specs.Scalars.{wrapped, stored_as, is_signed, below_zero, wrapped_to, kept_in};

use cxx_hierarchy::Scalar;

/// The number that differs from z by a multiple of `count`, of the `count` numbers from `below` under 0 on.
fn wrap_within(z: i128, below: u64, count: u128) -> i128
    requires least { 0 < count }
    requires many { count ≤ 2 ^ 64 }
    requires power { 2 ^ 128 % count ≡ 0 }
    ensures { result ≡ int_rem_euclid (z +ℤ pos below) (pos count) -ℤ pos below }
{
    z.wrapping_add(below as i128).rem_euclid(count as i128) - below as i128
}

/// The number of the type that differs from z by a multiple of how many the type has (ISO C++03 4.7).
pub fn wrap(t: Scalar, z: i128) -> i128
    ensures { result ≡ wrapped t z }
{
    match t {
        Scalar::Bool => wrap_within(z, 0, 2),
        Scalar::Char | Scalar::SChar => wrap_within(z, 0x80, 0x100),
        Scalar::UChar => wrap_within(z, 0, 0x100),
        Scalar::Short => wrap_within(z, 0x8000, 0x1_0000),
        Scalar::UShort => wrap_within(z, 0, 0x1_0000),
        Scalar::Int => wrap_within(z, 0x8000_0000, 0x1_0000_0000),
        Scalar::UInt => wrap_within(z, 0, 0x1_0000_0000),
        Scalar::Long | Scalar::LongLong => {
            wrap_within(z, 0x8000_0000_0000_0000, 0x1_0000_0000_0000_0000)
        }
        Scalar::ULong | Scalar::ULongLong => wrap_within(z, 0, 0x1_0000_0000_0000_0000),
    }
}

/// What a variable of the type keeps of a number: of a `bool` whether it is 0 (ISO C++03 4.7, 4.12).
pub fn stored(t: Scalar, z: i128) -> i128
    ensures { result ≡ stored_as t z }
{
    match t {
        Scalar::Bool => { if z == 0 { 0 } else { 1 } }
        Scalar::Char
        | Scalar::SChar
        | Scalar::UChar
        | Scalar::Short
        | Scalar::UShort
        | Scalar::Int
        | Scalar::UInt
        | Scalar::Long
        | Scalar::ULong
        | Scalar::LongLong
        | Scalar::ULongLong => wrap(t, z),
    }
}

/// Whether the type has numbers below 0.
pub(crate) fn is_signed(t: Scalar) -> bool
    ensures { result ≡ is_signed t }
{
    match t {
        Scalar::Char
        | Scalar::SChar
        | Scalar::Short
        | Scalar::Int
        | Scalar::Long
        | Scalar::LongLong => true,
        Scalar::Bool
        | Scalar::UChar
        | Scalar::UShort
        | Scalar::UInt
        | Scalar::ULong
        | Scalar::ULongLong => false,
    }
}

/// How far below 0 the least of so many numbers is, signed or not.
fn below_zero(signed: bool, count: u128) -> u64
    requires { count ≤ 2 ^ 64 }
    ensures { result ≡ below_zero signed count }
{
    if signed { (count / 2) as u64 } else { 0 }
}

/// What at most 64 bits of the type keep of a number: the low bits, as two's complement reads them.
#[tactic(auto, using(crate::proofs::Bits::bits_many, crate::proofs::Bits::bits_power, crate::proofs::Bits::bits_some))]
fn cut(t: Scalar, bits: u32, z: i128) -> i128
    requires { bits ≤ 64 }
    ensures { result ≡ wrapped_to (is_signed t) (2 ^ bits) z }
{
    let count = 1u128 << bits;
    wrap_within(z, below_zero(is_signed(t), count), count)
}

/// What a bit-field of the type keeps of a number in so many bits: what the type keeps of it, and of that the low bits
/// (ISO C++03 9.6). More bits than 64 keep all.
pub fn kept(t: Scalar, bits: u32, z: i128) -> i128
    ensures { result ≡ kept_in t bits z }
{
    let whole = stored(t, z);
    if bits > 64 {
        whole
    } else {
        cut(t, bits, whole)
    }
}
