//! The type in which two numbers are calculated with (ISO C++03 5 p9).

ghost use Rattle.std.specs.Prelude.{◌≡◌};
ghost use Rattle.cxx_hierarchy.specs.Scalars.{size_of, is_signed, promoted, rank_of, unsigned_of, larger_rank, mixed_type, common_promoted, common_type};

use cxx_hierarchy::Scalar;

/// How many bytes a number takes.
fn size_of(scalar: Scalar) -> u32
    ensures { result ≡ size_of scalar }
{
    match scalar {
        Scalar::Bool | Scalar::Char | Scalar::SChar | Scalar::UChar => 1,
        Scalar::Short | Scalar::UShort => 2,
        Scalar::Int | Scalar::UInt => 4,
        Scalar::Long | Scalar::ULong | Scalar::LongLong | Scalar::ULongLong => 8,
    }
}

/// Whether the type has numbers below 0.
fn is_signed(scalar: Scalar) -> bool
    ensures { result ≡ is_signed scalar }
{
    match scalar {
        Scalar::Char | Scalar::SChar | Scalar::Short | Scalar::Int => true,
        Scalar::Long | Scalar::LongLong => true,
        Scalar::Bool | Scalar::UChar | Scalar::UShort | Scalar::UInt => false,
        Scalar::ULong | Scalar::ULongLong => false,
    }
}

/// An `int` holds all that is smaller (4.5).
fn promoted(scalar: Scalar) -> Scalar
    ensures { result ≡ promoted scalar }
{
    match scalar {
        Scalar::Bool | Scalar::Char | Scalar::SChar | Scalar::UChar => Scalar::Int,
        Scalar::Short | Scalar::UShort | Scalar::Int => Scalar::Int,
        Scalar::UInt => Scalar::UInt,
        Scalar::Long => Scalar::Long,
        Scalar::ULong => Scalar::ULong,
        Scalar::LongLong => Scalar::LongLong,
        Scalar::ULongLong => Scalar::ULongLong,
    }
}

/// The rank of the type.
fn rank_of(scalar: Scalar) -> u32
    ensures { result ≡ rank_of scalar }
{
    match scalar {
        Scalar::Bool => 0,
        Scalar::Char | Scalar::SChar | Scalar::UChar => 1,
        Scalar::Short | Scalar::UShort => 2,
        Scalar::Int | Scalar::UInt => 3,
        Scalar::Long | Scalar::ULong => 4,
        Scalar::LongLong | Scalar::ULongLong => 5,
    }
}

/// The unsigned type of a rank.
fn unsigned_of(scalar: Scalar) -> Scalar
    ensures { result ≡ unsigned_of scalar }
{
    match scalar {
        Scalar::Bool => Scalar::Bool,
        Scalar::Char | Scalar::SChar | Scalar::UChar => Scalar::UChar,
        Scalar::Short | Scalar::UShort => Scalar::UShort,
        Scalar::Int | Scalar::UInt => Scalar::UInt,
        Scalar::Long | Scalar::ULong => Scalar::ULong,
        Scalar::LongLong | Scalar::ULongLong => Scalar::ULongLong,
    }
}

fn larger_rank(s: Scalar, t: Scalar) -> Scalar
    ensures { result ≡ larger_rank s t }
{
    if rank_of(s) < rank_of(t) { t } else { s }
}

/// The type for a signed one and an unsigned one.
fn mixed_type(s: Scalar, u: Scalar) -> Scalar
    ensures { result ≡ mixed_type s u }
{
    if rank_of(s) <= rank_of(u) {
        return u;
    }
    if size_of(u) < size_of(s) {
        return s;
    }
    unsigned_of(s)
}

fn common_promoted(s: Scalar, t: Scalar) -> Scalar
    ensures { result ≡ common_promoted s t }
{
    match (is_signed(s), is_signed(t)) {
        (true, false) => mixed_type(s, t),
        (false, true) => mixed_type(t, s),
        (true, true) | (false, false) => larger_rank(s, t),
    }
}

/// The type in which numbers of two types are calculated with.
pub(crate) fn common_type(s: Scalar, t: Scalar) -> Scalar
    ensures { result ≡ common_type s t }
{
    common_promoted(promoted(s), promoted(t))
}
