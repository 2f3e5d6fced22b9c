//! Sizes of numbers and pointers.

ghost use Rattle.std.specs.Prelude.{◌≡◌};
ghost use Rattle.cxx_hierarchy.specs.Scalars.{size_of};
ghost use Rattle.abi_sound.specs.Places.{size_of_value};

use cxx_hierarchy::{ClassId, Scalar, ValueType};

/// The bytes of a number.
fn size_of(ty: Scalar) -> u32
    ensures { result ≡ size_of ty }
{
    match ty {
        Scalar::Bool | Scalar::Char | Scalar::SChar | Scalar::UChar => 1,
        Scalar::Short | Scalar::UShort => 2,
        Scalar::Int | Scalar::UInt => 4,
        Scalar::Long | Scalar::ULong | Scalar::LongLong | Scalar::ULongLong => 8,
    }
}

/// The bytes of a number or a pointer.
pub(crate) fn size_of_value(ty: &ValueType<ClassId>) -> u32
    ensures { result ≡ size_of_value ty.now }
{
    match ty {
        ValueType::Number(scalar) => size_of(*scalar),
        ValueType::Pointer(_) => 8,
    }
}
