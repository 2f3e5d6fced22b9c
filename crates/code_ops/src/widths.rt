//! The bytes of numbers and values.

ghost use Rattle.std.specs.Prelude.{◌≡◌, ◌≤◌};
ghost use Rattle.byte_code.specs.declared.op.NumberKind.TheVariants.{Bits as BitsKind};
ghost use Rattle.std.specs.Option.{option_copied};
ghost use Rattle.code_ops.specs.Setups.{width_of, word_width, value_width, bit_width as bit_width_of, register_width as register_width_of, number_kind};
ghost use Rattle.code_ops.specs.PlaceOps.{type_or_int};

use byte_code::{BitWidth, NumberKind, Width};
use cxx_hierarchy::{ClassId, Scalar, ValueType};

/// The bytes of a word, read as an address or as a truth value.
pub const WORD: Width = Width {
    bytes: 8,
    signed: false,
};

/// How the value of a leaf stands in memory: in whole bytes, or in the bits from a first one of its byte on, the lowest first.
#[derive(Clone, Copy, Debug, PartialEq, Eq)]
pub enum LeafWidth {
    Bytes(Width),
    Bits(u8, BitWidth),
}

/// The bytes of a number type, and how they are read (System V x86-64).
pub fn width(scalar: Scalar) -> Width
    ensures { result ≡ width_of scalar }
{
    match scalar {
        Scalar::Bool | Scalar::UChar => Width {
            bytes: 1,
            signed: false,
        },
        Scalar::Char | Scalar::SChar => Width {
            bytes: 1,
            signed: true,
        },
        Scalar::Short => Width {
            bytes: 2,
            signed: true,
        },
        Scalar::UShort => Width {
            bytes: 2,
            signed: false,
        },
        Scalar::Int => Width {
            bytes: 4,
            signed: true,
        },
        Scalar::UInt => Width {
            bytes: 4,
            signed: false,
        },
        Scalar::Long | Scalar::LongLong => Width {
            bytes: 8,
            signed: true,
        },
        Scalar::ULong | Scalar::ULongLong => WORD,
    }
}

/// The bytes of a register that has a number of the type.
pub fn register_width(scalar: Scalar) -> Width
    ensures { result ≡ register_width_of scalar }
{
    Width {
        bytes: 8,
        signed: width(scalar).signed,
    }
}

/// The bytes of a value of the type, and those of an `int` where there is none.
pub fn value_width(type_found: Option<&ValueType<ClassId>>) -> Width
    ensures { result ≡ value_width (type_or_int (option_copied type_found.entry)) }
{
    match type_found {
        Some(ValueType::Number(scalar)) => width(*scalar),
        Some(ValueType::Pointer(_)) => WORD,
        // never met in a typed program (`programs_are_typed` of cxx_typing): a value has a type
        None => width(Scalar::Int),
    }
}

/// What a conversion to the type makes of a number (ISO C++03 4.7, 4.12).
pub fn kind_of_number(scalar: Scalar) -> NumberKind
    ensures { result ≡ number_kind scalar }
{
    match scalar {
        Scalar::Bool => NumberKind::Truth,
        _ => NumberKind::Bytes(width(scalar)),
    }
}

/// So many bits of a number of the type, read by the sign of the type.
pub fn bit_width(scalar: Scalar, n: u32) -> BitWidth
    requires { n ≤ 64 }
    ensures { result ≡ bit_width_of scalar n }
{
    BitWidth {
        bits: n as u8,
        signed: width(scalar).signed,
    }
}

/// What a conversion to so many bits of the type makes of a number of the type (ISO C++03 9.6).
pub fn bits_kind(scalar: Scalar, n: u32) -> NumberKind
    requires { n ≤ 64 }
    ensures { result ≡ BitsKind (bit_width_of scalar n) }
{
    NumberKind::Bits(bit_width(scalar, n))
}
