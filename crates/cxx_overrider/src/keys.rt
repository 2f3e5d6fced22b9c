//! Signatures as bytes, so that a table finds the functions of one signature.

ghost use Rattle.std.specs.Prelude.{◌≡◌, ◌<◌, ◌≤◌, ◌+◌, ◌++◌, ◌∷◌, IfOk, OnOk, Some, Contains, length, map};
ghost use Rattle.cxx_hierarchy.specs.declared.records.ClassId.{ClassId};
ghost use Rattle.cxx_hierarchy.specs.declared.records.Param.{Param};
ghost use Rattle.cxx_hierarchy.specs.declared.records.ValueType.TheVariants.{Pointer};
ghost use Rattle.cxx_hierarchy.specs.Limits.{most_classes};
ghost use Rattle.cxx_overrider.specs.Functions.{Signature, signature_of};
ghost use Rattle.cxx_overrider.specs.Virtuals.{scalar_number};
ghost use Rattle.cxx_overrider.specs.invariants.Keys.{first_code, second_code, type_codes, signature_key};

use crate::FunctionId;
use crate::signatures::declaration;
use cxx_hierarchy::{ClassId, Function, Hierarchy, Param, Scalar, ValueType};
use foundation::NoMemory;
use std::alloc::Global;

fn scalar_code(scalar: Scalar) -> u8
    ensures { result ≡ scalar_number scalar }
{
    match scalar {
        Scalar::Bool => 0,
        Scalar::Char => 1,
        Scalar::SChar => 2,
        Scalar::UChar => 3,
        Scalar::Short => 4,
        Scalar::UShort => 5,
        Scalar::Int => 6,
        Scalar::UInt => 7,
        Scalar::Long => 8,
        Scalar::ULong => 9,
        Scalar::LongLong => 10,
        Scalar::ULongLong => 11,
    }
}

fn first_code(ty: &ValueType<ClassId>) -> u8
    requires { (c : ClassId) → ty.now ≡ Pointer c → c.0 < most_classes }
    ensures { result ≡ first_code ty.now }
{
    match ty {
        ValueType::Number(_) => 0,
        ValueType::Pointer(class) => (class.0 / 256 + 1) as u8,
    }
}

fn second_code(ty: &ValueType<ClassId>) -> u8
    ensures { result ≡ second_code ty.now }
{
    match ty {
        ValueType::Number(scalar) => scalar_code(*scalar),
        ValueType::Pointer(class) => (class.0 % 256) as u8,
    }
}

fn push_types(key: &mut Vec<u8>, params: &[Param<ClassId>]) -> Result<(), NoMemory>
    requires { (c : ClassId) (p : Param ClassId) → Contains params.now p → p.ty ≡ Pointer c → c.0 < most_classes }
    ensures { OnOk result (key.new.items ≡ key.old.items ++ type_codes (map (λ (p : Param ClassId). p.ty) params.now)) }
{
    match params {
        [] => Ok(()),
        [param, rest @ ..] => {
            key.push(first_code(&param.ty))?;
            key.push(second_code(&param.ty))?;
            push_types(key, rest)
        }
    }
}

fn declaration_key(alloc: Global, function: &Function<ClassId>) -> Result<Vec<u8>, NoMemory>
    requires few { length function.now.params ≤ 16 }
    requires known { (c : ClassId) (p : Param ClassId) → Contains function.now.params p → p.ty ≡ Pointer c → c.0 < most_classes }
    ensures { IfOk result (λ key. key.items ≡ (length function.now.params + 1) ∷ (type_codes (map (λ (p : Param ClassId). p.ty) function.now.params) ++ function.now.name)) }
{
    let params = function.params.as_slice();
    let mut key = Vec::new(alloc);
    key.push(params.len() as u8 + 1)?;
    push_types(&mut key, params)?;
    key.extend_from_slice(function.name.as_slice())?;
    Ok(key)
}

/// The bytes of the signature of a function, the same exactly for functions of one signature.
///
/// Errors: want of memory.
pub fn signature_key(alloc: Global, h: &Hierarchy, f: FunctionId) -> Result<Vec<u8>, NoMemory>
    requires { f.class.0 < length h.now }
    ensures { IfOk result (λ key. (s : Signature) → signature_of h.now f ≡ Some s → key.items ≡ signature_key s) }
{
    h.keeps();
    match declaration(h, f) {
        Some(function) => declaration_key(alloc, function),
        None => Ok(Vec::new(alloc)),
    }
}
