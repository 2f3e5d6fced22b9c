//! Copies of types and paths.

ghost use Rattle.std.specs.Prelude.{◌≡◌, IfOk};

use cxx_hierarchy::{ClassId, FieldType, ReturnType, ValueType};
use cxx_subobject::Subobject;
use foundation::{NoMemory, Sequence};
use std::alloc::Global;

/// A copy of a type of values.
pub fn copy_type(ty: &ValueType<ClassId>) -> ValueType<ClassId>
    ensures { result ≡ ty.now }
{
    match ty {
        ValueType::Number(scalar) => ValueType::Number(*scalar),
        ValueType::Pointer(class) => ValueType::Pointer(*class),
    }
}

/// A copy of a type of members.
pub(crate) fn copy_field(ty: &FieldType<ClassId>) -> FieldType<ClassId>
    ensures { result ≡ ty.now }
{
    match ty {
        FieldType::Value(ty) => FieldType::Value(copy_type(ty)),
        FieldType::Object(class) => FieldType::Object(*class),
    }
}

/// A copy of a type of results.
pub(crate) fn copy_return(ty: &ReturnType<ClassId>) -> ReturnType<ClassId>
    ensures { result ≡ ty.now }
{
    match ty {
        ReturnType::Void => ReturnType::Void,
        ReturnType::Value(ty) => ReturnType::Value(copy_type(ty)),
    }
}

/// A copy of a path.
pub(crate) fn copy_subobject(alloc: Global, s: &Subobject) -> Result<Subobject, NoMemory>
    ensures { IfOk result (λ copied. copied ≡ s.now) }
{
    Ok(Subobject {
        root: s.root,
        path: Sequence::from_vec(Vec::from_slice(alloc, s.path.as_slice())?),
    })
}
