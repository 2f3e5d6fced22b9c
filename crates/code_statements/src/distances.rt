//! Where the elements of a member lie.

ghost use Rattle.std.specs.Prelude.{◌≡◌, ◌<◌, ◌+◌, ◌*◌, ◌^◌, length};
ghost use Rattle.cxx_hierarchy.specs.declared.records.ClassId.{ClassId};
ghost use Rattle.cxx_hierarchy.specs.declared.records.FieldType.TheVariants.{Object};
ghost use Rattle.abi_sound.specs.Places.{size_of_value};
ghost use Rattle.abi_sound.specs.Locations.{size_of_type};
ghost use Rattle.code_ops.specs.invariants.Sites.{site_places};

use abi_sound::SoundLayout;
use code_ops::sites::Site;
use code_ops::widths::width;
use cxx_hierarchy::{ClassId, FieldType, ValueType};

/// The registers that have the addresses of a subobject in the part that is copied to and in the one that is copied from.
#[derive(Clone, Copy, Debug, PartialEq, Eq)]
pub struct Sides {
    pub to: u32,
    pub from: u32,
}

/// Elements one behind the other: where the first one lies, how far each lies behind the one before, in bytes, and how many there are.
#[derive(Clone, Copy, Debug, PartialEq, Eq)]
pub struct Elements {
    pub start: u32,
    pub stride: u32,
    pub count: u32,
}

impl Elements {
    /// Where an element lies, in bytes.
    pub fn place(self, i: u32) -> u32
        requires { self.start + i * self.stride < 2 ^ 32 }
        ensures { result ≡ self.start + i * self.stride }
    {
        self.start + i * self.stride
    }
}

/// The bytes of a number or a pointer.
fn value_bytes(ty: &ValueType<ClassId>) -> u8
    ensures { result ≡ size_of_value ty.now }
{
    match ty {
        ValueType::Number(scalar) => width(*scalar).bytes,
        ValueType::Pointer(_) => 8,
    }
}

/// The bytes of an element of a type.
pub fn type_bytes<L: SoundLayout>(site: &Site<L>, ty: &FieldType<ClassId>) -> u32
    requires { (d : ClassId) → ty.now ≡ Object d → d.0 < length (L.rows site.now.layout.now) }
    ensures { result ≡ size_of_type (site_places L.rows site.now) ty.now }
{
    match ty {
        FieldType::Value(ty) => value_bytes(ty) as u32,
        FieldType::Object(class) => site.layout.layout(*class).size,
    }
}
