//! What is known of the classes that are laid out, and of which kind a class is.

ghost use Rattle.std.specs.Prelude.{◌≡◌, ◌&&◌, not};
ghost use Rattle.std.specs.List.{list_all};
ghost use Rattle.cxx_hierarchy.specs.declared.records.ClassId.{ClassId};
ghost use Rattle.cxx_hierarchy.specs.declared.records.Base.{Base};
ghost use Rattle.cxx_hierarchy.specs.declared.records.Member.{Member};
ghost use Rattle.abi_layout.specs.Kinds.{empty_kind, pod_kind, is_pod_type};
ghost use Rattle.abi_layout.specs.invariants.Known.{empties_in, pods_in};

use crate::component::PartList;
use cxx_hierarchy::{ClassId, ClassRec, FieldType};

/// What the layout of a class takes from an earlier class besides its row: whether it is empty and whether it is POD,
/// and the class subobjects in it, by their places.
#[derive(Drop)]
pub struct Known {
    pub is_empty: bool,
    pub is_pod: bool,
    pub parts: PartList,
}

/// Whether an earlier class is empty.
pub(crate) fn is_empty_at(known: &[Known], c: ClassId) -> bool
    ensures { result ≡ empties_in known.now c }
{
    match known.get(c.0 as usize) {
        Some(earlier) => earlier.is_empty,
        None => false,
    }
}

/// Whether an earlier class is POD.
fn is_pod_at(known: &[Known], c: ClassId) -> bool
    ensures { result ≡ pods_in known.now c }
{
    match known.get(c.0 as usize) {
        Some(earlier) => earlier.is_pod,
        None => false,
    }
}

fn has_empty_bases(known: &[Known], class: &ClassRec<ClassId>) -> bool
    ensures { result ≡ list_all (λ (base : Base ClassId). not base.is_virtual && empties_in known.now base.class) class.now.bases }
{
    class
        .bases
        .as_slice()
        .iter()
        .all(|base| !base.is_virtual && is_empty_at(known, base.class))
}

/// Whether a class has no data, by the classes before it.
pub(crate) fn is_empty_class(known: &[Known], class: &ClassRec<ClassId>) -> bool
    ensures { result ≡ empty_kind (empties_in known.now) class.now }
{
    class.members.len() == 0 && !class.has_virtual_function() && has_empty_bases(known, class)
}

fn is_pod_type(known: &[Known], ty: &FieldType<ClassId>) -> bool
    ensures { result ≡ is_pod_type (pods_in known.now) ty.now }
{
    match ty {
        FieldType::Value(_) => true,
        FieldType::Object(class) => is_pod_at(known, *class),
    }
}

fn has_pod_members(known: &[Known], class: &ClassRec<ClassId>) -> bool
    ensures { result ≡ list_all (λ (member : Member ClassId). member.is_public && is_pod_type (pods_in known.now) member.ty) class.now.members }
{
    class.members.as_slice().iter().all(|member| member.is_public && is_pod_type(known, &member.ty))
}

/// Whether a class is as C has it, by the classes before it (ISO C++03 9).
pub(crate) fn is_pod_class(known: &[Known], class: &ClassRec<ClassId>) -> bool
    ensures { result ≡ pod_kind (pods_in known.now) class.now }
{
    class.bases.len() == 0
        && !class.has_virtual_function()
        && !class.has_constructor
        && class.destructor.is_implicit()
        && has_pod_members(known, class)
}
