//! What is kept of a class once it is laid out: the class subobjects of an object only where some member is one.

ghost use Rattle.std.specs.Prelude.{◌≡◌, ◌<◌, true, length};
ghost use Rattle.std.specs.List.{list_any};
ghost use Rattle.cxx_hierarchy.specs.declared.records.ClassId.{ClassId};
ghost use Rattle.cxx_hierarchy.specs.declared.records.Member.{Member};
ghost use Rattle.abi_layout.specs.invariants.Known.{is_object, IsMemberType, KeepsEnough};

use crate::known::Known;
use cxx_hierarchy::{ClassId, FieldType, Hierarchy, Member};
use foundation::Sequence;
use std::alloc::Global;

/// So many class subobjects are kept without a question.
const FEW_PARTS: usize = 64;

fn is_object(c: ClassId, ty: &FieldType<ClassId>) -> bool
    ensures { result ≡ is_object c ty.now }
{
    match ty {
        FieldType::Value(_) => false,
        FieldType::Object(d) => d.0 == c.0,
    }
}

fn has_member_of(members: &[Member<ClassId>], c: ClassId) -> bool
    ensures { result ≡ list_any (λ (member : Member ClassId). is_object c member.ty) members.now }
{
    members.iter().any(|member| is_object(c, &member.ty))
}

/// Whether some class has a member or an array of objects of a class.
fn is_member_type(h: &Hierarchy, c: ClassId) -> bool
    ensures { IsMemberType h.now c → result ≡ true }
{
    for n in 0..h.len() {
        if has_member_of(h.class(ClassId(n)).members.as_slice(), c) {
            return true;
        }
    }
    false
}

/// What is kept of a class: the class subobjects that an object of it brings are left out where no member is one.
#[tactic(auto, using(crate::proofs::algorithm::KeepingLemmas::all_kept))]
pub(crate) fn kept(alloc: Global, h: &Hierarchy, c: ClassId, known: Known) -> Known
    ensures { KeepsEnough h.now c known result }
{
    if known.parts.len() <= FEW_PARTS {
        return known;
    }
    if is_member_type(h, c) {
        return known;
    }
    let Known {
        is_empty,
        is_pod,
        parts: _,
    } = known;
    Known {
        is_empty,
        is_pod,
        parts: Sequence::new(alloc),
    }
}
