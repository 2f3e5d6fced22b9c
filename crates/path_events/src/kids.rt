//! The parts right inside a part: each is a constant number on.

ghost use Rattle.std.specs.Prelude.{◌≡◌, ◌<◌, List, Some, false, slice_get};
ghost use Rattle.cxx_hierarchy.specs.declared.records.ClassId.{ClassId};
ghost use Rattle.cxx_hierarchy.specs.declared.records.Base.{Base};
ghost use Rattle.cxx_hierarchy.specs.declared.records.Member.{Member};
ghost use Rattle.cxx_hierarchy.specs.declared.records.FieldType.TheVariants.{Object};
ghost use Rattle.cxx_hierarchy.specs.Declarations.{elements_of};
ghost use Rattle.cxx_hierarchy.specs.Classes.{bases_of, members_of};
ghost use Rattle.path_plan.specs.Places.{ObjectPart, base_part, shared_part, element};
ghost use Rattle.path_plan.specs.declared.form.Form.{Form};
ghost use Rattle.path_plan.specs.declared.form.Form.TheVariants.{InFull, AsBase};
ghost use Rattle.path_plan.specs.Plans.{virtual_order};
ghost use Rattle.path_numbers.specs.Numbers.{AreClassNumbers};
ghost use Rattle.path_events.specs.Frames.{StandsAs};

use cxx_hierarchy::{Base, ClassId, Hierarchy, Member};
use path_heap::NumberedPart;
use path_numbers::Numbers;

/// A direct base that is not virtual, by its place in the class head.
pub(crate) fn base_kid(
    numbers: &Numbers,
    h: &Hierarchy,
    part: NumberedPart,
    i: usize,
    base: &Base<ClassId>,
) -> NumberedPart
    requires numbers { AreClassNumbers h.now numbers.now }
    requires listed { slice_get (bases_of h.now part.class) i ≡ Some base.now }
    ensures part { (classes : List ClassId) (form : Form) (p : ObjectPart) → StandsAs h.now classes part form p → base.now.is_virtual ≡ false → StandsAs h.now classes result AsBase (base_part p base.now) }
    ensures class { result.class ≡ base.now.class }
{
    h.keeps();
    NumberedPart {
        number: part
            .number
            .wrapping_add(numbers.base_offset(part.class, i) as u64),
        class: base.class,
        whole: part.whole,
        owner: part.owner,
    }
}

/// A virtual base of a complete object, by its place in their order.
pub(crate) fn shared_kid(
    numbers: &Numbers,
    h: &Hierarchy,
    part: NumberedPart,
    j: usize,
    v: ClassId,
) -> NumberedPart
    requires numbers { AreClassNumbers h.now numbers.now }
    requires listed { slice_get (virtual_order h.now part.class) j ≡ Some v }
    ensures part { (classes : List ClassId) (p : ObjectPart) → StandsAs h.now classes part InFull p → StandsAs h.now classes result AsBase (shared_part p v) }
    ensures class { result.class ≡ v }
{
    h.keeps();
    // the 0 is never met: `shared_offset` of path_numbers has an offset for each virtual base, as v is by the clause `listed`
    let offset = numbers.shared_offset(part.class, v).unwrap_or(0);
    NumberedPart {
        number: part.number.wrapping_add(offset as u64),
        class: v,
        whole: part.whole,
        owner: part.owner,
    }
}

/// An element, of class d, of a member: a complete object of its own.
pub(crate) fn element_kid(
    numbers: &Numbers,
    h: &Hierarchy,
    part: NumberedPart,
    m: usize,
    member: &Member<ClassId>,
    i: u32,
    d: ClassId,
) -> NumberedPart
    requires numbers { AreClassNumbers h.now numbers.now }
    requires listed { slice_get (members_of h.now part.class) m ≡ Some member.now }
    requires object { member.now.ty ≡ Object d }
    requires within { i < elements_of member.now.count }
    ensures part { (classes : List ClassId) (form : Form) (p : ObjectPart) → StandsAs h.now classes part form p → StandsAs h.now classes result InFull (element p m i d) }
    ensures class { result.class ≡ d }
{
    h.keeps();
    let offset = numbers.member_offset(part.class, m) as u64;
    let size = numbers.in_full(d) as u64;
    let number = part
        .number
        .wrapping_add(offset.wrapping_add((i as u64).wrapping_mul(size)));
    NumberedPart {
        number,
        class: d,
        whole: number,
        owner: d,
    }
}
