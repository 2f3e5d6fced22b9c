//! From a part to its bases, its member objects and its leaves, in numbers.

ghost use Rattle.std.specs.Prelude.{◌≡◌, ◌+◌, ◌*◌, ◌%◌, ◌^◌, ◌<◌, Some, length, slice_get};
ghost use Rattle.cxx_hierarchy.specs.declared.records.ClassId.{ClassId};
ghost use Rattle.cxx_hierarchy.specs.declared.records.ValueType.{ValueType};
ghost use Rattle.cxx_hierarchy.specs.declared.records.FieldType.TheVariants.{Value, Object};
ghost use Rattle.cxx_subobject.specs.Subobjects.{IsSubobject, class_of, tail_of};
ghost use Rattle.cxx_subobject.specs.Locations.{IsElement};
ghost use Rattle.path_plan.specs.Places.{ObjectPart, element};
ghost use Rattle.path_plan.specs.declared.form.Form.TheVariants.{InFull};
ghost use Rattle.path_numbers.specs.Sizes.{sizes_of, member_offset};
ghost use Rattle.path_numbers.specs.Numbers.{AreClassNumbers, subobject_number};
ghost use Rattle.path_model.specs.Values.{Objects, inner_part};
ghost use Rattle.path_model.specs.Places.{leaf};
ghost use Rattle.path_heap.specs.Points.{Points, PointsLeaf};
ghost use Rattle.path_heap.specs.Stands.{HeapStands, HasBegun};
ghost use Rattle.path_heap.specs.invariants.Distances.{IsPathDistance, IsSharedDistance};

use crate::heap::Heap;
use crate::parts::whole_behind;
use cxx_hierarchy::{ClassId, FieldType, Hierarchy, Member};
use cxx_subobject::{Root, Subobject};
use path_numbers::Numbers;

/// How far a path of direct bases that are not virtual leads from a part of class c.
fn path_distance(numbers: &Numbers, h: &Hierarchy, c: ClassId, path: &[ClassId]) -> u64
    requires { AreClassNumbers h.now numbers.now }
    ensures { IsPathDistance h.now c path.now result }
{
    match path {
        [] => 0,
        [b, below @ ..] => {
            let base = numbers.base_number(h, c, *b) as u64;
            base.wrapping_add(path_distance(numbers, h, *b, below))
        }
    }
}

/// How far a virtual base stands behind a complete object of class c.
fn shared_distance(numbers: &Numbers, h: &Hierarchy, c: ClassId, v: ClassId) -> u64
    requires { AreClassNumbers h.now numbers.now }
    ensures { IsSharedDistance h.now c v result }
{
    h.keeps();
    // never met for a class that has the virtual base, as `IsSharedDistance` asks: it is listed
    if c.0 >= h.len() {
        return 0;
    }
    // the 0 is never met for a virtual base of c: `shared_offset` of path_numbers has an offset for each
    numbers.shared_offset(c, v).unwrap_or(0) as u64
}

/// The number of an element of a member of a part of class c, which has the number n.
pub(crate) fn element_number(
    numbers: &Numbers,
    h: &Hierarchy,
    c: ClassId,
    n: u64,
    member: u32,
    index: u32,
) -> u64
    requires { AreClassNumbers h.now numbers.now }
    ensures object { (d : ClassId) → IsElement h.now c member index (Object d) → result ≡ (n + (member_offset h.now (sizes_of h.now) c member + index * sizes_of h.now InFull d)) % 2 ^ 64 }
    ensures value { (t : ValueType ClassId) → IsElement h.now c member index (Value t) → result ≡ (n + (member_offset h.now (sizes_of h.now) c member + index)) % 2 ^ 64 }
{
    h.keeps();
    // never met for an element, nor the next exit: `IsElement` says that its class has the member
    if c.0 >= h.len() {
        return n;
    }
    let members = h.class(c).members.as_slice();
    if member as usize >= members.len() {
        return n;
    }
    let field = member_at(members, member as usize);
    let unit = unit_size(numbers, h, &field.ty);
    let offset = numbers.member_offset(c, member as usize) as u64;
    n.wrapping_add(offset.wrapping_add((index as u64).wrapping_mul(unit)))
}

/// A member by its place.
fn member_at(members: &[Member<ClassId>], i: usize) -> &Member<ClassId>
    requires { i < length members.now }
    ensures { slice_get members.now i ≡ Some result.now }
{
    &members[i]
}

/// How many numbers an element of a member takes.
fn unit_size(numbers: &Numbers, h: &Hierarchy, ty: &FieldType<ClassId>) -> u64
    requires { AreClassNumbers h.now numbers.now }
    ensures object { (d : ClassId) → ty.now ≡ Object d → d.0 < length h.now → result ≡ sizes_of h.now InFull d }
    ensures value { (t : ValueType ClassId) → ty.now ≡ Value t → result ≡ 1 }
{
    match ty {
        FieldType::Value(_) => 1,
        FieldType::Object(d) => object_size(numbers, h, *d),
    }
}

/// How many numbers a complete object takes.
fn object_size(numbers: &Numbers, h: &Hierarchy, d: ClassId) -> u64
    requires { AreClassNumbers h.now numbers.now }
    ensures { d.0 < length h.now → result ≡ sizes_of h.now InFull d }
{
    // never met for the class of a member: it is one of the hierarchy, by `keeps` of cxx_hierarchy
    if d.0 >= h.len() {
        return 0;
    }
    numbers.in_full(d) as u64
}

/// The classes of a path below its first.
fn below_first(path: &[ClassId]) -> &[ClassId]
    ensures { result.now ≡ tail_of path.now }
{
    match path {
        [_, below @ ..] => below,
        [] => path,
    }
}

impl Heap {
    /// The number of a subobject of a part that has begun.
    pub fn base(&self, numbers: &Numbers, h: &Hierarchy, n: u64, i: &Subobject) -> u64
        requires { AreClassNumbers h.now numbers.now }
        ensures { (s : Objects) (p : ObjectPart) (c : ClassId) → HeapStands h.now self.now s → Points h.now s.classes n p → HasBegun s p → class_of p.at ≡ Some c → IsSubobject h.now c i.now → Points h.now s.classes result (inner_part p i.now) }
    {
        let cell = self.cell(n);
        let path = below_first(i.path.as_slice());
        match i.root {
            Root::Whole => n.wrapping_add(path_distance(numbers, h, cell.class, path)),
            Root::Shared(v) => whole_behind(n, cell.back).wrapping_add(shared_distance(
                numbers, h, cell.owner, v,
            ).wrapping_add(path_distance(numbers, h, v, path))),
        }
    }

    /// The number of a subobject of a part that has begun, by its number x in a complete object of the part's class c. No path is
    /// walked: only a virtual base may stand elsewhere, behind the complete object that the part belongs to.
    pub fn numbered_base(
        &self,
        numbers: &Numbers,
        h: &Hierarchy,
        n: u64,
        c: ClassId,
        i: &Subobject,
        x: u32,
    ) -> u64
        requires { AreClassNumbers h.now numbers.now }
        ensures { (s : Objects) (p : ObjectPart) → HeapStands h.now self.now s → Points h.now s.classes n p → HasBegun s p → class_of p.at ≡ Some c → IsSubobject h.now c i.now → x ≡ subobject_number h.now c i.now → Points h.now s.classes result (inner_part p i.now) }
    {
        match i.root {
            Root::Whole => n.wrapping_add(x as u64),
            Root::Shared(v) => {
                let cell = self.cell(n);
                let far = shared_distance(numbers, h, cell.owner, v);
                let near = shared_distance(numbers, h, c, v);
                // a cut at 0 is never met: what lies in a virtual base has no number below its own
                whole_behind(n, cell.back).wrapping_add(far.wrapping_add(
                    (x as u64).saturating_sub(near),
                ))
            }
        }
    }

    /// The number of an element, of class d, of a member of a part that has begun.
    pub fn element(&self, numbers: &Numbers, h: &Hierarchy, n: u64, member: u32, index: u32) -> u64
        requires { AreClassNumbers h.now numbers.now }
        ensures { (s : Objects) (p : ObjectPart) (c d : ClassId) → HeapStands h.now self.now s → Points h.now s.classes n p → HasBegun s p → class_of p.at ≡ Some c → IsElement h.now c member index (Object d) → Points h.now s.classes result (element p member index d) }
    {
        element_number(numbers, h, self.cell(n).class, n, member, index)
    }

    /// The number of a leaf that is an element of a member of a part that has begun.
    pub fn leaf_number(
        &self,
        numbers: &Numbers,
        h: &Hierarchy,
        n: u64,
        member: u32,
        index: u32,
    ) -> u64
        requires { AreClassNumbers h.now numbers.now }
        ensures { (s : Objects) (p : ObjectPart) (c : ClassId) (t : ValueType ClassId) → HeapStands h.now self.now s → Points h.now s.classes n p → HasBegun s p → class_of p.at ≡ Some c → IsElement h.now c member index (Value t) → PointsLeaf h.now s.classes result (leaf p member index) }
    {
        element_number(numbers, h, self.cell(n).class, n, member, index)
    }
}
