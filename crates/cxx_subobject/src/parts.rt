//! How many subobjects and parts each class has, against the limits.

ghost use Rattle.std.specs.Prelude.{◌≡◌, ◌+◌, ◌*◌, ◌≤◌, ◌<◌, ◌↔◌, ℕ, false, min, Some, All, IfOk, OnOk, IsTrue, length, get_or, if◌then◌else◌};
ghost use Rattle.cxx_hierarchy.specs.declared.records.ClassId.{ClassId};
ghost use Rattle.cxx_hierarchy.specs.declared.records.Base.{Base};
ghost use Rattle.cxx_hierarchy.specs.declared.records.Member.{Member};
ghost use Rattle.cxx_hierarchy.specs.Classes.{Classes};
ghost use Rattle.cxx_hierarchy.specs.VirtualBases.{HasVirtualBase};
ghost use Rattle.cxx_subobject.specs.VirtualFlags.{TellsVirtualBases};
ghost use Rattle.cxx_subobject.specs.Parts.{IsWithinLimits, TellsLimits, elements_of, parts_in, most_parts, most_subobjects};
ghost use Rattle.cxx_subobject.specs.invariants.Counts.{AreCapped, IsCapped, IsSharedSum, IsSharedValue, KnowsObject, HasGoodCount, own_bases, parts_of_members, AreCounts};

use crate::virtual_flags::{classes_with_virtual_bases, has_virtual_bases};
use cxx_hierarchy::{Base, ClassId, FieldType, Hierarchy, Member};
use foundation::NoMemory;
use std::alloc::Global;
use std::marker::Model;

/// The largest number of inheritance subobjects of a class.
pub const MOST_SUBOBJECTS: u32 = 1024;

/// The largest number of parts of a class.
const MOST_PARTS: u32 = 65536;

/// A sum, or one more than the limit where it is larger.
fn capped(limit: u32, one: u32, other: u32) -> u32
    requires { (one + other) + limit < 4294967295 }
    ensures { result ≡ min (one + other) (limit + 1) }
{
    (one + other).min(limit + 1)
}

/// What a base has outside its virtual bases: nothing where it is itself a virtual base.
fn own_value(base: &Base<ClassId>, values: &[u32]) -> u32
    requires { base.now.class.0 < length values.now }
    ensures within { (limit : ℕ) → AreCapped limit values.now → result ≤ limit + 1 }
    ensures value { result ≡ (if base.now.is_virtual then 0 else get_or values.now base.now.class.0 0) }
{
    if base.is_virtual {
        0
    } else {
        values[base.class.0 as usize]
    }
}

/// A start, and what the non-virtual bases among these have.
fn base_sum(bases: &[Base<ClassId>], values: &[u32], limit: u32, start: u32) -> u32
    requires limit { limit ≤ most_parts }
    requires start { start ≤ limit + 1 }
    requires known { All (λ (base : Base ClassId). base.class.0 < length values.now) bases.now }
    requires values { AreCapped limit values.now }
    ensures within { result ≤ limit + 1 }
    ensures sum { (f : ClassId → ℕ) → (n : ℕ) → IsCapped limit f values.now → start ≡ min n (limit + 1) → result ≡ min (n + own_bases f bases.now) (limit + 1) }
{
    let mut sum = start;
    for base in bases {
        sum = capped(limit, sum, own_value(base, values));
    }
    sum
}

/// What a class has where it is a virtual base of another, and else nothing.
fn shared_value(h: &Hierarchy, c: ClassId, v: ClassId, values: &[u32]) -> u32
    requires { v.0 < length values.now }
    ensures within { (limit : ℕ) → AreCapped limit values.now → result ≤ limit + 1 }
    ensures value { IsSharedValue h.now c v values.now result }
{
    if h.has_virtual_base(c, v) {
        values[v.0 as usize]
    } else {
        0
    }
}

/// A start, and what the virtual bases of a class have. A class without virtual bases has none.
fn shared_sum(
    h: &Hierarchy,
    has_virtual_bases: bool,
    c: ClassId,
    values: &[u32],
    limit: u32,
    start: u32,
) -> u32
    requires with_virtual { has_virtual_bases ≡ false → (v : ClassId) → HasVirtualBase h.now c v → ⊥ }
    requires limit { limit ≤ most_parts }
    requires start { start ≤ limit + 1 }
    requires known { c.0 ≤ length values.now }
    requires values { AreCapped limit values.now }
    ensures within { result ≤ limit + 1 }
    ensures sum { (f : ClassId → ℕ) → (n : ℕ) → IsCapped limit f values.now → start ≡ min n (limit + 1) → IsSharedSum h.now c c.0 f n limit result }
{
    if !has_virtual_bases {
        return start;
    }
    let mut sum = start;
    for number in 0..c.0 {
        sum = capped(limit, sum, shared_value(h, c, ClassId(number), values));
    }
    sum
}

/// The parts of one element.
fn element_parts(ty: &FieldType<ClassId>, parts: &[u32]) -> u32
    requires known { KnowsObject parts.now ty.now }
    requires parts { AreCapped most_parts parts.now }
    ensures within { result ≤ most_parts + 1 }
    ensures parts { (f : ClassId → ℕ) → IsCapped most_parts f parts.now → result ≡ min (parts_in f ty.now) (most_parts + 1) }
{
    match ty {
        FieldType::Value(_) => 1,
        FieldType::Object(class) => parts[class.0 as usize],
    }
}

/// The parts of all elements of a member.
fn parts_of_member(member: &Member<ClassId>, parts: &[u32]) -> u32
    requires known { KnowsObject parts.now member.now.ty }
    requires count { HasGoodCount member.now }
    requires parts { AreCapped most_parts parts.now }
    ensures within { result ≤ 268439552 }
    ensures parts { (f : ClassId → ℕ) → IsCapped most_parts f parts.now → min result (most_parts + 1) ≡ min (elements_of member.now.count * parts_in f member.now.ty) (most_parts + 1) }
{
    member.elements() * element_parts(&member.ty, parts)
}

/// Whether a class with so many subobjects and parts is within the limits.
fn is_small(subobjects: u32, parts: u32) -> bool
    ensures { IsTrue result ↔ ((subobjects ≤ most_subobjects) × (parts ≤ most_parts)) }
{
    subobjects <= MOST_SUBOBJECTS && parts <= MOST_PARTS
}

/// A class subobject, and the parts of its members.
fn member_sum(members: &[Member<ClassId>], parts: &[u32]) -> u32
    requires known { All (λ (member : Member ClassId). KnowsObject parts.now member.ty) members.now }
    requires counts { All HasGoodCount members.now }
    requires parts { AreCapped most_parts parts.now }
    ensures within { result ≤ most_parts + 1 }
    ensures parts { (f : ClassId → ℕ) → IsCapped most_parts f parts.now → result ≡ min (1 + parts_of_members f members.now) (most_parts + 1) }
{
    let mut sum = 1;
    for member in members {
        sum = capped(MOST_PARTS, sum, parts_of_member(member, parts));
    }
    sum
}

/// What was counted of the classes so far, by their numbers. A count past its limit stands one past it.
#[derive(Drop)]
struct Counts {
    /// The subobjects outside the virtual bases.
    own: Vec<u32>,
    /// The parts outside the virtual bases.
    own_parts: Vec<u32>,
    /// All parts.
    parts: Vec<u32>,
    /// Whether the class is within the limits.
    within: Vec<bool>,
}

impl Counts {
    /// Counts the next class.
    fn push(&mut self, h: &Hierarchy, with_virtual: &[bool], c: ClassId) -> Result<(), NoMemory>
        requires known { c.0 < length h.now }
        requires with_virtual { TellsVirtualBases h.now with_virtual.now }
        requires flags { length with_virtual.now ≡ length h.now }
        requires counts { AreCounts h.now c.0 self.old }
        ensures { OnOk result (AreCounts h.now (c.0 + 1) self.new) }
    {
        h.keeps();
        let class = h.class(c);
        let bases = class.bases.as_slice();
        let own = base_sum(bases, &self.own, MOST_SUBOBJECTS, 1);
        let itself = member_sum(class.members.as_slice(), &self.parts);
        let own_parts = base_sum(bases, &self.own_parts, MOST_PARTS, itself);
        let is_one = has_virtual_bases(with_virtual, c);
        let all = shared_sum(h, is_one, c, &self.own, MOST_SUBOBJECTS, own);
        let parts = shared_sum(h, is_one, c, &self.own_parts, MOST_PARTS, own_parts);
        self.own.push(own)?;
        self.own_parts.push(own_parts)?;
        self.parts.push(parts)?;
        self.within.push(is_small(all, parts))?;
        Ok(())
    }
}

/// Which classes of a hierarchy are within the limits, seen as the list of these answers. No class is counted twice.
#[derive(Drop)]
pub struct PartCounts {
    within: Vec<bool>,
}

impl Model for PartCounts {
    ghost use Rattle.std.specs.Prelude.{List, Bool};

    ghost Value = { List Bool };

    ghost view = { λ counts. counts.within.items };
}

impl PartCounts {
    /// Counts the subobjects and the parts of each class of a hierarchy.
    ///
    /// Errors: want of memory.
    pub fn new(alloc: Global, h: &Hierarchy) -> Result<PartCounts, NoMemory>
        ensures { IfOk result (TellsLimits h.now) }
    {
        h.keeps();
        let with_virtual = classes_with_virtual_bases(alloc, h)?;
        let mut counts = Counts {
            own: Vec::new(alloc),
            own_parts: Vec::new(alloc),
            parts: Vec::new(alloc),
            within: Vec::new(alloc),
        };
        for number in 0..h.len() {
            counts.push(h, &with_virtual, ClassId(number))?;
        }
        Ok(PartCounts {
            within: counts.within,
        })
    }

    /// Whether a class of the hierarchy has at most 1,024 inheritance subobjects and at most 65,536 parts. It takes
    /// no memory.
    pub fn is_within(&self, c: ClassId) -> bool
        requires { c.0 < length self.now }
        ensures { (h : Classes) → TellsLimits h self.now → IsTrue result ↔ IsWithinLimits h c }
    {
        self.within[c.0 as usize]
    }
}
