//! The sizes of all classes, and the offsets of their bases, members and virtual bases, in numbers.

ghost use Rattle.std.specs.Prelude.{◌≡◌, ◌+◌, ◌≤◌, ◌<◌, ◌++◌, ◌∷◌, [], false, nat_eq, if◌then◌else◌, Some, None, All, Contains, IfOk, OnOk, length, get_or};
ghost use Rattle.cxx_subobject.specs.Parts.{most_parts};
ghost use Rattle.cxx_hierarchy.specs.declared.records.ClassId.{ClassId};
ghost use Rattle.cxx_hierarchy.specs.declared.records.Base.{Base};
ghost use Rattle.cxx_hierarchy.specs.declared.records.Member.{Member};
ghost use Rattle.cxx_hierarchy.specs.declared.records.FieldType.TheVariants.{Object};
ghost use Rattle.cxx_hierarchy.specs.Classes.{Classes, bases_of, members_of};
ghost use Rattle.cxx_hierarchy.specs.Hierarchies.{IsHierarchy};
ghost use Rattle.cxx_hierarchy.specs.VirtualBases.{IsDirectBase};
ghost use Rattle.cxx_subobject.specs.Subobjects.{IsSubobject, Leads, tail_of};
ghost use Rattle.cxx_subobject.specs.Parts.{IsWithinLimits};
ghost use Rattle.path_plan.specs.declared.form.Form.TheVariants.{AsBase, InFull};
ghost use Rattle.path_plan.specs.Plans.{virtual_order};
ghost use Rattle.path_numbers.specs.Sizes.{sizes_of, base_size, unit_size, member_size, total, base_offset, member_offset};
ghost use Rattle.path_numbers.specs.Numbers.{base_number, path_number, subobject_number, IsSharedAt, HasClassNumbers, AreNumberRows, AreClassNumbers};
ghost use Rattle.path_numbers.specs.invariants.Lines.{IsLinedUp, HaveFewParts};

use crate::sharing::shared_of;
use cxx_hierarchy::{Base, ClassId, FieldType, Hierarchy, Member};
use cxx_subobject::{Root, Subobject};
use foundation::{NoMemory, Sequence};
use std::alloc::Global;
use std::marker::Model;

/// The numbers of a class: its sizes, and the offsets of its parts.
#[derive(Drop)]
pub struct ClassNumbers {
    /// How many numbers it takes as a base.
    pub as_base: u32,
    /// How many it takes as a complete object.
    pub in_full: u32,
    /// The offset of each direct base that is not virtual.
    pub bases: Sequence<u32>,
    /// The offset of element 0 of each member.
    pub members: Sequence<u32>,
    /// Its virtual bases, in the order in which they are built.
    pub order: Sequence<ClassId>,
    /// The offset of each virtual base by the number of its class, and 0 for any other class.
    pub shared: Sequence<u32>,
}

/// Offsets of things one behind the other, and where the last one ends.
#[derive(Drop)]
struct Line {
    offsets: Vec<u32>,
    end: u32,
}

impl Line {
    /// Puts a thing behind the others.
    fn push(&mut self, width: u32) -> Result<(), NoMemory>
        requires { self.old.end + width < 4294967296 }
        ensures offsets { OnOk result (self.new.offsets.items ≡ self.old.offsets.items ++ self.old.end ∷ []) }
        ensures end { OnOk result (self.new.end ≡ self.old.end + width) }
    {
        self.offsets.push(self.end)?;
        self.end += width;
        Ok(())
    }
}

/// The row of a class.
pub(crate) fn row_at(rows: &[ClassNumbers], c: ClassId) -> &ClassNumbers
    requires { c.0 < length rows.now }
    ensures { (h : Classes) → AreNumberRows h rows.now → HasClassNumbers h c result.now }
{
    &rows[c.0 as usize]
}

/// How many numbers a base takes: none where it is virtual.
fn base_width(h: &Hierarchy, rows: &[ClassNumbers], base: &Base<ClassId>) -> u32
    requires known { base.now.class.0 < length rows.now }
    requires rows { AreNumberRows h.now rows.now }
    ensures { result ≡ base_size (sizes_of h.now) base.now }
{
    if base.is_virtual {
        0
    } else {
        row_at(rows, base.class).as_base
    }
}

/// The offsets of the direct bases.
fn base_line(
    alloc: Global,
    h: &Hierarchy,
    rows: &[ClassNumbers],
    bases: &[Base<ClassId>],
) -> Result<Line, NoMemory>
    requires known { All (λ (base : Base ClassId). base.class.0 < length rows.now) bases.now }
    requires rows { AreNumberRows h.now rows.now }
    requires room { 1 + total (base_size (sizes_of h.now)) bases.now ≤ most_parts }
    ensures { IfOk result (IsLinedUp (base_size (sizes_of h.now)) 1 bases.now) }
{
    let mut line = Line {
        offsets: Vec::new(alloc),
        end: 1,
    };
    for base in bases {
        line.push(base_width(h, rows, base))?;
    }
    Ok(line)
}

/// How many numbers an element of a member takes.
fn unit_width(h: &Hierarchy, rows: &[ClassNumbers], ty: &FieldType<ClassId>) -> u32
    requires known { (d : ClassId) → ty.now ≡ Object d → d.0 < length rows.now }
    requires rows { AreNumberRows h.now rows.now }
    ensures { result ≡ unit_size (sizes_of h.now) ty.now }
{
    match ty {
        FieldType::Value(_) => 1,
        FieldType::Object(class) => row_at(rows, *class).in_full,
    }
}

/// How many numbers all elements of a member take.
fn member_width(h: &Hierarchy, rows: &[ClassNumbers], member: &Member<ClassId>) -> u32
    requires known { (d : ClassId) → member.now.ty ≡ Object d → d.0 < length rows.now }
    requires rows { AreNumberRows h.now rows.now }
    requires room { member_size (sizes_of h.now) member.now ≤ most_parts }
    ensures { result ≡ member_size (sizes_of h.now) member.now }
{
    member.elements() * unit_width(h, rows, &member.ty)
}

/// The offsets of the members, behind the bases.
fn member_line(
    alloc: Global,
    h: &Hierarchy,
    rows: &[ClassNumbers],
    members: &[Member<ClassId>],
    start: u32,
) -> Result<Line, NoMemory>
    requires known { (m : Member ClassId) → (d : ClassId) → Contains members.now m → m.ty ≡ Object d → d.0 < length rows.now }
    requires rows { AreNumberRows h.now rows.now }
    requires room { start + total (member_size (sizes_of h.now)) members.now ≤ most_parts }
    ensures { IfOk result (IsLinedUp (member_size (sizes_of h.now)) start members.now) }
{
    let mut line = Line {
        offsets: Vec::new(alloc),
        end: start,
    };
    for member in members {
        line.push(member_width(h, rows, member))?;
    }
    Ok(line)
}

/// The numbers of a class, behind the rows of the classes before it.
fn row_of(
    alloc: Global,
    h: &Hierarchy,
    rows: &[ClassNumbers],
    c: ClassId,
) -> Result<ClassNumbers, NoMemory>
    requires next { length rows.now ≡ c.0 }
    requires known { c.0 < length h.now }
    requires rows { AreNumberRows h.now rows.now }
    requires small { HaveFewParts h.now }
    ensures { IfOk result (HasClassNumbers h.now c) }
{
    h.keeps();
    let class = h.class(c);
    let bases = base_line(alloc, h, rows, class.bases.as_slice())?;
    let members = member_line(alloc, h, rows, class.members.as_slice(), bases.end)?;
    let as_base = members.end;
    let shared = shared_of(alloc, h, rows, class.bases.as_slice(), as_base)?;
    Ok(ClassNumbers {
        as_base,
        in_full: shared.end,
        bases: Sequence::from_vec(bases.offsets),
        members: Sequence::from_vec(members.offsets),
        order: Sequence::from_vec(shared.order),
        shared: Sequence::from_vec(shared.offsets),
    })
}

/// The numbers of each class of a hierarchy, in the order of the classes.
#[derive(Drop)]
pub struct Numbers {
    rows: Vec<ClassNumbers>,
}

impl Model for Numbers {
    ghost use Rattle.std.specs.Prelude.{List};
    ghost use Rattle.path_numbers.specs.declared.numbers.ClassNumbers.{ClassNumbers};

    ghost Value = { List ClassNumbers };

    ghost view = { λ numbers. numbers.rows.items };
}

impl Numbers {
    /// The numbers of all classes.
    ///
    /// Errors: want of memory.
    pub fn new(alloc: Global, h: &Hierarchy) -> Result<Numbers, NoMemory>
        requires limits { (c : ClassId) → c.0 < length h.now → IsWithinLimits h.now c }
        ensures { IfOk result (AreClassNumbers h.now) }
    {
        h.keeps();
        let mut rows = Vec::new(alloc);
        for number in 0..h.len() {
            let row = row_of(alloc, h, &rows, ClassId(number))?;
            rows.push(row)?;
        }
        Ok(Numbers { rows })
    }

    /// How many numbers a part of a class takes without virtual bases.
    pub fn as_base(&self, c: ClassId) -> u32
        requires { c.0 < length self.now }
        ensures { (h : Classes) → AreClassNumbers h self.now → result ≡ sizes_of h AsBase c }
    {
        row_at(&self.rows, c).as_base
    }

    /// How many numbers a complete object of a class takes.
    pub fn in_full(&self, c: ClassId) -> u32
        requires { c.0 < length self.now }
        ensures { (h : Classes) → AreClassNumbers h self.now → result ≡ sizes_of h InFull c }
    {
        row_at(&self.rows, c).in_full
    }

    /// How far a direct base stands behind a part, by its place in the class head; of a virtual one this says nothing.
    pub fn base_offset(&self, c: ClassId, i: usize) -> u32
        requires { c.0 < length self.now }
        ensures { (h : Classes) → AreClassNumbers h self.now → i < length (bases_of h c) → result ≡ base_offset h (sizes_of h) c i }
    {
        offset_at(row_at(&self.rows, c).bases.as_slice(), i)
    }

    /// How far element 0 of a member stands behind a part.
    pub fn member_offset(&self, c: ClassId, m: usize) -> u32
        requires { c.0 < length self.now }
        ensures { (h : Classes) → AreClassNumbers h self.now → m < length (members_of h c) → result ≡ member_offset h (sizes_of h) c m }
    {
        offset_at(row_at(&self.rows, c).members.as_slice(), m)
    }

    /// How far a virtual base stands behind a complete object; None where the class is no virtual base of it.
    pub fn shared_offset(&self, c: ClassId, v: ClassId) -> Option<u32>
        requires { c.0 < length self.now }
        ensures { (h : Classes) → IsHierarchy h → AreClassNumbers h self.now → IsSharedAt h c v result }
    {
        some_offset(offset_at(row_at(&self.rows, c).shared.as_slice(), v.0 as usize))
    }

    /// The virtual bases of a class, in the order in which they are built.
    pub fn virtual_bases(&self, c: ClassId) -> &[ClassId]
        requires { c.0 < length self.now }
        ensures { (h : Classes) → AreClassNumbers h self.now → result.now ≡ virtual_order h c }
    {
        row_at(&self.rows, c).order.as_slice()
    }

    /// How far a direct base that is not virtual stands behind a part of class c, by the base's class; 0 where b is none.
    pub fn base_number(&self, h: &Hierarchy, c: ClassId, b: ClassId) -> u32
        requires { AreClassNumbers h.now self.now }
        ensures { IsDirectBase h.now c false b → result ≡ base_number h.now c b }
    {
        h.keeps();
        // never met for a direct base of c, nor the last 0: `IsDirectBase` says that c lists it
        if c.0 >= h.len() {
            return 0;
        }
        let bases = h.class(c).bases.as_slice();
        for (i, base) in bases.iter().enumerate() {
            if base.class == b {
                return self.base_offset(c, i);
            }
        }
        0
    }

    /// How far a path of direct bases that are not virtual leads from a part.
    pub fn path_offset(&self, h: &Hierarchy, c: ClassId, path: &[ClassId]) -> u32
        requires known { c.0 < length h.now }
        requires limits { (d : ClassId) → d.0 < length h.now → IsWithinLimits h.now d }
        requires numbers { AreClassNumbers h.now self.now }
        requires path { Leads h.now c path.now }
        ensures { result ≡ path_number h.now c path.now }
    {
        h.keeps();
        match path {
            [] => 0,
            [b, below @ ..] => self.base_number(h, c, *b) + self.path_offset(h, *b, below),
        }
    }

    /// The number of a subobject within its complete object, which is of class c.
    pub fn number_in(&self, h: &Hierarchy, c: ClassId, s: &Subobject) -> u32
        requires known { c.0 < length h.now }
        requires limits { (d : ClassId) → d.0 < length h.now → IsWithinLimits h.now d }
        requires numbers { AreClassNumbers h.now self.now }
        requires subobject { IsSubobject h.now c s.now }
        ensures { result ≡ subobject_number h.now c s.now }
    {
        h.keeps();
        let path = below_first(s.path.as_slice());
        match s.root {
            Root::Whole => self.path_offset(h, c, path),
            Root::Shared(v) => {
                // the 0 is never met: `shared_offset` has an offset for each virtual base, as v is by the clause `subobject`
                let start = self.shared_offset(c, v).unwrap_or(0);
                start + self.path_offset(h, v, path)
            }
        }
    }
}

/// An offset of a list; 0 past its end.
fn offset_at(offsets: &[u32], i: usize) -> u32
    ensures { result ≡ get_or offsets.now i 0 }
{
    offsets.get(i).copied().unwrap_or(0)
}

/// An offset, where 0 stands for none.
fn some_offset(offset: u32) -> Option<u32>
    ensures { result ≡ (if nat_eq offset 0 then None else Some offset) }
{
    if offset == 0 { None } else { Some(offset) }
}

/// The classes of a path below its first.
fn below_first(path: &[ClassId]) -> &[ClassId]
    ensures { result.now ≡ tail_of path.now }
{
    match path {
        [_, below @ ..] => below,
        [] => path,
    }
}
