//! The walk over all that lies in an object.

ghost use Rattle.std.specs.Prelude.{◌≡◌, ◌<◌, ◌≤◌, ◌+◌, ◌*◌, ◌^◌, [], ◌∷◌, ◌++◌, OnOk, IfOk, Some, map, length, slice_get};
ghost use Rattle.std.specs.List.{range_with_len};
ghost use Rattle.cxx_hierarchy.specs.declared.records.FieldType.TheVariants.{Value};
ghost use Rattle.cxx_hierarchy.specs.Classes.{members_of};
ghost use Rattle.cxx_hierarchy.specs.Scalars.{size_of};
ghost use Rattle.cxx_subobject.specs.Preorder.{preorder};
ghost use Rattle.cxx_subobject.specs.Subobjects.{IsSubobject, class_of};
ghost use Rattle.abi_sound.specs.Places.{places_of, size_of_value};
ghost use Rattle.abi_judge.specs.Rules.{HasFirstHolders};
ghost use Rattle.abi_judge.specs.declared.things.Thing.TheVariants.{Part};
ghost use Rattle.abi_judge.specs.invariants.Ways.{ways};
ghost use Rattle.abi_judge.specs.invariants.Things.{part_thing, setting_of, things_of};
ghost use Rattle.abi_judge.specs.invariants.Drafts.{AreDraftRows, IsDraftTo};
ghost use Rattle.abi_judge.specs.invariants.Pushes.{AddsObjects, AddsObject, AddsOwn, AddsMember};
ghost use Rattle.abi_judge.specs.invariants.Leaves.{leaf_from};

use crate::draft::Draft;
use crate::things::{PlacedLeaf, Thing};
use cxx_hierarchy::{ClassId, FieldType, Member, Scalar, ValueType};
use cxx_subobject::{Subobject, class_of, list_subobjects, put_subobjects};
use foundation::{NoMemory, Sequence};
use std::alloc::Global;

/// The class of a subobject; the first one where there is none.
pub(crate) fn class_or_first(s: &Subobject) -> ClassId
    ensures { (d : ClassId) → class_of s.now ≡ Some d → result ≡ d }
{
    match class_of(s) {
        Some(d) => d,
        // never met: the path of a subobject is not empty (`class_of` of cxx_subobject)
        None => ClassId(0),
    }
}

/// The bytes of a number.
fn size_of(ty: Scalar) -> u32
    ensures is { result ≡ size_of ty }
    ensures few { result ≤ 8 }
{
    match ty {
        Scalar::Bool | Scalar::Char | Scalar::SChar | Scalar::UChar => 1,
        Scalar::Short | Scalar::UShort => 2,
        Scalar::Int | Scalar::UInt => 4,
        Scalar::Long | Scalar::ULong | Scalar::LongLong | Scalar::ULongLong => 8,
    }
}

/// The bytes of a number or a pointer.
fn size_of_value(ty: &ValueType<ClassId>) -> u32
    ensures is { result ≡ size_of_value ty.now }
    ensures few { result ≤ 8 }
{
    match ty {
        ValueType::Number(scalar) => size_of(*scalar),
        ValueType::Pointer(_) => 8,
    }
}

/// Puts the elements of a member that are numbers or pointers behind other things, by the first of them.
fn push_leaves(things: &mut Vec<Thing>, first: PlacedLeaf, count: u32) -> Result<(), NoMemory>
    requires size { first.size ≤ 8 }
    requires room { first.place + 2 ^ 52 < 2 ^ 64 }
    ensures { OnOk result (things.new.items ≡ things.old.items ++ map (leaf_from first) (range_with_len 0 count)) }
{
    for i in 0..count {
        things.push(Thing::Leaf(PlacedLeaf {
            place: first.place + i as u64 * first.size as u64,
            first: first.first,
            size: first.size,
            width: first.width,
        }))?;
    }
    Ok(())
}

impl<'a> Draft<'a> {
    /// Puts a subobject of class `e` behind other things, as a thing at a place; it is of class `d`. It is no part of the walk below,
    /// of which each open call takes room on the stack.
    #[inline(never)]
    fn push_part(
        &self,
        things: &mut Vec<Thing>,
        e: ClassId,
        s: &Subobject,
        d: ClassId,
        place: u64,
    ) -> Result<(), NoMemory>
        requires draft { AreDraftRows self.now }
        requires known { e.0 < length self.now.h.now }
        requires held { HasFirstHolders self.now.h.now (places_of self.now.h.now self.now.rows.now) e }
        requires subobject { IsSubobject self.now.h.now e s.now }
        requires class { class_of s.now ≡ Some d }
        ensures { OnOk result (things.new.items ≡ things.old.items ++ Part (part_thing (setting_of self.now) place e s.now d) ∷ []) }
    {
        things.push(Thing::Part(self.part(e, s, d, place)))?;
        Ok(())
    }

    /// Puts the elements of a member of class `d` that are numbers or pointers, likewise.
    #[inline(never)]
    fn push_values(
        &self,
        things: &mut Vec<Thing>,
        d: ClassId,
        m: u32,
        ty: &ValueType<ClassId>,
        member: &Member<ClassId>,
        at: u64,
    ) -> Result<(), NoMemory>
        requires draft { IsDraftTo self.now d }
        requires there { slice_get (members_of self.now.h.now d) m ≡ Some member.now }
        requires value { member.now.ty ≡ Value ty.now }
        requires room { at + 2 ^ 51 + 2 ^ 52 < 2 ^ 64 }
        ensures { OnOk result (AddsMember (setting_of self.now) d at m things.old.items things.new.items) }
    {
        let first = PlacedLeaf {
            place: at + self.member_place(d, m),
            first: self.first_bit(d, m),
            size: size_of_value(ty),
            width: member.width,
        };
        push_leaves(things, first, member.elements())
    }

    /// Puts what lies in so many objects of class `b`, one behind the other from a place on.
    #[cycle(things)]
    fn push_objects(
        &self,
        alloc: Global,
        things: &mut Vec<Thing>,
        b: ClassId,
        start: u64,
        count: u32,
    ) -> Result<(), NoMemory>
        requires draft { IsDraftTo self.now b }
        requires room { start + 2 ^ 52 + (b.0 + 1) * 2 ^ 53 < 2 ^ 64 }
        ensures { OnOk result (AddsObjects (setting_of self.now) b start count things.old.items things.new.items) }
    {
        let mut bases = Sequence::new(alloc);
        put_subobjects(alloc, self.h, b, &mut bases)?;
        let size = self.row(b).size as u64;
        for i in 0..count {
            self.push_object(alloc, things, b, bases.as_slice(), start + i as u64 * size)?;
        }
        Ok(())
    }

    /// Puts what lies in a complete object of class `e`, by the list of its subobjects.
    #[cycle(things)]
    fn push_object(
        &self,
        alloc: Global,
        things: &mut Vec<Thing>,
        e: ClassId,
        bases: &[Subobject],
        at: u64,
    ) -> Result<(), NoMemory>
        requires draft { IsDraftTo self.now e }
        requires listed { bases.now ≡ preorder self.now.h.now e }
        requires room { at + (e.0 + 1) * 2 ^ 53 < 2 ^ 64 }
        ensures { OnOk result (AddsObject (setting_of self.now) e at things.old.items things.new.items) }
    {
        for s in bases {
            let d = class_or_first(s);
            let place = at + self.place(e, s);
            self.push_part(things, e, s, d, place)?;
            self.push_own(alloc, things, d, place)?;
        }
        Ok(())
    }

    /// Puts what lies in the members that class `d` declares.
    #[cycle(things)]
    fn push_own(
        &self,
        alloc: Global,
        things: &mut Vec<Thing>,
        d: ClassId,
        at: u64,
    ) -> Result<(), NoMemory>
        requires draft { IsDraftTo self.now d }
        requires room { at + 2 ^ 51 + 2 ^ 52 + d.0 * 2 ^ 53 < 2 ^ 64 }
        ensures { OnOk result (AddsOwn (setting_of self.now) d at things.old.items things.new.items) }
    {
        let members = self.h.class(d).members.as_slice();
        for (m, member) in members.iter().enumerate() {
            self.push_member(alloc, things, d, m as u32, member, at)?;
        }
        Ok(())
    }

    /// Puts what lies in a member of class `d`.
    #[cycle(things)]
    fn push_member(
        &self,
        alloc: Global,
        things: &mut Vec<Thing>,
        d: ClassId,
        m: u32,
        member: &Member<ClassId>,
        at: u64,
    ) -> Result<(), NoMemory>
        requires draft { IsDraftTo self.now d }
        requires there { slice_get (members_of self.now.h.now d) m ≡ Some member.now }
        requires room { at + 2 ^ 51 + 2 ^ 52 + d.0 * 2 ^ 53 < 2 ^ 64 }
        ensures { OnOk result (AddsMember (setting_of self.now) d at m things.old.items things.new.items) }
    {
        match &member.ty {
            FieldType::Value(ty) => self.push_values(things, d, m, ty, member, at),
            FieldType::Object(b) => {
                let start = at + self.member_place(d, m);
                self.push_objects(alloc, things, *b, start, member.elements())
            }
        }
    }

    /// All that lies in an object of class `c`, at any depth.
    ///
    /// Errors: want of memory.
    pub(crate) fn things(&self, alloc: Global, c: ClassId) -> Result<Vec<Thing>, NoMemory>
        requires { IsDraftTo self.now c }
        ensures { IfOk result (λ things. things.items ≡ things_of (setting_of self.now) (Some c) 0 (ways self.now.h.now c)) }
    {
        let bases = list_subobjects(alloc, self.h, c)?;
        let mut things = Vec::new(alloc);
        self.push_object(alloc, &mut things, c, bases.as_slice(), 0)?;
        Ok(things)
    }
}
