//! The copies of the leaves of a part.

ghost use Rattle.std.specs.Prelude.{◌≡◌, ◌<◌, ◌+◌, ◌*◌, ◌^◌, ◌++◌, ℕ, OnOk, length, map, Some};
ghost use Rattle.cxx_hierarchy.specs.declared.records.ClassId.{ClassId};
ghost use Rattle.cxx_subobject.specs.Subobjects.{IsSubobject, class_of};
ghost use Rattle.cxx_subobject.specs.Preorder.{preorder};
ghost use Rattle.cxx_hierarchy.specs.Declarations.{elements_of};
ghost use Rattle.cxx_hierarchy.specs.declared.records.FieldType.TheVariants.{Object};
ghost use Rattle.abi_sound.specs.Locations.{size_of_type};
ghost use Rattle.path_plan.specs.Plans.{upto};
ghost use Rattle.code_ops.specs.Leaves.{copy_op, leaf_width};
ghost use Rattle.code_ops.specs.invariants.Fits.{FitsBase, FitsOperand};
ghost use Rattle.code_ops.specs.invariants.Sites.{site_setup, site_places, site_block, IsLaidSite};
ghost use Rattle.code_statements.specs.CopyOps.{subobject_copies, copy_ops};
ghost use Rattle.code_statements.specs.invariants.CopyFits.{FitsMember, FitsObject, FitsOwn, IsSiteOf};
ghost use Rattle.code_statements.specs.invariants.Pushes.{CopiesObjects, CopiesMember, CopiesOwn, CopiesWholeObject};

use crate::distances::{Elements, Sides, type_bytes};
use abi_sound::{SoundLayout, member_place};
use byte_code::OpList;
use code_ops::leaves::member_leaf;
use code_ops::operands::{operand_register, push_base, push_done};
use code_ops::sites::Site;
use code_ops::widths::LeafWidth;
use cxx_hierarchy::{ClassId, FieldType, Member};
use cxx_program::TypedOperand;
use cxx_subobject::{Subobject, class_of, list_subobjects, put_subobjects};
use foundation::{NoMemory, Sequence};

/// The class of a subobject; the first one where there is none.
fn class_or_first(base: &Subobject) -> ClassId
    ensures { (d : ClassId) → class_of base.now ≡ Some d → result ≡ d }
{
    match class_of(base) {
        Some(d) => d,
        // never met: the path of a subobject is not empty (`class_of` of cxx_subobject)
        None => ClassId(0),
    }
}

/// Copies elements that are numbers or pointers, by how they stand.
fn push_values(
    ops: &mut OpList,
    sides: Sides,
    elements: Elements,
    leaf: LeafWidth,
) -> Result<(), NoMemory>
    requires { (i : ℕ) → i < elements.count → elements.start + i * elements.stride < 2 ^ 21 }
    ensures { OnOk result (ops.new ≡ ops.old ++ map (λ i. copy_op leaf sides.to sides.from (elements.start + i * elements.stride)) (upto elements.count)) }
{
    for i in 0..elements.count {
        ops.push(leaf.copy(sides.to, sides.from, elements.place(i)))?;
    }
    Ok(())
}

/// Where leaves are copied: the site of the statement, and the registers that have the addresses of a subobject in both parts.
#[derive(Drop)]
struct CopySite<'a, L> {
    site: &'a Site<'a, L>,
    sides: Sides,
}

impl<'a, L: SoundLayout> CopySite<'a, L> {
    /// Where a subobject lies in a complete object of class d, in bytes. This and the next two are no part of the walk, of which each
    /// open call takes room on the stack.
    #[inline(never)]
    fn place(&self, d: ClassId, base: &Subobject) -> u32
        requires laid { IsLaidSite L.lays_out L.rows self.now.site.now }
        requires known { d.0 < length self.now.site.now.h.now }
        requires subobject { IsSubobject self.now.site.now.h.now d base.now }
        ensures { result ≡ (site_places L.rows self.now.site.now).place d base.now }
    {
        self.site.layout.place(self.site.h, d, base)
    }

    /// Where the first element of a member lies in a subobject of class b, in bytes.
    #[inline(never)]
    fn member_place(&self, b: ClassId, m: u32) -> u32
        requires laid { IsLaidSite L.lays_out L.rows self.now.site.now }
        requires known { b.0 < length self.now.site.now.h.now }
        ensures { result ≡ (site_places L.rows self.now.site.now).member b m }
    {
        member_place(self.site.layout, b, m)
    }

    /// Copies the elements of member number m of class b, which are numbers or pointers, and of which the first lies so many bytes
    /// behind the registers.
    #[inline(never)]
    fn push_leaves(
        &self,
        ops: &mut OpList,
        b: ClassId,
        m: u32,
        member: &Member<ClassId>,
        start: u32,
    ) -> Result<(), NoMemory>
        requires laid { IsLaidSite L.lays_out L.rows self.now.site.now }
        requires known { (d : ClassId) → member.now.ty ≡ Object d → d.0 < length (L.rows self.now.site.now.layout.now) }
        requires fits { (i : ℕ) → i < elements_of member.now.count → start + i * size_of_type (site_places L.rows self.now.site.now) member.now.ty < 2 ^ 21 }
        ensures { OnOk result (ops.new ≡ ops.old ++ map (λ i. copy_op (leaf_width (site_setup L.rows self.now.site.now) b m) self.now.sides.to self.now.sides.from (start + i * size_of_type (site_places L.rows self.now.site.now) member.now.ty)) (upto (elements_of member.now.count))) }
    {
        let elements = Elements {
            start,
            stride: type_bytes(self.site, &member.ty),
            count: member.elements(),
        };
        let leaf = member_leaf(self.site, b, m);
        push_values(ops, self.sides, elements, leaf)
    }

    /// Copies the leaves of elements that are objects of class d.
    #[cycle(copies)]
    fn push_objects(&self, ops: &mut OpList, d: ClassId, elements: Elements) -> Result<(), NoMemory>
        requires site { IsSiteOf L.lays_out L.rows self.now.site.now d }
        requires fits { (i : ℕ) → i < elements.count → FitsObject self.now.site.now.h.now (site_places L.rows self.now.site.now) d (elements.start + i * elements.stride) }
        ensures { OnOk result (CopiesObjects (site_setup L.rows self.now.site.now) self.now.sides d elements.start elements.stride elements.count ops.old ops.new) }
    {
        let mut bases = Sequence::new(self.site.alloc);
        put_subobjects(self.site.alloc, self.site.h, d, &mut bases)?;
        for i in 0..elements.count {
            self.push_object(ops, d, bases.as_slice(), elements.place(i))?;
        }
        Ok(())
    }

    /// Copies the leaves of member number m of class b, of which the first element lies so many bytes behind the registers.
    #[cycle(copies)]
    fn push_member(
        &self,
        ops: &mut OpList,
        b: ClassId,
        m: u32,
        member: &Member<ClassId>,
        start: u32,
    ) -> Result<(), NoMemory>
        requires site { IsSiteOf L.lays_out L.rows self.now.site.now b }
        requires fits { FitsMember self.now.site.now.h.now (site_places L.rows self.now.site.now) b member.now start }
        ensures { OnOk result (CopiesMember (site_setup L.rows self.now.site.now) self.now.sides b (leaf_width (site_setup L.rows self.now.site.now) b m) member.now start ops.old ops.new) }
    {
        match &member.ty {
            FieldType::Value(_) => self.push_leaves(ops, b, m, member, start),
            FieldType::Object(d) => {
                let elements = Elements {
                    start,
                    stride: type_bytes(self.site, &member.ty),
                    count: member.elements(),
                };
                self.push_objects(ops, *d, elements)
            }
        }
    }

    /// Copies the leaves of the members that class b declares, of a subobject so many bytes behind the registers.
    #[cycle(copies)]
    fn push_own(&self, ops: &mut OpList, b: ClassId, offset: u32) -> Result<(), NoMemory>
        requires site { IsSiteOf L.lays_out L.rows self.now.site.now b }
        requires fits { FitsOwn self.now.site.now.h.now (site_places L.rows self.now.site.now) b offset }
        ensures { OnOk result (CopiesOwn (site_setup L.rows self.now.site.now) self.now.sides b offset ops.old ops.new) }
    {
        let members = self.site.h.class(b).members.as_slice();
        for (m, member) in members.iter().enumerate() {
            let start = offset + self.member_place(b, m as u32);
            self.push_member(ops, b, m as u32, member, start)?;
        }
        Ok(())
    }

    /// Copies the leaves of a complete object of class d, so many bytes behind the registers, by the list of its subobjects.
    #[cycle(copies)]
    fn push_object(
        &self,
        ops: &mut OpList,
        d: ClassId,
        bases: &[Subobject],
        offset: u32,
    ) -> Result<(), NoMemory>
        requires site { IsSiteOf L.lays_out L.rows self.now.site.now d }
        requires listed { bases.now ≡ preorder self.now.site.now.h.now d }
        requires fits { FitsObject self.now.site.now.h.now (site_places L.rows self.now.site.now) d offset }
        ensures { OnOk result (CopiesWholeObject (site_setup L.rows self.now.site.now) self.now.sides d offset ops.old ops.new) }
    {
        for base in bases {
            let start = offset + self.place(d, base);
            self.push_own(ops, class_or_first(base), start)?;
        }
        Ok(())
    }
}

/// Copies the leaves of the own members of a subobject of two parts of class c, of which the registers have the addresses.
fn push_subobject<L: SoundLayout>(
    ops: &mut OpList,
    site: &Site<L>,
    parts: Sides,
    c: ClassId,
    base: &Subobject,
) -> Result<(), NoMemory>
    requires laid { IsLaidSite L.lays_out L.rows site.now }
    requires base { FitsBase site.now.h.now c base.now }
    ensures { OnOk result (ops.new ≡ ops.old ++ subobject_copies (site_block L.rows site.now) parts.to parts.from c base.now) }
{
    let sides = Sides {
        to: site.free(2),
        from: site.free(3),
    };
    let mut list = Sequence::new(site.alloc);
    push_base(&mut list, site, c, base, sides.to, parts.to)?;
    push_base(&mut list, site, c, base, sides.from, parts.from)?;
    push_done(ops, list.as_slice())?;
    let copying = CopySite { site, sides };
    copying.push_own(ops, class_or_first(base), 0)?;
    Ok(())
}

/// Copies each leaf of one part of class c to the same leaf of another one, by the operands that point to them.
///
/// Errors: want of memory.
pub fn push_copy<L: SoundLayout>(
    ops: &mut OpList,
    site: &Site<L>,
    to: TypedOperand,
    from: TypedOperand,
    c: ClassId,
) -> Result<(), NoMemory>
    requires laid { IsLaidSite L.lays_out L.rows site.now }
    requires known { c.0 < length site.now.h.now }
    requires operands { FitsOperand to × FitsOperand from }
    ensures { OnOk result (ops.new ≡ ops.old ++ copy_ops (site_block L.rows site.now) to from c) }
{
    let parts = Sides {
        to: operand_register(site.free(0), to),
        from: operand_register(site.free(1), from),
    };
    let bases = list_subobjects(site.alloc, site.h, c)?;
    for base in bases.as_slice() {
        push_subobject(ops, site, parts, c, base)?;
    }
    Ok(())
}
