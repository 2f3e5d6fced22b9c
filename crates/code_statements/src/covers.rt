//! What a copy reads and tests: both pointers, and the class members that it covers.

ghost use Rattle.std.specs.Prelude.{◌≡◌, ◌<◌, ◌+◌, ◌*◌, ◌++◌, ℕ, OnOk, length};
ghost use Rattle.cxx_search.specs.Searches.{has_virtual_base as has_virtual_base_of};
ghost use Rattle.code_ops.specs.invariants.Fits.{FitsOperand};
ghost use Rattle.code_ops.specs.invariants.Sites.{site_setup, site_places, site_block, IsSiteAt, IsLaidSite};
ghost use Rattle.code_statements.specs.CopyTests.{copy_front, copy_used};
ghost use Rattle.code_statements.specs.invariants.CopyFits.{FitsMember, FitsObject, FitsOwn, IsSiteOf};
ghost use Rattle.code_statements.specs.invariants.Pushes.{CoversObjects, CoversMember, CoversOwn};

use crate::distances::{Elements, type_bytes};
use abi_sound::{SoundLayout, member_place};
use byte_code::OpList;
use code_ops::operands::{operand_register, push_operand};
use code_ops::reads::{push_arrow, push_guards, push_views_if};
use code_ops::sites::Site;
use code_ops::uses::UseList;
use cxx_hierarchy::{ClassId, FieldType, Member};
use cxx_program::TypedOperand;
use foundation::NoMemory;

/// Reads both pointers.
///
/// Errors: want of memory.
pub fn push_copy_front<L: SoundLayout>(
    ops: &mut OpList,
    site: &Site<L>,
    to: TypedOperand,
    from: TypedOperand,
) -> Result<(), NoMemory>
    requires site { IsSiteAt L.rows site.now }
    requires operands { FitsOperand to × FitsOperand from }
    ensures { OnOk result (ops.new ≡ ops.old ++ copy_front (site_block L.rows site.now) to from) }
{
    push_operand(ops, site.free(0), to)?;
    push_operand(ops, site.free(1), from)?;
    Ok(())
}

/// Whether a class has a virtual base.
fn has_virtual_base<L: SoundLayout>(site: &Site<L>, c: ClassId) -> bool
    requires layout { L.lays_out site.now.layout.now site.now.h.now }
    requires known { c.0 < length site.now.h.now }
    ensures { result ≡ has_virtual_base_of site.now.h.now c }
{
    site.layout.layout(c).virtual_bases.len() > 0
}

/// What class members are tested by: the site of the statement, and the register that has the address of their object.
#[derive(Drop)]
struct CoverSite<'a, L> {
    site: &'a Site<'a, L>,
    register: u32,
}

impl<'a, L: SoundLayout> CoverSite<'a, L> {
    /// Tests elements that are objects of class d, and the class members inside them.
    #[cycle(covers)]
    fn push_elements_used(
        &self,
        uses: &mut UseList,
        d: ClassId,
        elements: Elements,
    ) -> Result<(), NoMemory>
        requires site { IsSiteOf L.lays_out L.rows self.now.site.now d }
        requires fits { (i : ℕ) → i < elements.count → FitsObject self.now.site.now.h.now (site_places L.rows self.now.site.now) d (elements.start + i * elements.stride) }
        ensures { OnOk result (CoversObjects (site_setup L.rows self.now.site.now) self.now.register d elements.start elements.stride elements.count uses.old uses.new) }
    {
        for i in 0..elements.count {
            let distance = elements.place(i);
            push_guards(uses, self.register, distance as u64, d)?;
            self.push_covered(uses, d, distance)?;
        }
        Ok(())
    }

    /// Tests a member of class b, of which the first element lies so many bytes behind the register.
    #[cycle(covers)]
    fn push_member_used(
        &self,
        uses: &mut UseList,
        b: ClassId,
        member: &Member<ClassId>,
        start: u32,
    ) -> Result<(), NoMemory>
        requires site { IsSiteOf L.lays_out L.rows self.now.site.now b }
        requires fits { FitsMember self.now.site.now.h.now (site_places L.rows self.now.site.now) b member.now start }
        ensures { OnOk result (CoversMember (site_setup L.rows self.now.site.now) self.now.register b member.now start uses.old uses.new) }
    {
        match &member.ty {
            FieldType::Value(_) => Ok(()),
            FieldType::Object(d) => {
                let elements = Elements {
                    start,
                    stride: type_bytes(self.site, &member.ty),
                    count: member.elements(),
                };
                self.push_elements_used(uses, *d, elements)
            }
        }
    }

    /// Tests the class members that class c declares, and those in them, of an object so many bytes behind the register.
    #[cycle(covers)]
    fn push_covered(&self, uses: &mut UseList, c: ClassId, offset: u32) -> Result<(), NoMemory>
        requires site { IsSiteOf L.lays_out L.rows self.now.site.now c }
        requires fits { FitsOwn self.now.site.now.h.now (site_places L.rows self.now.site.now) c offset }
        ensures { OnOk result (CoversOwn (site_setup L.rows self.now.site.now) self.now.register c offset uses.old uses.new) }
    {
        let members = self.site.h.class(c).members.as_slice();
        for (m, member) in members.iter().enumerate() {
            let start = offset + member_place(self.site.layout, c, m as u32);
            self.push_member_used(uses, c, member, start)?;
        }
        Ok(())
    }
}

/// Tests both pointers to parts of class c, and the class members that a copy covers.
///
/// Errors: want of memory.
pub fn push_copy_used<L: SoundLayout>(
    uses: &mut UseList,
    site: &Site<L>,
    to: TypedOperand,
    from: TypedOperand,
    c: ClassId,
) -> Result<(), NoMemory>
    requires laid { IsLaidSite L.lays_out L.rows site.now }
    requires known { c.0 < length site.now.h.now }
    requires operands { FitsOperand to × FitsOperand from }
    ensures { OnOk result (uses.new ≡ uses.old ++ copy_used (site_block L.rows site.now) to from c) }
{
    let read = site.free(0);
    let again = site.free(1);
    let first = operand_register(read, to);
    let second = operand_register(again, from);
    let needs_view = has_virtual_base(site, c);
    push_arrow(uses, site, read, to, c)?;
    push_arrow(uses, site, again, from, c)?;
    push_views_if(uses, needs_view, first, 0, c)?;
    push_views_if(uses, needs_view, second, 0, c)?;
    let target = CoverSite {
        site,
        register: first,
    };
    let source = CoverSite {
        site,
        register: second,
    };
    target.push_covered(uses, c, 0)?;
    source.push_covered(uses, c, 0)?;
    Ok(())
}
