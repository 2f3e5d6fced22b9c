//! Leaves that are loaded, and addresses of class members.

ghost use Rattle.std.specs.Prelude.{◌≡◌, ◌++◌, OnOk};
ghost use Rattle.cxx_program.specs.declared.statement.TypedRight.TheVariants.{Read, Address};
ghost use Rattle.code_ops.specs.PlaceOps.{place_type};
ghost use Rattle.code_statements.specs.Rights.{loaded_used, load_ops};
ghost use Rattle.code_ops.specs.invariants.Fits.{FitsPlace};
ghost use Rattle.code_ops.specs.invariants.Sites.{site_setup, site_block, IsLaidSite};
ghost use Rattle.code_statements.specs.invariants.Sites.{TakesRight, site_right};

use crate::right_sites::RightSite;
use abi_sound::SoundLayout;
use byte_code::{Finish, Op, OpList};
use code_ops::leaves::place_leaf;
use code_ops::operands::{operand_register, push_done};
use code_ops::places::{place_class, push_place};
use code_ops::reads::push_convert_used;
use code_ops::sites::Site;
use code_ops::uses::{UseList, Used, push_check_ops};
use code_ops::widths::width;
use cxx_hierarchy::ClassId;
use cxx_program::{Conversion, TypedPlace};
use cxx_subobject::class_of;
use foundation::{NoMemory, Sequence};

/// Tests that a leaf is set, and loads it.
fn push_load<L: SoundLayout>(
    ops: &mut OpList,
    site: &Site<L>,
    place: &TypedPlace,
    to: u32,
    from: u32,
) -> Result<(), NoMemory>
    requires laid { IsLaidSite L.lays_out L.rows site.now }
    requires fits { FitsPlace site.now.h.now place.now }
    ensures { OnOk result (ops.new ≡ ops.old ++ load_ops (site_block L.rows site.now) place.now to from) }
{
    let leaf = place_leaf(site, place);
    let mut list = Sequence::new(site.alloc);
    let pointer = operand_register(site.free(0), place.pointer);
    push_place(&mut list, site, place, from, pointer)?;
    push_done(ops, list.as_slice())?;
    ops.push(Op::Does(Finish::Check(leaf.set_check(from))))?;
    ops.push(leaf.load(to, from))?;
    Ok(())
}

/// Puts the uses of a pointer that was loaded behind others; of a number there is none.
fn push_loaded_used<L: SoundLayout>(
    uses: &mut UseList,
    site: &Site<L>,
    place: &TypedPlace,
    conversion: &Conversion,
    register: u32,
) -> Result<(), NoMemory>
    ensures { OnOk result (uses.new ≡ uses.old ++ loaded_used (place_type (site_setup L.rows site.now) place.now) conversion.now register) }
{
    match place_class(site, place) {
        None => {}
        Some(d) => {
            uses.push(Used::ReadsPointer { register })?;
            push_convert_used(uses, Some(d), conversion, register)?;
        }
    }
    Ok(())
}

impl<'a, L: SoundLayout> RightSite<'a, L> {
    /// Loads a leaf, and gives its value to the variable.
    ///
    /// Errors: want of memory.
    pub(crate) fn push_read_right(
        &self,
        ops: &mut OpList,
        place: &TypedPlace,
    ) -> Result<(), NoMemory>
        requires { TakesRight L.lays_out L.rows self.now (Read place.now) }
        ensures { OnOk result (ops.new ≡ ops.old ++ site_right L.rows self.now (Read place.now)) }
    {
        let site = self.site;
        let loaded = site.free(2);
        push_load(ops, site, place, loaded, site.free(1))?;
        let mut uses = Sequence::new(site.alloc);
        push_loaded_used(&mut uses, site, place, self.conversion, loaded)?;
        push_check_ops(site.alloc, ops, uses.as_slice())?;
        let class = place_class(site, place);
        self.push_value_taken(ops, class, site.free(3), loaded)?;
        Ok(())
    }

    /// Gives the address of a class member to the variable.
    ///
    /// Errors: want of memory.
    pub(crate) fn push_address_right(
        &self,
        ops: &mut OpList,
        place: &TypedPlace,
        d: ClassId,
    ) -> Result<(), NoMemory>
        requires { TakesRight L.lays_out L.rows self.now (Address place.now d) }
        ensures { OnOk result (ops.new ≡ ops.old ++ site_right L.rows self.now (Address place.now d)) }
    {
        let site = self.site;
        let there = site.free(1);
        let pointer = operand_register(site.free(0), place.pointer);
        let mut moves = Sequence::new(site.alloc);
        push_place(&mut moves, site, place, there, pointer)?;
        push_done(ops, moves.as_slice())?;
        self.push_pointer_taken(ops, d, there)?;
        Ok(())
    }
}
