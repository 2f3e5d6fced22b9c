//! Casts: what is tested of the pointer, and what is done with it.

ghost use Rattle.std.specs.Prelude.{◌≡◌, ◌++◌, OnOk};
ghost use Rattle.code_ops.specs.Arguments.{pointed_class};
ghost use Rattle.code_statements.specs.Rights.{back_by, cast_used, cast_ops, cast_class};
ghost use Rattle.code_ops.specs.invariants.Fits.{FitsOperand, FitsBase};
ghost use Rattle.code_ops.specs.invariants.Sites.{site_places, site_block, IsLaidSite};
ghost use Rattle.code_statements.specs.invariants.Fits.{FitsCast};

use crate::hints::hint_of;
use abi_sound::SoundLayout;
use byte_code::{Finish, Op, OpList};
use code_ops::operands::{class_or_first, operand_register, push_base, push_done};
use code_ops::reads::{is_shared, push_guards, push_reads, push_views_if};
use code_ops::sites::Site;
use code_ops::uses::{UseList, Used};
use cxx_hierarchy::ClassId;
use cxx_program::{TypedCast, TypedOperand};
use cxx_subobject::{Subobject, class_of};
use foundation::{NoMemory, Sequence};

/// So many bytes back, modulo 2^64.
fn back_by(n: u32) -> u64
    ensures { result ≡ back_by n }
{
    if n == 0 { 0 } else { u64::MAX - (n as u64 - 1) }
}

/// How far an object of a class lies from a subobject of it, modulo 2^64.
fn distance_down<L: SoundLayout>(site: &Site<L>, target: ClassId, i: &Subobject) -> u64
    requires laid { IsLaidSite L.lays_out L.rows site.now }
    requires fits { FitsBase site.now.h.now target i.now }
    ensures { result ≡ back_by ((site_places L.rows site.now).place target i.now) }
{
    back_by(site.layout.place(site.h, target, i))
}

/// The class that an operand points to.
pub fn class_at<L: SoundLayout>(site: &Site<L>, operand: TypedOperand) -> ClassId
    ensures { result ≡ pointed_class (site_block L.rows site.now) operand }
{
    class_or_first(site.operand_class(operand))
}

/// Puts the uses of a cast behind others.
pub fn push_cast_used<L: SoundLayout>(
    uses: &mut UseList,
    site: &Site<L>,
    cast: &TypedCast,
    r: u32,
    p: TypedOperand,
) -> Result<(), NoMemory>
    requires laid { IsLaidSite L.lays_out L.rows site.now }
    requires operand { FitsOperand p }
    requires fits { FitsCast site.now.h.now (pointed_class (site_block L.rows site.now) p) cast.now }
    ensures { OnOk result (uses.new ≡ uses.old ++ cast_used (site_block L.rows site.now) cast.now r p) }
{
    let register = operand_register(r, p);
    let c = class_at(site, p);
    push_reads(uses, site, r, p)?;
    push_guards(uses, register, 0, c)?;
    match cast {
        TypedCast::Same => {}
        TypedCast::Up(i) => push_views_if(uses, is_shared(i), register, 0, c)?,
        TypedCast::Down(target, i) => {
            let offset = distance_down(site, *target, i);
            let class = target.0;
            uses.push(Used::Downs {
                register,
                offset,
                class,
            })?;
        }
        TypedCast::Dynamic(_) => push_views_if(uses, true, register, 0, c)?,
    }
    Ok(())
}

/// Casts a pointer to class `c`.
pub fn push_cast<L: SoundLayout>(
    ops: &mut OpList,
    site: &Site<L>,
    cast: &TypedCast,
    to: u32,
    from: u32,
    c: ClassId,
) -> Result<(), NoMemory>
    requires laid { IsLaidSite L.lays_out L.rows site.now }
    requires fits { FitsCast site.now.h.now c cast.now }
    ensures { OnOk result (ops.new ≡ ops.old ++ cast_ops (site_block L.rows site.now) cast.now to from c) }
{
    match cast {
        TypedCast::Same => ops.push(Op::Does(Finish::Move { to, from }))?,
        TypedCast::Up(i) => {
            let mut list = Sequence::new(site.alloc);
            push_base(&mut list, site, c, i, to, from)?;
            push_done(ops, list.as_slice())?;
        }
        TypedCast::Down(target, i) => {
            let offset = distance_down(site, *target, i);
            ops.push(Op::Does(Finish::Add {
                to,
                base: from,
                offset,
            }))?;
        }
        TypedCast::Dynamic(target) => {
            let hint = hint_of(site.alloc, site.h, site.layout, c, *target)?;
            ops.push(Op::Cast {
                to,
                base: from,
                class: c.0,
                target: target.0,
                hint,
            })?;
        }
    }
    Ok(())
}

/// The class to which a cast leads from class `c`.
pub fn cast_class(cast: &TypedCast, c: ClassId) -> ClassId
    ensures { result ≡ cast_class cast.now c }
{
    match cast {
        TypedCast::Same => c,
        TypedCast::Up(i) => class_or_first(class_of(i)),
        TypedCast::Down(target, _) | TypedCast::Dynamic(target) => *target,
    }
}
