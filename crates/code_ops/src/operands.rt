//! The ops that read operands and convert values.

ghost use Rattle.std.specs.Prelude.{◌≡◌, ◌<◌, ◌+◌, ◌++◌, ℕ, OnOk, IfOk};
ghost use Rattle.cxx_subobject.specs.declared.Root.TheVariants.{Whole, Shared};
ghost use Rattle.cxx_subobject.specs.Subobjects.{subobject};
ghost use Rattle.abi_slots.specs.Listing.{vbase_number};
ghost use Rattle.abi_slots.specs.Slots.{word_number};
ghost use Rattle.byte_code.specs.Numbers.{word_of};
ghost use Rattle.path_model.specs.Outs.{class_or_first};
ghost use Rattle.code_ops.specs.Setups.{local_register};
ghost use Rattle.code_ops.specs.Operands.{operand_ops, operand_register, base_ops, converted_ops, assign_op, ops_of};
ghost use Rattle.code_ops.specs.invariants.Fits.{FitsVariable, FitsOperand, FitsBase, FitsConversion, most_local_registers};
ghost use Rattle.code_ops.specs.invariants.Sites.{site_setup, site_places, IsSiteAt, IsLaidSite};

use crate::sites::Site;
use crate::widths::{WORD, bits_kind, kind_of_number};
use abi_sound::SoundLayout;
use byte_code::{Finish, FinishList, NumberKind, Op, OpList};
use cxx_hierarchy::ClassId;
use cxx_program::{Conversion, TypedOperand, Variable};
use cxx_subobject::listing::longer_path;
use cxx_subobject::{Root, Subobject};
use foundation::NoMemory;

/// The word of a number.
fn word(z: i64) -> u64
    ensures { result ≡ word_of z }
{
    (z as i128).rem_euclid(0x1_0000_0000_0000_0000) as u64
}

/// The register of a local.
pub fn local_register(n: usize) -> u32
    requires { n < most_local_registers }
    ensures { result ≡ local_register n }
{
    n as u32 + 1
}

/// Reads an operand that is no local and not `this` into a register.
///
/// Errors: want of memory.
pub fn push_operand(ops: &mut OpList, r: u32, operand: TypedOperand) -> Result<(), NoMemory>
    requires { FitsOperand operand }
    ensures { OnOk result (ops.new ≡ ops.old ++ operand_ops r operand) }
{
    match operand {
        TypedOperand::Variable(Variable::Global(n)) => {
            ops.push(Op::ReadGlobal {
                to: r,
                global: n as u32,
            })?;
        }
        TypedOperand::Variable(Variable::Local(_)) | TypedOperand::This => {}
        TypedOperand::Number(z) => {
            ops.push(Op::Const {
                to: r,
                value: word(z),
            })?;
        }
    }
    Ok(())
}

/// The register that has an operand, where `r` is the one into which it is read.
pub fn operand_register(r: u32, operand: TypedOperand) -> u32
    requires { FitsOperand operand }
    ensures { result ≡ operand_register r operand }
{
    match operand {
        TypedOperand::Variable(Variable::Global(_)) | TypedOperand::Number(_) => r,
        TypedOperand::Variable(Variable::Local(n)) => local_register(n),
        TypedOperand::This => 0,
    }
}

/// A class that is there, and the first one where none is.
pub fn class_or_first(class: Option<ClassId>) -> ClassId
    ensures { result ≡ class_or_first class }
{
    match class {
        Some(class) => class,
        // never met in a typed program (`programs_are_typed` of cxx_typing): what is converted to a base or read there has a class
        None => ClassId(0),
    }
}

/// The number of the word that leads from an object of class `c` to the virtual base in which a subobject lies.
fn vbase_word<L: SoundLayout>(site: &Site<L>, c: ClassId, v: ClassId, i: &Subobject) -> i32
    requires site { IsSiteAt L.rows site.now }
    requires base { FitsBase site.now.h.now c i.now }
    requires shared { i.now.root ≡ Shared v }
    ensures { result ≡ word_number (vbase_number site.now.h.now (site_places L.rows site.now) c v) }
{
    site.slots.vbase(c, v)
}

/// How many bytes a subobject of class `c` lies behind the virtual base in which it lies.
///
/// Errors: want of memory.
fn place_behind<L: SoundLayout>(
    site: &Site<L>,
    c: ClassId,
    v: ClassId,
    i: &Subobject,
) -> Result<u64, NoMemory>
    requires laid { IsLaidSite L.lays_out L.rows site.now }
    requires base { FitsBase site.now.h.now c i.now }
    requires shared { i.now.root ≡ Shared v }
    ensures { IfOk result (λ offset. offset ≡ (site_places L.rows site.now).place v (subobject Whole i.now.path)) }
{
    let _c = c;
    let path = longer_path(site.alloc, i.path.as_slice(), &[])?;
    let whole = Subobject {
        root: Root::Whole,
        path,
    };
    Ok(site.layout.place(site.h, v, &whole) as u64)
}

/// Moves an address from an object of class `c` to that of its subobject (Itanium C++ ABI 2.5.2).
///
/// Errors: want of memory.
pub fn push_base<L: SoundLayout>(
    list: &mut FinishList,
    site: &Site<L>,
    c: ClassId,
    i: &Subobject,
    to: u32,
    from: u32,
) -> Result<(), NoMemory>
    requires laid { IsLaidSite L.lays_out L.rows site.now }
    requires base { FitsBase site.now.h.now c i.now }
    ensures { OnOk result (list.new ≡ list.old ++ base_ops (site_setup L.rows site.now) c i.now to from) }
{
    match i.root {
        Root::Whole => {
            let offset = site.layout.place(site.h, c, i) as u64;
            list.push(Finish::Add {
                to,
                base: from,
                offset,
            })?;
        }
        Root::Shared(v) => {
            let word = vbase_word(site, c, v, i);
            let offset = place_behind(site, c, v, i)?;
            list.push(Finish::AddVbase {
                to,
                base: from,
                word,
            })?;
            list.push(Finish::Add {
                to,
                base: to,
                offset,
            })?;
        }
    }
    Ok(())
}

/// Converts a value, of a class if it is a pointer.
///
/// Errors: want of memory.
pub fn push_converted<L: SoundLayout>(
    list: &mut FinishList,
    site: &Site<L>,
    class: Option<ClassId>,
    conversion: &Conversion,
    to: u32,
    from: u32,
) -> Result<(), NoMemory>
    requires laid { IsLaidSite L.lays_out L.rows site.now }
    requires fits { FitsConversion site.now.h.now class conversion.now }
    ensures { OnOk result (list.new ≡ list.old ++ converted_ops (site_setup L.rows site.now) class conversion.now to from) }
{
    match conversion {
        Conversion::Number(scalar) => {
            let kind = kind_of_number(*scalar);
            list.push(Finish::Convert { to, from, kind })?;
        }
        Conversion::Bits(scalar, n) => {
            let kind = kind_of_number(*scalar);
            list.push(Finish::Convert { to, from, kind })?;
            list.push(Finish::Convert {
                to,
                from: to,
                kind: bits_kind(*scalar, *n),
            })?;
        }
        Conversion::Null => {
            let kind = NumberKind::Bytes(WORD);
            list.push(Finish::Convert { to, from, kind })?;
        }
        Conversion::Same => list.push(Finish::Move { to, from })?,
        Conversion::Base(i) => push_base(list, site, class_or_first(class), i, to, from)?,
    }
    Ok(())
}

/// The op by which a variable takes a register.
pub fn assign(variable: Variable, from: u32) -> Finish
    requires { FitsVariable variable }
    ensures { result ≡ assign_op variable from }
{
    match variable {
        Variable::Global(n) => Finish::WriteGlobal {
            global: n as u32,
            from,
        },
        Variable::Local(n) => Finish::Move {
            to: local_register(n),
            from,
        },
    }
}

/// Puts ops behind those of a block.
///
/// Errors: want of memory.
pub fn push_done(ops: &mut OpList, list: &[Finish]) -> Result<(), NoMemory>
    ensures { OnOk result (ops.new ≡ ops.old ++ ops_of list.now) }
{
    for op in list {
        ops.push(Op::Does(*op))?;
    }
    Ok(())
}
