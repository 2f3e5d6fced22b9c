//! Arguments: a value is read into one register, and converted into another.

ghost use Rattle.std.specs.Prelude.{◌≡◌, ◌<◌, ◌≤◌, ◌+◌, ◌++◌, OnOk, IfOk, length};
ghost use Rattle.std.specs.List.{AllByRecursion};
ghost use Rattle.cxx_hierarchy.specs.Limits.{most_parameters};
ghost use Rattle.code_ops.specs.Operands.{operand_class};
ghost use Rattle.code_ops.specs.Uses.{check_list, convert_used};
ghost use Rattle.code_ops.specs.Arguments.{free, argument_front, argument_used, argument_ops, taken_ops, argument_read, argument_converted, arguments_front, arguments_used, arguments_ops, arguments_registers};
ghost use Rattle.code_ops.specs.invariants.Fits.{FitsVariable, FitsOperand, FitsConversion, FitsArgument};
ghost use Rattle.code_ops.specs.invariants.Sites.{site_scope, site_block, IsSiteAt, IsLaidSite};

use crate::operands::{assign, operand_register, push_converted, push_operand};
use crate::reads::{push_convert_used, push_reads};
use crate::sites::Site;
use crate::uses::{UseList, push_checks};
use abi_sound::SoundLayout;
use byte_code::{FinishList, OpList, RegisterList};
use cxx_hierarchy::ClassId;
use cxx_program::{Argument, Conversion, TypedOperand, Variable};
use foundation::{NoMemory, Sequence};

/// Puts the uses of a value that is read and converted behind others.
///
/// Errors: want of memory.
pub fn push_value_used<L: SoundLayout>(
    uses: &mut UseList,
    site: &Site<L>,
    operand: TypedOperand,
    conversion: &Conversion,
    r: u32,
) -> Result<(), NoMemory>
    requires { FitsOperand operand }
    ensures { OnOk result (uses.new ≡ uses.old ++ argument_used (site_block L.rows site.now) (record { operand = operand; conversion = conversion.now }) r) }
{
    push_reads(uses, site, r, operand)?;
    let class = site.operand_class(operand);
    push_convert_used(uses, class, conversion, operand_register(r, operand))?;
    Ok(())
}

/// Puts the uses of an argument behind others.
///
/// Errors: want of memory.
pub fn push_argument_used<L: SoundLayout>(
    uses: &mut UseList,
    site: &Site<L>,
    a: &Argument,
    r: u32,
) -> Result<(), NoMemory>
    requires { FitsArgument site.now.h.now (site_scope site.now) a.now }
    ensures { OnOk result (uses.new ≡ uses.old ++ argument_used (site_block L.rows site.now) a.now r) }
{
    push_value_used(uses, site, a.operand, &a.conversion, r)?;
    Ok(())
}

/// Converts an argument that was read into a register.
///
/// Errors: want of memory.
pub fn push_argument<L: SoundLayout>(
    list: &mut FinishList,
    site: &Site<L>,
    a: &Argument,
    to: u32,
    r: u32,
) -> Result<(), NoMemory>
    requires laid { IsLaidSite L.lays_out L.rows site.now }
    requires fits { FitsArgument site.now.h.now (site_scope site.now) a.now }
    ensures { OnOk result (list.new ≡ list.old ++ argument_ops (site_block L.rows site.now) a.now to r) }
{
    let class = site.operand_class(a.operand);
    let from = operand_register(r, a.operand);
    push_converted(list, site, class, &a.conversion, to, from)?;
    Ok(())
}

/// The register into which argument `n` of a call is read.
fn argument_read<L: SoundLayout>(site: &Site<L>, n: u32) -> u32
    requires site { IsSiteAt L.rows site.now }
    requires few { n < most_parameters }
    ensures { result ≡ argument_read (site_block L.rows site.now) n }
{
    site.free(5 + 2 * n)
}

/// The register of its converted value.
fn argument_converted<L: SoundLayout>(site: &Site<L>, n: u32) -> u32
    requires site { IsSiteAt L.rows site.now }
    requires few { n < most_parameters }
    ensures { result ≡ argument_converted (site_block L.rows site.now) n }
{
    site.free(6 + 2 * n)
}

/// Reads the arguments of a call, from number `n` on.
///
/// Errors: want of memory.
pub fn push_arguments_front<L: SoundLayout>(
    ops: &mut OpList,
    site: &Site<L>,
    n: u32,
    arguments: &[Argument],
) -> Result<(), NoMemory>
    requires site { IsSiteAt L.rows site.now }
    requires fits { AllByRecursion (FitsArgument site.now.h.now (site_scope site.now)) arguments.now }
    requires few { n + length arguments.now ≤ most_parameters }
    ensures { OnOk result (ops.new ≡ ops.old ++ arguments_front (site_block L.rows site.now) n arguments.now) }
{
    match arguments {
        [] => {}
        [a, rest @ ..] => {
            push_operand(ops, argument_read(site, n), a.operand)?;
            push_arguments_front(ops, site, n + 1, rest)?;
        }
    }
    Ok(())
}

/// Puts the uses of the arguments of a call behind others, from number `n` on.
///
/// Errors: want of memory.
pub fn push_arguments_used<L: SoundLayout>(
    uses: &mut UseList,
    site: &Site<L>,
    n: u32,
    arguments: &[Argument],
) -> Result<(), NoMemory>
    requires site { IsSiteAt L.rows site.now }
    requires fits { AllByRecursion (FitsArgument site.now.h.now (site_scope site.now)) arguments.now }
    requires few { n + length arguments.now ≤ most_parameters }
    ensures { OnOk result (uses.new ≡ uses.old ++ arguments_used (site_block L.rows site.now) n arguments.now) }
{
    match arguments {
        [] => {}
        [a, rest @ ..] => {
            push_argument_used(uses, site, a, argument_read(site, n))?;
            push_arguments_used(uses, site, n + 1, rest)?;
        }
    }
    Ok(())
}

/// Converts the arguments of a call, from number `n` on.
///
/// Errors: want of memory.
pub fn push_arguments<L: SoundLayout>(
    list: &mut FinishList,
    site: &Site<L>,
    n: u32,
    arguments: &[Argument],
) -> Result<(), NoMemory>
    requires laid { IsLaidSite L.lays_out L.rows site.now }
    requires fits { AllByRecursion (FitsArgument site.now.h.now (site_scope site.now)) arguments.now }
    requires few { n + length arguments.now ≤ most_parameters }
    ensures { OnOk result (list.new ≡ list.old ++ arguments_ops (site_block L.rows site.now) n arguments.now) }
{
    match arguments {
        [] => {}
        [a, rest @ ..] => {
            let to = argument_converted(site, n);
            push_argument(list, site, a, to, argument_read(site, n))?;
            push_arguments(list, site, n + 1, rest)?;
        }
    }
    Ok(())
}

/// Puts the registers of the converted arguments of a call behind others, from number `n` on.
fn push_registers<L: SoundLayout>(
    list: &mut RegisterList,
    site: &Site<L>,
    n: u32,
    arguments: &[Argument],
) -> Result<(), NoMemory>
    requires site { IsSiteAt L.rows site.now }
    requires few { n + length arguments.now ≤ most_parameters }
    ensures { OnOk result (list.new ≡ list.old ++ arguments_registers (site_block L.rows site.now) n arguments.now) }
{
    match arguments {
        [] => {}
        [_, rest @ ..] => {
            list.push(argument_converted(site, n))?;
            push_registers(list, site, n + 1, rest)?;
        }
    }
    Ok(())
}

/// The registers of the converted arguments of a call.
///
/// Errors: want of memory.
pub fn registers<L: SoundLayout>(
    site: &Site<L>,
    arguments: &[Argument],
) -> Result<RegisterList, NoMemory>
    requires site { IsSiteAt L.rows site.now }
    requires few { length arguments.now ≤ most_parameters }
    ensures { IfOk result (λ list. list ≡ arguments_registers (site_block L.rows site.now) 0 arguments.now) }
{
    let mut list = Sequence::new(site.alloc);
    push_registers(&mut list, site, 0, arguments)?;
    Ok(list)
}

/// Converts a value, of a class if it is a pointer, and gives it to a variable.
///
/// Errors: want of memory.
pub fn push_taken<L: SoundLayout>(
    list: &mut FinishList,
    site: &Site<L>,
    variable: Variable,
    class: Option<ClassId>,
    conversion: &Conversion,
    to: u32,
    from: u32,
) -> Result<(), NoMemory>
    requires laid { IsLaidSite L.lays_out L.rows site.now }
    requires variable { FitsVariable variable }
    requires fits { FitsConversion site.now.h.now class conversion.now }
    ensures { OnOk result (list.new ≡ list.old ++ taken_ops (site_block L.rows site.now) variable class conversion.now to from) }
{
    push_converted(list, site, class, conversion, to, from)?;
    list.push(assign(variable, to))?;
    Ok(())
}

/// Puts the tests of a conversion whose value was just made behind others.
///
/// Errors: want of memory.
pub fn push_convert_checks<L>(
    list: &mut FinishList,
    site: &Site<L>,
    class: Option<ClassId>,
    conversion: &Conversion,
    from: u32,
) -> Result<(), NoMemory>
    ensures { OnOk result (list.new ≡ list.old ++ check_list (convert_used class conversion.now from)) }
{
    let mut uses = Sequence::new(site.alloc);
    push_convert_used(&mut uses, class, conversion, from)?;
    push_checks(list, uses.as_slice())?;
    Ok(())
}
