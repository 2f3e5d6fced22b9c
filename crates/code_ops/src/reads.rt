//! What parts of a statement use: reads, conversions and arrows.

ghost use Rattle.std.specs.Prelude.{◌≡◌, ◌++◌, ◌∷◌, [], Some, OnOk};
ghost use Rattle.path_model.specs.Uses.{is_shared};
ghost use Rattle.code_ops.specs.declared.uses.Used.TheVariants.{Guards};
ghost use Rattle.code_ops.specs.Uses.{reads_by, reads, views_if, convert_used, arrow_used};
ghost use Rattle.code_ops.specs.invariants.Fits.{FitsOperand};
ghost use Rattle.code_ops.specs.invariants.Sites.{site_scope};

use crate::operands::{class_or_first, operand_register};
use crate::sites::Site;
use crate::uses::{UseList, Used};
use cxx_hierarchy::ClassId;
use cxx_program::{Conversion, TypedOperand};
use cxx_subobject::{Root, Subobject};
use foundation::NoMemory;

/// The use of a register that is read, of a class if it has a pointer.
fn read_of(class: Option<ClassId>, register: u32) -> Used
    ensures { result ∷ [] ≡ reads_by class register }
{
    match class {
        Some(_) => Used::ReadsPointer { register },
        None => Used::ReadsNumber { register },
    }
}

/// Puts the use of an operand that is read behind others; a number is always there.
///
/// Errors: want of memory.
pub fn push_reads<L>(
    uses: &mut UseList,
    site: &Site<L>,
    r: u32,
    operand: TypedOperand,
) -> Result<(), NoMemory>
    requires { FitsOperand operand }
    ensures { OnOk result (uses.new ≡ uses.old ++ reads (site_scope site.now) r operand) }
{
    match operand {
        TypedOperand::Number(_) => {}
        TypedOperand::Variable(_) | TypedOperand::This => {
            let register = operand_register(r, operand);
            uses.push(read_of(site.operand_class(operand), register))?;
        }
    }
    Ok(())
}

/// Puts a guarded use of a pointer to a class behind others, so many bytes behind it.
///
/// Errors: want of memory.
pub fn push_guards(
    uses: &mut UseList,
    register: u32,
    offset: u64,
    c: ClassId,
) -> Result<(), NoMemory>
    ensures { OnOk result (uses.new ≡ uses.old ++ Guards register offset c.0 ∷ []) }
{
    let class = c.0;
    uses.push(Used::Guards {
        register,
        offset,
        class,
    })?;
    Ok(())
}

/// Puts a use of the view behind others, where it is needed.
///
/// Errors: want of memory.
pub fn push_views_if(
    uses: &mut UseList,
    is_needed: bool,
    register: u32,
    offset: u64,
    c: ClassId,
) -> Result<(), NoMemory>
    ensures { OnOk result (uses.new ≡ uses.old ++ views_if is_needed register offset c) }
{
    if is_needed {
        let class = c.0;
        uses.push(Used::Views {
            register,
            offset,
            class,
        })?;
    }
    Ok(())
}

/// Whether a subobject lies behind a virtual base.
pub fn is_shared(i: &Subobject) -> bool
    ensures { result ≡ is_shared i.now }
{
    match i.root {
        Root::Whole => false,
        Root::Shared(_) => true,
    }
}

/// Puts the uses of a conversion behind others, of a pointer to a class.
///
/// Errors: want of memory.
pub fn push_convert_used(
    uses: &mut UseList,
    class: Option<ClassId>,
    conversion: &Conversion,
    r: u32,
) -> Result<(), NoMemory>
    ensures { OnOk result (uses.new ≡ uses.old ++ convert_used class conversion.now r) }
{
    match conversion {
        Conversion::Number(_) | Conversion::Bits(_, _) | Conversion::Null | Conversion::Same => {}
        Conversion::Base(i) => {
            let c = class_or_first(class);
            push_guards(uses, r, 0, c)?;
            push_views_if(uses, is_shared(i), r, 0, c)?;
        }
    }
    Ok(())
}

/// Puts the uses of `p->`, `*p` or `typeid(*p)` behind others, of a pointer to class `c`.
///
/// Errors: want of memory.
pub fn push_arrow<L>(
    uses: &mut UseList,
    site: &Site<L>,
    r: u32,
    p: TypedOperand,
    c: ClassId,
) -> Result<(), NoMemory>
    requires { FitsOperand p }
    ensures { OnOk result (uses.new ≡ uses.old ++ arrow_used (site_scope site.now) r p c) }
{
    let register = operand_register(r, p);
    push_reads(uses, site, r, p)?;
    uses.push(Used::Follows { register })?;
    push_guards(uses, register, 0, c)?;
    Ok(())
}
