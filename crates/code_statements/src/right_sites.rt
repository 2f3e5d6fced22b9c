//! Where a right side stands, and where a call stands.

ghost use Rattle.std.specs.Prelude.{◌≡◌, ◌++◌, OnOk, Some};
ghost use Rattle.code_ops.specs.Arguments.{checked_taken, free, taken_ops};
ghost use Rattle.code_ops.specs.Operands.{ops_of};
ghost use Rattle.code_ops.specs.invariants.Sites.{site_block};
ghost use Rattle.code_statements.specs.invariants.Sites.{Takes};

use abi_sound::SoundLayout;
use byte_code::{FinishList, OpList};
use code_ops::arguments::{push_convert_checks, push_taken};
use code_ops::operands::push_done;
use code_ops::sites::Site;
use cxx_hierarchy::ClassId;
use cxx_program::{Conversion, TypedCall, Variable};
use foundation::{NoMemory, Sequence};

/// The site of a right side, the variable that takes its value, and how the value is converted.
#[derive(Drop)]
pub struct RightSite<'a, L> {
    pub site: &'a Site<'a, L>,
    pub variable: Variable,
    pub conversion: &'a Conversion,
}

impl<'a, L: SoundLayout> RightSite<'a, L> {
    /// Puts behind others what converts a value in a register, of a class if it is a pointer, and gives it to the variable.
    ///
    /// Errors: want of memory.
    pub(crate) fn push_assigned(
        &self,
        list: &mut FinishList,
        class: Option<ClassId>,
        to: u32,
        from: u32,
    ) -> Result<(), NoMemory>
        requires { Takes L.lays_out L.rows self.now class }
        ensures { OnOk result (list.new ≡ list.old ++ taken_ops (site_block L.rows self.now.site.now) self.now.variable class self.now.conversion.now to from) }
    {
        let variable = self.variable;
        push_taken(list, self.site, variable, class, self.conversion, to, from)?;
        Ok(())
    }

    /// The same, in the ops of a block.
    ///
    /// Errors: want of memory.
    pub(crate) fn push_value_taken(
        &self,
        ops: &mut OpList,
        class: Option<ClassId>,
        to: u32,
        from: u32,
    ) -> Result<(), NoMemory>
        requires { Takes L.lays_out L.rows self.now class }
        ensures { OnOk result (ops.new ≡ ops.old ++ ops_of (taken_ops (site_block L.rows self.now.site.now) self.now.variable class self.now.conversion.now to from)) }
    {
        let mut list = Sequence::new(self.site.alloc);
        self.push_assigned(&mut list, class, to, from)?;
        push_done(ops, list.as_slice())?;
        Ok(())
    }

    /// The same for a pointer to class `d`, whose conversion is tested before.
    ///
    /// Errors: want of memory.
    pub(crate) fn push_pointer_taken(
        &self,
        ops: &mut OpList,
        d: ClassId,
        from: u32,
    ) -> Result<(), NoMemory>
        requires { Takes L.lays_out L.rows self.now (Some d) }
        ensures { OnOk result (ops.new ≡ ops.old ++ ops_of (checked_taken (site_block L.rows self.now.site.now) self.now.variable (Some d) self.now.conversion.now (free (site_block L.rows self.now.site.now) 2) from)) }
    {
        let class = Some(d);
        let mut list = Sequence::new(self.site.alloc);
        push_convert_checks(&mut list, self.site, class, self.conversion, from)?;
        self.push_assigned(&mut list, class, self.site.free(2), from)?;
        push_done(ops, list.as_slice())?;
        Ok(())
    }
}

/// The site of a call, and the call.
#[derive(Drop)]
pub struct CallSite<'a, L> {
    pub site: &'a Site<'a, L>,
    pub call: &'a TypedCall,
}
