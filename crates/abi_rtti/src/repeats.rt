//! Whether a class stands in a list twice.

ghost use Rattle.std.specs.Prelude.{◌≡◌, ◌<◌, All, IfOk, length};
ghost use Rattle.cxx_hierarchy.specs.declared.records.ClassId.{ClassId};
ghost use Rattle.abi_rtti.specs.Repeats.{has_repeat};

use cxx_hierarchy::ClassId;
use cxx_subobject::no_marks;
use foundation::NoMemory;
use std::alloc::Global;

/// Whether some class stands in a list twice. The classes are below a number.
///
/// Errors: want of memory.
pub fn has_repeat(alloc: Global, list: &[ClassId], classes: u32) -> Result<bool, NoMemory>
    requires { All (λ (c : ClassId). c.0 < classes) list.now }
    ensures { IfOk result (λ has. has ≡ has_repeat list.now) }
{
    let mut marks = no_marks(alloc, classes)?;
    for c in list {
        let number = c.0 as usize;
        if marks[number] {
            return Ok(true);
        }
        marks[number] = true;
    }
    Ok(false)
}
