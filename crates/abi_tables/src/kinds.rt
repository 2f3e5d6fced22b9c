//! Which classes are dynamic, asked once or by a table.

ghost use Rattle.std.specs.Prelude.{◌≡◌, ◌<◌, length};
ghost use Rattle.abi_primary.specs.Kinds.{TellDynamic};
ghost use Rattle.abi_slots.specs.Views.{is_dynamic};

use abi_primary::flag_of;
use cxx_hierarchy::{ClassId, Hierarchy};

/// Whether a class is dynamic.
pub(crate) fn is_dynamic(h: &Hierarchy, c: ClassId) -> bool
    requires { c.0 < length h.now }
    ensures { result ≡ is_dynamic h.now c }
{
    h.keeps();
    abi_primary::is_dynamic(h, c)
}

/// Whether a class is dynamic, by the flags of all classes (Itanium C++ ABI 1.1).
pub fn is_dynamic_by(h: &Hierarchy, flags: &[bool], c: ClassId) -> bool
    requires known { c.0 < length h.now }
    requires flags { TellDynamic h.now flags.now }
    ensures { result ≡ is_dynamic h.now c }
{
    h.keeps();
    flag_of(flags, c)
}
