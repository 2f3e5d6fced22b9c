//! What is known of all classes of a hierarchy before the class-meaning pass.

ghost use Rattle.std.specs.Prelude.{IfOk};
ghost use Rattle.cxx_overrider.specs.invariants.Tables.{AreTables};

use crate::kinds::{KindRow, kind_rows};
use crate::lasts::last_classes;
use crate::parts::Signatures;
use crate::pure::has_pure_function;
use crate::signatures::{NumberRow, Numbering, number_signatures};
use crate::virtuals::{MarkRow, virtual_rows};
use crate::within::{pure_rows, within_lists};
use cxx_hierarchy::Hierarchy;
use cxx_subobject::virtual_flags::classes_with_virtual_bases;
use foundation::NoMemory;
use std::alloc::Global;

/// The numbers of the signatures, which classes are bases of which, which signatures are virtual, and left pure, in
/// each class, and of which its non-virtual part declares a virtual function.
#[derive(Drop)]
pub struct Tables {
    pub numbering: Numbering,
    /// The last class that declares a function of each number.
    pub lasts: Vec<u32>,
    pub kinds: Vec<KindRow>,
    pub virtuals: Vec<MarkRow>,
    pub pure: Vec<MarkRow>,
    pub within: Vec<NumberRow>,
    /// Which classes have virtual bases.
    pub with_virtual: Vec<bool>,
    /// Whether any function is pure.
    pub has_pure: bool,
}

/// The tables of a hierarchy.
///
/// Errors: want of memory.
pub fn tables_of(alloc: Global, h: &Hierarchy) -> Result<Tables, NoMemory>
    ensures { IfOk result (AreTables h.now) }
{
    let numbering = number_signatures(alloc, h)?;
    let lasts = last_classes(alloc, h, &numbering)?;
    let kinds = kind_rows(alloc, h)?;
    let virtuals = virtual_rows(alloc, h, &numbering)?;
    let signatures = Signatures {
        h,
        numbering: &numbering,
        virtuals: &virtuals,
    };
    let pure = pure_rows(alloc, &signatures)?;
    let within = within_lists(alloc, &signatures)?;
    let with_virtual = classes_with_virtual_bases(alloc, h)?;
    let has_pure = has_pure_function(h);
    Ok(Tables {
        numbering,
        lasts,
        kinds,
        virtuals,
        pure,
        within,
        with_virtual,
        has_pure,
    })
}
