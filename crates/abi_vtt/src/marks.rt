//! Which classes have virtual bases.

ghost use Rattle.std.specs.Prelude.{◌≡◌, ◌<◌, ◌||◌, ◌&&◌, not, ℕ, false, IfOk, List, length, get_or};
ghost use Rattle.std.specs.List.{list_any};
ghost use Rattle.cxx_hierarchy.specs.declared.records.Base.{Base};
ghost use Rattle.cxx_hierarchy.specs.declared.records.ClassId.{ClassId};
ghost use Rattle.abi_vtt.specs.invariants.Marks.{AreVirtualMarks, marked};

use cxx_hierarchy::{Base, ClassId, Hierarchy};
use foundation::NoMemory;
use std::alloc::Global;

/// Whether a class is marked.
pub(crate) fn is_marked(marks: &[bool], c: ClassId) -> bool
    ensures { result ≡ marked marks.now c }
{
    let number = c.0 as usize;
    number < marks.len() && marks[number]
}

/// Whether one of these bases is virtual or of a marked class.
fn has_marked(marks: &[bool], bases: &[Base<ClassId>]) -> bool
    ensures { result ≡ list_any (λ (base : Base ClassId). base.is_virtual || marked marks.now base.class) bases.now }
{
    bases
        .iter()
        .any(|base| base.is_virtual || is_marked(marks, base.class))
}

/// For each class whether it has a virtual base.
///
/// Errors: want of memory.
pub(crate) fn virtual_marks(alloc: Global, h: &Hierarchy) -> Result<Vec<bool>, NoMemory>
    ensures { IfOk result (λ marks. AreVirtualMarks h.now (length h.now) marks.items) }
{
    h.keeps();
    let mut marks = Vec::new(alloc);
    for n in 0..h.len() {
        let mark = has_marked(&marks, h.class(ClassId(n)).bases.as_slice());
        marks.push(mark)?;
    }
    Ok(marks)
}
