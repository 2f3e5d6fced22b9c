//! The heads of the chains of a view: the subobjects that have a table.

ghost use Rattle.std.specs.Prelude.{◌≡◌, ◌<◌, ◌++◌, ◌&&◌, ◌||◌, ℕ, false, IfOk, OnOk, Some, map, not, length, get_or, replicate};
ghost use Rattle.cxx_hierarchy.specs.Classes.{Classes};
ghost use Rattle.cxx_subobject.specs.Subobjects.{same_root};
ghost use Rattle.cxx_subobject.specs.Preorder.{preorder};
ghost use Rattle.abi_sound.specs.Places.{Places};
ghost use Rattle.abi_slots.specs.Views.{heads};
ghost use Rattle.abi_vtable.specs.invariants.Parts.{AreNextMarks, AreKeptParts, view_of_parts, leads_to, subobjects_numbered, heads_of_root};

use crate::view::{ViewPart, ViewParts};
use cxx_subobject::{Root, is_same_root, shared_class};
use foundation::NoMemory;
use std::alloc::Global;

/// Marks the number of the next one.
fn mark(marks: &mut Vec<bool>, next: Option<usize>)
    ensures size { length marks.new.items ≡ length marks.old.items }
    ensures each { (n : ℕ) → n < length marks.old.items → get_or marks.new.items n false ≡ (get_or marks.old.items n false || leads_to n next) }
{
    match next {
        Some(n) => {
            if n < marks.len() {
                marks[n] = true;
            }
        }
        None => {}
    }
}

/// So many marks, none of them set.
fn no_marks(alloc: Global, count: usize) -> Result<Vec<bool>, NoMemory>
    ensures { IfOk result (λ marks. marks.items ≡ replicate count false) }
{
    Ok(vec![in alloc; false; count]?)
}

/// For each part of a view whether it is the next of another one.
///
/// Errors: want of memory.
fn next_marks(alloc: Global, parts: &[ViewPart]) -> Result<Vec<bool>, NoMemory>
    ensures { IfOk result (λ marks. AreNextMarks parts.now (length parts.now) marks.items) }
{
    let mut marks = no_marks(alloc, parts.len())?;
    for part in parts {
        mark(&mut marks, part.next);
    }
    Ok(marks)
}

/// Whether a number is marked.
fn is_marked(marks: &[bool], n: usize) -> bool
    ensures { result ≡ get_or marks.now n false }
{
    match marks.get(n) {
        Some(mark) => *mark,
        None => false,
    }
}

/// Whether the part of this number is of a root, dynamic, and the next of no other one.
fn is_head(marks: &[bool], root: Root, n: usize, part: &ViewPart) -> bool
    ensures { result ≡ (same_root root part.now.at.root && (part.now.is_dynamic && not (get_or marks.now n false))) }
{
    is_same_root(root, part.at.root) && part.is_dynamic && !is_marked(marks, n)
}

/// Puts the numbers of the heads of a root behind others, in preorder. The marks tell which parts are the next of others.
fn push_heads(
    x: &ViewParts,
    marks: &[bool],
    root: Root,
    heads: &mut Vec<usize>,
) -> Result<(), NoMemory>
    requires { AreNextMarks x.now.parts (length x.now.parts) marks.now }
    ensures { OnOk result ((h : Classes) (l : Places) → AreKeptParts h l x.now → subobjects_numbered (preorder h x.now.class) heads.new.items ≡ subobjects_numbered (preorder h x.now.class) heads.old.items ++ heads_of_root h l (view_of_parts x.now) root x.now.parts) }
{
    let parts = x.parts.as_slice();
    for (n, part) in parts.iter().enumerate() {
        if is_head(marks, root, n, part) {
            heads.push(n)?;
        }
    }
    Ok(())
}

/// The numbers of the heads, in the order of their tables: those of the non-virtual part in preorder, and then those of each
/// virtual base.
///
/// Errors: want of memory.
pub fn heads_of(alloc: Global, x: &ViewParts) -> Result<Vec<usize>, NoMemory>
    ensures { IfOk result (λ numbers. (h : Classes) (l : Places) → AreKeptParts h l x.now → subobjects_numbered (preorder h x.now.class) numbers.items ≡ map Some (heads h l (view_of_parts x.now))) }
{
    let marks = next_marks(alloc, x.parts.as_slice())?;
    let mut heads = Vec::new(alloc);
    push_heads(x, &marks, Root::Whole, &mut heads)?;
    for part in x.parts.as_slice() {
        match shared_class(&part.at) {
            Some(v) => push_heads(x, &marks, Root::Shared(v), &mut heads)?,
            None => {}
        }
    }
    Ok(heads)
}
