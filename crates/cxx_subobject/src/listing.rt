//! The subobjects of a class, in preorder.

ghost use Rattle.std.specs.Prelude.{◌≡◌, ◌+◌, ◌≤◌, ◌<◌, ◌++◌, ◌∷◌, [], ◌⊎◌, Some, IfOk, IfErr, OnOk, length, slice_get, replicate, false};
ghost use Rattle.cxx_subobject.specs.Subobjects.{subobject, shared_base};
ghost use Rattle.cxx_subobject.specs.Preorder.{tree, preorder, ListsSubobjects};
ghost use Rattle.cxx_subobject.specs.Parts.{IsWithinLimits};
ghost use Rattle.cxx_subobject.specs.invariants.Walks.{with_new, IsFresh, AreSharedMarks, IsClosed, IsPlaced};

use crate::parts::PartCounts;
use crate::{ClassPath, Root, Subobject};
use cxx_hierarchy::{ClassId, Hierarchy, LimitNo, Stop};
use foundation::{NoMemory, Sequence};
use std::alloc::Global;

/// A list of subobjects.
pub type SubobjectList = Sequence<Subobject>;

/// A path, and more classes behind it.
pub fn longer_path(alloc: Global, path: &[ClassId], more: &[ClassId]) -> Result<ClassPath, NoMemory>
    ensures { IfOk result (λ p. p ≡ path.now ++ more.now) }
{
    // Room for all at once: a path that grows afterwards is copied twice.
    let mut classes = Vec::with_capacity(alloc, path.len() + more.len())?;
    classes.extend_from_slice(path)?;
    classes.extend_from_slice(more)?;
    Ok(Sequence::from_vec(classes))
}

/// The subobject of a path, and more classes behind it, from the same root.
pub fn subobject_below(
    alloc: Global,
    s: &Subobject,
    more: &[ClassId],
) -> Result<Subobject, NoMemory>
    ensures { IfOk result (λ t. t ≡ subobject s.now.root (s.now.path ++ more.now)) }
{
    let path = longer_path(alloc, s.path.as_slice(), more)?;
    Ok(Subobject { root: s.root, path })
}

/// A mark for each of some classes, none of them set.
pub fn no_marks(alloc: Global, classes: u32) -> Result<Vec<bool>, NoMemory>
    ensures { IfOk result (λ marks. marks.items ≡ replicate classes false) }
{
    Ok(vec![in alloc; false; classes as usize]?)
}

/// The subobject that a virtual base is.
///
/// Errors: want of memory.
pub fn shared_base(alloc: Global, v: ClassId) -> Result<Subobject, NoMemory>
    ensures { IfOk result (λ s. s ≡ shared_base v) }
{
    Ok(Subobject {
        root: Root::Shared(v),
        path: longer_path(alloc, &[v], &[])?,
    })
}

/// Moves a subobject behind the others; an empty one is left in its place. It is no part of the walk below, of which each open call
/// takes room on the stack.
#[inline(never)]
fn push_moved(alloc: Global, s: &mut Subobject, found: &mut Vec<Subobject>) -> Result<(), NoMemory>
    ensures { OnOk result (found.new.items ≡ found.old.items ++ s.old ∷ []) }
{
    let empty = Subobject {
        root: Root::Whole,
        path: Sequence::new(alloc),
    };
    let itself = std::mem::replace(s, empty);
    found.push(itself)?;
    Ok(())
}

/// Makes a subobject the one that a virtual base is. It is no part of the walks that call it, of which each open call takes room on
/// the stack.
///
/// Errors: want of memory.
#[inline(never)]
pub fn put_shared(alloc: Global, v: ClassId, inner: &mut Subobject) -> Result<(), NoMemory>
    ensures { OnOk result (inner.new ≡ shared_base v) }
{
    *inner = shared_base(alloc, v)?;
    Ok(())
}

/// Makes a subobject the base of a class that another one has for its own, likewise.
///
/// Errors: want of memory.
#[inline(never)]
pub fn put_below(
    alloc: Global,
    s: &Subobject,
    base: ClassId,
    inner: &mut Subobject,
) -> Result<(), NoMemory>
    ensures { OnOk result (inner.new ≡ subobject s.now.root (s.now.path ++ base ∷ [])) }
{
    *inner = subobject_below(alloc, s, &[base])?;
    Ok(())
}

/// Makes a subobject the base of a class that the one of a number has for its own, likewise.
#[inline(never)]
fn put_below_number(
    alloc: Global,
    found: &[Subobject],
    number: usize,
    base: ClassId,
    inner: &mut Subobject,
) -> Result<(), NoMemory>
    requires { number < length found.now }
    ensures { OnOk result ((s : Subobject) → slice_get found.now number ≡ Some s → inner.new ≡ subobject s.root (s.path ++ base ∷ [])) }
{
    *inner = subobject_below(alloc, &found[number], &[base])?;
    Ok(())
}

/// Moves a subobject of class `c`, and what its bases give, behind the others, each once. A class is marked where it
/// was met as a shared base. Each path is made once: that of a base is made from the one that was moved.
fn visit(
    alloc: Global,
    h: &Hierarchy,
    s: &mut Subobject,
    c: ClassId,
    marks: &mut [bool],
    found: &mut Vec<Subobject>,
) -> Result<(), NoMemory>
    requires known { c.0 < length h.now }
    requires size { length marks.old ≡ length h.now }
    requires place { IsPlaced h.now c s.old }
    requires fresh { IsFresh found.old.items s.old }
    requires marks { AreSharedMarks marks.old (found.old.items ++ s.old ∷ []) }
    requires closed { IsClosed h.now (c.0 + 1) found.old.items }
    ensures size { length marks.new ≡ length h.now }
    ensures found { OnOk result (found.new.items ≡ with_new found.old.items (tree h.now (c.0 + 1) c s.old)) }
    ensures marks { OnOk result (AreSharedMarks marks.new found.new.items) }
{
    h.keeps();
    let at = found.len();
    push_moved(alloc, s, found)?;
    for base in h.class(c).bases.as_slice() {
        let number = base.class.0 as usize;
        if base.is_virtual {
            if !marks[number] {
                marks[number] = true;
                put_shared(alloc, base.class, s)?;
                visit(alloc, h, s, base.class, marks, found)?;
            }
        } else {
            put_below_number(alloc, found, at, base.class, s)?;
            visit(alloc, h, s, base.class, marks, found)?;
        }
    }
    Ok(())
}

/// All inheritance subobjects of a class in preorder, each once, however many there are: depth first, a class before
/// its bases, bases in declaration order (ISO C++03 10.1). A class within the limits has at most 1,024.
///
/// Errors: want of memory.
pub fn list_subobjects(alloc: Global, h: &Hierarchy, c: ClassId) -> Result<SubobjectList, NoMemory>
    requires { c.0 < length h.now }
    ensures preorder { IfOk result (λ list. list ≡ preorder h.now c) }
    ensures lists { IfOk result (λ list. ListsSubobjects h.now c list) }
{
    h.keeps();
    let mut found = Vec::new(alloc);
    let mut marks = no_marks(alloc, h.len())?;
    let mut whole = Subobject {
        root: Root::Whole,
        path: longer_path(alloc, &[c], &[])?,
    };
    visit(alloc, h, &mut whole, c, &mut marks, &mut found)?;
    Ok(Sequence::from_vec(found))
}

/// Makes a list the inheritance subobjects of a class in preorder, as `list_subobjects` gives them, for a walk that calls itself:
/// an answer would take more room on the stack in each open call.
///
/// Errors: want of memory; then nothing is said of the list.
#[inline(never)]
pub fn put_subobjects(
    alloc: Global,
    h: &Hierarchy,
    c: ClassId,
    list: &mut SubobjectList,
) -> Result<(), NoMemory>
    requires { c.0 < length h.now }
    ensures preorder { OnOk result (list.new ≡ preorder h.now c) }
    ensures lists { OnOk result (ListsSubobjects h.now c list.new) }
{
    *list = list_subobjects(alloc, h, c)?;
    Ok(())
}

/// The inheritance subobjects of a class in preorder, each once.
///
/// Errors: the limit L5 exactly where there are more than 1,024, or where the class has more than 65,536 parts,
/// counted with the parts of its members at every depth; want of memory.
pub fn subobjects_of(alloc: Global, h: &Hierarchy, c: ClassId) -> Result<SubobjectList, Stop>
    requires known { c.0 < length h.now }
    ensures preorder { IfOk result (λ list. list ≡ preorder h.now c) }
    ensures lists { IfOk result (λ list. ListsSubobjects h.now c list) }
    ensures within { IfOk result (λ list. IsWithinLimits h.now c) }
    ensures limit { IfErr result (λ e. (e ≡ Stop.NoMemory) ⊎ ((e ≡ Stop.Limit LimitNo.L5) × (IsWithinLimits h.now c → ⊥))) }
{
    let counts = PartCounts::new(alloc, h)?;
    if !counts.is_within(c) {
        return Err(Stop::Limit(LimitNo::L5));
    }
    Ok(list_subobjects(alloc, h, c)?)
}
