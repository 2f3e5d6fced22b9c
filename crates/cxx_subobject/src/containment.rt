//! Subobjects of subobjects.

ghost use Rattle.std.specs.Prelude.{◌≡◌, ◌↔◌, ◌<◌, IfOk, IsTrue, length};
ghost use Rattle.std.specs.List.{list_any};
ghost use Rattle.cxx_hierarchy.specs.Classes.{Classes, bases_of};
ghost use Rattle.cxx_hierarchy.specs.Hierarchies.{IsHierarchy};
ghost use Rattle.cxx_hierarchy.specs.VirtualBases.{HasVirtualBase};
ghost use Rattle.cxx_hierarchy.specs.declared.records.ClassId.{ClassId};
ghost use Rattle.cxx_subobject.specs.declared.Subobject.{Subobject};
ghost use Rattle.cxx_subobject.specs.Subobjects.{IsSubobject, join, tail_of, class_of, shared_base};
ghost use Rattle.cxx_subobject.specs.Inside.{IsInside, IsPart, IsPublicWalk};
ghost use Rattle.cxx_subobject.specs.invariants.Tests.{path_begins, is_longer, ReachesRoot, ReachesRootPublicly, leads_publicly, is_public_path, is_public_down};

use crate::listing::subobject_below;
use crate::sameness::is_same_root;
use crate::{Root, Subobject};
use cxx_hierarchy::{ClassId, Hierarchy};
use foundation::NoMemory;
use std::alloc::Global;

/// The classes of a path below its first.
fn classes_below(path: &[ClassId]) -> &[ClassId]
    ensures { result.now ≡ tail_of path.now }
{
    match path {
        [_, below @ ..] => below,
        [] => path,
    }
}

/// Whether a path begins with another.
fn begins(front: &[ClassId], path: &[ClassId]) -> bool
    ensures { result ≡ path_begins front.now path.now }
{
    match front {
        [] => true,
        [c, front @ ..] => match path {
            [] => false,
            [d, path @ ..] => c.0 == d.0 && begins(front, path),
        },
    }
}

/// The class of a subobject, which is the last of its path; None where the path is empty, as that of no subobject.
pub fn class_of(s: &Subobject) -> Option<ClassId>
    ensures { result ≡ class_of s.now }
{
    let path = s.path.as_slice();
    if path.is_empty() {
        None
    } else {
        Some(path[path.len() - 1])
    }
}

/// Whether the inner one has the root of the outer one and a path that goes on from its path.
pub fn is_longer(outer: &Subobject, inner: &Subobject) -> bool
    ensures { result ≡ is_longer outer.now inner.now }
{
    is_same_root(outer.root, inner.root) && begins(outer.path.as_slice(), inner.path.as_slice())
}

/// Whether the root is a virtual base of the subobject's class.
fn has_shared(h: &Hierarchy, outer: &Subobject, root: Root) -> bool
    ensures { IsTrue result ↔ ReachesRoot h.now (class_of outer.now) root }
{
    match root {
        Root::Whole => false,
        Root::Shared(v) => match class_of(outer) {
            Some(c) => h.has_virtual_base(c, v),
            None => false,
        },
    }
}

/// Whether the root is a virtual base of the subobject's class to which public edges alone lead.
fn has_public_shared(h: &Hierarchy, outer: &Subobject, root: Root) -> bool
    ensures { IsTrue result ↔ ReachesRootPublicly h.now (class_of outer.now) root }
{
    match root {
        Root::Whole => false,
        Root::Shared(v) => match class_of(outer) {
            Some(c) => h.has_public_virtual_base(c, v),
            None => false,
        },
    }
}

/// Whether a class names another as a public non-virtual base.
fn is_public_edge(h: &Hierarchy, c: ClassId, b: ClassId) -> bool
    ensures { result ≡ list_any (leads_publicly b) (bases_of h.now c) }
{
    c.0 < h.len()
        && h.class(c).bases.as_slice().iter().any(|base| base.class.0 == b.0
            && !base.is_virtual
            && base.is_public)
}

/// Whether each class of a path names the next one as a public non-virtual base.
fn is_public_path(h: &Hierarchy, path: &[ClassId]) -> bool
    ensures { result ≡ is_public_path h.now path.now }
{
    match path {
        [] => true,
        [c, rest @ ..] => match rest {
            [] => true,
            [b, ..] => is_public_edge(h, *c, *b) && is_public_path(h, rest),
        },
    }
}

/// Whether the inner one's path goes on from that of the outer one, by public edges.
fn is_public_down(h: &Hierarchy, outer: &Subobject, inner: &Subobject) -> bool
    requires { 0 < length outer.now.path }
    ensures { result ≡ is_public_down h.now outer.now inner.now }
{
    let front = outer.path.as_slice();
    let path = inner.path.as_slice();
    is_longer(outer, inner) && is_public_path(h, &path[front.len() - 1..])
}

/// The subobject of an object of class `c` that `inner` is, as a subobject of the class of `outer`.
///
/// Errors: want of memory.
pub fn join(
    alloc: Global,
    _h: &Hierarchy,
    _c: ClassId,
    outer: &Subobject,
    inner: &Subobject,
) -> Result<Subobject, NoMemory>
    requires outer { IsSubobject _h.now _c outer.now }
    requires inner { IsPart _h.now outer.now inner.now }
    ensures joined { IfOk result (λ s. s ≡ join outer.now inner.now) }
    ensures valid { IfOk result (λ s. IsSubobject _h.now _c s) }
{
    match inner.root {
        Root::Shared(_) => subobject_below(alloc, inner, &[]),
        Root::Whole => subobject_below(alloc, outer, classes_below(inner.path.as_slice())),
    }
}

/// Whether the subobject `inner` of an object of class `c` lies in its subobject `outer`. It takes no memory.
///
/// It lies there where its path goes on from that of `outer`, or where it lies in a shared base that is a virtual
/// base of the class of `outer`.
pub fn contains(h: &Hierarchy, _c: ClassId, outer: &Subobject, inner: &Subobject) -> bool
    requires outer { IsSubobject h.now _c outer.now }
    requires inner { IsSubobject h.now _c inner.now }
    ensures { IsTrue result ↔ IsInside h.now outer.now inner.now }
{
    is_longer(outer, inner) || has_shared(h, outer, inner.root)
}

/// Whether some walk of public edges leads from the subobject `outer` of an object of class `c` to its subobject
/// `inner` (ISO C++03 11.2). It takes no memory.
pub fn is_public_base(h: &Hierarchy, _c: ClassId, outer: &Subobject, inner: &Subobject) -> bool
    requires outer { IsSubobject h.now _c outer.now }
    requires inner { IsSubobject h.now _c inner.now }
    ensures { IsTrue result ↔ IsPublicWalk h.now outer.now inner.now }
{
    is_public_down(h, outer, inner)
        || (has_public_shared(h, outer, inner.root) && is_public_path(h, inner.path.as_slice()))
}

/// Containment is a partial order on the subobjects of a class, and a shared base lies in each subobject that
/// reaches it.
pub fn containment_is_order()
    ensures itself { (h : Classes) → (c : ClassId) → (s : Subobject) → IsSubobject h c s → IsInside h s s }
    ensures through { (h : Classes) → (s t u : Subobject) → IsInside h s t → IsInside h t u → IsInside h s u }
    ensures back { (h : Classes) → (s t : Subobject) → IsHierarchy h → IsInside h s t → IsInside h t s → s ≡ t }
    ensures shared { (h : Classes) → (d v : ClassId) → (s : Subobject) → class_of s ≡ Some d → HasVirtualBase h d v → IsInside h s (shared_base v) }
{}
