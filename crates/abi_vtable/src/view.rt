//! The subobjects of a view: where they lie, and the next of each one's chain.

ghost use Rattle.std.specs.Prelude.{◌≡◌, ◌<◌, ◌≤◌, ◌++◌, ◌∷◌, [], ◌&&◌, nat_eq, take, ℕ, List, Option, IfOk, OnOk, MatchOption, Some, length, slice_get, slice_index_or};
ghost use Rattle.cxx_hierarchy.specs.Limits.{most_classes};
ghost use Rattle.cxx_hierarchy.specs.declared.records.ClassId.{ClassId};
ghost use Rattle.cxx_subobject.specs.declared.Subobject.{Subobject};
ghost use Rattle.cxx_subobject.specs.Subobjects.{IsSubobject, subobject, same_path, same_subobject, class_of};
ghost use Rattle.cxx_subobject.specs.Preorder.{preorder};
ghost use Rattle.abi_primary.specs.Kinds.{IsDynamic};
ghost use Rattle.abi_sound.specs.Places.{Places, places_of};
ghost use Rattle.abi_sound.specs.Chains.{is_subobject_in};
ghost use Rattle.abi_slots.specs.Views.{IsView, next};
ghost use Rattle.abi_vtable.specs.invariants.Parts.{NumbersSubobject, AreNexts, IsViewPart, AreParts, AreStarts, IsViewParts, view_of_parts};
ghost use Rattle.abi_vtable.specs.invariants.Kept.{IsKeptView};
ghost use Rattle.abi_vtable.specs.invariants.Near.{begins_with_base};

use abi_primary::{Primary, is_dynamic};
use abi_slots::GroupName;
use abi_sound::SoundLayout;
use cxx_hierarchy::{Base, ClassId, Hierarchy};
use cxx_subobject::{
    Subobject, SubobjectList, class_of, is_same, is_same_root, join, list_subobjects, shared_base,
    subobject_below,
};
use foundation::{NoMemory, Sequence};
use std::alloc::Global;

/// A subobject of a view: where it is in the view, its class and whether that is dynamic, and the number of the next of its
/// chain. Where it is in the complete object is asked of few parts (`places`).
#[derive(Debug, Drop)]
pub struct ViewPart {
    pub at: Subobject,
    pub class: ClassId,
    pub is_dynamic: bool,
    pub next: Option<usize>,
}

/// A list of parts.
pub type PartList = Sequence<ViewPart>;

/// Numbers of parts.
pub type NumberList = Sequence<usize>;

/// A view: the class of the complete object, where the view is in it, its class, its place in bytes, its subobjects in
/// preorder, and for each class number a part at or behind which all of that class stand.
#[derive(Debug, Drop)]
pub struct ViewParts {
    pub complete: ClassId,
    pub at: Subobject,
    pub class: ClassId,
    pub start: u32,
    pub parts: PartList,
    pub starts: NumberList,
}

/// Views that are kept, so that none is made twice.
pub type ViewList = Sequence<ViewParts>;

/// The number of a subobject in a list, from a number on.
fn number_from(list: &[Subobject], target: &Subobject, from: usize) -> Option<usize>
    ensures { MatchOption result ((i : ℕ) → from ≤ i → slice_get list.now i ≡ Some target.now → ⊥) (λ i. slice_get list.now i ≡ Some target.now) }
{
    for n in from..list.len() {
        if is_same(&list[n], target) {
            return Some(n);
        }
    }
    None
}

/// The number of a subobject in a list. It is looked for from a number on first.
fn number_of(list: &[Subobject], target: &Subobject, near: usize) -> Option<usize>
    ensures { MatchOption result ((i : ℕ) → slice_get list.now i ≡ Some target.now → ⊥) (λ i. slice_get list.now i ≡ Some target.now) }
{
    match number_from(list, target, near) {
        Some(n) => Some(n),
        None => number_from(list, target, 0),
    }
}

/// A truth value, and false where two classes differ. It has no branch, so that many classes of two paths are compared at a time.
fn and_same(same: bool, c: ClassId, d: ClassId) -> bool
    ensures { result ≡ (same && nat_eq c.0 d.0) }
{
    if c.0 == d.0 { same } else { false }
}

/// The class at a place of a path.
fn class_in(path: &[ClassId], n: usize) -> ClassId
    requires { n < length path.now }
    ensures { slice_get path.now n ≡ Some result }
{
    path[n]
}

/// Whether a path begins as another one, which is no longer. Both are read to the end of that one.
fn begins_as(path: &[ClassId], front: &[ClassId]) -> bool
    requires { length front.now ≤ length path.now }
    ensures { result ≡ same_path (take (length front.now) path.now) front.now }
{
    let mut same = true;
    for i in 0..front.len() {
        let c = class_in(path, i);
        let d = class_in(front, i);
        same = and_same(same, c, d);
    }
    same
}

/// Whether one path is another with a class behind it.
fn is_path_below(path: &[ClassId], front: &[ClassId], last: ClassId) -> bool
    ensures { result ≡ same_path path.now (front.now ++ last ∷ []) }
{
    let count = front.len();
    if path.len() != count + 1 {
        return false;
    }
    let end = class_in(path, count);
    if end.0 != last.0 {
        return false;
    }
    begins_as(path, front)
}

/// Whether a subobject is the base of a class that another one has for its own. It takes no memory.
fn is_below(t: &Subobject, s: &Subobject, b: ClassId) -> bool
    ensures { result ≡ same_subobject t.now (subobject s.now.root (s.now.path ++ b ∷ [])) }
{
    if !is_same_root(t.root, s.root) {
        return false;
    }
    is_path_below(t.path.as_slice(), s.path.as_slice(), b)
}

/// The number of the base of a class that a subobject has for its own, in a list, from a number on.
fn below_from(list: &[Subobject], s: &Subobject, b: ClassId, from: usize) -> Option<usize>
    ensures { MatchOption result ((i : ℕ) → from ≤ i → slice_get list.now i ≡ Some (subobject s.now.root (s.now.path ++ b ∷ [])) → ⊥) (λ i. slice_get list.now i ≡ Some (subobject s.now.root (s.now.path ++ b ∷ []))) }
{
    for n in from..list.len() {
        if is_below(&list[n], s, b) {
            return Some(n);
        }
    }
    None
}

/// The number of the base of a class that a subobject has for its own, in a list. It is looked for from a number on first.
fn number_below(list: &[Subobject], s: &Subobject, b: ClassId, near: usize) -> Option<usize>
    ensures { MatchOption result ((i : ℕ) → slice_get list.now i ≡ Some (subobject s.now.root (s.now.path ++ b ∷ [])) → ⊥) (λ i. slice_get list.now i ≡ Some (subobject s.now.root (s.now.path ++ b ∷ []))) }
{
    match below_from(list, s, b, near) {
        Some(n) => Some(n),
        None => below_from(list, s, b, 0),
    }
}

/// Whether the first of these bases is of a class and not virtual.
fn begins_with_base(bases: &[Base<ClassId>], b: ClassId) -> bool
    ensures { result ≡ begins_with_base bases.now b }
{
    match bases {
        [] => false,
        [base, ..] => !base.is_virtual && base.class.0 == b.0,
    }
}

/// The class of a subobject.
fn class_at(s: &Subobject) -> ClassId
    requires { (d : ClassId) × (class_of s.now ≡ Some d) }
    ensures { class_of s.now ≡ Some result }
{
    match class_of(s) {
        Some(class) => class,
        None => unreachable!(),
    }
}

/// Whether a subobject of an object holds a virtual base of it.
fn is_holder<L: SoundLayout>(
    layout: &L,
    h: &Hierarchy,
    c: ClassId,
    v: ClassId,
    s: &Subobject,
) -> bool
    requires layout { L.lays_out layout.now h.now }
    requires known { c.0 < length h.now }
    ensures { result ≡ is_subobject_in ((places_of h.now (L.rows layout.now)).holder c v) s.now }
{
    match layout.holder(c, v) {
        Some(holder) => is_same(holder, s),
        None => false,
    }
}

/// The number of the next of the chain of a subobject, which stands at a number of the list. A direct primary base stands behind
/// it, and next to it where it is the first base of the class.
///
/// Errors: want of memory.
fn next_of<L: SoundLayout>(
    alloc: Global,
    h: &Hierarchy,
    layout: &L,
    x: &ViewParts,
    list: &[Subobject],
    number: usize,
    s: &Subobject,
) -> Result<Option<usize>, NoMemory>
    requires layout { L.lays_out layout.now h.now }
    requires view { IsView h.now (view_of_parts x.now) }
    requires list { list.now ≡ preorder h.now x.now.class }
    requires valid { IsSubobject h.now x.now.class s.now }
    requires there { slice_get list.now number ≡ Some s.now }
    requires within { number < length list.now }
    ensures { IfOk result (λ n. NumbersSubobject list.now n (next (places_of h.now (L.rows layout.now)) (view_of_parts x.now) s.now)) }
{
    h.keeps();
    let class = class_at(s);
    match layout.layout(class).primary {
        Primary::None => Ok(None),
        Primary::Direct(b) => {
            if begins_with_base(h.class(class).bases.as_slice(), b) {
                return Ok(Some(number + 1));
            }
            Ok(number_below(list, s, b, number))
        }
        Primary::Virtual(v) => {
            let seen = join(alloc, h, x.complete, &x.at, s)?;
            if !is_holder(layout, h, x.complete, v, &seen) {
                return Ok(None);
            }
            let base = shared_base(alloc, v)?;
            Ok(number_of(list, &base, number))
        }
    }
}

/// For each subobject of the view the number of the next of its chain.
///
/// Errors: want of memory.
fn nexts_of<L: SoundLayout>(
    alloc: Global,
    h: &Hierarchy,
    layout: &L,
    x: &ViewParts,
    list: &[Subobject],
) -> Result<Vec<Option<usize>>, NoMemory>
    requires layout { L.lays_out layout.now h.now }
    requires view { IsView h.now (view_of_parts x.now) }
    requires list { list.now ≡ preorder h.now x.now.class }
    ensures { IfOk result (λ nexts. AreNexts (places_of h.now (L.rows layout.now)) (view_of_parts x.now) list.now nexts.items) }
{
    h.keeps();
    let mut nexts = Vec::with_capacity(alloc, list.len())?;
    for s in list {
        let next = next_of(alloc, h, layout, x, list, nexts.len(), s)?;
        nexts.push(next)?;
    }
    Ok(nexts)
}

/// The number of the next, at a number.
fn next_at(nexts: &[Option<usize>], n: usize) -> Option<usize>
    requires { n < length nexts.now }
    ensures { slice_get nexts.now n ≡ Some result }
{
    nexts[n]
}

/// What is kept of a subobject of the view, with the number of the next of its chain.
fn part_of(h: &Hierarchy, x: &ViewParts, s: Subobject, number: Option<usize>) -> ViewPart
    requires view { IsView h.now (view_of_parts x.now) }
    requires valid { IsSubobject h.now x.now.class s }
    ensures at { result.at ≡ s }
    ensures part { (l : Places) (list : List Subobject) → NumbersSubobject list number (next l (view_of_parts x.now) s) → IsViewPart h.now l (view_of_parts x.now) list result }
{
    h.keeps();
    let class = class_at(&s);
    ViewPart {
        at: s,
        class,
        is_dynamic: is_dynamic(h, class),
        next: number,
    }
}

/// The parts of the view, in preorder. The list of its subobjects is taken apart.
///
/// Errors: want of memory.
fn parts_of<L: SoundLayout>(
    alloc: Global,
    h: &Hierarchy,
    layout: &L,
    x: &ViewParts,
    list: SubobjectList,
) -> Result<PartList, NoMemory>
    requires layout { L.lays_out layout.now h.now }
    requires view { IsView h.now (view_of_parts x.now) }
    requires list { list ≡ preorder h.now x.now.class }
    ensures { IfOk result (AreParts h.now (places_of h.now (L.rows layout.now)) (view_of_parts x.now)) }
{
    h.keeps();
    let nexts = nexts_of(alloc, h, layout, x, list.as_slice())?;
    let mut parts = Vec::with_capacity(alloc, list.len())?;
    for s in list.into_vec() {
        let n = parts.len();
        let next = next_at(&nexts, n);
        let part = part_of(h, x, s, next);
        parts.push(part)?;
    }
    Ok(Sequence::from_vec(parts))
}

/// Lowers the number under which a class is found to that of a part.
fn note_start(starts: &mut Vec<usize>, c: ClassId, n: usize)
    ensures kept { (d k : ℕ) → slice_index_or starts.old.items d 0 ≤ k → slice_index_or starts.new.items d 0 ≤ k }
    ensures noted { slice_index_or starts.new.items c.0 0 ≤ n }
{
    let number = c.0 as usize;
    if number < starts.len() && n < starts[number] {
        starts[number] = n;
    }
}

/// For each class number the number of the first part of that class.
///
/// Errors: want of memory.
fn starts_of(alloc: Global, class: ClassId, parts: &[ViewPart]) -> Result<NumberList, NoMemory>
    requires { class.0 < most_classes }
    ensures { IfOk result (λ starts. AreStarts starts parts.now) }
{
    let mut starts = vec![in alloc; parts.len(); class.0 as usize + 1]?;
    for (n, part) in parts.iter().enumerate() {
        note_start(&mut starts, part.class, n);
    }
    Ok(Sequence::from_vec(starts))
}

/// The view of a group, with its parts.
///
/// Errors: want of memory.
pub fn view_parts<L: SoundLayout>(
    alloc: Global,
    h: &Hierarchy,
    layout: &L,
    name: &GroupName,
) -> Result<ViewParts, NoMemory>
    requires layout { L.lays_out layout.now h.now }
    requires complete { name.now.complete.0 < length h.now }
    requires view { IsSubobject h.now name.now.complete name.now.view }
    requires dynamic { (d : ClassId) → class_of name.now.view ≡ Some d → IsDynamic h.now d }
    ensures complete { IfOk result (λ x. x.complete ≡ name.now.complete) }
    ensures at { IfOk result (λ x. x.at ≡ name.now.view) }
    ensures parts { IfOk result (IsViewParts h.now (places_of h.now (L.rows layout.now))) }
{
    h.keeps();
    let class = class_at(&name.view);
    let list = list_subobjects(alloc, h, class)?;
    let mut x = ViewParts {
        complete: name.complete,
        at: subobject_below(alloc, &name.view, &[])?,
        class,
        start: layout.place(h, name.complete, &name.view),
        parts: Sequence::new(alloc),
        starts: Sequence::new(alloc),
    };
    x.parts = parts_of(alloc, h, layout, &x, list)?;
    x.starts = starts_of(alloc, class, x.parts.as_slice())?;
    Ok(x)
}

/// The view of a number.
pub fn view_at(views: &[ViewParts], number: usize) -> &ViewParts
    requires { number < length views.now }
    ensures { slice_get views.now number ≡ Some result.now }
{
    &views[number]
}

/// Makes the view of a group, and puts it behind others. It has the number that is told.
///
/// Errors: want of memory.
pub fn keep_view<L: SoundLayout>(
    alloc: Global,
    h: &Hierarchy,
    layout: &L,
    name: &GroupName,
    views: &mut ViewList,
) -> Result<usize, NoMemory>
    requires layout { L.lays_out layout.now h.now }
    requires complete { name.now.complete.0 < length h.now }
    requires view { IsSubobject h.now name.now.complete name.now.view }
    requires dynamic { (d : ClassId) → class_of name.now.view ≡ Some d → IsDynamic h.now d }
    ensures number { IfOk result (λ n. n ≡ length views.old) }
    ensures kept { OnOk result (IsKeptView h.now (places_of h.now (L.rows layout.now)) name.now views.old views.new) }
{
    let x = view_parts(alloc, h, layout, name)?;
    let number = views.len();
    views.push(x)?;
    Ok(number)
}
