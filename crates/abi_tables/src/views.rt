//! The views of a class that have a group.

ghost use Rattle.std.specs.Prelude.{◌≡◌, [], ◌∷◌, ◌<◌, All, IfOk, length};
ghost use Rattle.cxx_subobject.specs.Subobjects.{IsSubobject, whole_of};
ghost use Rattle.abi_vtt.specs.Vtts.{HasDynamicClass, has_vtt};
ghost use Rattle.abi_tables.specs.Counts.{group_views};

use crate::kinds::is_dynamic;
use abi_sound::SoundLayout;
use abi_vtt::views;
use cxx_hierarchy::{ClassId, Hierarchy};
use cxx_subobject::listing::longer_path;
use cxx_subobject::{Root, Subobject, SubobjectList};
use foundation::{NoMemory, Sequence};
use std::alloc::Global;

/// Whether a class has virtual bases. It takes no memory.
pub fn has_virtual<L: SoundLayout>(h: &Hierarchy, layout: &L, c: ClassId) -> bool
    requires layout { L.lays_out layout.now h.now }
    requires known { c.0 < length h.now }
    ensures { result ≡ has_vtt h.now c }
{
    match layout.layout(c).virtual_bases.as_slice() {
        [] => false,
        [_, ..] => true,
    }
}

/// The whole of a class, as a list.
///
/// Errors: want of memory.
fn whole_list(alloc: Global, c: ClassId) -> Result<SubobjectList, NoMemory>
    ensures { IfOk result (λ list. list ≡ whole_of c ∷ []) }
{
    let path = longer_path(alloc, &[c], &[])?;
    let mut list = Sequence::new(alloc);
    list.push(Subobject {
        root: Root::Whole,
        path,
    })?;
    Ok(list)
}

/// The views of a class that have a group, in the order of their groups: those of its VTT where it has virtual bases, else
/// the whole alone, where it is dynamic. Each is a subobject of the class, and its own class is dynamic.
///
/// Errors: want of memory.
pub fn group_views<L: SoundLayout>(
    alloc: Global,
    h: &Hierarchy,
    layout: &L,
    c: ClassId,
) -> Result<SubobjectList, NoMemory>
    requires layout { L.lays_out layout.now h.now }
    requires known { c.0 < length h.now }
    ensures list { IfOk result (λ list. list ≡ group_views h.now c) }
    ensures valid { IfOk result (λ list. All (IsSubobject h.now c) list) }
    ensures dynamic { IfOk result (λ list. All (HasDynamicClass h.now) list) }
{
    h.keeps();
    if has_virtual(h, layout, c) {
        let built = views(alloc, h, c)?;
        return Ok(built);
    }
    if !is_dynamic(h, c) {
        return Ok(Sequence::new(alloc));
    }
    let list = whole_list(alloc, c)?;
    Ok(list)
}
