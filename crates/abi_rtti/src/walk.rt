//! The classes and the edges to virtual bases that a walk over all subobjects of a class meets.

ghost use Rattle.std.specs.Prelude.{◌≡◌, ◌<◌, ◌++◌, ◌∷◌, [], All, IfOk, OnOk, length, map, filter};
ghost use Rattle.std.specs.List.{filter_map, flat_map};
ghost use Rattle.cxx_hierarchy.specs.declared.records.ClassId.{ClassId};
ghost use Rattle.cxx_hierarchy.specs.declared.records.Base.{Base};
ghost use Rattle.cxx_subobject.specs.Subobjects.{class_of};
ghost use Rattle.abi_slots.specs.Rows.{class_of_base};
ghost use Rattle.abi_rtti.specs.TypeInfos.{classes_in, named_virtual, virtual_edges, is_virtual_base};

use cxx_hierarchy::{Base, ClassId, Hierarchy};
use cxx_subobject::{Subobject, class_of, list_subobjects};
use foundation::NoMemory;
use std::alloc::Global;

fn push_class(classes: &mut Vec<ClassId>, s: &Subobject) -> Result<(), NoMemory>
    ensures { OnOk result (classes.new.items ≡ classes.old.items ++ filter_map class_of (s.now ∷ [])) }
{
    match class_of(s) {
        Some(c) => classes.push(c)?,
        // never met: `list_subobjects` of cxx_subobject lists subobjects alone, and each has a class
        None => {}
    }
    Ok(())
}

/// The classes of the subobjects of a class, in preorder.
///
/// Errors: want of memory.
pub fn classes_in(alloc: Global, h: &Hierarchy, c: ClassId) -> Result<Vec<ClassId>, NoMemory>
    requires { c.0 < length h.now }
    ensures classes { IfOk result (λ list. list.items ≡ classes_in h.now c) }
    ensures known { IfOk result (λ list. All (λ (d : ClassId). d.0 < length h.now) list.items) }
{
    h.keeps();
    let list = list_subobjects(alloc, h, c)?;
    let mut classes = Vec::new(alloc);
    for s in list.as_slice() {
        push_class(&mut classes, s)?;
    }
    Ok(classes)
}

/// Puts the bases that are named virtual behind others.
fn push_named(edges: &mut Vec<ClassId>, bases: &[Base<ClassId>]) -> Result<(), NoMemory>
    ensures { OnOk result (edges.new.items ≡ edges.old.items ++ map class_of_base (filter is_virtual_base bases.now)) }
{
    for base in bases {
        if base.is_virtual {
            edges.push(base.class)?;
        }
    }
    Ok(())
}

/// The ends of the edges to virtual bases that the heads of some classes name.
///
/// Errors: want of memory.
pub fn virtual_edges(
    alloc: Global,
    h: &Hierarchy,
    classes: &[ClassId],
) -> Result<Vec<ClassId>, NoMemory>
    requires { All (λ (d : ClassId). d.0 < length h.now) classes.now }
    ensures edges { IfOk result (λ list. list.items ≡ flat_map (named_virtual h.now) classes.now) }
    ensures known { IfOk result (λ list. All (λ (d : ClassId). d.0 < length h.now) list.items) }
{
    h.keeps();
    let mut edges = Vec::new(alloc);
    for d in classes {
        push_named(&mut edges, h.class(*d).bases.as_slice())?;
    }
    Ok(edges)
}
