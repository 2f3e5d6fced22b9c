//! The classes of a source.

ghost use Rattle.std.specs.Prelude.{◌≡◌, ◌==◌, ◌<◌, ◌↔◌, Some, [], All, IfOk, IfErr, IsTrue, length};
ghost use Rattle.cxx_hierarchy.specs.Classes.{class_at, IsClassNamed};
ghost use Rattle.cxx_hierarchy.specs.ClassPass.{faults_of, StopsAt, IsInOrder};
ghost use Rattle.cxx_hierarchy.specs.Resolved.{resolved};
ghost use Rattle.cxx_hierarchy.specs.Hierarchies.{IsHierarchy};
ghost use Rattle.cxx_hierarchy.specs.VirtualBases.{HasVirtualBase, HasPublicVirtualBase};

use crate::class_pass::{check_classes, name_table};
use crate::names::NameTable;
use crate::records::{ClassId, ClassRec, RecordList};
use crate::resolution::resolve_classes;
use crate::stop::Stop;
use crate::virtual_rows::{is_marked, virtual_rows};
use foundation::Sequence;
use std::alloc::Global;
use std::marker::Model;

/// The classes of a source in its order, seen as the list of their records.
#[derive(Drop)]
pub struct Hierarchy {
    classes: Vec<ClassRec<ClassId>>,
    names: NameTable,
    virtual_bases: Vec<Sequence<bool>>,
    public_virtual_bases: Vec<Sequence<bool>>,
}

impl Model for Hierarchy {
    ghost use Rattle.std.specs.Prelude.{List};
    ghost use Rattle.cxx_hierarchy.specs.declared.records.ClassRec.{ClassRec};
    ghost use Rattle.cxx_hierarchy.specs.declared.records.ClassId.{ClassId};
    ghost use Rattle.cxx_hierarchy.specs.Classes.{class_names};
    ghost use Rattle.cxx_hierarchy.specs.NameTables.{Numbers};
    ghost use Rattle.cxx_hierarchy.specs.Hierarchies.{IsHierarchy};
    ghost use Rattle.cxx_hierarchy.specs.invariants.VirtualRows.{AreVirtualRows};

    ghost Value = { List (ClassRec ClassId) };

    ghost view = { λ h. h.classes.items };

    ghost invariant = { λ h. IsHierarchy h.classes.items × Numbers h.names (class_names h.classes.items) × AreVirtualRows h.classes.items h.virtual_bases.items h.public_virtual_bases.items };
}

/// The hierarchy of the class definitions of a source, in its order.
///
/// The class pass goes over the classes in their order. The first refusal or limit that it meets is the error:
/// `DuplicateClass`, `UnknownClass`, `IncompleteClass`, `DuplicateBase`, `DuplicateMember`, `BadWidth`, or one of the limits
/// of 1,024 classes, 64 direct bases, 1,024 parts, 16 parameters and 4,096 elements of an array.
pub fn build(alloc: Global, records: &RecordList) -> Result<Hierarchy, Stop>
    requires { All IsInOrder records.now }
    ensures ok { IfOk result (λ h. (faults_of records.now ≡ []) × (h ≡ resolved records.now)) }
    ensures err { IfErr result (StopsAt (faults_of records.now)) }
{
    let definitions = records.as_slice();
    let names = name_table(alloc, definitions)?;
    check_classes(alloc, definitions, &names)?;
    let classes = resolve_classes(alloc, &names, definitions)?;
    let virtual_bases = virtual_rows(alloc, &classes, false)?;
    let public_virtual_bases = virtual_rows(alloc, &classes, true)?;
    Ok(Hierarchy {
        classes,
        names,
        virtual_bases,
        public_virtual_bases,
    })
}

impl Hierarchy {
    /// The number of classes.
    pub fn len(&self) -> u32
        ensures { result ≡ length self.now }
    {
        self.classes.len() as u32
    }

    /// Whether there is no class.
    pub fn is_empty(&self) -> bool
        ensures { result ≡ (length self.now == 0) }
    {
        self.classes.is_empty()
    }

    /// The record of a class of the hierarchy.
    pub fn class(&self, id: ClassId) -> &ClassRec<ClassId>
        requires { id.0 < length self.now }
        ensures { class_at self.now id ≡ Some result.now }
    {
        &self.classes[id.0 as usize]
    }

    /// The class of a name, and None exactly where no class has it.
    pub fn find(&self, name: &[u8]) -> Option<ClassId>
        ensures { IsClassNamed self.now name.now result }
    {
        match self.names.find(name) {
            Some(number) => Some(ClassId(number as u32)),
            None => None,
        }
    }

    /// Whether a class has another as a virtual base: it names it so, or a base of it has it (ISO C++03 10.1).
    /// It takes no memory.
    pub fn has_virtual_base(&self, c: ClassId, v: ClassId) -> bool
        ensures { IsTrue result ↔ HasVirtualBase self.now c v }
    {
        is_marked(&self.virtual_bases, c, v)
    }

    /// Whether public edges alone lead from a class to another that the last edge names as virtual
    /// (ISO C++03 11.2). It takes no memory.
    pub fn has_public_virtual_base(&self, c: ClassId, v: ClassId) -> bool
        ensures { IsTrue result ↔ HasPublicVirtualBase self.now c v }
    {
        is_marked(&self.public_virtual_bases, c, v)
    }

    /// What every hierarchy keeps, as a law for the layers above. It does nothing.
    pub fn keeps(&self)
        ensures { IsHierarchy self.now }
    {
        let _classes = &self.classes;
    }
}
