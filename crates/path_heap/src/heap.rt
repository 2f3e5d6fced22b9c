//! The heap, and the empty one.

ghost use Rattle.std.specs.Prelude.{◌≡◌, ◌≤◌, length};
ghost use Rattle.cxx_hierarchy.specs.Classes.{Classes};
ghost use Rattle.cxx_hierarchy.specs.Hierarchies.{IsHierarchy};
ghost use Rattle.path_model.specs.Runs.{no_objects};
ghost use Rattle.path_heap.specs.declared.state.Value.TheVariants.{Unset};
ghost use Rattle.path_heap.specs.Rooms.{most_objects, FitInColumns};

use crate::leaf_list::LeafList;
use crate::part_rows::PartRows;
use crate::state::ObjectRow;
use std::alloc::Global;

/// All heap objects made so far. Parts and leaves have numbers; each object's numbers stand behind those of the objects
/// before it. Memory is taken for the parts that have begun and the leaves that were set, and a row for each object.
#[derive(Drop)]
pub struct Heap {
    /// What is kept of each part: its cell, and which parts run.
    pub(crate) parts: PartRows,
    /// The value of each leaf.
    pub(crate) leaves: LeafList,
    /// The heap objects, in the order in which they were made.
    pub(crate) objects: Vec<ObjectRow>,
    ghost blank: { leaves.blank ≡ Unset },
    ghost few: { length objects.items ≤ most_objects },
    ghost fit: { FitInColumns objects.items parts leaves },
}

impl Heap {
    ghost use Rattle.path_heap.specs.Stands.{HeapStands};

    /// The heap with no object, which takes no memory.
    pub fn new(alloc: Global) -> Heap
        ensures { (h : Classes) → IsHierarchy h → HeapStands h result no_objects }
    {
        Heap {
            parts: PartRows::new(alloc),
            leaves: LeafList::new(alloc),
            objects: Vec::new(alloc),
        }
    }
}
