//! A law of outs: the locations and the dumps that a run tells are what their text asks for.

ghost use Rattle.std.specs.Prelude.{◌≡◌, ◌<◌, Some, length, slice_get};
ghost use Rattle.cxx_hierarchy.specs.declared.records.ClassId.{ClassId};
ghost use Rattle.cxx_hierarchy.specs.Classes.{Classes};
ghost use Rattle.cxx_subobject.specs.Locations.{IsPartOf, ObjectPart};
ghost use Rattle.path_model.specs.Values.{Objects};
ghost use Rattle.path_model.specs.Outs.{location_of};
ghost use Rattle.text_told.specs.Fields.{NamesPart};
ghost use Rattle.text_told.specs.ToldLaws.{LeavesAreDumped};

/// A part of a heap object, as a run tells it, names a class subobject of an object of that class. The leaves of a heap object
/// are numbers and pointers of an object of its class, wherever the pointers that are set name class subobjects.
pub fn outs_are_told()
    ensures part { (h : Classes) (s : Objects) (p : ObjectPart) (c : ClassId) → c.0 < length h → slice_get s.classes p.object ≡ Some c → IsPartOf h c p → NamesPart h (location_of s p) }
    ensures dump { (h : Classes) (s : Objects) → LeavesAreDumped h s }
{}
