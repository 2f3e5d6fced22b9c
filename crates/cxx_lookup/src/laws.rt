//! Laws of what names and bases find, for the layers above. Each does nothing.

ghost use Rattle.std.specs.Prelude.{◌≡◌, ℕ, List};
ghost use Rattle.cxx_hierarchy.specs.Classes.{Classes};
ghost use Rattle.cxx_hierarchy.specs.Hierarchies.{IsHierarchy};
ghost use Rattle.cxx_hierarchy.specs.declared.records.ClassId.{ClassId};
ghost use Rattle.cxx_subobject.specs.declared.Subobject.{Subobject};
ghost use Rattle.cxx_lookup.specs.declared.Found.{Found};
ghost use Rattle.cxx_lookup.specs.Findings.{Finding, found_by, base_by, IsNameFinding, IsBaseFinding};

/// A name finds in each class nothing, one declaration, or more than one, and `found_by` says which (10.2).
pub fn name_finding()
    ensures is { (h : Classes) (c : ClassId) (name : List ℕ) → IsHierarchy h → IsNameFinding h c name (found_by h c name) }
    ensures only { (h : Classes) (c : ClassId) (name : List ℕ) (finding : Finding Found) → IsHierarchy h → IsNameFinding h c name finding → finding ≡ found_by h c name }
{}

/// A class has another one as a base never, once or more than once, and `base_by` says which (4.10).
pub fn base_finding()
    ensures is { (h : Classes) (c d : ClassId) → IsHierarchy h → IsBaseFinding h c d (base_by h c d) }
    ensures only { (h : Classes) (c d : ClassId) (finding : Finding Subobject) → IsHierarchy h → IsBaseFinding h c d finding → finding ≡ base_by h c d }
{}
