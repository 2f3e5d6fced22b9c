//! A class has exactly one list of tables.

ghost use Rattle.std.specs.Prelude.{◌≡◌, ◌<◌, List, length};
ghost use Rattle.cxx_hierarchy.specs.Classes.{Classes};
ghost use Rattle.cxx_hierarchy.specs.Hierarchies.{IsHierarchy};
ghost use Rattle.cxx_hierarchy.specs.declared.records.ClassId.{ClassId};
ghost use Rattle.cxx_overrider.specs.Faults.{HasNoFault};
ghost use Rattle.abi_sound.specs.declared.class_layout.ClassLayout.{ClassLayout};
ghost use Rattle.abi_sound.specs.Places.{places_of};
ghost use Rattle.abi_sound.specs.Sound.{IsSoundLayout};
ghost use Rattle.abi_tables.specs.declared.tables.ClassTables.{ClassTables};
ghost use Rattle.abi_tables.specs.Tables.{AreClassTables};

/// Over a sound layout the tables of a class are one list of groups, one VTT and one record.
pub fn one_tables()
    ensures { (h : Classes) (rows : List ClassLayout) (c : ClassId) (a b : ClassTables) → IsHierarchy h → IsSoundLayout h rows → c.0 < length h → AreClassTables h (places_of h rows) c a → AreClassTables h (places_of h rows) c b → a ≡ b }
{}

/// Over a sound layout of classes whose meanings no condition refuses, each class has tables.
pub fn some_tables()
    ensures { (h : Classes) (rows : List ClassLayout) (c : ClassId) → IsHierarchy h → HasNoFault h → IsSoundLayout h rows → c.0 < length h → (tables : ClassTables) × AreClassTables h (places_of h rows) c tables }
{}
