//! The laws. The functions do nothing: their contracts are what they say.

ghost use Rattle.std.specs.Prelude.{◌≡◌, ℕ, ◌+◌, ◌*◌, ◌<◌, ◌^◌, Bool, false, Some, List};
ghost use Rattle.byte_memory.specs.Store.{Store};
ghost use Rattle.cxx_hierarchy.specs.declared.records.ClassId.{ClassId};
ghost use Rattle.cxx_hierarchy.specs.Classes.{Classes};
ghost use Rattle.abi_sound.specs.declared.class_layout.ClassLayout.{ClassLayout};
ghost use Rattle.abi_slots.specs.Views.{View, place};
ghost use Rattle.abi_slots.specs.Images.{Image};
ghost use Rattle.abi_slots.specs.Seen.{PlacedTables};
ghost use Rattle.abi_dyncast.specs.Casts.{TellsWithin, CanTellWithin};
ghost use Rattle.agree_dispatch.specs.CastLaws.{CastsCanBeHad, CastsAreRight, HintsAreTrue, ContainmentCanBeTold, ContainmentIsRight, TablesHaveFirstPoints};

/// A cast from a dynamic subobject of a view that stands can be had (`can`), with room for as many parts as its class has
/// subobjects; and any answer of it is the address of the subobject to which the cast leads, or none where it leads nowhere
/// (`answer`; ISO C++03 5.2.7 p8). A hint is true there that is the place, in an object of the target's class, of a public base of the
/// source's class which lies in no virtual base (`hint`; Itanium C++ ABI 2.9.7).
pub fn casts()
    ensures can { (h : Classes) (rows : List ClassLayout) (x : View) (placed : PlacedTables) (memory : Store) (start : ℕ) → CastsCanBeHad h rows x placed memory start }
    ensures answer { (h : Classes) (rows : List ClassLayout) (x : View) (placed : PlacedTables) (memory : Store) (start : ℕ) → CastsAreRight h rows x placed memory start }
    ensures hint { (h : Classes) (rows : List ClassLayout) (x : View) (placed : PlacedTables) (memory : Store) (start : ℕ) → HintsAreTrue h rows x placed memory start }
{}

/// Whether a subobject of the complete object lies in a view that stands can be told (`can`), and what is told is right
/// (`answer`).
pub fn containment()
    ensures can { (h : Classes) (rows : List ClassLayout) (x : View) (placed : PlacedTables) (memory : Store) (start : ℕ) → ContainmentCanBeTold h rows x placed memory start }
    ensures answer { (h : Classes) (rows : List ClassLayout) (x : View) (placed : PlacedTables) (memory : Store) (start : ℕ) → ContainmentIsRight h rows x placed memory start }
{}

/// A view whose class has no table, by the directory, is told to have no part.
pub fn no_table()
    ensures can { (image : Image) (base : ℕ) (memory : Store) (parts at : ℕ) (c : ClassId) → base + 16 * c.0 < 2 ^ 64 → image (base + 16 * c.0) ≡ Some 0 → CanTellWithin image base memory parts at c.0 }
    ensures answer { (image : Image) (base : ℕ) (memory : Store) (view_at at class : ℕ) (c : ClassId) (told : Bool) → image (base + 16 * c.0) ≡ Some 0 → TellsWithin image base memory view_at c.0 at class told → told ≡ false }
{}

/// In an image of groups, VTTs and type information the word of a class that has a group of its own is an address point, 8 bytes
/// behind the address of the record of the class.
pub fn first_points()
    ensures { (h : Classes) (rows : List ClassLayout) → TablesHaveFirstPoints h rows }
{}
