//! A view has one group.

ghost use Rattle.std.specs.Prelude.{◌≡◌};
ghost use Rattle.cxx_hierarchy.specs.Classes.{Classes};
ghost use Rattle.abi_sound.specs.Places.{Places};
ghost use Rattle.abi_slots.specs.declared.words.Group.{Group};
ghost use Rattle.abi_slots.specs.Groups.{IsGroup};

/// Two groups of one name are equal, with the places, the words and the order of their tables. So it is in any hierarchy and
/// for any places.
pub fn one_group()
    ensures { (h : Classes) (l : Places) (a b : Group) → IsGroup h l a → IsGroup h l b → a.name ≡ b.name → a ≡ b }
{}
