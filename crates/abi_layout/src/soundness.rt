//! The law that the layouts of the ABI's rules are sound.

ghost use Rattle.std.specs.Prelude.{List, length};
ghost use Rattle.cxx_hierarchy.specs.Classes.{Classes};
ghost use Rattle.cxx_hierarchy.specs.Hierarchies.{IsHierarchy};
ghost use Rattle.abi_sound.specs.declared.class_layout.ClassLayout.{ClassLayout};
ghost use Rattle.abi_sound.specs.Sound.{IsSoundLayout};
ghost use Rattle.abi_layout.specs.Refusals.{IsWellLaid};

/// Each layout by the rules, of classes none of which is refused, is sound.
pub fn laid_is_sound()
    ensures { (h : Classes) → (rows : List ClassLayout) → IsHierarchy h → IsWellLaid h (length h) rows → IsSoundLayout h rows }
{}
