//! Laws of the readings of a text.

ghost use Rattle.std.specs.Prelude.{◌≡◌, ◌⊎◌, ℕ, List};
ghost use Rattle.cxx_hierarchy.specs.Classes.{Classes};
ghost use Rattle.cxx_hierarchy.specs.Hierarchies.{IsHierarchy};
ghost use Rattle.abi_sound.specs.declared.class_layout.ClassLayout.{ClassLayout};
ghost use Rattle.abi_sound.specs.Places.{Places, places_of};
ghost use Rattle.abi_sound.specs.Sound.{IsSoundLayout};
ghost use Rattle.abi_inspect.specs.declared.seen.Seen.{Seen};
ghost use Rattle.abi_inspect.specs.Faults.{AreNamesWords, IsDumpOf, IsFirstBadLine, NamesNoClass};

/// A text has one reading at most: it is the dump of one object with its values, or it names no class, or it has one first fault.
pub fn one_reading()
    ensures values { (h : Classes) (rows : List ClassLayout) (text : List ℕ) (one other : Seen) → AreNamesWords h → IsHierarchy h → IsSoundLayout h rows → IsDumpOf h (places_of h rows) one text → IsDumpOf h (places_of h rows) other text → one ≡ other }
    ensures named { (h : Classes) (rows : List ClassLayout) (text : List ℕ) (seen : Seen) → AreNamesWords h → IsSoundLayout h rows → IsDumpOf h (places_of h rows) seen text → NamesNoClass h text → ⊥ }
    ensures faultless { (h : Classes) (l : Places) (text : List ℕ) (seen : Seen) (line : ℕ) → IsDumpOf h l seen text → IsFirstBadLine h l text line → ⊥ }
    ensures otherwise { (h : Classes) (l : Places) (text : List ℕ) (line : ℕ) → NamesNoClass h text → IsFirstBadLine h l text line → ⊥ }
    ensures lines { (h : Classes) (l : Places) (text : List ℕ) (one other : ℕ) → IsFirstBadLine h l text one → IsFirstBadLine h l text other → one ≡ other }
{}

/// Each text has a reading: it is the dump of some values, or it names no class, or it has a first fault.
pub fn some_reading()
    ensures { (h : Classes) (rows : List ClassLayout) (text : List ℕ) → AreNamesWords h → IsHierarchy h → IsSoundLayout h rows → ((seen : Seen) × IsDumpOf h (places_of h rows) seen text) ⊎ (NamesNoClass h text ⊎ ((line : ℕ) × IsFirstBadLine h (places_of h rows) text line)) }
{}
