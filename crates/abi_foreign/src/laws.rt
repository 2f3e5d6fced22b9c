//! Laws of listings: a text has one answer, and each text has one.

ghost use Rattle.std.specs.Prelude.{◌≡◌, ◌⊎◌, ℕ, List};
ghost use Rattle.cxx_hierarchy.specs.Classes.{Classes};
ghost use Rattle.cxx_hierarchy.specs.Hierarchies.{IsHierarchy};
ghost use Rattle.abi_sound.specs.declared.class_layout.ClassLayout.{ClassLayout};
ghost use Rattle.abi_foreign.specs.declared.listing_stop.ListingRule.{ListingRule};
ghost use Rattle.abi_foreign.specs.declared.listing_stop.ListingStop.{ListingStop};
ghost use Rattle.abi_foreign.specs.declared.listing_stop.ListingStop.TheVariants.{Bad};
ghost use Rattle.abi_foreign.specs.Listings.{IsForeign};
ghost use Rattle.abi_foreign.specs.Refusals.{IsRefused};

/// A listing stands for one layout.
pub fn one_listing()
    ensures { (h : Classes) (text : List ℕ) (rows others : List ClassLayout) → IsHierarchy h → IsForeign h text rows → IsForeign h text others → rows ≡ others }
{}

/// A text that stands for a layout is not refused, and a text is refused for one rule at one line.
pub fn one_refusal()
    ensures apart { (h : Classes) (text : List ℕ) (rows : List ClassLayout) (stop : ListingStop) → IsHierarchy h → IsForeign h text rows → IsRefused h text stop → ⊥ }
    ensures one { (h : Classes) (text : List ℕ) (stop other : ListingStop) → IsHierarchy h → IsRefused h text stop → IsRefused h text other → stop ≡ other }
{}

/// Each text stands for a layout, or is refused for a rule at a line.
pub fn listing_or_refusal()
    ensures { (h : Classes) (text : List ℕ) → IsHierarchy h → ((rows : List ClassLayout) × IsForeign h text rows) ⊎ ((rule : ListingRule) × (line : ℕ) × IsRefused h text (Bad rule line)) }
{}
