//! Why a listing is refused.

ghost use Rattle.std.specs.Prelude.{◌≡◌};

use foundation::NoMemory;
use std::alloc::AllocError;

/// What is asked of a listing, in the order in which it is asked.
#[derive(Clone, Copy, Debug, PartialEq, Eq)]
pub enum ListingRule {
    /// The lines are those of a listing.
    Form,
    /// A primary base is a direct non-virtual base or a virtual base, and dynamic.
    Primary,
    /// Sizes are not 0, a subobject lies at the sum along its path, and the subobjects of one chain have one place.
    Place,
    /// Places are multiples of alignments, and bit-fields lie within the bits that they may use.
    Align,
    /// All lies inside the size.
    Inside,
    /// Leaves have no bit in common, nor with virtual pointers, nor those of two chains.
    Overlap,
    /// Two subobjects of one class lie at two places.
    Twice,
}

/// Why a listing stands for no layout: a rule and the number of a line, from 1, or want of memory.
#[derive(Clone, Copy, Debug, PartialEq, Eq)]
pub enum ListingStop {
    Bad(ListingRule, u32),
    NoMemory,
}

impl From<NoMemory> for ListingStop {
    ghost use Rattle.std.specs.Prelude.{◌≡◌};
    ghost use Rattle.abi_foreign.specs.declared.listing_stop.ListingStop.{ListingStop};
    ghost use Rattle.abi_foreign.specs.declared.listing_stop.ListingStop.TheVariants as listing_stops;

    ghost from_gives = { λ error stop. stop ≡ listing_stops.NoMemory };

    fn from(_error: NoMemory) -> ListingStop {
        ListingStop::NoMemory
    }
}

impl From<AllocError> for ListingStop {
    ghost use Rattle.std.specs.Prelude.{◌≡◌};
    ghost use Rattle.abi_foreign.specs.declared.listing_stop.ListingStop.{ListingStop};
    ghost use Rattle.abi_foreign.specs.declared.listing_stop.ListingStop.TheVariants as listing_stops;

    ghost from_gives = { λ error stop. stop ≡ listing_stops.NoMemory };

    fn from(_error: AllocError) -> ListingStop {
        ListingStop::NoMemory
    }
}

impl ListingRule {
    ghost use Rattle.std.specs.Prelude.{◌≡◌};
    ghost use Rattle.abi_foreign.specs.Refusals.{listing_rule_no};

    /// The number of the rule, from 1.
    pub fn no(&self) -> u8
        ensures { result ≡ listing_rule_no self.now }
    {
        match self {
            ListingRule::Form => 1,
            ListingRule::Primary => 2,
            ListingRule::Place => 3,
            ListingRule::Align => 4,
            ListingRule::Inside => 5,
            ListingRule::Overlap => 6,
            ListingRule::Twice => 7,
        }
    }
}
