//! Why a source is refused.

ghost use Rattle.std.specs.Prelude.{◌≡◌};

use foundation::NoMemory;
use std::alloc::{AllocError, AllocFailed};

/// A refusal of the source. The numbers are those of the printed text, `refused E<no> <Name> at <byte>`.
#[derive(Clone, Copy, Debug, PartialEq, Eq)]
pub enum Rule {
    Lex,
    Syntax,
    UnknownClass,
    DuplicateClass,
    IncompleteClass,
    DuplicateBase,
    DuplicateMember,
    BadInitializer,
    AmbiguousName,
    NoSuchMember,
    ReturnMismatch,
    AmbiguousCovariant,
    TwoFinalOverriders,
    Abstract,
    AmbiguousBase,
    NotBase,
    DowncastVirtual,
    NotPolymorphic,
    TypeMismatch,
    Index,
    LeftOut,
    UnknownName,
    BadWidth,
    SharedPlace,
}

impl Rule {
    ghost use Rattle.std.specs.Prelude.{◌≡◌};
    ghost use Rattle.cxx_hierarchy.specs.Stops.{rule_no};

    /// The number of the rule.
    pub fn no(&self) -> u8
        ensures { result ≡ rule_no self.now }
    {
        match self {
            Rule::Lex => 1,
            Rule::Syntax => 2,
            Rule::UnknownClass => 3,
            Rule::DuplicateClass => 4,
            Rule::IncompleteClass => 5,
            Rule::DuplicateBase => 6,
            Rule::DuplicateMember => 7,
            Rule::BadInitializer => 8,
            Rule::AmbiguousName => 9,
            Rule::NoSuchMember => 10,
            Rule::ReturnMismatch => 11,
            Rule::AmbiguousCovariant => 12,
            Rule::TwoFinalOverriders => 13,
            Rule::Abstract => 14,
            Rule::AmbiguousBase => 15,
            Rule::NotBase => 16,
            Rule::DowncastVirtual => 17,
            Rule::NotPolymorphic => 18,
            Rule::TypeMismatch => 19,
            Rule::Index => 20,
            Rule::LeftOut => 21,
            Rule::UnknownName => 22,
            Rule::BadWidth => 23,
            Rule::SharedPlace => 24,
        }
    }
}

/// A limit of the workbench, printed as `limit L<no>`.
#[derive(Clone, Copy, Debug, PartialEq, Eq)]
pub enum LimitNo {
    L1,
    L2,
    L3,
    L4,
    L5,
    L6,
    L7,
    L8,
    L9,
    L10,
}

impl LimitNo {
    ghost use Rattle.std.specs.Prelude.{◌≡◌};
    ghost use Rattle.cxx_hierarchy.specs.Stops.{limit_no};

    /// The number of the limit.
    pub fn no(&self) -> u8
        ensures { result ≡ limit_no self.now }
    {
        match self {
            LimitNo::L1 => 1,
            LimitNo::L2 => 2,
            LimitNo::L3 => 3,
            LimitNo::L4 => 4,
            LimitNo::L5 => 5,
            LimitNo::L6 => 6,
            LimitNo::L7 => 7,
            LimitNo::L8 => 8,
            LimitNo::L9 => 9,
            LimitNo::L10 => 10,
        }
    }
}

/// Why a source was not taken: a refusal at a byte, a limit, or want of memory.
#[derive(Clone, Copy, Debug, PartialEq, Eq)]
pub enum Stop {
    Refused(Rule, u32),
    Limit(LimitNo),
    NoMemory,
}

impl From<NoMemory> for Stop {
    ghost use Rattle.cxx_hierarchy.specs.declared.stop.Stop.{Stop};

    ghost from_gives = { λ _ stop. stop ≡ Stop.NoMemory };

    fn from(_error: NoMemory) -> Stop {
        Stop::NoMemory
    }
}

impl From<AllocError> for Stop {
    ghost use Rattle.cxx_hierarchy.specs.declared.stop.Stop.{Stop};

    ghost from_gives = { λ _ stop. stop ≡ Stop.NoMemory };

    fn from(_error: AllocError) -> Stop {
        Stop::NoMemory
    }
}

impl<T: Drop> From<AllocFailed<T>> for Stop {
    ghost use Rattle.cxx_hierarchy.specs.declared.stop.Stop.{Stop};

    ghost from_gives = { λ _ stop. stop ≡ Stop.NoMemory };

    fn from(_error: AllocFailed<T>) -> Stop {
        Stop::NoMemory
    }
}
