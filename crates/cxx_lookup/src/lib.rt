//! Member lookup and unique bases, over the subobjects of a class (ISO C++03 10.2; Rossie and Friedman).
//!
//! A name may be declared in several subobjects of a class. A declaration hides another where the other's
//! subobject lies in its own: so in a diamond a declaration in a derived class hides that of the shared base, by
//! whatever way the shared base is reached. The name finds the one declaration that no other hides.
//! This crate owns the definition of that (`IsFound`) and of the one subobject that a class means as a base
//! (`IsUniqueBase`), each over all subobjects of the class.
//!
//! The layer above may rely on: `lookup` and `unique_base` give the one answer where there is one, and else say
//! exactly whether there is none or more than one. `found_by` and `base_by` of `specs/Findings.antt` are the same as
//! functions, by the laws `name_finding` and `base_finding`.
#![tactic(auto)]

pub mod base_lookup;
mod declarations;
pub mod laws;
pub mod member_lookup;

pub use crate::base_lookup::unique_base;
pub use crate::laws::{base_finding, name_finding};
pub use crate::member_lookup::lookup;
use cxx_subobject::Subobject;
use foundation::NoMemory;
use thiserror::Error;

/// What a name finds: a data member or a function, by its subobject and its number among the members or the
/// functions of the subobject's class.
#[derive(Debug, Drop)]
pub enum Found {
    Member(Subobject, u32),
    Function(Subobject, u32),
}

impl Found {
    ghost use Rattle.std.specs.Prelude.{◌≡◌};
    ghost use Rattle.cxx_lookup.specs.Lookup.{place_of_found};

    /// The subobject whose class has the declaration.
    pub fn place(&self) -> &Subobject
        ensures { result.now ≡ place_of_found self.now }
    {
        match self {
            Found::Member(place, _) | Found::Function(place, _) => place,
        }
    }
}

/// Why a name finds no one declaration.
#[derive(Clone, Copy, Debug, PartialEq, Eq, Error)]
pub enum LookupFault {
    #[error("the name is ambiguous")]
    AmbiguousName,
    #[error("there is no such member")]
    NoSuchMember,
    #[error("out of memory")]
    NoMemory,
}

/// Why a class means no one base subobject.
#[derive(Clone, Copy, Debug, PartialEq, Eq, Error)]
pub enum BaseFault {
    #[error("the base is ambiguous")]
    AmbiguousBase,
    #[error("the class is no base")]
    NotBase,
    #[error("out of memory")]
    NoMemory,
}

impl From<NoMemory> for LookupFault {
    ghost use Rattle.std.specs.Prelude.{◌≡◌};
    ghost use Rattle.cxx_lookup.specs.declared.LookupFault.{LookupFault};

    ghost from_gives = { λ _ fault. fault ≡ LookupFault.NoMemory };

    fn from(_error: NoMemory) -> LookupFault {
        LookupFault::NoMemory
    }
}

impl From<NoMemory> for BaseFault {
    ghost use Rattle.std.specs.Prelude.{◌≡◌};
    ghost use Rattle.cxx_lookup.specs.declared.BaseFault.{BaseFault};

    ghost from_gives = { λ _ fault. fault ≡ BaseFault.NoMemory };

    fn from(_error: NoMemory) -> BaseFault {
        BaseFault::NoMemory
    }
}
