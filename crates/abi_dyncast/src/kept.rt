//! The list of the answers that are kept.

ghost use Rattle.std.specs.Prelude.{◌≡◌, length};

use foundation::NoMemory;
use std::alloc::Global;

/// How many answers are kept.
pub(crate) const KEPT: usize = 256;

/// Whether the views of a class have a part of a class so many bytes behind themselves, along bases that are not virtual; an entry
/// that says no says nothing of other ways.
#[derive(Clone, Copy, Debug, PartialEq, Eq)]
pub struct KnownPart {
    pub view_class: u32,
    pub class: u32,
    pub distance: u64,
    pub is_there: bool,
}

/// The last answers on containment, each at the place that its classes and its distance name.
#[derive(Debug, Drop)]
pub struct KnownParts {
    pub(crate) parts: Vec<KnownPart>,
    ghost sized: { length parts.items ≡ 256 },
}

impl KnownParts {
    ghost use Rattle.std.specs.Prelude.{IfOk};
    ghost use Rattle.byte_code.specs.declared.code.ImageBytes.{ImageBytes};
    ghost use Rattle.abi_dyncast.specs.Known.{TellsTruth};

    /// A list in which no answer is kept yet. Errors: want of memory.
    pub fn reserve(alloc: Global) -> Result<KnownParts, NoMemory>
        ensures { IfOk result (λ known. (image : ImageBytes) → TellsTruth image known) }
    {
        let nothing = KnownPart {
            view_class: 0,
            class: 0,
            distance: 0,
            is_there: false,
        };
        let mut parts = Vec::new(alloc);
        parts.resize(KEPT, nothing)?;
        Ok(KnownParts { parts })
    }
}
