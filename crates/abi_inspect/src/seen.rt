//! What a dump says of an object.

use cxx_hierarchy::ClassId;
use foundation::{NoMemory, Sequence};

/// What a dump says of one leaf: that it is unset, a number, the null pointer, or a pointer to a place in a heap object, by the number
/// of the object and the place there in bytes.
#[derive(Clone, Copy, Debug)]
pub enum SeenValue {
    Unset,
    Number(i128),
    Null,
    Place(u32, u32),
}

/// The values of the leaves of an object, in the order of its dump.
pub type SeenList = Sequence<SeenValue>;

/// What a dump says: the number of the heap object, its class, and one value for each leaf.
#[derive(Debug, Drop)]
pub struct Seen {
    pub object: u32,
    pub class: ClassId,
    pub leaves: SeenList,
}

/// Why a text is no dump.
#[derive(Clone, Copy, Debug)]
pub enum InspectFault {
    /// The first line is that of a dump, and no class has its name.
    UnknownClass,
    /// No values have this text. The number is that of the first line that begins no dump, or of the line after the last where lines
    /// are missing. Lines count from 1.
    Form(usize),
    /// Memory is used up.
    NoMemory,
}

impl From<NoMemory> for InspectFault {
    ghost use Rattle.std.specs.Prelude.{◌≡◌};
    ghost use Rattle.abi_inspect.specs.declared.seen.InspectFault.{InspectFault};

    ghost from_gives = { λ _ fault. fault ≡ InspectFault.NoMemory };

    fn from(_error: NoMemory) -> InspectFault {
        InspectFault::NoMemory
    }
}
