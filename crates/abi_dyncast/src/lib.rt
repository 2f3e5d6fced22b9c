//! The cast over bytes: a walk over type information and virtual pointers, which visits each part of a view at most once.
//!
//! Nothing here knows a class declaration. A part is an address and the address of the type information of its class; from there
//! lead edges to the parts of the direct bases (Itanium C++ ABI 2.9.5). The crate owns that graph (`specs/Graph.antt`), the rule
//! of a cast over any kind of parts (`specs/Rule.antt`, ISO C++03 5.2.7 p8), and what a cast and a test of containment answer
//! over the words of an image and a memory (`specs/Casts.antt`): `CastsTo`, `CanCast`, `TellsWithin`, `CanTellWithin`, and
//! `CanCastHinted` with what is asked of a hint. Where no base on the way is virtual, whether a view has a part rests on the image
//! alone, and what was found is kept: `specs/Known.antt` says that what is kept is true of the image (`TellsTruth`).
//!
//! The layer above may rely on `cast`, `cast_hinted`, `is_within` and the same of `KnownParts`, which take no memory:
//! `WorkList::reserve` takes it, once, for the greatest number of parts of a view, and `KnownParts::reserve` for the answers that
//! are kept. `cast_hinted` answers what `cast` answers, and reads the records of bases through a `BaseReader` alone: at most two
//! for each pair of a subobject and a direct base of the view, and none where the view is of the target class and the source lies
//! where the hint says. It may rely on the laws too: one cast has one answer, which depends on no more than it reads.
#![tactic(auto)]

mod answer;
mod kept;
mod known;
mod laws;
mod parts;
mod search;
mod walk;
mod work;

pub use crate::answer::{cast, cast_hinted, is_within};
pub use crate::kept::{KnownPart, KnownParts};
pub use crate::laws::{cast_reads, one_answer};
pub use crate::work::WorkList;
