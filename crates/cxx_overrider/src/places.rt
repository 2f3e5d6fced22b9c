//! Where in an object a subobject lies.

ghost use Rattle.std.specs.Prelude.{◌≡◌, ◌↔◌, IsTrue};
ghost use Rattle.cxx_overrider.specs.invariants.Places.{base_place, lifted};

use cxx_hierarchy::{Base, ClassId};

/// The whole object, a subobject of a direct non-virtual base, or one of a virtual base.
#[derive(Clone, Copy, Debug, PartialEq, Eq)]
pub enum Place {
    Itself,
    InBase(ClassId),
    InShared(ClassId),
}

/// Where the subobjects of a direct base lie, unless they are shared.
fn base_place(base: &Base<ClassId>) -> Place
    ensures { result ≡ base_place base.now.is_virtual base.now.class }
{
    if base.is_virtual {
        Place::InShared(base.class)
    } else {
        Place::InBase(base.class)
    }
}

/// Where a subobject of a direct base lies in the class.
pub fn lifted(base: &Base<ClassId>, place: Place) -> Place
    ensures { result ≡ lifted base.now place }
{
    match place {
        Place::Itself | Place::InBase(_) => base_place(base),
        Place::InShared(root) => Place::InShared(root),
    }
}
