//! What the path of a subobject tells of its virtual pointer (Itanium C++ ABI 2.6.2).

ghost use Rattle.std.specs.Prelude.{◌≡◌, ◌<◌, All, length};
ghost use Rattle.cxx_hierarchy.specs.declared.records.ClassId.{ClassId};
ghost use Rattle.abi_sound.specs.Places.{places_of};
ghost use Rattle.abi_primary.specs.PrimaryBase.{is_direct_primary};
ghost use Rattle.cxx_subobject.specs.Subobjects.{is_shared_root};
ghost use Rattle.abi_vtt.specs.Vtts.{ends_in_primary, is_proper_at};

use abi_primary::Primary;
use abi_sound::SoundLayout;
use cxx_hierarchy::{ClassId, Hierarchy};
use cxx_subobject::{Root, Subobject};

/// Whether the primary base is this one, and not virtual.
pub fn is_direct(primary: Primary, b: ClassId) -> bool
    ensures { result ≡ is_direct_primary primary b }
{
    match primary {
        Primary::None => false,
        Primary::Direct(d) => d.0 == b.0,
        Primary::Virtual(_) => false,
    }
}

/// Whether the last class of a path is the non-virtual primary base of the one before it.
pub fn ends_in_primary<L: SoundLayout>(h: &Hierarchy, layout: &L, path: &[ClassId]) -> bool
    requires layout { L.lays_out layout.now h.now }
    requires known { All (λ (c : ClassId). c.0 < length h.now) path.now }
    ensures { result ≡ ends_in_primary (places_of h.now (L.rows layout.now)) path.now }
{
    let len = path.len();
    if len < 2 {
        return false;
    }
    is_direct(layout.layout(path[len - 2]).primary, path[len - 1])
}

/// Whether a subobject is a base, and not the whole.
pub fn is_proper(s: &Subobject) -> bool
    ensures { result ≡ is_proper_at s.now.root s.now.path }
{
    match s.root {
        Root::Whole => s.path.len() > 1,
        Root::Shared(_) => true,
    }
}

/// Whether a root is that of a virtual base.
pub fn is_shared(root: Root) -> bool
    ensures { result ≡ is_shared_root root }
{
    match root {
        Root::Whole => false,
        Root::Shared(_) => true,
    }
}
