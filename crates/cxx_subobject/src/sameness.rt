//! Whether two subobjects are one, and which are virtual bases themselves.

ghost use Rattle.std.specs.Prelude.{◌≡◌};
ghost use Rattle.cxx_subobject.specs.Subobjects.{same_root, same_path, same_subobject};
ghost use Rattle.cxx_subobject.specs.VirtualBases.{shared_class};

use crate::{Root, Subobject};
use cxx_hierarchy::ClassId;

/// Whether two roots are one.
pub fn is_same_root(one: Root, other: Root) -> bool
    ensures { result ≡ same_root one other }
{
    match one {
        Root::Whole => match other {
            Root::Whole => true,
            Root::Shared(_) => false,
        },
        Root::Shared(v) => match other {
            Root::Whole => false,
            Root::Shared(w) => v.0 == w.0,
        },
    }
}

/// Whether two paths are one.
fn is_same_path(one: &[ClassId], other: &[ClassId]) -> bool
    ensures { result ≡ same_path one.now other.now }
{
    match one {
        [] => other.is_empty(),
        [c, one @ ..] => match other {
            [] => false,
            [d, other @ ..] => c.0 == d.0 && is_same_path(one, other),
        },
    }
}

/// Whether two subobjects are one. It takes no memory; paths of two lengths are not walked.
pub fn is_same(one: &Subobject, other: &Subobject) -> bool
    ensures { result ≡ same_subobject one.now other.now }
{
    if !is_same_root(one.root, other.root) {
        return false;
    }
    if one.path.len() != other.path.len() {
        return false;
    }
    is_same_path(one.path.as_slice(), other.path.as_slice())
}

/// The virtual base that a subobject is, itself.
pub fn shared_class(s: &Subobject) -> Option<ClassId>
    ensures { result ≡ shared_class s.now }
{
    match s.root {
        Root::Whole => None,
        Root::Shared(v) => { if s.path.len() == 1 { Some(v) } else { None } }
    }
}
