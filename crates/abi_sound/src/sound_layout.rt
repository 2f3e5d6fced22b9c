//! What code over any layout may rely on.

ghost use Rattle.std.specs.Prelude.{◌≡◌, ◌<◌, Some, List, length, slice_get};
ghost use Rattle.std.specs.Option.{option_copied};
ghost use Rattle.cxx_hierarchy.specs.Classes.{Classes};
ghost use Rattle.cxx_subobject.specs.Subobjects.{IsSubobject};
ghost use Rattle.abi_sound.specs.declared.class_layout.ClassLayout.{ClassLayout};
ghost use Rattle.abi_sound.specs.Places.{place_in_class, holder_in};
ghost use Rattle.abi_sound.specs.Sound.{IsSoundLayout};

use crate::class_layout::ClassLayout;
use crate::places::{holder_of_row, root_place, sum_of_path};
use cxx_hierarchy::{ClassId, Hierarchy};
use cxx_subobject::Subobject;

/// A sound layout of a hierarchy, however it was found. Sizes and places are bytes.
pub trait SoundLayout {
    /// It is a layout of these classes.
    ghost lays_out: { Self → Classes → Type 0 };

    /// What `layout` gives, by class number.
    ghost rows: { Self → List ClassLayout };

    /// The layout of a class.
    fn layout(&self, c: ClassId) -> &ClassLayout
        requires { c.0 < length (rows self.now) }
        ensures { slice_get (rows self.now) c.0 ≡ Some result.now };

    // Every layout keeps the laws of a sound layout.
    ghost sound: { (layout : Self) (h : Classes) → lays_out layout h → IsSoundLayout h (rows layout) };

    /// The place of a subobject in an object of class `c`: the sum of the places along its path, behind the place of
    /// the virtual base in which it lies, if it lies in one. It takes no memory.
    final fn place(&self, h: &Hierarchy, c: ClassId, s: &Subobject) -> u32
        requires layout { lays_out self.now h.now }
        requires known { c.0 < length h.now }
        requires subobject { IsSubobject h.now c s.now }
        ensures { result ≡ place_in_class h.now (rows self.now) c s.now }
    {
        root_place(self.layout(c), s.root) + sum_of_path(self, h, s.path.as_slice())
    }

    /// The subobject of class `c` that holds its virtual base `v`, at whose place `v` lies; None exactly where `v` is
    /// the primary base of no subobject of `c` (Itanium C++ ABI 2.4). It takes no memory.
    final fn holder(&self, c: ClassId, v: ClassId) -> Option<&Subobject>
        requires { c.0 < length (rows self.now) }
        ensures { option_copied result ≡ holder_in (slice_get (rows self.now) c.0) v }
    {
        holder_of_row(self.layout(c), v)
    }
}
