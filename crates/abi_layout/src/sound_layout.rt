//! The layout of the ABI's rules, as one that code over any layout takes.

use crate::class_layout::AbiLayout;
use abi_sound::{ClassLayout, SoundLayout};
use cxx_hierarchy::ClassId;

impl SoundLayout for AbiLayout {
    ghost use Rattle.abi_layout.specs.AbiLayouts.{IsAbiLayout};

    ghost lays_out = { λ layout h. IsAbiLayout h layout };

    ghost rows = { λ layout. layout };

    ghost sound = { λ layout h is. is.sound };

    fn layout(&self, c: ClassId) -> &ClassLayout {
        self.layout(c)
    }
}
