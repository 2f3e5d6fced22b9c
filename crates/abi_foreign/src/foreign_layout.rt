//! The layout that a listing stands for.

ghost use Rattle.std.specs.Prelude.{◌≡◌};

use abi_sound::{ClassLayout, SoundLayout};
use cxx_hierarchy::ClassId;
use std::marker::Model;

/// A sound layout of all classes of a hierarchy that a listing stands for, by class number.
#[derive(Debug, Drop)]
pub struct ForeignLayout {
    rows: Vec<ClassLayout>,
}

impl Model for ForeignLayout {
    ghost use Rattle.std.specs.Prelude.{List};
    ghost use Rattle.abi_sound.specs.declared.class_layout.ClassLayout.{ClassLayout};

    ghost Value = { List ClassLayout };

    ghost view = { λ l. l.rows.items };
}

impl ForeignLayout {
    /// The layout with these rows.
    pub(crate) fn from_rows(rows: Vec<ClassLayout>) -> ForeignLayout
        ensures { result ≡ rows.items }
    {
        ForeignLayout { rows }
    }
}

impl SoundLayout for ForeignLayout {
    ghost use Rattle.abi_foreign.specs.Listings.{IsForeignLayout};

    ghost lays_out = { λ layout h. IsForeignLayout h layout };

    ghost rows = { λ layout. layout };

    ghost sound = { λ layout h is. is.of.sound };

    fn layout(&self, c: ClassId) -> &ClassLayout {
        &self.rows[c.0 as usize]
    }
}
