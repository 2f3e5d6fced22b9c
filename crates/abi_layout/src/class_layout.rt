//! The layouts of all classes.

ghost use Rattle.std.specs.Prelude.{◌≡◌, ◌<◌, Some, length, slice_get};

use abi_sound::ClassLayout;
use cxx_hierarchy::ClassId;
use std::marker::Model;

/// The layouts of all classes of a hierarchy, by class number.
#[derive(Debug, Drop)]
pub struct AbiLayout {
    rows: Vec<ClassLayout>,
}

impl Model for AbiLayout {
    ghost use Rattle.std.specs.Prelude.{List};
    ghost use Rattle.abi_sound.specs.declared.class_layout.ClassLayout.{ClassLayout};

    ghost Value = { List ClassLayout };

    ghost view = { λ l. l.rows.items };
}

impl AbiLayout {
    /// The layout with these rows.
    pub(crate) fn from_rows(rows: Vec<ClassLayout>) -> AbiLayout
        ensures { result ≡ rows.items }
    {
        AbiLayout { rows }
    }

    /// The number of classes.
    pub fn len(&self) -> usize
        ensures { result ≡ length self.now }
    {
        self.rows.len()
    }

    /// The layout of a class.
    pub fn layout(&self, c: ClassId) -> &ClassLayout
        requires { c.0 < length self.now }
        ensures { slice_get self.now c.0 ≡ Some result.now }
    {
        &self.rows[c.0 as usize]
    }
}
