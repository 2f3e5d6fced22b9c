//! What a body stands in, and the variables that are in scope.

ghost use Rattle.std.specs.Prelude.{◌≡◌, ◌<◌, ◌+◌, ◌^◌, OnOk};
ghost use Rattle.std.specs.Option.{option_copied};
ghost use Rattle.cxx_expression.specs.Scenes.{innermost_entry, is_taken, with_variable};

use crate::copies::copy_type;
use cxx_hierarchy::{ClassId, Name, ValueType};
use cxx_program::TypeList;
use foundation::{NoMemory, Sequence};
use std::alloc::Global;

/// A variable: its name, its number among the globals or among the locals of its body, and its type.
#[derive(Drop)]
pub struct Entry {
    pub name: Name,
    pub number: usize,
    pub ty: ValueType<ClassId>,
}

pub type EntryList = Sequence<Entry>;

/// What a `return` wants.
#[derive(Drop)]
pub enum Returns {
    /// A constructor or a destructor has no `return`.
    Nowhere,
    Nothing,
    Value(ValueType<ClassId>),
}

/// What a body stands in: the globals, the class of `this`, which `main` has none of, and what a `return` wants.
#[derive(Drop)]
pub struct Setting {
    pub globals: EntryList,
    pub this_class: Option<ClassId>,
    pub returns: Returns,
}

/// The variables in scope, oldest first; where the innermost scope begins; the types of all locals so far, parameters
/// first; and how many locals were declared.
#[derive(Drop)]
pub struct Scene {
    pub entries: EntryList,
    pub start: usize,
    pub types: TypeList,
    pub declared: u32,
}

/// The innermost variable of a name.
pub(crate) fn last_of<'a>(entries: &'a [Entry], name: &[u8]) -> Option<&'a Entry>
    ensures { option_copied result ≡ innermost_entry entries.now name.now }
{
    entries
        .iter()
        .rev()
        .find(|entry| entry.name.as_slice() == name)
}

impl Scene {
    /// Whether the innermost scope has a variable of the name.
    pub fn is_taken(&self, name: &[u8]) -> bool
        ensures { result ≡ is_taken self.now name.now }
    {
        self.entries
            .as_slice()
            .iter()
            .skip(self.start)
            .any(|entry| entry.name.as_slice() == name)
    }

    /// Declares a variable in the innermost scope.
    ///
    /// Errors: want of memory.
    pub fn declare(
        &mut self,
        alloc: Global,
        name: &Name,
        ty: &ValueType<ClassId>,
    ) -> Result<(), NoMemory>
        requires { self.old.declared + 1 < 2 ^ 32 }
        ensures { OnOk result (self.new ≡ with_variable self.old name.now ty.now) }
    {
        let number = self.types.len();
        let name = Sequence::from_vec(Vec::from_slice(alloc, name.as_slice())?);
        self.entries.push(Entry {
            name,
            number,
            ty: copy_type(ty),
        })?;
        self.types.push(copy_type(ty))?;
        self.declared += 1;
        Ok(())
    }
}
