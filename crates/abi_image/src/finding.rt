//! Which group has a name.

ghost use Rattle.std.specs.Prelude.{◌≡◌, ◌↔◌, ℕ, IsTrue};
ghost use Rattle.abi_image.specs.Conditions.{HasTable};
ghost use Rattle.abi_image.specs.invariants.Points.{NumbersGroup, same_group_name};

use abi_slots::{Group, GroupName};
use cxx_subobject::{Root, is_same};
use foundation::NoMemory;
use indexmap::IndexMap;
use std::alloc::Global;

/// Numbers of groups by hashes of their names. They are tried first, and nothing is believed of them.
pub(crate) type Guesses = IndexMap<u64, usize>;

/// Whether two names are one.
fn is_same_name(one: &GroupName, other: &GroupName) -> bool
    ensures { result ≡ same_group_name one.now other.now }
{
    one.complete.0 == other.complete.0 && is_same(&one.view, &other.view)
}

/// A number for a name, the same for the same name. What it is is not said, since only guesses are made by it.
fn hash_of(name: &GroupName) -> u64 {
    let root = match name.view.root {
        Root::Whole => 0,
        Root::Shared(v) => v.0 as u64 + 1,
    };
    let mut hash = (name.complete.0 as u64).wrapping_mul(0x1_0000_0001) ^ root;
    for c in name.view.path.as_slice() {
        hash = (hash ^ c.0 as u64).wrapping_mul(0x100_0000_01b3);
    }
    hash
}

/// Guesses for the names of groups. What they are is not said.
///
/// Errors: want of memory.
pub(crate) fn guess_numbers(alloc: Global, groups: &[Group]) -> Result<Guesses, NoMemory> {
    let mut guesses = IndexMap::new(alloc);
    for (i, group) in groups.iter().enumerate() {
        guesses.insert(hash_of(&group.name), i)?;
    }
    Ok(guesses)
}

/// Whether the group of a number has a name.
fn is_number_of(groups: &[Group], number: usize, name: &GroupName) -> bool
    ensures { IsTrue result ↔ NumbersGroup groups.now name.now number }
{
    if number >= groups.len() {
        return false;
    }
    is_same_name(&groups[number].name, name)
}

/// The number of the first group with a name.
fn first_named(groups: &[Group], name: &GroupName) -> usize
    requires { (table : ℕ) × HasTable groups.now name.now table }
    ensures { NumbersGroup groups.now name.now result }
{
    for number in 0..groups.len() {
        if is_number_of(groups, number, name) {
            return number;
        }
    }
    unreachable!()
}

/// The number of a group with a name, which is guessed first.
pub(crate) fn find_group(groups: &[Group], guesses: &Guesses, name: &GroupName) -> usize
    requires { (table : ℕ) × HasTable groups.now name.now table }
    ensures { NumbersGroup groups.now name.now result }
{
    if let Some(number) = guesses.get(&hash_of(name)) {
        if is_number_of(groups, *number, name) {
            return *number;
        }
    }
    first_named(groups, name)
}
