//! The signatures of all functions, by numbers.

ghost use Rattle.std.specs.Prelude.{◌≡◌, ◌+◌, ◌<◌, ℕ, IsSome, IfOk, OnOk, Some, MatchOption, length, slice_get};
ghost use Rattle.std.specs.Option.{option_copied};
ghost use Rattle.cxx_hierarchy.specs.declared.records.ClassId.{ClassId};
ghost use Rattle.cxx_overrider.specs.declared.FunctionId.{FunctionId};
ghost use Rattle.cxx_overrider.specs.Functions.{declaration_of, signature_of};
ghost use Rattle.cxx_overrider.specs.invariants.Keys.{AreKeyed};
ghost use Rattle.cxx_overrider.specs.invariants.Numbers.{number_of, IsNumbering, AreShort, AreFirst, IsFirstOf, IsRow};

use crate::FunctionId;
use crate::keys::signature_key;
use cxx_hierarchy::{ClassId, Function, Hierarchy, NameTable};
use foundation::{NoMemory, Sequence};
use std::alloc::Global;

/// The numbers of the functions of a class, its destructor last.
pub type NumberRow = Sequence<usize>;

/// What a class declares under an index; None for the destructor.
pub fn declaration<'a>(h: &'a Hierarchy, f: FunctionId) -> Option<&'a Function<ClassId>>
    requires { f.class.0 < length h.now }
    ensures { option_copied result ≡ declaration_of h.now f }
{
    h.class(f.class).functions.as_slice().get(f.index as usize)
}

/// The number of a function: the place of the first function of its signature, which may be the function itself.
fn number_function(
    alloc: Global,
    h: &Hierarchy,
    keys: &mut NameTable,
    firsts: &mut Vec<FunctionId>,
    f: FunctionId,
) -> Result<usize, NoMemory>
    requires firsts { AreFirst h.now firsts.old.items }
    requires keyed { AreKeyed h.now keys.old firsts.old.items }
    requires class { f.class.0 < length h.now }
    requires known { IsSome (signature_of h.now f) }
    ensures firsts { OnOk result (AreFirst h.now firsts.new.items) }
    ensures keyed { OnOk result (AreKeyed h.now keys.new firsts.new.items) }
    ensures kept { OnOk result ((g : FunctionId) (n : ℕ) → IsFirstOf h.now firsts.old.items g n → IsFirstOf h.now firsts.new.items g n) }
    ensures first { IfOk result (IsFirstOf h.now firsts.new.items f) }
{
    let key = signature_key(alloc, h, f)?;
    match keys.find(&key) {
        Some(place) => Ok(place),
        None => {
            let place = firsts.len();
            keys.note(alloc, &key, place)?;
            firsts.push(f)?;
            Ok(place)
        }
    }
}

/// The numbers of the functions of a class.
fn number_class(
    alloc: Global,
    h: &Hierarchy,
    keys: &mut NameTable,
    firsts: &mut Vec<FunctionId>,
    c: ClassId,
) -> Result<NumberRow, NoMemory>
    requires known { c.0 < length h.now }
    requires firsts { AreFirst h.now firsts.old.items }
    requires keyed { AreKeyed h.now keys.old firsts.old.items }
    ensures firsts { OnOk result (AreFirst h.now firsts.new.items) }
    ensures keyed { OnOk result (AreKeyed h.now keys.new firsts.new.items) }
    ensures kept { OnOk result ((g : FunctionId) (n : ℕ) → IsFirstOf h.now firsts.old.items g n → IsFirstOf h.now firsts.new.items g n) }
    ensures row { IfOk result (IsRow h.now firsts.new.items c) }
{
    h.keeps();
    let mut row = Sequence::new(alloc);
    let count = h.class(c).functions.len() + 1;
    for index in 0..count {
        let f = FunctionId {
            class: c,
            index: index as u32,
        };
        row.push(number_function(alloc, h, keys, firsts, f)?)?;
    }
    Ok(row)
}

/// The numbers of all functions, and how many numbers there are.
#[derive(Drop)]
pub struct Numbering {
    pub rows: Vec<NumberRow>,
    pub count: usize,
}

/// A number for each function, the same exactly for functions of one signature.
pub fn number_signatures(alloc: Global, h: &Hierarchy) -> Result<Numbering, NoMemory>
    ensures { IfOk result (λ numbering. IsNumbering h.now numbering.rows.items numbering.count) }
{
    h.keeps();
    let mut keys = NameTable::new(alloc);
    let mut firsts = Vec::new(alloc);
    let mut rows = Vec::new(alloc);
    for number in 0..h.len() {
        let row = number_class(alloc, h, &mut keys, &mut firsts, ClassId(number))?;
        rows.push(row)?;
    }
    let count = firsts.len();
    Ok(Numbering { rows, count })
}

/// The first place of a number.
fn place_of(row: &[usize], n: usize) -> Option<usize>
    ensures { MatchOption result ((i : ℕ) → slice_get row.now i ≡ Some n → ⊥) (λ i. slice_get row.now i ≡ Some n) }
{
    for (place, m) in row.iter().enumerate() {
        if *m == n {
            return Some(place);
        }
    }
    None
}

/// The function of a class that has the number.
pub fn own_function(rows: &[NumberRow], c: ClassId, n: usize) -> Option<FunctionId>
    requires { AreShort rows.now }
    ensures { MatchOption result ((f : FunctionId) → f.class ≡ c → number_of rows.now f ≡ Some n → ⊥) (λ f. (f.class ≡ c) × (number_of rows.now f ≡ Some n)) }
{
    let row = match rows.get(c.0 as usize) {
        Some(row) => row,
        None => return None,
    };
    match place_of(row.as_slice(), n) {
        Some(place) => Some(FunctionId {
            class: c,
            index: place as u32,
        }),
        None => None,
    }
}

/// The number of a function.
pub fn number_of(rows: &[NumberRow], f: FunctionId) -> Option<usize>
    ensures { result ≡ number_of rows.now f }
{
    match rows.get(f.class.0 as usize) {
        Some(row) => row.as_slice().get(f.index as usize).copied(),
        None => None,
    }
}
