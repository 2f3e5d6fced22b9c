//! The last classes that declare a function of each number.

ghost use Rattle.std.specs.Prelude.{◌≡◌, ◌≤◌, ◌<◌, ℕ, List, Some, IsTrue, IfOk, length, slice_get, get_or};
ghost use Rattle.cxx_overrider.specs.declared.FunctionId.{FunctionId};
ghost use Rattle.cxx_overrider.specs.invariants.Lasts.{AreLasts};
ghost use Rattle.cxx_overrider.specs.invariants.Numbers.{number_of, IsNumbering};

use crate::signatures::Numbering;
use crate::tables::Tables;
use cxx_hierarchy::{ClassId, Hierarchy};
use foundation::NoMemory;
use std::alloc::Global;

/// Puts a class down under the numbers of its functions.
fn note_row(lasts: &mut [u32], row: &[usize], c: u32)
    ensures size { length lasts.new ≡ length lasts.old }
    ensures kept { (n k : ℕ) → k ≤ c → k ≤ get_or lasts.old n 0 → k ≤ get_or lasts.new n 0 }
    ensures noted { (i n : ℕ) → slice_get row.now i ≡ Some n → n < length lasts.old → c ≤ get_or lasts.new n 0 }
{
    for n in row {
        if *n < lasts.len() {
            lasts[*n] = c;
        }
    }
}

/// For each number the last class that declares a function of it.
pub fn last_classes(
    alloc: Global,
    h: &Hierarchy,
    numbering: &Numbering,
) -> Result<Vec<u32>, NoMemory>
    requires { IsNumbering h.now numbering.now.rows.items numbering.now.count }
    ensures { IfOk result (λ lasts. AreLasts numbering.now.rows.items lasts.items) }
{
    let mut lasts = vec![in alloc; 0; numbering.count]?;
    for number in 0..h.len() {
        let row = numbering.rows[number as usize].as_slice();
        note_row(&mut lasts, row, number);
    }
    Ok(lasts)
}

/// Whether the last class of a number is not behind another one.
fn is_last(lasts: &[u32], n: usize, v: ClassId) -> bool
    ensures { IsTrue result → (numbers : List (List ℕ)) (f : FunctionId) → AreLasts numbers lasts.now → number_of numbers f ≡ Some n → f.class.0 ≤ v.0 }
{
    match lasts.get(n) {
        Some(last) => *last <= v.0,
        None => true,
    }
}

/// Whether no class behind another one declares a function of the number.
pub fn has_none_behind(tables: &Tables, n: usize, v: ClassId) -> bool
    ensures { IsTrue result → (f : FunctionId) → AreLasts tables.now.numbering.rows.items tables.now.lasts.items → number_of tables.now.numbering.rows.items f ≡ Some n → f.class.0 ≤ v.0 }
{
    is_last(&tables.lasts, n, v)
}
