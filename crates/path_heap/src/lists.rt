//! Lists of what is kept by number.

ghost use Rattle.std.specs.Prelude.{◌≡◌, ◌<◌, ◌^◌, length, slice_set};
ghost use Rattle.path_heap.specs.invariants.Cuts.{IsCut, IsObjectAt};

use crate::state::ObjectRow;

/// Sets an item; past the end nothing changes.
#[tactic(auto, using(crate::proofs::Sets::past_end))]
pub(crate) fn set<T: Copy + Drop>(list: &mut Vec<T>, i: u32, item: T)
    ensures { list.new.items ≡ slice_set list.old.items i item }
{
    let i = i as usize;
    if i < list.len() {
        list[i] = item;
    }
}

/// How many rows begin at a number or before it, where each begins behind those before it.
fn rows_to(rows: &Vec<ObjectRow>, n: u64) -> usize
    ensures { IsCut rows.now.items n result }
{
    let mut low = 0;
    let mut high = rows.len();
    if high > 0 && rows[high - 1].start <= n {
        return high;
    }
    while low < high {
        let middle = low + (high - low) / 2;
        if rows[middle].start <= n {
            low = middle + 1;
        } else {
            high = middle;
        }
    }
    low
}

/// The number of the heap object whose part or leaf has a number: the last one that begins there or before.
pub(crate) fn object_at(rows: &Vec<ObjectRow>, n: u64) -> u32
    requires { length rows.now.items < 2 ^ 32 }
    ensures { IsObjectAt rows.now.items n result }
{
    // 0 rows are never met for the number of a part: its object begins there or before (`IsCut`)
    rows_to(rows, n).saturating_sub(1) as u32
}
