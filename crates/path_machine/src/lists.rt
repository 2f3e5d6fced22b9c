//! Lists of values by number.

ghost use Rattle.std.specs.Prelude.{◌≡◌, slice_set};

/// Sets an item; past the end nothing changes.
#[tactic(auto, using(crate::proofs::Sets::past_end))]
pub fn set<T: Copy + Drop>(list: &mut Vec<T>, i: usize, item: T)
    ensures { list.new.items ≡ slice_set list.old.items i item }
{
    if i < list.len() {
        list[i] = item;
    }
}
