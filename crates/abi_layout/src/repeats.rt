//! Whether some class subobject of one class lies twice at one place.

ghost use Rattle.std.specs.Prelude.{◌≡◌, ◌↔◌, ◌<◌, ◌^◌, ◌∷◌, [], true, All, IfOk, OnOk, IsTrue};
ghost use Rattle.abi_emptybase.specs.declared.Part.{Part};
ghost use Rattle.abi_emptybase.specs.Table.{holds, Adds};
ghost use Rattle.abi_layout.specs.Repeats.{HasRepeat};
ghost use Rattle.abi_layout.specs.invariants.Ranks.{rank};

use abi_emptybase::{Part, PlaceTable};
use foundation::NoMemory;
use std::alloc::Global;

/// Whether a part is in the table.
fn is_in(table: &PlaceTable, part: Part) -> bool
    requires { part.place < 2 ^ 32 }
    ensures { result ≡ holds table.now part }
{
    table.conflicts(&[part], 0)
}

/// Puts a part into the table.
fn put(table: &mut PlaceTable, part: Part) -> Result<(), NoMemory>
    requires { part.place < 2 ^ 32 }
    ensures { OnOk result (Adds table.old table.new (part ∷ []) 0) }
{
    table.add(&[part], 0)?;
    Ok(())
}

/// A number that falls as the place rises and, at one place, as the number of the class falls.
fn rank(part: Part) -> u64
    ensures { result ≡ rank part }
{
    (4294967295 - part.place as u64) * 4294967296 + part.class as u64
}

/// Whether each part stands behind the place of the one before it, or at this place with a lower number of its class. Then no
/// part stands twice.
fn falls(parts: &[Part]) -> bool
    ensures { result ≡ true → HasRepeat parts.now → ⊥ }
{
    let mut bound: u64 = 18446744073709551615;
    for part in parts {
        let number = rank(*part);
        if number >= bound {
            return false;
        }
        bound = number;
    }
    true
}

/// Whether some part stands twice in a list. Those of a chain of bases and of an array of objects fall, and need no table.
pub(crate) fn has_repeat(alloc: Global, parts: &[Part]) -> Result<bool, NoMemory>
    requires { All (λ (part : Part). part.place < 2 ^ 32) parts.now }
    ensures { IfOk result (λ repeats. IsTrue repeats ↔ HasRepeat parts.now) }
{
    if falls(parts) {
        return Ok(false);
    }
    let mut table = PlaceTable::new(alloc);
    for part in parts {
        if is_in(&table, *part) {
            return Ok(true);
        }
        put(&mut table, *part)?;
    }
    Ok(false)
}
