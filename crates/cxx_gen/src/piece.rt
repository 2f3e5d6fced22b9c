//! Pieces that are put at the end of a text.

ghost use Rattle.std.specs.Prelude.{◌≡◌, ◌++◌, OnOk};
ghost use Rattle.std.specs.Fmt.{decimal};

use foundation::NoMemory;
use std::alloc::Global;

/// Puts bytes at the end of a text.
pub(crate) fn append(text: &mut Vec<u8>, bytes: &[u8]) -> Result<(), NoMemory>
    ensures { OnOk result (text.new.items ≡ text.old.items ++ bytes.now) }
{
    text.extend_from_slice(bytes)?;
    Ok(())
}

/// Puts the decimal digits of a number at the end of a text.
pub(crate) fn append_number(
    alloc: Global,
    text: &mut Vec<u8>,
    number: usize,
) -> Result<(), NoMemory>
    ensures { OnOk result (text.new.items ≡ text.old.items ++ decimal number) }
{
    let digits = number.to_string(alloc)?;
    append(text, digits.as_bytes())?;
    Ok(())
}
