//! What the text of a dump says.

ghost use Rattle.std.specs.Prelude.{◌≡◌, ◌⊎◌, ◌++◌, ◌+◌, ◌<◌, ◌≤◌, ℕ, Some, List, IfErr, IfOk, MatchOption, MatchResult, length, slice_get};
ghost use Rattle.std.specs.Fmt.{decimal};
ghost use Rattle.cxx_hierarchy.specs.Classes.{class_names};
ghost use Rattle.abi_sound.specs.Places.{places_of};
ghost use Rattle.abi_inspect.specs.declared.seen.Seen.{Seen};
ghost use Rattle.abi_inspect.specs.Values.{most_dumped_number};
ghost use Rattle.abi_inspect.specs.SeenTexts.{dump_heading};
ghost use Rattle.abi_inspect.specs.invariants.FirstLines.{AreFormed, IsFirstLine};
ghost use Rattle.abi_inspect.specs.invariants.Inspections.{IsObjectOf, IsReadBehind};
ghost use Rattle.abi_inspect.specs.Faults.{AreNamesWords, IsDumpOf, IsDumpFault, NamesNoClass};

use crate::header::{FirstLine, first_line, is_numeral, is_word};
use crate::lines::append_first;
use crate::numbers::read_number;
use crate::reading::{RowsRead, read_rows};
use crate::seen::{InspectFault, Seen};
use crate::slots::rows_of;
use crate::splits::behind;
use abi_sound::SoundLayout;
use cxx_hierarchy::{ClassId, Hierarchy};
use foundation::{NoMemory, Sequence};
use std::alloc::Global;

/// The fault of a first line that names no class of the hierarchy.
fn unknown_fault(line: &FirstLine) -> InspectFault
    ensures { ((result ≡ InspectFault.UnknownClass) × AreFormed line.now.number.now line.now.name.now line.now.size.now) ⊎ ((result ≡ InspectFault.Form 1) × (AreFormed line.now.number.now line.now.name.now line.now.size.now → ⊥)) }
{
    if is_numeral(line.number) && is_word(line.name) && is_numeral(line.size) {
        InspectFault::UnknownClass
    } else {
        InspectFault::Form(1)
    }
}

/// What the lines behind the first say of an object of a class.
fn inspect_rows<L: SoundLayout>(
    alloc: Global,
    h: &Hierarchy,
    layout: &L,
    object: u32,
    c: ClassId,
    text: &[u8],
) -> Result<Seen, InspectFault>
    requires layout { L.lays_out layout.now h.now }
    requires known { c.0 < length h.now }
    ensures { IsReadBehind h.now (places_of h.now (L.rows layout.now)) object c text.now result }
{
    let rows = rows_of(alloc, h, layout, c)?;
    match read_rows(alloc, h, &rows, text)? {
        RowsRead::Values(values) => Ok(Seen {
            object,
            class: c,
            leaves: Sequence::from_vec(values),
        }),
        RowsRead::Fault(lines) => Err(InspectFault::Form(lines + 2)),
    }
}

/// What stands behind the first line of the dump of an object, where the text begins with that line.
fn behind_first<'a, L: SoundLayout>(
    alloc: Global,
    h: &Hierarchy,
    layout: &L,
    object: u32,
    c: ClassId,
    text: &'a [u8],
) -> Result<Option<&'a [u8]>, NoMemory>
    requires layout { L.lays_out layout.now h.now }
    requires known { c.0 < length h.now }
    ensures { IfOk result (λ found. MatchOption found ((rest : List ℕ) → text.now ≡ dump_heading h.now (places_of h.now (L.rows layout.now)) object c ++ rest → ⊥) (λ rest. text.now ≡ dump_heading h.now (places_of h.now (L.rows layout.now)) object c ++ rest.now)) }
{
    let mut line = Vec::new(alloc);
    append_first(alloc, &mut line, h, object, c, layout.layout(c).size)?;
    Ok(behind(text, &line))
}

/// The number of an object whose digits these are; None where there is none from 1 to 4,294,967,295.
fn object_of(digits: &[u8]) -> Option<u32>
    ensures { MatchOption result ((n : ℕ) → 1 ≤ n → n ≤ most_dumped_number → digits.now ≡ decimal n → ⊥) (IsObjectOf digits.now) }
{
    match u32::try_from(read_number(digits)) {
        Ok(0) => None,
        Ok(object) => Some(object),
        Err(_) => None,
    }
}

/// What a text says whose first line names a class.
fn inspect_class<L: SoundLayout>(
    alloc: Global,
    h: &Hierarchy,
    layout: &L,
    line: &FirstLine,
    c: ClassId,
    text: &[u8],
) -> Result<Seen, InspectFault>
    requires layout { L.lays_out layout.now h.now }
    requires found { slice_get (class_names h.now) c.0 ≡ Some line.now.name.now }
    requires line { IsFirstLine line.now.number.now line.now.name.now line.now.size.now line.now.rest.now text.now }
    ensures found { IfOk result (λ seen. IsDumpOf h.now (places_of h.now (L.rows layout.now)) seen text.now) }
    ensures each { AreNamesWords h.now → (s : Seen) → IsDumpOf h.now (places_of h.now (L.rows layout.now)) s text.now → MatchResult result (λ seen. seen ≡ s) (λ fault. fault ≡ InspectFault.NoMemory) }
    ensures fault { AreNamesWords h.now → IfErr result (λ fault. IsDumpFault h.now (places_of h.now (L.rows layout.now)) text.now fault) }
{
    h.keeps();
    let Some(object) = object_of(line.number) else {
        return Err(InspectFault::Form(1));
    };
    match behind_first(alloc, h, layout, object, c, text)? {
        None => Err(InspectFault::Form(1)),
        Some(rest) => inspect_rows(alloc, h, layout, object, c, rest),
    }
}

/// What the text of one dump says: the number of the object, its class, and the value of each leaf.
///
/// Errors: `UnknownClass` exactly where the first line is that of a dump and no class has its name. `Form` exactly where else no values
/// have this text, with the first line that begins no dump, or the line after the last where lines are missing.
pub fn inspect<L: SoundLayout>(
    alloc: Global,
    h: &Hierarchy,
    layout: &L,
    text: &[u8],
) -> Result<Seen, InspectFault>
    requires { L.lays_out layout.now h.now }
    ensures found { IfOk result (λ seen. IsDumpOf h.now (places_of h.now (L.rows layout.now)) seen text.now) }
    ensures each { AreNamesWords h.now → (s : Seen) → IsDumpOf h.now (places_of h.now (L.rows layout.now)) s text.now → MatchResult result (λ seen. seen ≡ s) (λ fault. fault ≡ InspectFault.NoMemory) }
    ensures unknown { NamesNoClass h.now text.now → MatchResult result (λ seen. ⊥) (λ fault. (fault ≡ InspectFault.UnknownClass) ⊎ (fault ≡ InspectFault.NoMemory)) }
    ensures fault { AreNamesWords h.now → IfErr result (λ fault. IsDumpFault h.now (places_of h.now (L.rows layout.now)) text.now fault) }
{
    let Some(line) = first_line(text) else {
        return Err(InspectFault::Form(1));
    };
    match h.find(line.name) {
        None => Err(unknown_fault(&line)),
        Some(c) => inspect_class(alloc, h, layout, &line, c, text),
    }
}
