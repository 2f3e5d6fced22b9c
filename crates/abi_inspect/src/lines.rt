//! The lines of a dump, with the values of leaves.

ghost use Rattle.std.specs.Prelude.{◌≡◌, ◌++◌, ◌∷◌, [], ℕ, List, MatchOption, IfOk, OnOk, codes};
ghost use Rattle.std.specs.Fmt.{decimal};
ghost use Rattle.abi_print.specs.LayoutTexts.{declared_class_name};
ghost use Rattle.abi_inspect.specs.declared.seen.SeenValue.{SeenValue};
ghost use Rattle.abi_inspect.specs.Values.{IsValueOf};
ghost use Rattle.abi_inspect.specs.SeenTexts.{before_value, behind_value, bits_before, leaf_line};
ghost use Rattle.abi_inspect.specs.invariants.Readable.{IsNarrow};

use crate::seen::SeenValue;
use crate::slots::LeafLine;
use crate::splits::{before_byte, behind};
use crate::values::{append_value, value_read};
use abi_print::text::{append, append_bits, append_class, append_number, append_value_type};
use cxx_hierarchy::{ClassId, Hierarchy};
use foundation::NoMemory;
use std::alloc::Global;
use text_told::locations::LeafBits;

/// Puts the bits of a bit-field at the end of a text, as they stand before its value.
fn append_bits_before(alloc: Global, text: &mut Vec<u8>, bits: LeafBits) -> Result<(), NoMemory>
    ensures { OnOk result (text.new.items ≡ text.old.items ++ bits_before bits.width bits.first) }
{
    match bits.width {
        None => {}
        Some(width) => {
            append_bits(alloc, text, bits.first, width)?;
            append(text, b" ")?;
        }
    }
    Ok(())
}

/// Puts what stands before the value of a leaf at the end of a text.
fn append_before(alloc: Global, text: &mut Vec<u8>, x: &LeafLine) -> Result<(), NoMemory>
    ensures { OnOk result (text.new.items ≡ text.old.items ++ before_value x.now) }
{
    append_number(alloc, text, x.place)?;
    append(text, b" ")?;
    append_bits_before(alloc, text, x.bits)?;
    Ok(())
}

/// Puts what stands behind the value of a leaf at the end of a text.
fn append_behind(text: &mut Vec<u8>, h: &Hierarchy, x: &LeafLine) -> Result<(), NoMemory>
    ensures { OnOk result (text.new.items ≡ text.old.items ++ behind_value h.now x.now) }
{
    append(text, b" ")?;
    append_value_type(text, h, &x.ty)?;
    append(text, b" ")?;
    append(text, x.name.as_slice())?;
    append(text, b"\n")?;
    Ok(())
}

/// Puts the line of a leaf that has a value at the end of a text. Errors: want of memory.
pub(crate) fn append_leaf(
    alloc: Global,
    text: &mut Vec<u8>,
    h: &Hierarchy,
    x: &LeafLine,
    value: SeenValue,
) -> Result<(), NoMemory>
    ensures { OnOk result (text.new.items ≡ text.old.items ++ leaf_line h.now x.now value) }
{
    append_before(alloc, text, x)?;
    append_value(alloc, text, x.bits.width, &x.ty, value)?;
    append_behind(text, h, x)?;
    Ok(())
}

/// Puts a line that no value changes at the end of a text. Errors: want of memory.
pub(crate) fn append_fixed(text: &mut Vec<u8>, line: &[u8]) -> Result<(), NoMemory>
    ensures { OnOk result (text.new.items ≡ text.old.items ++ line.now ++ codes "\n") }
{
    append(text, line)?;
    append(text, b"\n")?;
    Ok(())
}

/// Puts the first line of a dump at the end of a text: the number of the object, its class and the size of that. Errors: want of memory.
pub(crate) fn append_first(
    alloc: Global,
    text: &mut Vec<u8>,
    h: &Hierarchy,
    object: u32,
    c: ClassId,
    size: u32,
) -> Result<(), NoMemory>
    ensures { OnOk result (text.new.items ≡ text.old.items ++ codes "dump #" ++ decimal object ++ codes " " ++ declared_class_name h.now c ++ codes " " ++ decimal size ++ codes "\n") }
{
    append(text, b"dump #")?;
    append_number(alloc, text, object)?;
    append(text, b" ")?;
    append_class(text, h, c)?;
    append(text, b" ")?;
    append_number(alloc, text, size)?;
    append(text, b"\n")?;
    Ok(())
}

/// What stands behind a line that no value changes, and None exactly where the text does not begin with it. It takes no memory.
pub(crate) fn behind_fixed<'a>(text: &'a [u8], line: &[u8]) -> Option<&'a [u8]>
    ensures { MatchOption result ((rest : List ℕ) → text.now ≡ (line.now ++ codes "\n") ++ rest → ⊥) (λ rest. text.now ≡ (line.now ++ codes "\n") ++ rest.now) }
{
    let rest = behind(text, line)?;
    behind(rest, b"\n")
}

/// The value that a leaf has in the line with which a text begins, and what stands behind that line; None exactly where the text begins
/// with no line of a value that the leaf can have. Errors: want of memory.
pub(crate) fn read_leaf<'a>(
    alloc: Global,
    h: &Hierarchy,
    x: &LeafLine,
    text: &'a [u8],
) -> Result<Option<(SeenValue, &'a [u8])>, NoMemory>
    requires { IsNarrow x.now.bits.width }
    ensures some { IfOk result (λ found. MatchOption found (Unit {0}) (λ read. IsValueOf x.now.bits.width x.now.ty read.0 × (text.now ≡ leaf_line h.now x.now read.0 ++ read.1.now))) }
    ensures each { IfOk result (λ found. (v : SeenValue) (rest : List ℕ) → IsValueOf x.now.bits.width x.now.ty v → text.now ≡ leaf_line h.now x.now v ++ rest → MatchOption found ⊥ (λ read. read.0 ≡ v)) }
{
    let mut line = Vec::new(alloc);
    append_before(alloc, &mut line, x)?;
    let Some(rest) = behind(text, &line) else {
        return Ok(None);
    };
    let value = value_read(x.bits.width, &x.ty, before_byte(rest, b' '));
    append_value(alloc, &mut line, x.bits.width, &x.ty, value)?;
    append_behind(&mut line, h, x)?;
    match behind(text, &line) {
        None => Ok(None),
        Some(rest) => Ok(Some((value, rest))),
    }
}
