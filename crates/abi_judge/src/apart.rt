//! Whether things share a bit, or a class and a place.

ghost use Rattle.std.specs.Prelude.{◌≡◌, ◌≤◌, ◌<◌, ◌-◌, ℕ, ◌↔◌, IsTrue, IfOk, true};
ghost use Rattle.std.specs.List.{filter_map, list_all};
ghost use Rattle.std.specs.List.Sorted.{IsNonDecreasingBy, IsSorted};
ghost use Rattle.abi_sound.specs.Sound.{most_class_bytes};
ghost use Rattle.abi_judge.specs.declared.apart.BitSpan.{BitSpan};
ghost use Rattle.abi_judge.specs.invariants.Things.{fits_in_size, span_in, key_in};
ghost use Rattle.abi_judge.specs.invariants.Apart.{ShareNoBit, AreDistinct, AreLong, key_cmp};

use crate::things::Thing;
use foundation::NoMemory;
use std::alloc::Global;

/// So many bits from one on, counted from the first bit of an object.
#[derive(Clone, Copy)]
pub(crate) struct BitSpan {
    pub start: u64,
    pub length: u64,
}

/// The bits that a thing inside a size shares with no other: those of a leaf, and of each chain one virtual pointer.
fn span_of(thing: &Thing) -> Option<BitSpan>
    requires { (size : ℕ) × (size ≤ most_class_bytes) × (fits_in_size size thing.now ≡ true) }
    ensures { result ≡ span_in thing.now }
{
    match thing {
        Thing::Leaf(leaf) => {
            let length = match leaf.width {
                None => 8 * leaf.size as u64,
                Some(n) => n as u64,
            };
            Some(BitSpan {
                start: 8 * leaf.place + leaf.first as u64,
                length,
            })
        }
        Thing::Part(part) => {
            if part.is_dynamic && part.is_top {
                return Some(BitSpan {
                    start: 8 * part.place,
                    length: 64,
                });
            }
            None
        }
    }
}

/// The bits of all things inside a size.
fn spans_of(alloc: Global, things: &[Thing], size: u32) -> Result<Vec<BitSpan>, NoMemory>
    requires size { size ≤ most_class_bytes }
    requires inside { list_all (fits_in_size size) things.now ≡ true }
    ensures { IfOk result (λ spans. spans.items ≡ filter_map span_in things.now) }
{
    let mut spans = Vec::new(alloc);
    for thing in things {
        match span_of(thing) {
            Some(span) => spans.push(span)?,
            None => {}
        }
    }
    Ok(spans)
}

/// Whether a span goes on into another, which does not begin before it.
fn goes_into(span: BitSpan, next: BitSpan) -> bool
    ensures { IsTrue result ↔ (next.start - span.start < span.length) }
{
    next.start.saturating_sub(span.start) < span.length
}

/// Whether of spans in the order of their starts one goes on into the next.
fn goes_on(spans: &[BitSpan]) -> bool
    requires sorted { IsNonDecreasingBy (λ (span : BitSpan). span.start) spans.now }
    requires long { AreLong spans.now }
    ensures { IsTrue result ↔ (ShareNoBit spans.now → ⊥) }
{
    for i in 1..spans.len() {
        if goes_into(spans[i - 1], spans[i]) {
            return true;
        }
    }
    false
}

/// Whether two things inside a size share a bit that is of one alone.
///
/// Errors: want of memory.
pub(crate) fn shares_bits(alloc: Global, things: &[Thing], size: u32) -> Result<bool, NoMemory>
    requires size { size ≤ most_class_bytes }
    requires inside { list_all (fits_in_size size) things.now ≡ true }
    requires long { AreLong (filter_map span_in things.now) }
    ensures { IfOk result (λ shares. IsTrue shares ↔ (ShareNoBit (filter_map span_in things.now) → ⊥)) }
{
    let mut spans = spans_of(alloc, things, size)?;
    spans.sort_unstable_by_key(|span| span.start);
    Ok(goes_on(&spans))
}

/// The class and the place of a class subobject.
fn key_of(thing: &Thing) -> Option<(u32, u64)>
    ensures { result ≡ key_in thing.now }
{
    match thing {
        Thing::Leaf(_) => None,
        Thing::Part(part) => Some((part.class.0, part.place)),
    }
}

/// The classes and the places of all class subobjects.
fn keys_of(alloc: Global, things: &[Thing]) -> Result<Vec<(u32, u64)>, NoMemory>
    ensures { IfOk result (λ keys. keys.items ≡ filter_map key_in things.now) }
{
    let mut keys = Vec::new(alloc);
    for thing in things {
        match key_of(thing) {
            Some(key) => keys.push(key)?,
            None => {}
        }
    }
    Ok(keys)
}

/// Whether two keys are one.
fn is_same_key(one: (u32, u64), other: (u32, u64)) -> bool
    ensures { IsTrue result ↔ ((one.0 ≡ other.0) × (one.1 ≡ other.1)) }
{
    one.0 == other.0 && one.1 == other.1
}

/// Whether of keys in order one is the next.
fn repeats(keys: &[(u32, u64)]) -> bool
    requires { IsSorted key_cmp keys.now }
    ensures { IsTrue result ↔ (AreDistinct keys.now → ⊥) }
{
    for i in 1..keys.len() {
        if is_same_key(keys[i - 1], keys[i]) {
            return true;
        }
    }
    false
}

/// Whether two subobjects of one class lie at one place.
///
/// Errors: want of memory.
pub(crate) fn has_twice(alloc: Global, things: &[Thing]) -> Result<bool, NoMemory>
    ensures { IfOk result (λ twice. IsTrue twice ↔ (AreDistinct (filter_map key_in things.now) → ⊥)) }
{
    let mut keys = keys_of(alloc, things)?;
    keys.sort_unstable();
    Ok(repeats(&keys))
}
