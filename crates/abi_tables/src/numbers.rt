//! Numbers of classes, each one past the limit on words where it is larger.

ghost use Rattle.std.specs.Prelude.{◌≡◌, ◌+◌, ◌<◌, ℕ, IfOk, List, if◌then◌else◌, min, length, get_or};
ghost use Rattle.std.specs.List.{sum_by};
ghost use Rattle.cxx_hierarchy.specs.declared.records.ClassId.{ClassId};
ghost use Rattle.cxx_hierarchy.specs.Classes.{Classes};
ghost use Rattle.cxx_subobject.specs.VirtualBases.{virtual_bases};
ghost use Rattle.cxx_subobject.specs.invariants.Counts.{own_bases, own_of};
ghost use Rattle.abi_sound.specs.Places.{places_of};
ghost use Rattle.abi_primary.specs.PrimaryBase.{is_direct_primary};
ghost use Rattle.abi_tables.specs.Counts.{most_words};
ghost use Rattle.abi_tables.specs.invariants.Weights.{AreNumbers, cut, number_by_class, side, sides, sides_of};

use abi_primary::Primary;
use abi_sound::SoundLayout;
use cxx_hierarchy::{Base, ClassId, Hierarchy};
use foundation::NoMemory;
use std::alloc::Global;

/// The words that all groups and VTTs of a source may have.
pub(crate) const MOST_WORDS: u32 = 1048576;

/// A sum, or one past the limit where it is larger.
pub(crate) fn capped(one: u32, other: u32) -> u32
    ensures { result ≡ cut (one + other) }
{
    one.saturating_add(other).min(MOST_WORDS + 1)
}

/// The number of a class, and 0 behind the end.
pub(crate) fn number_of(numbers: &[u32], c: ClassId) -> u32
    ensures { result ≡ number_by_class numbers.now c }
{
    let number = c.0 as usize;
    if number < numbers.len() {
        numbers[number]
    } else {
        0
    }
}

/// Whether the primary base is this one, and not virtual.
fn is_direct(primary: Primary, b: ClassId) -> bool
    ensures { result ≡ is_direct_primary primary b }
{
    match primary {
        Primary::None => false,
        Primary::Direct(d) => d.0 == b.0,
        Primary::Virtual(_) => false,
    }
}

/// What a direct base of a class weighs as the head of a chain: nothing where it is virtual, or the primary base.
fn side<L: SoundLayout>(
    h: &Hierarchy,
    layout: &L,
    k: ClassId,
    heads: &[u32],
    base: &Base<ClassId>,
) -> u32
    requires layout { L.lays_out layout.now h.now }
    requires known { k.0 < length h.now }
    ensures { result ≡ side (places_of h.now (L.rows layout.now)) (number_by_class heads.now) k base.now }
{
    if base.is_virtual || is_direct(layout.layout(k).primary, base.class) {
        0
    } else {
        number_of(heads, base.class)
    }
}

/// What these bases of a class weigh as heads of chains.
fn side_sum<L: SoundLayout>(
    h: &Hierarchy,
    layout: &L,
    k: ClassId,
    heads: &[u32],
    bases: &[Base<ClassId>],
) -> u32
    requires layout { L.lays_out layout.now h.now }
    requires known { k.0 < length h.now }
    ensures { result ≡ cut (sum_by (side (places_of h.now (L.rows layout.now)) (number_by_class heads.now) k) bases.now) }
{
    let mut sum = 0;
    for base in bases {
        sum = capped(sum, side(h, layout, k, heads, base));
    }
    sum
}

/// What a base has outside its virtual bases: nothing where it is itself a virtual base.
fn own_value(numbers: &[u32], base: &Base<ClassId>) -> u32
    ensures { result ≡ (if base.now.is_virtual then 0 else number_by_class numbers.now base.now.class) }
{
    if base.is_virtual {
        0
    } else {
        number_of(numbers, base.class)
    }
}

/// What the non-virtual bases among these have.
fn base_sum(numbers: &[u32], bases: &[Base<ClassId>]) -> u32
    ensures { result ≡ cut (own_bases (number_by_class numbers.now) bases.now) }
{
    let mut sum = 0;
    for base in bases {
        sum = capped(sum, own_value(numbers, base));
    }
    sum
}

/// What these classes have.
fn class_sum(numbers: &[u32], classes: &[ClassId]) -> u32
    ensures { result ≡ cut (sum_by (number_by_class numbers.now) classes.now) }
{
    let mut sum = 0;
    for c in classes {
        sum = capped(sum, number_of(numbers, *c));
    }
    sum
}

/// For each class what its direct bases weigh as heads of chains.
///
/// Errors: want of memory.
fn side_sums<L: SoundLayout>(
    alloc: Global,
    h: &Hierarchy,
    layout: &L,
    heads: &[u32],
) -> Result<Vec<u32>, NoMemory>
    requires { L.lays_out layout.now h.now }
    ensures { IfOk result (λ sums. (f : ClassId → ℕ) → AreNumbers h.now f heads.now → AreNumbers h.now (sides h.now (places_of h.now (L.rows layout.now)) f) sums.items) }
{
    h.keeps();
    let mut sums = Vec::new(alloc);
    for n in 0..h.len() {
        let class = h.class(ClassId(n));
        let sum = side_sum(h, layout, ClassId(n), heads, class.bases.as_slice());
        sums.push(sum)?;
    }
    Ok(sums)
}

/// For each class what it weighs with all that lies in it outside its virtual bases.
///
/// Errors: want of memory.
pub(crate) fn own_sums(alloc: Global, h: &Hierarchy, weights: &[u32]) -> Result<Vec<u32>, NoMemory>
    ensures { IfOk result (λ sums. (f : ClassId → ℕ) → AreNumbers h.now f weights.now → AreNumbers h.now (own_of f h.now) sums.items) }
{
    h.keeps();
    let mut sums = Vec::new(alloc);
    for n in 0..h.len() {
        let class = h.class(ClassId(n));
        let below = base_sum(&sums, class.bases.as_slice());
        let sum = capped(number_of(weights, ClassId(n)), below);
        sums.push(sum)?;
    }
    Ok(sums)
}

/// For each class what the heads of chains weigh that lie in it outside its virtual bases, and are not the class itself.
///
/// Errors: want of memory.
pub(crate) fn sides_of<L: SoundLayout>(
    alloc: Global,
    h: &Hierarchy,
    layout: &L,
    heads: &[u32],
) -> Result<Vec<u32>, NoMemory>
    requires { L.lays_out layout.now h.now }
    ensures { IfOk result (λ sums. (f : ClassId → ℕ) → AreNumbers h.now f heads.now → AreNumbers h.now (sides_of h.now (places_of h.now (L.rows layout.now)) f) sums.items) }
{
    let sides = side_sums(alloc, h, layout, heads)?;
    let sums = own_sums(alloc, h, &sides)?;
    Ok(sums)
}

/// For each class one number of its, and another of each virtual base.
///
/// Errors: want of memory.
pub(crate) fn shared_sums<L: SoundLayout>(
    alloc: Global,
    h: &Hierarchy,
    layout: &L,
    own: &[u32],
    shared: &[u32],
) -> Result<Vec<u32>, NoMemory>
    requires { L.lays_out layout.now h.now }
    ensures { IfOk result (λ sums. (f g : ClassId → ℕ) → AreNumbers h.now f own.now → AreNumbers h.now g shared.now → AreNumbers h.now (λ c. f c + sum_by g (virtual_bases h.now c)) sums.items) }
{
    h.keeps();
    let mut sums = Vec::new(alloc);
    for n in 0..h.len() {
        let below = class_sum(shared, layout.layout(ClassId(n)).virtual_bases.as_slice());
        let sum = capped(number_of(own, ClassId(n)), below);
        sums.push(sum)?;
    }
    Ok(sums)
}

/// For each class the sum of two numbers.
///
/// Errors: want of memory.
pub(crate) fn pair_sums(
    alloc: Global,
    h: &Hierarchy,
    one: &[u32],
    other: &[u32],
) -> Result<Vec<u32>, NoMemory>
    ensures { IfOk result (λ sums. (f g : ClassId → ℕ) → AreNumbers h.now f one.now → AreNumbers h.now g other.now → AreNumbers h.now (λ c. f c + g c) sums.items) }
{
    let mut sums = Vec::new(alloc);
    for n in 0..h.len() {
        let sum = capped(number_of(one, ClassId(n)), number_of(other, ClassId(n)));
        sums.push(sum)?;
    }
    Ok(sums)
}
