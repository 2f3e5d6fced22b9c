//! Where the parts of an image stand.

ghost use Rattle.std.specs.Prelude.{◌≡◌, ◌<◌, ◌≤◌, ◌+◌, ◌*◌, ◌^◌, IfOk, length, map};
ghost use Rattle.abi_slots.specs.Images.{all_words, info_bases};
ghost use Rattle.abi_image.specs.declared.TheConstants.{BASE};
ghost use Rattle.abi_image.specs.invariants.Drafts.{group_size, vtt_size, info_size, sum_of_sizes};
ghost use Rattle.abi_image.specs.invariants.Parts.{IsRegion};

use abi_slots::{Group, Table, TypeInfo, VttList};
use foundation::NoMemory;
use std::alloc::Global;

/// Where things stand one after the other, and the address behind them.
#[derive(Drop)]
pub struct Region {
    pub at: Vec<u64>,
    pub end: u64,
}

/// The address behind so many words.
pub fn behind(at: u64, words: usize) -> u64
    requires { at + 8 * words < 2 ^ 64 }
    ensures { result ≡ at + 8 * words }
{
    at + 8 * words as u64
}

/// Where things that take so many words each stand, one after the other.
pub fn region_of(alloc: Global, start: u64, sizes: &[usize]) -> Result<Region, NoMemory>
    requires low { BASE ≤ start }
    requires room { start + 8 * sum_of_sizes sizes.now < 2 ^ 64 }
    ensures { IfOk result (IsRegion start sizes.now) }
{
    let mut at = Vec::new(alloc);
    let mut end = start;
    for size in sizes {
        at.push(end)?;
        end = behind(end, *size);
    }
    Ok(Region { at, end })
}

/// The number of words of tables.
fn words_in(tables: &[Table]) -> usize
    requires { length (all_words tables.now) < 2 ^ 32 }
    ensures { result ≡ length (all_words tables.now) }
{
    let mut words = 0;
    for table in tables {
        words += table.words.len();
    }
    words
}

/// How many words each group takes.
pub fn group_sizes(alloc: Global, groups: &[Group]) -> Result<Vec<usize>, NoMemory>
    requires { sum_of_sizes (map group_size groups.now) < 2 ^ 32 }
    ensures { IfOk result (λ sizes. sizes.items ≡ map group_size groups.now) }
{
    let mut sizes = Vec::new(alloc);
    for group in groups {
        sizes.push(words_in(group.tables.as_slice()))?;
    }
    Ok(sizes)
}

/// How many words each VTT takes.
pub fn vtt_sizes(alloc: Global, vtts: &[VttList]) -> Result<Vec<usize>, NoMemory>
    ensures { IfOk result (λ sizes. sizes.items ≡ map vtt_size vtts.now) }
{
    let mut sizes = Vec::new(alloc);
    for vtt in vtts {
        sizes.push(vtt.len())?;
    }
    Ok(sizes)
}

/// How many direct bases a record lists.
pub fn base_count(info: &TypeInfo) -> usize
    ensures { result ≡ length (info_bases info.now) }
{
    match info {
        TypeInfo::Plain => 0,
        TypeInfo::Single(_) => 1,
        TypeInfo::Many(_, bases) => bases.len(),
    }
}

/// How many words the record of a class takes.
fn info_size(info: &TypeInfo) -> usize
    requires { info_size info.now < 2 ^ 32 }
    ensures { result ≡ info_size info.now }
{
    4 + 2 * base_count(info)
}

/// How many words the record of each class takes.
pub fn info_sizes(alloc: Global, infos: &[TypeInfo]) -> Result<Vec<usize>, NoMemory>
    requires { sum_of_sizes (map info_size infos.now) < 2 ^ 32 }
    ensures { IfOk result (λ sizes. sizes.items ≡ map info_size infos.now) }
{
    let mut sizes = Vec::new(alloc);
    for info in infos {
        sizes.push(info_size(info))?;
    }
    Ok(sizes)
}
