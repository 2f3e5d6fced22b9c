//! How many records of bases a cast with a hint reads.

ghost use Rattle.std.specs.Prelude.{◌≡◌, ◌<◌, ◌+◌, ◌^◌, Some, IfSome, IsTrue};
ghost use Rattle.byte_code.specs.Images.{word_at};
ghost use Rattle.byte_code.specs.Records.{IsInfoAt, HasBaseRecord};
ghost use Rattle.abi_dyncast.specs.Casts.{room};
ghost use Rattle.worked_cases.specs.Pairs.{IsPair, IsSecondTable};

use abi_dyncast::{WorkList, cast_hinted};
use byte_code::{BaseReader, BaseRecord, ImageBytes, InfoRecord};
use byte_memory::{FlatMemory, Memory};
use std::alloc::Global;

// The bytes of an object of the class.
const OBJECT_SIZE: u64 = 32;
// How far the second base lies behind the start of the object.
const SECOND_PLACE: u64 = 16;
// The numbers of a public base at the start, and of one so far behind it: eight bits of flags, and the place above them.
const AT_START: i64 = 2;

const BEHIND: i64 = 4098;
// The word of the way from the second base to the start.
const BACK: u64 = 18_446_744_073_709_551_600;
// The tables of a class are looked for in so many words.
const TABLE_WORDS: u64 = 64;

/// The type information of a class with two bases: where its record stands, that record, those of the bases, and those of their
/// classes.
#[derive(Clone, Copy, Debug, PartialEq, Eq)]
pub struct Pair {
    pub info: u64,
    pub whole: InfoRecord,
    pub first: BaseRecord,
    pub second: BaseRecord,
    pub first_class: InfoRecord,
    pub second_class: InfoRecord,
}

// The word of 32 bits at an address.
fn small_at(image: &ImageBytes, at: u64) -> Option<u32>
    ensures { IfSome result (λ word. word_at image.now at ≡ Some word) }
{
    let word = image.number(at)?;
    if word < 1 << 32 {
        Some(word as u32)
    } else {
        None
    }
}

// The record of a class at an address; none where none stands there.
fn class_at(image: &ImageBytes, at: u64) -> Option<InfoRecord>
    ensures { IfSome result (λ info. IsInfoAt (word_at image.now) at info) }
{
    if at > 1 << 62 {
        return None;
    }
    let class = small_at(image, at)?;
    let flags = small_at(image, at + 8)?;
    let bases = small_at(image, at + 16)?;
    let first = image.number(at + 24)?;
    Some(InfoRecord {
        class,
        flags,
        bases,
        first,
    })
}

// The record of a base at an address, where it has these flags and this place; none where no such record stands there.
fn base_at(image: &ImageBytes, at: u64, offset_flags: i64) -> Option<BaseRecord>
    ensures there { IfSome result (λ base. HasBaseRecord (word_at image.now) at base) }
    ensures number { IfSome result (λ base. base.offset_flags ≡ offset_flags) }
{
    if at > 1 << 62 {
        return None;
    }
    let info = image.number(at)?;
    let _word = image.number(at + 8)?;
    if image.word(at + 8) != offset_flags {
        return None;
    }
    Some(BaseRecord { info, offset_flags })
}

// The record of a class at an address whose number is below another and which has no base; none where no such record stands there.
fn end_at(image: &ImageBytes, at: u64, below: u32) -> Option<InfoRecord>
    ensures there { IfSome result (λ info. IsInfoAt (word_at image.now) at info) }
    ensures bases { IfSome result (λ info. info.bases ≡ 0) }
    ensures class { IfSome result (λ info. info.class < below) }
{
    let info = class_at(image, at)?;
    if info.bases == 0 && info.class < below {
        Some(info)
    } else {
        None
    }
}

// The type information of a class with two bases, whose record stands at an address.
fn pair_at(image: &ImageBytes, info: u64) -> Option<Pair>
    ensures { IfSome result (λ pair. IsPair (word_at image.now) pair) }
{
    let whole = class_at(image, info)?;
    if whole.bases != 2 || whole.first > 1 << 61 {
        return None;
    }
    let first = base_at(image, whole.first, AT_START)?;
    let second = base_at(image, whole.first + 16, BEHIND)?;
    let first_class = end_at(image, first.info, whole.class)?;
    let second_class = end_at(image, second.info, whole.class)?;
    Some(Pair {
        info,
        whole,
        first,
        second,
        first_class,
        second_class,
    })
}

// Whether this is the address point of the table that serves the second base.
fn is_second_table(image: &ImageBytes, pair: &Pair, point: u64) -> bool
    ensures { IsTrue result → IsSecondTable (word_at image.now) pair.now point }
{
    if point < 16 || point > pair.whole.first {
        return false;
    }
    image.number(point - 16) == Some(BACK) && image.number(point - 8) == Some(pair.info)
}

// The address point of the table that serves the second base, among the words from an address on.
fn second_table(image: &ImageBytes, pair: &Pair, from: u64) -> Option<u64>
    ensures { IfSome result (λ point. IsSecondTable (word_at image.now) pair.now point) }
{
    for n in 0..TABLE_WORDS {
        let point = from.saturating_add(8 * n);
        if is_second_table(image, pair, point) {
            return Some(point);
        }
    }
    None
}

// How many records of bases are read by the cast from the second base of an object that starts at an address to the object's class, with
// this hint; none where the cast leads elsewhere than to the object, or where the virtual pointer of that base is another.
fn visits_over<M: Memory>(
    image: &ImageBytes,
    pair: &Pair,
    point: u64,
    memory: &M,
    work: &mut WorkList,
    start: u64,
) -> Option<u64>
    requires pair { IsPair (word_at image.now) pair.now }
    requires table { IsSecondTable (word_at image.now) pair.now point }
    requires room { room work.old ≡ 3 }
    requires low { start < 2 ^ 62 }
{
    let at = start + SECOND_PLACE;
    let Ok(pointer) = memory.load(at, 8) else {
        return None;
    };
    if pointer != point {
        return None;
    }
    let mut reader = BaseReader::new(image);
    let class = pair.second_class.class;
    let target = pair.whole.class;
    let found = cast_hinted(
        &mut reader,
        memory,
        work,
        at,
        class,
        target,
        SECOND_PLACE as i64,
    );
    if found == Some(start) {
        Some(reader.visits())
    } else {
        None
    }
}

// The same of an object of which nothing is set but the virtual pointer of that base; none without memory.
fn visits_of(alloc: Global, image: &ImageBytes, pair: &Pair, point: u64) -> Option<u64>
    requires pair { IsPair (word_at image.now) pair.now }
    requires table { IsSecondTable (word_at image.now) pair.now point }
{
    let mut memory = FlatMemory::new(alloc);
    let Ok(start) = memory.open(OBJECT_SIZE) else {
        return None;
    };
    let Ok(()) = memory.store(start + SECOND_PLACE, 8, point) else {
        return None;
    };
    let Ok(mut work) = WorkList::reserve(alloc, 3) else {
        return None;
    };
    visits_over(image, pair, point, &memory, &mut work, start)
}

/// How many records of bases are read by the cast from the second base of a whole object of a class to that class, with the hint that the
/// base lies 16 bytes behind the start; none where the class has no such base, or without memory.
pub fn hinted_visits(alloc: Global, image: &ImageBytes, class: u32) -> Option<u64> {
    let point = image.number(image.base.saturating_add(16 * class as u64))?;
    let info = image.number(point.saturating_sub(8))?;
    let pair = pair_at(image, info)?;
    let table = second_table(image, &pair, point)?;
    visits_of(alloc, image, &pair, table)
}
