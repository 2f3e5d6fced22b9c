//! The parts of an object, and the edges from a part to those of its direct bases.

ghost use Rattle.std.specs.Prelude.{◌≡◌, ℕ, ◌<◌, true, IsSome};
ghost use Rattle.byte_memory.specs.Store.{Store};
ghost use Rattle.byte_code.specs.Images.{word_at};
ghost use Rattle.byte_code.specs.Readers.{image_of, visits_of, raised};
ghost use Rattle.byte_code.specs.Records.{IsTableWord};
ghost use Rattle.abi_dyncast.specs.Graph.{moved};
ghost use Rattle.abi_dyncast.specs.Graph.{graph_of, word_in, pointer_at, info_at, has_virtual_flag, is_public, offset_word, distance_word, vbase_at, edge_by};
ghost use Rattle.abi_dyncast.specs.Casts.{CanStep};

use byte_code::{BaseReader, BaseRecord, ImageBytes, InfoRecord};
use byte_memory::Memory;

/// A part of an object: its address, and the address of the type information of its class.
#[derive(Clone, Copy, Debug, PartialEq, Eq)]
pub struct TypedPart {
    pub at: u64,
    pub info: u64,
}

/// The way from a part to that of a direct base.
#[derive(Clone, Copy, Debug, PartialEq, Eq)]
pub struct Edge {
    pub part: TypedPart,
    pub is_public: bool,
}

/// The virtual pointer at an address, 0 where none can be loaded.
pub(crate) fn pointer<M: Memory>(memory: &M, at: u64) -> u64
    ensures { result ≡ pointer_at (M.meaning memory.now) at }
{
    match memory.load(at, 8) {
        Ok(word) => word,
        Err(_) => 0,
    }
}

/// The word at an address of the image, 0 where none stands.
pub(crate) fn word(image: &ImageBytes, at: u64) -> u64
    ensures { result ≡ word_in (word_at image.now at) }
{
    match image.number(at) {
        Some(word) => word,
        None => 0,
    }
}

/// The word of a table at an address.
pub(crate) fn table_word(reader: &BaseReader<'_>, at: u64) -> u64
    requires there { IsSome (word_at (image_of reader.now) at) }
    requires table { IsTableWord (word_at (image_of reader.now)) at }
    ensures { result ≡ word_in (word_at (image_of reader.now) at) }
{
    reader.word(at).cast_unsigned()
}

/// An address moved by the word of a distance, as addresses wrap.
pub(crate) fn moved(at: u64, word: u64) -> u64
    ensures { result ≡ moved at word }
{
    at.wrapping_add(word)
}

/// Whether a base is virtual.
pub(crate) fn is_virtual(base: BaseRecord) -> bool
    ensures { result ≡ has_virtual_flag base }
{
    base.offset_flags.cast_unsigned() % 2 == 1
}

fn is_public(base: BaseRecord) -> bool
    ensures { result ≡ is_public base }
{
    base.offset_flags.cast_unsigned() / 2 % 2 == 1
}

/// The offset behind the flags of a base, as a word.
pub(crate) fn offset_word(base: BaseRecord) -> u64
    ensures { result ≡ offset_word base }
{
    base.offset_flags.div_euclid(256).cast_unsigned()
}

/// How far a base lies from the part at an address, as a word.
fn distance_word<M: Memory>(reader: &BaseReader<'_>, memory: &M, at: u64, base: BaseRecord) -> u64
    requires there { has_virtual_flag base ≡ true → IsSome (word_at (image_of reader.now) (vbase_at (M.meaning memory.now) at base)) }
    requires table { has_virtual_flag base ≡ true → IsTableWord (word_at (image_of reader.now)) (vbase_at (M.meaning memory.now) at base) }
    ensures { result ≡ distance_word (word_at (image_of reader.now)) (M.meaning memory.now) at base }
{
    let offset = offset_word(base);
    if is_virtual(base) {
        table_word(reader, moved(pointer(memory, at), offset))
    } else {
        offset
    }
}

/// The edge to the base of this number, by the type information of the class of a part.
pub(crate) fn edge_at<M: Memory>(
    reader: &mut BaseReader<'_>,
    memory: &M,
    part: TypedPart,
    info: InfoRecord,
    number: u32,
) -> Edge
    requires info { info ≡ info_at (word_at (image_of reader.old)) part.info }
    requires number { number < info.bases }
    requires step { CanStep (word_at (image_of reader.old)) (M.meaning memory.now) part number }
    ensures edge { result ≡ (graph_of (word_at (image_of reader.old)) (M.meaning memory.now)).edge part number }
    ensures visits { visits_of reader.new ≡ raised (visits_of reader.old) }
    ensures image { image_of reader.new ≡ image_of reader.old }
{
    let base = reader.base(&info, number);
    Edge {
        part: TypedPart {
            at: moved(part.at, distance_word(reader, memory, part.at, base)),
            info: base.info,
        },
        is_public: is_public(base),
    }
}
