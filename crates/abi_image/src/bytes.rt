//! Words as bytes.

ghost use Rattle.std.specs.Prelude.{◌≡◌, ◌+◌, ◌*◌, ◌++◌, IfOk, OnOk, length};
ghost use Rattle.std.specs.Int.{to_le_bytes, w64};
ghost use Rattle.byte_code.specs.Images.{word_at};
ghost use Rattle.abi_image.specs.declared.TheConstants.{BASE};
ghost use Rattle.abi_image.specs.invariants.Bytes.{PutsWords};
ghost use Rattle.abi_image.specs.invariants.Drafts.{HasDraftWords};

use crate::BASE;
use crate::draft::Draft;
use byte_code::ImageBytes;
use byteorder::{ByteOrder, LittleEndian};
use foundation::{NoMemory, Sequence};
use std::alloc::Global;

/// Puts the eight bytes of a word behind others, the lowest first.
fn push_word(bytes: &mut Vec<u8>, word: u64) -> Result<(), NoMemory>
    ensures { OnOk result (bytes.new.items ≡ bytes.old.items ++ to_le_bytes w64 word) }
{
    let mut eight = [0; 8];
    LittleEndian::write_u64(&mut eight, word);
    bytes.extend_from_slice(&eight)?;
    Ok(())
}

/// Puts the bytes of words behind others.
fn push_words(bytes: &mut Vec<u8>, words: &[u64]) -> Result<(), NoMemory>
    ensures { OnOk result (PutsWords bytes.old.items bytes.new.items words.now) }
{
    for word in words {
        push_word(bytes, *word)?;
    }
    Ok(())
}

/// The bytes of the words of a draft, from `BASE` on.
///
/// Errors: want of memory.
pub fn bytes_of(alloc: Global, draft: &Draft) -> Result<ImageBytes, NoMemory>
    requires { draft.now.records_at ≡ BASE + 8 * length draft.now.words.items }
    ensures base { IfOk result (λ image. image.base ≡ BASE) }
    ensures words { IfOk result (λ image. HasDraftWords (word_at image) draft.now) }
    ensures size { IfOk result (λ image. length image.bytes ≡ 8 * (length draft.now.words.items + length draft.now.records.items)) }
{
    let mut bytes = Vec::new(alloc);
    push_words(&mut bytes, &draft.words)?;
    push_words(&mut bytes, &draft.records)?;
    Ok(ImageBytes {
        bytes: Sequence::from_vec(bytes),
        base: BASE,
    })
}
