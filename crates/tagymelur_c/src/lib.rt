//! The whole program for C: one call, from words and the bytes of a source to a text and a status.
//!
//! `tagymelur_answer` is `run_cxxabi` over bytes in memory. It opens no file and keeps nothing between calls.
#![tactic(auto)]

ghost use Rattle.std.specs.Prelude.{ℕ, ◌≡◌, ◌<◌, ◌≤◌, ◌++◌, ◌⊎◌, List, [], length, take, IfOk, IsTrue};
ghost use Rattle.std.specs.Bool.{OnFalse};
ghost use Rattle.cxxabi_cmd.specs.Output.{texts_of};
ghost use Rattle.tagymelur_c.specs.Words.{words_in, words_behind};
ghost use Rattle.tagymelur_c.specs.Answered.{IsWhole, IsAnswerFront};

use cxxabi_cmd::{BytesSink, Status, SteadySource, run_cxxabi};
use std::alloc::Global;

/// The status where a word is no UTF-8.
const NO_WORDS: u8 = 9;

// Why there are no words.
#[derive(Clone, Copy, Debug, PartialEq, Eq)]
enum WordsStop {
    NotUtf8,
    NoMemory,
}

// The words that stand in bytes, each ended by a byte 0.
fn words_of(alloc: Global, bytes: &[u8]) -> Result<Vec<String>, WordsStop>
    ensures words { IfOk result (λ words. texts_of words.items ≡ words_in bytes.now) }
{
    let mut words = Vec::new(alloc);
    let mut begun = Vec::new(alloc);
    for &byte in bytes {
        if byte != 0 {
            let Ok(()) = begun.push(byte) else {
                return Err(WordsStop::NoMemory);
            };
            continue;
        }
        let Ok(word) = String::from_utf8(begun) else {
            return Err(WordsStop::NotUtf8);
        };
        let Ok(()) = words.push(word) else {
            return Err(WordsStop::NoMemory);
        };
        begun = Vec::new(alloc);
    }
    Ok(words)
}

// Puts the front of a text into a buffer, and says whether that is the whole text.
fn put_front(taken: &[u8], text: &mut [u8], written: &mut usize) -> bool
    ensures fits { written.new ≤ length text.old }
    ensures same_room { length text.new ≡ length text.old }
    ensures front { take written.new text.new ≡ take written.new taken.now }
    ensures short { OnFalse result (written.new < length taken.now) }
    ensures whole { IsTrue result → take written.new text.new ≡ taken.now }
{
    let count = taken.len().min(text.len());
    let (front, _) = text.split_at_mut(count);
    front.copy_from_slice(&taken[..count]);
    *written = count;
    count == taken.len()
}

/// Answers words and a source as the program does, and writes the text into the front of a buffer.
///
/// Each word ends with a byte 0. `written` is how many bytes of the buffer the text takes. The result is the exit
/// status of the program, 0 to 5; 7 where the text has no room in the buffer, 8 without memory, 9 where a word is no
/// UTF-8.
#[unsafe(no_mangle)]
pub extern "C" fn tagymelur_answer(
    alloc: Global,
    words: &[u8],
    source: &[u8],
    text: &mut [u8],
    written: &mut usize,
) -> u8
    // The text and the status are those of the program for these words and this source.
    ensures whole { result < 6 → IsWhole (words_in words.now) source.now result (take written.new text.new) }
    // Where there is too little room, the buffer has a front of that text.
    ensures front { result ≡ 7 → IsAnswerFront (words_in words.now) source.now (take written.new text.new) }
    // Without an answer nothing is written.
    ensures none { 7 < result → written.new ≡ 0 }
    ensures no_fault { (result < 6) ⊎ (6 < result) }
    ensures fits { written.new ≤ length text.old }
{
    *written = 0;
    let words = match words_of(alloc, words) {
        Ok(words) => words,
        Err(WordsStop::NotUtf8) => return NO_WORDS,
        Err(WordsStop::NoMemory) => return Status::NoMemory.code(),
    };
    let Ok(bytes) = Vec::from_slice(alloc, source) else {
        return Status::NoMemory.code();
    };
    let mut source = SteadySource::new(bytes);
    let mut sink = BytesSink::new(alloc, Vec::new(alloc));
    let Ok(()) = sink.reserve(text.len()) else {
        return Status::NoMemory.code();
    };
    let mut last = None;
    let status = run_cxxabi(alloc, &words, &mut source, &mut sink, &mut last);
    if put_front(sink.taken(), text, written) {
        status.code()
    } else {
        Status::WriteFault.code()
    }
}
