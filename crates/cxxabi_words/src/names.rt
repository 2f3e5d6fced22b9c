//! The names that a word says: of a class, of a member, and of the class that has it.

ghost use Rattle.std.specs.Prelude.{◌≡◌, option_map};
ghost use Rattle.std.specs.List.{list_all};
ghost use Rattle.cxx_text.specs.Bytes.{begins, is_letter, is_word_byte};
ghost use Rattle.cxxabi_words.specs.invariants.Asked.{cut_at, cut_scope, is_name_word};

use cxx_text::MOST_WORD_BYTES;

// Whether a byte is a letter or `_`.
fn is_letter(byte: u8) -> bool
    ensures { result ≡ is_letter byte }
{
    (b'A' <= byte && byte <= b'Z') || (b'a' <= byte && byte <= b'z') || byte == b'_'
}

// Whether a byte may stand in a name.
fn is_word_byte(byte: u8) -> bool
    ensures { result ≡ is_word_byte byte }
{
    is_letter(byte) || (b'0' <= byte && byte <= b'9')
}

// Whether a word begins as a name does.
fn begins_name(word: &[u8]) -> bool
    ensures { result ≡ begins is_letter word.now }
{
    match word.first() {
        Some(first) => is_letter(*first),
        None => false,
    }
}

// Whether all the bytes of a word may stand in a name.
fn has_word_bytes(word: &str) -> bool
    ensures { result ≡ list_all is_word_byte word.now }
{
    word.bytes().all(|b| is_word_byte(b))
}

// Whether a word is a name of the source: a letter or `_`, and then letters, digits and `_`, no longer than a word may be.
#[tactic(auto, unfolding(crate::specs::invariants::Asked::is_name_word))]
pub(crate) fn is_name(word: &str) -> bool
    ensures { result ≡ is_name_word word.now }
{
    if !begins_name(word.as_bytes()) {
        return false;
    }
    if !has_word_bytes(word) {
        return false;
    }
    word.len() <= MOST_WORD_BYTES
}

// What stands before the first `@` of a word and behind it, and None where there is none.
pub(crate) fn cut_at(word: &str) -> Option<(&str, &str)>
    ensures { option_map (λ p. (p.0.now, p.1.now)) result ≡ cut_at 64 word.now }
{
    word.split_once('@')
}

// The class and the member of a qualified name: what stands before its first `::` and behind it, and None where there is none.
pub(crate) fn cut_scope(word: &str) -> Option<(&str, &str)>
    ensures { option_map (λ p. (p.0.now, p.1.now)) result ≡ cut_scope word.now }
{
    let (class, rest) = word.split_once(':')?;
    let member = rest.strip_prefix(':')?;
    Some((class, member))
}
