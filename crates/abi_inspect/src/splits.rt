//! Texts that are cut where they have a front or a byte.

ghost use Rattle.std.specs.Prelude.{◌≡◌, ◌++◌, ◌∷◌, ◌<◌, ◌≤◌, ℕ, List, Contains, MatchOption, length, slice_index};

/// What stands behind a front, and None exactly where the text does not begin with it. It takes no memory.
pub(crate) fn behind<'a>(text: &'a [u8], front: &[u8]) -> Option<&'a [u8]>
    ensures { MatchOption result ((rest : List ℕ) → text.now ≡ front.now ++ rest → ⊥) (λ rest. text.now ≡ front.now ++ rest.now) }
{
    if text.len() < front.len() {
        return None;
    }
    let (head, rest) = text.split_at(front.len());
    if head == front { Some(rest) } else { None }
}

/// The number of the first byte that is this one, and the length where there is none.
fn first_of(text: &[u8], byte: u8) -> usize
    ensures within { result ≤ length text.now }
    ensures before { (k : ℕ) → k < result → slice_index text.now k ≡ byte → ⊥ }
    ensures found { result < length text.now → slice_index text.now result ≡ byte }
{
    for (i, b) in text.iter().enumerate() {
        if *b == byte {
            return i;
        }
    }
    text.len()
}

/// What stands before the first byte that is this one, and what behind it; None exactly where the text has none. It takes no memory.
pub(crate) fn split_at_byte(text: &[u8], byte: u8) -> Option<(&[u8], &[u8])>
    ensures { MatchOption result (Contains text.now byte → ⊥) (λ parts. (text.now ≡ parts.0.now ++ byte ∷ parts.1.now) × (Contains parts.0.now byte → ⊥)) }
{
    let at = first_of(text, byte);
    if at == text.len() {
        return None;
    }
    let (front, back) = text.split_at(at);
    Some((front, &back[1..]))
}

/// What stands before the first byte that is this one, all of it where the text has none. It takes no memory.
pub(crate) fn before_byte(text: &[u8], byte: u8) -> &[u8]
    ensures { (front rest : List ℕ) → text.now ≡ front ++ byte ∷ rest → (Contains front byte → ⊥) → result.now ≡ front }
{
    match split_at_byte(text, byte) {
        Some((front, _)) => front,
        None => text,
    }
}
