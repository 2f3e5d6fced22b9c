//! White space and comments at the front of a text.

ghost use Rattle.std.specs.Prelude.{◌≡◌, ℕ, ◌≤◌, ◌<◌, length, not, IfSome};
ghost use Rattle.std.specs.List.{prefix_len};
ghost use Rattle.cxx_text.specs.Bytes.{is_line_end};
ghost use Rattle.cxx_text.specs.invariants.Front.{close_len, blank_len};

use crate::bytes::is_space;

// The bytes before the end of the line.
fn line_len(text: &[u8]) -> usize
    ensures value { result ≡ prefix_len (λ b. not (is_line_end b)) text.now }
    ensures within { result ≤ length text.now }
{
    text.iter().take_while(|b| **b != b'\n').count()
}

// The bytes up to and with the first `*/`.
fn close_len(text: &[u8]) -> Option<usize>
    ensures value { result ≡ close_len text.now }
    ensures within { IfSome result (λ n. n ≤ length text.now) }
{
    let mut rest = text;
    let mut len = 0;
    while let [a, b, ..] = rest {
        if *a == b'*' && *b == b'/' {
            return Some(len + 2);
        }
        let (_, after) = rest.split_at(1);
        rest = after;
        len += 1;
    }
    None
}

/// The length in bytes of the one byte of white space or the one comment at the front.
pub(crate) fn blank_len(text: &[u8]) -> Option<usize>
    ensures { result ≡ blank_len text.now }
{
    match text {
        [b'/', b'/', body @ ..] => Some(2 + line_len(body)),
        [b'/', b'*', body @ ..] => Some(2 + close_len(body)?),
        [b, ..] => is_space(*b).then_some(1),
        [] => None,
    }
}
