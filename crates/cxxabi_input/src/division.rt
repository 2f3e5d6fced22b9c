//! Where an input is divided.

ghost use Rattle.std.specs.Prelude.{◌≡◌, ◌≤◌, None, Some, MatchOption, length};
ghost use Rattle.std.specs.List.{count_by, position_or_len};
ghost use Rattle.cxx_text.specs.Bytes.{is_line_end};
ghost use Rattle.cxxabi_input.specs.Division.{division, ends_inside, line_count};
ghost use Rattle.foundation.specs.Limits.{source_limit};

/// What stands before the first line of an input that is `program`, and what stands behind that line.
#[derive(Clone, Copy)]
pub struct Parts<'a> {
    pub front: &'a [u8],
    pub source: &'a [u8],
}

// How many bytes stand before the first line feed, or all of them.
fn line_length(text: &[u8]) -> usize
    ensures place { result ≡ position_or_len is_line_end text.now }
    ensures within { result ≤ length text.now }
{
    let mut length = 0;
    while length < text.len() && text[length] != b'\n' {
        length += 1;
    }
    length
}

/// The parts of an input, and None exactly where no line of it is `program`. It takes no memory.
pub fn divide(input: &[u8]) -> Option<Parts<'_>>
    ensures { MatchOption result (division input.now ≡ None) (λ parts. division input.now ≡ Some (parts.front.now, parts.source.now)) }
{
    let mut at = 0;
    loop {
        let rest = &input[at..];
        let length = line_length(rest);
        let line = &rest[..length];
        if line == b"program".as_slice() {
            let next = (at + length + 1).min(input.len());
            return Some(Parts {
                front: &input[..at],
                source: &input[next..],
            });
        }
        if length == rest.len() {
            return None;
        }
        at += length + 1;
    }
}

// How many line feeds a text has.
fn line_ends(text: &[u8]) -> u32
    requires { length text.now ≤ source_limit }
    ensures { result ≡ count_by is_line_end text.now }
{
    text.iter().filter(|b| **b == b'\n').count() as u32
}

// Whether a text ends inside a line.
fn ends_inside(text: &[u8]) -> bool
    ensures { result ≡ ends_inside text.now }
{
    match text.last() {
        Some(last) => *last != b'\n',
        None => false,
    }
}

/// How many lines an input of at most 262,144 bytes has; a last line without a line feed counts. It takes no memory.
#[tactic(auto, unfolding(crate::specs::Division::line_count))]
pub fn line_count(input: &[u8]) -> u32
    requires { length input.now ≤ source_limit }
    ensures { result ≡ line_count input.now }
{
    let ends = line_ends(input);
    if ends_inside(input) { ends + 1 } else { ends }
}
