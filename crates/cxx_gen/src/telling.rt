//! What is printed of the run of a generated source.

ghost use Rattle.std.specs.Prelude.{◌≡◌, IfOk, not};
ghost use Rattle.std.specs.List.{before_last, suffix_len};
ghost use Rattle.cxx_gen.specs.Summary.{is_line_feed, last_line, lines_in, summary};

use crate::piece::{append, append_number};
use foundation::NoMemory;
use std::alloc::Global;

/// The number of lines of a text, each of which ends with a line feed.
pub fn count_lines(text: &[u8]) -> usize
    ensures { result ≡ lines_in text.now }
{
    let mut lines = 0;
    for byte in text {
        if *byte == b'\n' {
            lines += 1;
        }
    }
    lines
}

/// The number of bytes behind the last line feed of a text, all of them where it has none.
fn bytes_behind(text: &[u8]) -> usize
    ensures { result ≡ suffix_len (λ byte. not (is_line_feed byte)) text.now }
{
    let mut start = text.len();
    while start > 0 && text[start - 1] != b'\n' {
        start -= 1;
    }
    text.len() - start
}

/// The bytes before the last line feed of a text, none where it has none.
fn before_line_feed(text: &[u8]) -> &[u8]
    ensures { result.now ≡ before_last is_line_feed text.now }
{
    let end = text.len() - bytes_behind(text);
    &text[..end.saturating_sub(1)]
}

/// The last line of a text, without its line feed; bytes behind the last line feed are no line.
pub fn last_line(text: &[u8]) -> &[u8]
    ensures { result.now ≡ last_line text.now }
{
    let lines = before_line_feed(text);
    &lines[lines.len() - bytes_behind(lines)..]
}

/// The summary of a run: how many classes its source has, how many steps it took, how many lines `main` printed, and
/// the last of these lines, without its line feed.
///
/// Errors: want of memory.
pub fn summary(
    alloc: Global,
    classes: u32,
    steps: u32,
    lines: usize,
    last: &[u8],
) -> Result<Vec<u8>, NoMemory>
    ensures { IfOk result (λ text. text.items ≡ summary classes steps lines last.now) }
{
    let mut text = Vec::new(alloc);
    append(&mut text, b"classes ")?;
    append_number(alloc, &mut text, classes as usize)?;
    append(&mut text, b"\nsteps ")?;
    append_number(alloc, &mut text, steps as usize)?;
    append(&mut text, b"\nlines ")?;
    append_number(alloc, &mut text, lines)?;
    append(&mut text, b"\nlast ")?;
    append(&mut text, last)?;
    append(&mut text, b"\n")?;
    Ok(text)
}
