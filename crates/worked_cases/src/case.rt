//! The form of a worked case.
//!
//! A case is a line of numbers and words, the bytes of the source, and the bytes of the answer, each of the two with
//! a line feed behind. The numbers are the status, the failing calls of the source and of the sink (0 for none),
//! and how many bytes source and answer have; the words are those of the command.

ghost use Rattle.std.specs.Prelude.{◌<◌, length, IfSome, IfOk};

use std::alloc::{AllocError, Global};

/// Words and a source, and what they are answered with.
#[derive(Drop)]
pub struct Case<'a> {
    pub words: Vec<String>,
    pub source: &'a [u8],
    pub text: &'a [u8],
    pub status: u8,
    /// The number, from 1, of the call of the source that fails; 0 where none does.
    pub failing_read: u64,
    /// The same of the sink.
    pub failing_write: u64,
}

// The first line of some bytes, and what stands behind it.
fn first_line(bytes: &[u8]) -> Option<(&[u8], &[u8])>
    ensures { IfSome result (λ lines. length lines.1.now < length bytes.now) }
{
    let end = bytes.iter().position(|byte| *byte == b'\n')?;
    let (line, rest) = bytes.split_at(end);
    match rest {
        [_, behind @ ..] => Some((line, behind)),
        [] => None,
    }
}

// So many bytes, and what stands behind the line feed after them.
fn block(bytes: &[u8], count: usize) -> Option<(&[u8], &[u8])>
    ensures { IfSome result (λ parts. length parts.1.now < length bytes.now) }
{
    if count > bytes.len() {
        return None;
    }
    let (block, rest) = bytes.split_at(count);
    match rest {
        [b'\n', behind @ ..] => Some((block, behind)),
        _ => None,
    }
}

// What the first line of a case says.
#[derive(Drop)]
struct Head {
    status: u8,
    failing_read: u64,
    failing_write: u64,
    source_length: usize,
    text_length: usize,
    words: Vec<String>,
}

// What a line says, where it is the first of a case.
fn parse_head(alloc: Global, line: &[u8]) -> Result<Option<Head>, AllocError> {
    let Ok(line) = std::str::from_utf8(line) else {
        return Ok(None);
    };
    let mut parts = line.split(' ');
    let (Some(status), Some(read), Some(write), Some(source), Some(text)) = (
        parts.next(),
        parts.next(),
        parts.next(),
        parts.next(),
        parts.next(),
    ) else {
        return Ok(None);
    };
    let (Ok(status), Ok(failing_read), Ok(failing_write), Ok(source_length), Ok(text_length)) = (
        status.parse::<u8>(),
        read.parse::<u64>(),
        write.parse::<u64>(),
        source.parse::<usize>(),
        text.parse::<usize>(),
    ) else {
        return Ok(None);
    };
    let mut words = Vec::new(alloc);
    for word in parts {
        words.push(String::from_str(alloc, word)?)?;
    }
    Ok(Some(Head {
        status,
        failing_read,
        failing_write,
        source_length,
        text_length,
        words,
    }))
}

/// The first case of some bytes, and what stands behind it; None where no case stands there.
pub fn next_case(alloc: Global, bytes: &[u8]) -> Result<Option<(Case<'_>, &[u8])>, AllocError>
    ensures { IfOk result (λ found. IfSome found (λ parts. length parts.1.now < length bytes.now)) }
{
    let Some((line, rest)) = first_line(bytes) else {
        return Ok(None);
    };
    let Some(head) = parse_head(alloc, line)? else {
        return Ok(None);
    };
    let Some((source, rest)) = block(rest, head.source_length) else {
        return Ok(None);
    };
    let Some((text, rest)) = block(rest, head.text_length) else {
        return Ok(None);
    };
    let case = Case {
        words: head.words,
        source,
        text,
        status: head.status,
        failing_read: head.failing_read,
        failing_write: head.failing_write,
    };
    Ok(Some((case, rest)))
}
