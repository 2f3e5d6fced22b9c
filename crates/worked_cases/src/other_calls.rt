//! What the public calls answer that no command makes, as text.
//!
//! Each other public call that takes memory is made by some command. The numbers of classes are those of their order in the source,
//! from 0.

ghost use Rattle.std.specs.Prelude.{◌≤◌, ◌<◌, length};
ghost use Rattle.foundation.specs.Limits.{source_limit};

use crate::hinted_calls::{hint_text, visits_text};
use crate::page_memory::pages_text;
use crate::pointer_calls::pointer_text;
use crate::vtt_calls::vtt_text;
use abi_layout::lay_out;
use abi_primary::{Primary, dynamic_flags, holder_of, is_nearly_empty, primary_base};
use abi_slots::Slots;
use abi_tables::build_tables;
use cxx_body_parser::parse_body;
use cxx_decl_parser::parse_source;
use cxx_gen::generate;
use cxx_hierarchy::{ClassId, Hierarchy, Stop, build};
use cxx_overrider::check_overriders;
use cxx_subobject::{class_of, subobjects_of};
use cxx_text::tokens;
use foundation::{NoMemory, SOURCE_LIMIT};
use std::alloc::{AllocError, Global};

// How many statements the block at the front of a text has, and how many tokens it takes; nothing where the text has no token.
fn body_text(alloc: Global, text: &[u8]) -> Result<String, Stop>
    requires { length text.now ≤ source_limit }
{
    let list = tokens(alloc, text)?;
    if list.tokens.len() == 0 {
        return Ok(String::new(alloc));
    }
    let (tree, next) = parse_body(alloc, text, &list, 0, 0)?;
    let statements = tree.statements.len();
    let line = format!(in alloc; "statements {statements}\ntokens {next}\n")?;
    Ok(line)
}

// The line of a primary base.
fn primary_line(alloc: Global, primary: Primary) -> Result<String, AllocError> {
    match primary {
        Primary::None => format!(in alloc; "primary none\n"),
        Primary::Direct(ClassId(class)) => format!(in alloc; "primary {class}\n"),
        Primary::Virtual(ClassId(class)) => format!(in alloc; "primary virtual {class}\n"),
    }
}

// The primary bases of all classes, none of which has an empty base that is moved behind the virtual pointer.
fn primaries_of(alloc: Global, h: &Hierarchy) -> Result<Vec<Primary>, NoMemory> {
    let dynamic = dynamic_flags(alloc, h)?;
    let mut nearly = Vec::new(alloc);
    let mut primaries = Vec::new(alloc);
    for n in 0..h.len() {
        let class = ClassId(n);
        let primary = primary_base(alloc, h, class, &nearly, &primaries)?;
        let is_nearly = is_nearly_empty(h, class, &dynamic, &nearly, false);
        nearly.push(is_nearly)?;
        primaries.push(primary)?;
    }
    Ok(primaries)
}

// The line of a virtual base: the class of the subobject that holds it.
fn holder_line(
    alloc: Global,
    h: &Hierarchy,
    class: ClassId,
    primaries: &[Primary],
    base: ClassId,
) -> Result<String, NoMemory>
    requires { class.0 < length h.now }
{
    let number = base.0;
    let holder = match holder_of(alloc, h, class, primaries, base)? {
        Some(holder) => class_of(&holder),
        None => None,
    };
    let line = match holder {
        Some(ClassId(of)) => format!(in alloc; "holder of {number}: {of}\n")?,
        None => format!(in alloc; "holder of {number}: none\n")?,
    };
    Ok(line)
}

// How many subobjects a class has, its primary base, and what holds its virtual bases.
fn class_lines(alloc: Global, h: &Hierarchy, class: ClassId) -> Result<String, Stop>
    requires { class.0 < length h.now }
{
    let subobjects = subobjects_of(alloc, h, class)?.len();
    let mut text = format!(in alloc; "subobjects {subobjects}\n")?;
    let primaries = primaries_of(alloc, h)?;
    let Some(primary) = primaries.get(class.0 as usize) else {
        return Ok(text);
    };
    text.push_str(&primary_line(alloc, *primary)?)?;
    for n in 0..h.len() {
        let base = ClassId(n);
        if h.has_virtual_base(class, base) {
            text.push_str(&holder_line(alloc, h, class, &primaries, base)?)?;
        }
    }
    Ok(text)
}

// How many tables each group of the classes has.
fn groups_line(alloc: Global, h: &Hierarchy) -> Result<String, Stop> {
    let overriders = check_overriders(alloc, h)?;
    let layout = lay_out(alloc, h)?;
    let slots = Slots::new(alloc, h, &overriders, &layout)?;
    let groups = build_tables(alloc, h, &overriders, &layout, &slots)?;
    let mut text = String::from_str(alloc, "tables")?;
    for group in groups.as_slice() {
        let tables = group.tables.len();
        text.push_str(&format!(in alloc; " {tables}")?)?;
    }
    text.push('\n')?;
    Ok(text)
}

// What is said of a class of a source; nothing where there is none.
fn class_text(alloc: Global, source: &[u8], name: &[u8]) -> Result<String, Stop>
    requires { length source.now ≤ source_limit }
{
    let list = tokens(alloc, source)?;
    let source = parse_source(alloc, source, &list)?;
    let h = build(alloc, &source.records)?;
    let Some(class) = h.find(name) else {
        return Ok(String::new(alloc));
    };
    if class.0 >= h.len() {
        return Ok(String::new(alloc));
    }
    let mut text = class_lines(alloc, &h, class)?;
    text.push_str(&groups_line(alloc, &h)?)?;
    Ok(text)
}

// Whether this text is made.
fn is_made(made: Result<String, Stop>, text: &[u8]) -> bool {
    match made {
        Ok(made) => made.as_bytes() == text,
        Err(_) => false,
    }
}

// Whether the source that is generated of so many classes is this one.
fn is_generated(alloc: Global, classes: &str, text: &[u8]) -> bool {
    let Ok(count) = classes.parse::<u32>() else {
        return false;
    };
    match generate(alloc, count) {
        Ok(made) => made.as_slice() == text,
        Err(_) => false,
    }
}

/// Whether the calls that these words name give this text for a source: `body`, `class` with a name, `source` with a number of classes,
/// `hint` with the classes of a cast, `pointer` with a class and its data member, `visits` with the class to which one leads,
/// `vtt` with a class, or `pages`, which needs no source.
pub fn is_answered(alloc: Global, words: &[String], source: &[u8], text: &[u8]) -> bool {
    if source.len() > SOURCE_LIMIT {
        return false;
    }
    match words {
        [word] if word.as_str() == "pages" => match pages_text(alloc) {
            Ok(made) => made.as_bytes() == text,
            Err(_) => false,
        },
        [word] if word.as_str() == "body" => is_made(body_text(alloc, source), text),
        [word, name] if word.as_str() == "class" => {
            is_made(class_text(alloc, source, name.as_bytes()), text)
        }
        [word, classes] if word.as_str() == "source" => {
            is_generated(alloc, classes.as_str(), text)
        }
        [word, from, to] if word.as_str() == "hint" => {
            is_made(
                hint_text(alloc, source, from.as_bytes(), to.as_bytes()),
                text,
            )
        }
        [word, class, member] if word.as_str() == "pointer" => {
            is_made(
                pointer_text(alloc, source, class.as_bytes(), member.as_bytes()),
                text,
            )
        }
        [word, name] if word.as_str() == "vtt" => {
            is_made(vtt_text(alloc, source, name.as_bytes()), text)
        }
        [word, name] if word.as_str() == "visits" => {
            is_made(visits_text(alloc, source, name.as_bytes()), text)
        }
        _ => false,
    }
}
