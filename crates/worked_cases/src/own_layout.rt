//! The text of a layout, by the calls below the program.

ghost use Rattle.std.specs.Prelude.{◌≤◌, length};
ghost use Rattle.foundation.specs.Limits.{source_limit};

use abi_layout::lay_out;
use abi_print::layout_text;
use cxx_decl_parser::parse_source;
use cxx_hierarchy::{Stop, build};
use cxx_text::tokens;
use foundation::SOURCE_LIMIT;
use std::alloc::Global;

// The text of the layout of the class with a name, or None where there is no such class.
fn text_by_calls(alloc: Global, source: &[u8], name: &[u8]) -> Result<Option<Vec<u8>>, Stop>
    requires { length source.now ≤ source_limit }
{
    let list = tokens(alloc, source)?;
    let source = parse_source(alloc, source, &list)?;
    let h = build(alloc, &source.records)?;
    let Some(class) = h.find(name) else {
        return Ok(None);
    };
    let layout = lay_out(alloc, &h)?;
    if class.0 >= h.len() || class.0 as usize >= layout.len() {
        return Ok(None);
    }
    let text = layout_text(alloc, &h, &layout, class)?;
    Ok(Some(text))
}

/// Whether the calls below the program give this text for the layout of a class.
pub fn is_layout(alloc: Global, source: &[u8], name: &[u8], text: &[u8]) -> bool {
    if source.len() > SOURCE_LIMIT {
        return false;
    }
    match text_by_calls(alloc, source, name) {
        Ok(Some(by_calls)) => by_calls.as_slice() == text,
        _ => false,
    }
}
