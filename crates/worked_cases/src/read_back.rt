//! A dump that is read is written again.

ghost use Rattle.std.specs.Prelude.{◌≤◌, length};
ghost use Rattle.foundation.specs.Limits.{source_limit};

use abi_inspect::{dump_text, inspect};
use abi_layout::lay_out;
use cxx_decl_parser::parse_source;
use cxx_hierarchy::{Stop, build};
use cxx_text::tokens;
use cxxabi_input::divide;
use foundation::SOURCE_LIMIT;
use std::alloc::Global;

// The dump of the values that are read of a dump, or None where there are none.
fn written_again(alloc: Global, dump: &[u8], source: &[u8]) -> Result<Option<Vec<u8>>, Stop>
    requires { length source.now ≤ source_limit }
{
    let list = tokens(alloc, source)?;
    let source = parse_source(alloc, source, &list)?;
    let h = build(alloc, &source.records)?;
    let layout = lay_out(alloc, &h)?;
    match inspect(alloc, &h, &layout, dump) {
        Ok(seen) => Ok(Some(dump_text(alloc, &h, &layout, &seen)?)),
        Err(_) => Ok(None),
    }
}

/// Whether the dump of an input is read, and the same when it is written again.
pub fn is_read_back(alloc: Global, input: &[u8]) -> bool {
    let Some(parts) = divide(input) else {
        return false;
    };
    if parts.source.len() > SOURCE_LIMIT {
        return false;
    }
    match written_again(alloc, parts.front, parts.source) {
        Ok(Some(text)) => text.as_slice() == parts.front,
        _ => false,
    }
}
