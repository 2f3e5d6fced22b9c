//! The words of a VTT by the call that hands no views on, as text.

ghost use Rattle.std.specs.Prelude.{◌≤◌, length};
ghost use Rattle.foundation.specs.Limits.{source_limit};

use abi_layout::lay_out;
use abi_tables::has_virtual;
use abi_vtt::vtt;
use cxx_decl_parser::parse_source;
use cxx_hierarchy::{Stop, build};
use cxx_text::tokens;
use std::alloc::Global;

/// How many words the VTT of a class has; nothing where it has none.
///
/// Errors: the first refusal or limit of the source; want of memory.
pub fn vtt_text(alloc: Global, source: &[u8], class: &[u8]) -> Result<String, Stop>
    requires { length source.now ≤ source_limit }
{
    let list = tokens(alloc, source)?;
    let source = parse_source(alloc, source, &list)?;
    let h = build(alloc, &source.records)?;
    let Some(class) = h.find(class) else {
        return Ok(String::new(alloc));
    };
    if class.0 >= h.len() {
        return Ok(String::new(alloc));
    }
    let layout = lay_out(alloc, &h)?;
    if has_virtual(&h, &layout, class) {
        h.keeps();
        let words = vtt(alloc, &h, &layout, class)?.len();
        let line = format!(in alloc; "words {words}\n")?;
        return Ok(line);
    }
    Ok(String::new(alloc))
}
