//! The hints of casts between classes of a source, as text, and how many records of bases a cast with a hint reads.

ghost use Rattle.std.specs.Prelude.{◌≡◌, ◌≤◌, true, length};
ghost use Rattle.foundation.specs.Limits.{source_limit};
ghost use Rattle.path_model.specs.States.{is_body};
ghost use Rattle.cxxabi_cmd.specs.invariants.Listings.{IsReady};

use crate::hinted_visits::hinted_visits;
use abi_layout::lay_out;
use abi_lower::hint_of;
use abi_world::{Built, build};
use byte_code::ImageBytes;
use cxx_decl_parser::parse_source;
use cxx_hierarchy::{Stop, build as build_hierarchy};
use cxx_text::tokens;
use cxxabi_cmd::{Accepted, judge};
use foundation::NoMemory;
use std::alloc::Global;

/// The hint of a cast from a pointer to one class to one to another; nothing where there is no such class.
///
/// Errors: the first refusal or limit of the source; want of memory.
pub fn hint_text(alloc: Global, source: &[u8], from: &[u8], to: &[u8]) -> Result<String, Stop>
    requires { length source.now ≤ source_limit }
{
    let list = tokens(alloc, source)?;
    let source = parse_source(alloc, source, &list)?;
    let h = build_hierarchy(alloc, &source.records)?;
    let (Some(from), Some(to)) = (h.find(from), h.find(to)) else {
        return Ok(String::new(alloc));
    };
    let layout = lay_out(alloc, &h)?;
    if to.0 >= h.len() {
        return Ok(String::new(alloc));
    }
    let hint = hint_of(alloc, &h, &layout, from, to)?;
    let text = format!(in alloc; "hint {hint}\n")?;
    Ok(text)
}

// The image of the tables of an accepted source with a `main`.
fn image_of(alloc: Global, accepted: &Accepted) -> Result<ImageBytes, NoMemory>
    requires ready { IsReady accepted.now }
    requires main { is_body accepted.now.program.main ≡ true }
{
    let Built { image, .. } = build(
        alloc,
        &accepted.hierarchy,
        &accepted.overriders,
        &accepted.layout,
        &accepted.program,
    )?;
    Ok(image)
}

/// How many records of bases are read by a cast from the second base of a whole object of a class to that class, with the hint that it
/// lies 16 bytes behind the start; nothing where that is no hint of the class, or where the source has no `main`.
///
/// Errors: the first refusal or limit of the source; want of memory.
pub fn visits_text(alloc: Global, source: &[u8], class: &[u8]) -> Result<String, Stop>
    requires { length source.now ≤ source_limit }
{
    let accepted = judge(alloc, source)?;
    if accepted.source.main.is_none() {
        return Ok(String::new(alloc));
    }
    let Some(class) = accepted.hierarchy.find(class) else {
        return Ok(String::new(alloc));
    };
    let image = image_of(alloc, &accepted)?;
    let Some(visits) = hinted_visits(alloc, &image, class.0) else {
        return Ok(String::new(alloc));
    };
    let text = format!(in alloc; "visits {visits}\n")?;
    Ok(text)
}
