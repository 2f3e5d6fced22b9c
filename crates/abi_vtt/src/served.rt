//! Which table of a group serves a subobject of its view.

ghost use Rattle.std.specs.Prelude.{◌≡◌, ◌<◌, Option, Some, IfOk, IfSome, List, length, slice_get};
ghost use Rattle.cxx_subobject.specs.declared.Subobject.{Subobject};
ghost use Rattle.abi_sound.specs.Places.{places_of};
ghost use Rattle.abi_vtable.specs.invariants.Parts.{NumbersSubobject, IsViewParts, view_of_parts};
ghost use Rattle.abi_vtt.specs.invariants.Served.{LeadWithin, AreNumbered, IsNoted, AreServing};

use abi_sound::SoundLayout;
use abi_vtable::heads::heads_of;
use abi_vtable::view::{ViewPart, ViewParts};
use cxx_hierarchy::Hierarchy;
use foundation::NoMemory;
use std::alloc::Global;

/// Notes the number of a table for the parts of a chain, from one on and so many of them.
fn note_chain(
    parts: &[ViewPart],
    tables: &mut [Option<usize>],
    at: Option<usize>,
    table: usize,
    steps: u32,
)
    requires within { IfSome at (λ n. n < length parts.now) }
    requires closed { LeadWithin parts.now }
    requires size { length tables.old ≡ length parts.now }
    ensures { (list : List Subobject) (go : Subobject → Option Subobject) (s : Option Subobject) → AreNumbered list go parts.now → NumbersSubobject list at s → IsNoted list go s table steps tables.old tables.new }
{
    if steps == 0 {
        return;
    }
    let number = match at {
        Some(number) => number,
        None => return,
    };
    tables[number] = Some(table);
    let next = parts[number].next;
    note_chain(parts, tables, next, table, steps - 1);
}

/// For each part of a view the number of the table that serves it, from 0. A part that is not dynamic has none.
///
/// Errors: want of memory.
pub(crate) fn tables_of<L: SoundLayout>(
    alloc: Global,
    h: &Hierarchy,
    layout: &L,
    x: &ViewParts,
) -> Result<Vec<Option<usize>>, NoMemory>
    requires layout { L.lays_out layout.now h.now }
    requires view { IsViewParts h.now (places_of h.now (L.rows layout.now)) x.now }
    ensures { IfOk result (λ tables. AreServing h.now (places_of h.now (L.rows layout.now)) (view_of_parts x.now) tables.items) }
{
    h.keeps();
    let _layout = layout;
    let heads = heads_of(alloc, x)?;
    let parts = x.parts.as_slice();
    let mut tables = vec![in alloc; None; parts.len()]?;
    for (n, head) in heads.as_slice().iter().enumerate() {
        note_chain(parts, &mut tables, Some(*head), n, x.class.0 + 1);
    }
    Ok(tables)
}
