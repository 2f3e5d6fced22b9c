//! What is listed of a class: its layout, or its tables.

ghost use Rattle.std.specs.Prelude.{◌<◌, OnOk, length};
ghost use Rattle.cxxabi_cmd.specs.invariants.Listings.{IsReady, IsAppended};

use crate::verdict::Accepted;
use abi_print::{append_layout, append_tables};
use abi_tables::{ClassTables, class_tables};
use cxx_hierarchy::ClassId;
use cxx_subobject::list_subobjects;
use foundation::NoMemory;
use std::alloc::Global;

/// What a command lists of classes.
#[derive(Clone, Copy, Debug, PartialEq, Eq)]
pub enum Listing {
    /// The layout.
    OfLayout,
    /// The groups of virtual tables, the VTT, and the type information.
    OfTables,
}

// Puts the layout of a class at the end of a text.
fn append_layout_of(
    alloc: Global,
    text: &mut Vec<u8>,
    accepted: &Accepted,
    c: ClassId,
) -> Result<(), NoMemory>
    requires ready { IsReady accepted.now }
    requires known { c.0 < length accepted.now.hierarchy }
    ensures { OnOk result (IsAppended accepted.now.hierarchy accepted.now.layout Listing.OfLayout c text.old.items text.new.items) }
{
    let list = list_subobjects(alloc, &accepted.hierarchy, c)?;
    append_layout(
        alloc,
        text,
        &accepted.hierarchy,
        &accepted.layout,
        c,
        list.as_slice(),
    )?;
    Ok(())
}

// Puts the tables of a class at the end of a text.
fn append_tables_of(
    alloc: Global,
    text: &mut Vec<u8>,
    accepted: &Accepted,
    c: ClassId,
) -> Result<(), NoMemory>
    requires ready { IsReady accepted.now }
    requires known { c.0 < length accepted.now.hierarchy }
    ensures { OnOk result (IsAppended accepted.now.hierarchy accepted.now.layout Listing.OfTables c text.old.items text.new.items) }
{
    let tables = class_tables(
        alloc,
        &accepted.hierarchy,
        &accepted.overriders,
        &accepted.layout,
        &accepted.slots,
        c,
    )?;
    append_tables(
        alloc,
        text,
        &accepted.hierarchy,
        &accepted.layout,
        c,
        tables.groups.as_slice(),
        tables.vtt.as_slice(),
        &tables.info,
    )?;
    Ok(())
}

// Puts what is listed of a class at the end of a text.
pub(crate) fn append_class(
    alloc: Global,
    text: &mut Vec<u8>,
    accepted: &Accepted,
    listing: Listing,
    c: ClassId,
) -> Result<(), NoMemory>
    requires ready { IsReady accepted.now }
    requires known { c.0 < length accepted.now.hierarchy }
    ensures { OnOk result (IsAppended accepted.now.hierarchy accepted.now.layout listing c text.old.items text.new.items) }
{
    match listing {
        Listing::OfLayout => append_layout_of(alloc, text, accepted, c),
        Listing::OfTables => append_tables_of(alloc, text, accepted, c),
    }
}
