//! The text of a source, as its items are added.

ghost use Rattle.std.specs.Prelude.{◌≡◌, ◌+◌, ◌++◌, ◌∷◌, [], List, true, None, is_some, IfErr, OnOk};
ghost use Rattle.cxx_hierarchy.specs.declared.stop.Stop.{Stop};
ghost use Rattle.cxx_syntax.specs.declared.part.Item.{Item};
ghost use Rattle.cxx_syntax.specs.Sources.{AreItemsOf, is_no_main};
ghost use Rattle.cxx_record_parser.specs.invariants.Readers.{main_after};

use cxx_hierarchy::{ClassRec, Name, Stop};
use cxx_syntax::{BodyList, Item, SourceText};
use foundation::Sequence;
use std::alloc::Global;

// Moves bodies behind others. The error is want of memory.
fn append(bodies: &mut BodyList, more: BodyList) -> Result<(), Stop>
    ensures ok { OnOk result (bodies.new ≡ bodies.old ++ more) }
    ensures err { IfErr result (λ e. e ≡ Stop.NoMemory) }
{
    for body in more.into_vec() {
        bodies.push(body)?;
    }
    Ok(())
}

/// A source of no items.
pub fn empty_source(alloc: Global) -> SourceText
    ensures items { AreItemsOf result [] }
    ensures main { result.main ≡ None }
{
    SourceText {
        records: Sequence::new(alloc),
        globals: Sequence::new(alloc),
        bodies: Sequence::new(alloc),
        main: None,
        main_place: 0,
    }
}

// Adds a class, and the bodies in it. The error is want of memory.
fn add_class(
    source: &mut SourceText,
    definition: ClassRec<Name>,
    bodies: BodyList,
) -> Result<(), Stop>
    ensures items { OnOk result ((is : List Item) → AreItemsOf source.old is → AreItemsOf source.new (is ++ Item.Class definition bodies ∷ [])) }
    ensures main { OnOk result (source.new.main ≡ source.old.main) }
    ensures err { IfErr result (λ e. e ≡ Stop.NoMemory) }
{
    source.records.push(definition)?;
    append(&mut source.bodies, bodies)?;
    if source.main.is_none() {
        source.main_place = source.bodies.len();
        return Ok(());
    }
    Ok(())
}

/// Adds the next item of a source, which is no second `main`. The error is want of memory.
pub fn add(source: &mut SourceText, item: Item) -> Result<(), Stop>
    requires { is_some source.old.main ≡ true → is_no_main item ≡ true }
    ensures items { OnOk result ((is : List Item) → AreItemsOf source.old is → AreItemsOf source.new (is ++ item ∷ [])) }
    ensures main { OnOk result (is_some source.new.main ≡ main_after (is_some source.old.main) item) }
    ensures err { IfErr result (λ e. e ≡ Stop.NoMemory) }
{
    match item {
        Item::Class(definition, bodies) => {
            add_class(source, definition, bodies)?;
            Ok(())
        }
        Item::Forward => Ok(()),
        Item::Global(variable) => {
            source.globals.push(variable)?;
            Ok(())
        }
        Item::Main(tree) => {
            source.main = Some(tree);
            Ok(())
        }
    }
}
