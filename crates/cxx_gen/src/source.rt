//! The generated source.

ghost use Rattle.std.specs.Prelude.{◌≡◌, ◌++◌, IfOk, OnOk};
ghost use Rattle.cxx_gen.specs.Generated.{bases_text, class_line, object_line, lines_below, generated};

use crate::piece::{append, append_number};
use foundation::NoMemory;
use std::alloc::Global;

/// Puts the bases of a class at the end of a text: of an odd one the class before it, then the virtual base.
fn append_bases(alloc: Global, text: &mut Vec<u8>, class: usize) -> Result<(), NoMemory>
    ensures { OnOk result (text.new.items ≡ text.old.items ++ bases_text class) }
{
    if class % 2 == 0 {
        append(text, b"virtual V")?;
        return Ok(());
    }
    append(text, b"A")?;
    append_number(alloc, text, class - 1)?;
    append(text, b", virtual V")?;
    Ok(())
}

/// Puts the line of a class at the end of a text.
fn append_class(alloc: Global, text: &mut Vec<u8>, class: usize) -> Result<(), NoMemory>
    ensures { OnOk result (text.new.items ≡ text.old.items ++ class_line class) }
{
    append(text, b"struct A")?;
    append_number(alloc, text, class)?;
    append(text, b" : ")?;
    append_bases(alloc, text, class)?;
    append(text, b" { long x")?;
    append_number(alloc, text, class)?;
    append(text, b"; virtual long f() { return ")?;
    append_number(alloc, text, class)?;
    append(text, b"; } };\n")?;
    Ok(())
}

/// Puts the line of `main` for a class at the end of a text.
fn append_object(alloc: Global, text: &mut Vec<u8>, class: usize) -> Result<(), NoMemory>
    ensures { OnOk result (text.new.items ≡ text.old.items ++ object_line class) }
{
    append(text, b"q = new A")?;
    append_number(alloc, text, class)?;
    append(text, b"; r = q->f(); print(r);\n")?;
    Ok(())
}

/// Puts the lines of all classes at the end of a text.
fn append_classes(alloc: Global, text: &mut Vec<u8>, n: usize) -> Result<(), NoMemory>
    ensures { OnOk result (text.new.items ≡ text.old.items ++ lines_below class_line n) }
{
    for class in 0..n {
        append_class(alloc, text, class)?;
    }
    Ok(())
}

/// Puts the lines of `main` for all classes at the end of a text.
fn append_objects(alloc: Global, text: &mut Vec<u8>, n: usize) -> Result<(), NoMemory>
    ensures { OnOk result (text.new.items ≡ text.old.items ++ lines_below object_line n) }
{
    for class in 0..n {
        append_object(alloc, text, class)?;
    }
    Ok(())
}

/// The source of n classes besides the virtual base: the classes, two globals, and a `main` that makes one object of
/// each class and prints what a virtual call answers. Every line ends with a line feed.
///
/// Errors: want of memory.
pub fn generate(alloc: Global, n: u32) -> Result<Vec<u8>, NoMemory>
    ensures { IfOk result (λ text. text.items ≡ generated n) }
{
    let count = n as usize;
    let mut text = Vec::new(alloc);
    append(
        &mut text,
        b"struct V { long v; virtual long f() { return 0; } };\n",
    )?;
    append_classes(alloc, &mut text, count)?;
    append(&mut text, b"V* q;\nlong r;\nint main() {\n")?;
    append_objects(alloc, &mut text, count)?;
    append(&mut text, b"}\n")?;
    Ok(text)
}
