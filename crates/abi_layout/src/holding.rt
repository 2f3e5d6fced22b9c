//! The virtual bases of a class, and which of its subobjects hold them (Itanium C++ ABI 2.4).

ghost use Rattle.std.specs.Prelude.{◌≡◌, ◌++◌, IfOk, OnOk};
ghost use Rattle.std.specs.List.{filter_map};
ghost use Rattle.std.specs.Option.{option_to_list};
ghost use Rattle.cxx_subobject.specs.VirtualBases.{shared_class};
ghost use Rattle.abi_layout.specs.Holding.{virtual_in, virtual_primary_base, virtual_primary_of, with_holder, AreHolders};

use abi_primary::Primary;
use cxx_hierarchy::ClassId;
use cxx_subobject::{Subobject, class_of, shared_class};
use foundation::NoMemory;
use std::alloc::Global;

/// Puts a class, if there is one, behind the others.
fn push_class(classes: &mut Vec<ClassId>, class: Option<ClassId>) -> Result<(), NoMemory>
    ensures { OnOk result (classes.new.items ≡ classes.old.items ++ option_to_list class) }
{
    if let Some(class) = class {
        classes.push(class)?;
    }
    Ok(())
}

/// The virtual bases among some subobjects.
pub(crate) fn virtual_bases(alloc: Global, list: &[Subobject]) -> Result<Vec<ClassId>, NoMemory>
    ensures { IfOk result (λ bases. bases.items ≡ filter_map shared_class list.now) }
{
    let mut bases = Vec::new(alloc);
    for s in list {
        push_class(&mut bases, shared_class(s))?;
    }
    Ok(bases)
}

fn virtual_of(primary: Primary) -> Option<ClassId>
    ensures { result ≡ virtual_in (Some primary) }
{
    match primary {
        Primary::Virtual(v) => Some(v),
        Primary::None | Primary::Direct(_) => None,
    }
}

/// The virtual base that is the primary base of a class.
pub(crate) fn virtual_primary(primaries: &[Primary], d: ClassId) -> Option<ClassId>
    ensures { result ≡ virtual_primary_base primaries.now d }
{
    match primaries.get(d.0 as usize) {
        Some(primary) => virtual_of(*primary),
        None => None,
    }
}

/// The virtual base that is the primary base of the class of a subobject.
fn virtual_primary_of(primaries: &[Primary], s: &Subobject) -> Option<ClassId>
    ensures { result ≡ virtual_primary_of primaries.now s.now }
{
    match class_of(s) {
        Some(d) => virtual_primary(primaries, d),
        None => None,
    }
}

/// Puts the number of a subobject as that of the holder of a virtual base that has none yet.
fn put_holder(holders: &mut Vec<Option<usize>>, holder: Option<ClassId>, n: usize)
    ensures { holders.new.items ≡ with_holder holders.old.items holder n }
{
    if let Some(v) = holder {
        let number = v.0 as usize;
        if number < holders.len() && holders[number].is_none() {
            holders[number] = Some(n);
        }
    }
}

/// For each class, by its number, the number of the subobject in the list that holds it as a virtual base: the first
/// whose primary base it is.
pub(crate) fn holders(
    alloc: Global,
    primaries: &[Primary],
    list: &[Subobject],
    count: usize,
) -> Result<Vec<Option<usize>>, NoMemory>
    ensures { IfOk result (λ holders. AreHolders primaries.now list.now count holders.items) }
{
    let mut holders = vec![in alloc; None; count]?;
    for n in 0..list.len() {
        put_holder(&mut holders, virtual_primary_of(primaries, &list[n]), n);
    }
    Ok(holders)
}
