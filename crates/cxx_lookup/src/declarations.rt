//! All declarations of a name in the subobjects of a class.

ghost use Rattle.std.specs.Prelude.{◌≡◌, ◌<◌, IfOk, MatchOption, position, length};
ghost use Rattle.std.specs.Str.{bytes_eq};
ghost use Rattle.cxx_subobject.specs.declared.Subobject.{Subobject};
ghost use Rattle.cxx_lookup.specs.declared.Found.{Found};
ghost use Rattle.cxx_lookup.specs.invariants.Searches.{IsDeclaredAt, AreDeclarations};

use crate::Found;
use cxx_hierarchy::{ClassId, Function, Hierarchy, Member};
use cxx_subobject::{Subobject, class_of, list_subobjects, subobject_below};
use foundation::NoMemory;
use std::alloc::Global;

/// The number of the first member of a name.
fn first_member(members: &[Member<ClassId>], name: &[u8]) -> Option<usize>
    ensures { result ≡ position (λ member. bytes_eq member.name name.now) members.now }
{
    members
        .iter()
        .position(|member| member.name.as_slice() == name)
}

/// The number of the first function of a name.
fn first_function(functions: &[Function<ClassId>], name: &[u8]) -> Option<usize>
    ensures { result ≡ position (λ function. bytes_eq function.name name.now) functions.now }
{
    functions
        .iter()
        .position(|function| function.name.as_slice() == name)
}

/// The declaration of a name in the class of a subobject. There is one at most.
fn declaration(
    alloc: Global,
    h: &Hierarchy,
    s: &Subobject,
    name: &[u8],
) -> Result<Option<Found>, NoMemory>
    ensures { IfOk result (λ found. MatchOption found ((f : Found) → IsDeclaredAt h.now s.now name.now f → ⊥) (IsDeclaredAt h.now s.now name.now)) }
{
    h.keeps();
    let Some(class) = class_of(s) else {
        return Ok(None);
    };
    if class.0 >= h.len() {
        return Ok(None);
    }
    let record = h.class(class);
    if let Some(number) = first_member(record.members.as_slice(), name) {
        let place = subobject_below(alloc, s, &[])?;
        return Ok(Some(Found::Member(place, number as u32)));
    }
    if let Some(number) = first_function(record.functions.as_slice(), name) {
        let place = subobject_below(alloc, s, &[])?;
        return Ok(Some(Found::Function(place, number as u32)));
    }
    Ok(None)
}

/// All declarations of a name in the subobjects of a class.
pub(crate) fn declarations(
    alloc: Global,
    h: &Hierarchy,
    c: ClassId,
    name: &[u8],
) -> Result<Vec<Found>, NoMemory>
    requires { c.0 < length h.now }
    ensures { IfOk result (λ list. AreDeclarations h.now c name.now list.items) }
{
    h.keeps();
    let parts = list_subobjects(alloc, h, c)?;
    let mut list = Vec::new(alloc);
    for s in parts.as_slice() {
        if let Some(found) = declaration(alloc, h, s, name)? {
            list.push(found)?;
        }
    }
    Ok(list)
}
