//! The virtual functions that classes declare, their names and what they return.

ghost use Rattle.std.specs.Prelude.{◌≡◌, ◌<◌, ◌≤◌, ◌++◌, IfOk, OnOk, IfSome, length, map, position};
ghost use Rattle.std.specs.List.{filter_map};
ghost use Rattle.cxx_hierarchy.specs.declared.records.ClassId.{ClassId};
ghost use Rattle.cxx_hierarchy.specs.Classes.{Classes};
ghost use Rattle.cxx_hierarchy.specs.declared.records.PartAt.{PartAt};
ghost use Rattle.cxx_hierarchy.specs.Limits.{most_declared};
ghost use Rattle.cxx_subobject.specs.declared.Subobject.{Subobject};
ghost use Rattle.cxx_subobject.specs.Subobjects.{IsSubobject, class_of, is_class};
ghost use Rattle.cxx_overrider.specs.Functions.{return_of, pointee};
ghost use Rattle.cxx_overrider.specs.invariants.Numbers.{IsNumbering};
ghost use Rattle.cxx_overrider.specs.Overriders.{AreOverriders};
ghost use Rattle.cxx_overrider.specs.Virtuals.{function_at, index_of, declared, same_name, is_virtual, own};
ghost use Rattle.abi_slots.specs.Listing.{conversion, base_of_class};

use crate::words::Conversion;
use cxx_hierarchy::{
    ClassId, ClassRec, Destructor, Hierarchy, PartAt, PartKind, ReturnType, ValueType,
};
use cxx_overrider::signatures::{Numbering, declaration, number_of};
use cxx_overrider::{FunctionId, Overriders};
use cxx_subobject::{Subobject, class_of, list_subobjects, subobject_below};
use foundation::NoMemory;
use std::alloc::Global;

/// The index of the function that a part of a class is: its number, or for a destructor the index after the last function.
fn index_of(class: &ClassRec<ClassId>, part: &PartAt) -> Option<u32>
    requires { length class.now.functions ≤ most_declared }
    ensures { result ≡ index_of class.now part.now.kind part.now.number }
{
    match part.kind {
        PartKind::Member | PartKind::Constructor => None,
        PartKind::Function => Some(part.number),
        PartKind::Destructor => Some(class.functions.len() as u32),
    }
}

/// Puts the functions that parts of a class are behind others.
fn push_parts(
    list: &mut Vec<FunctionId>,
    class: &ClassRec<ClassId>,
    c: ClassId,
    parts: &[PartAt],
) -> Result<(), NoMemory>
    requires { length class.now.functions ≤ most_declared }
    ensures { OnOk result (list.new.items ≡ list.old.items ++ map (function_at c) (filter_map (λ (part : PartAt). index_of class.now part.kind part.number) parts.now)) }
{
    for part in parts {
        match index_of(class, part) {
            Some(index) => list.push(FunctionId { class: c, index })?,
            None => {}
        }
    }
    Ok(())
}

/// The functions that a class declares, its destructor among them, in the order of declaration. An implicit destructor
/// stands last.
///
/// Errors: want of memory.
fn declared(alloc: Global, h: &Hierarchy, c: ClassId) -> Result<Vec<FunctionId>, NoMemory>
    requires { c.0 < length h.now }
    ensures { IfOk result (λ list. list.items ≡ declared h.now c) }
{
    h.keeps();
    let class = h.class(c);
    let mut list = Vec::new(alloc);
    push_parts(&mut list, class, c, class.order.as_slice())?;
    match class.destructor {
        Destructor::Implicit => list.push(FunctionId {
            class: c,
            index: class.functions.len() as u32,
        })?,
        Destructor::Plain | Destructor::Virtual => {}
    }
    Ok(list)
}

/// Whether a function is virtual.
fn is_virtual(h: &Hierarchy, overriders: &Overriders, f: FunctionId) -> bool
    requires { AreOverriders h.now overriders.now }
    ensures { result ≡ is_virtual h.now f }
{
    h.keeps();
    overriders.is_virtual(f)
}

/// The virtual functions that a class declares, its destructor among them, in the order of declaration. An implicit
/// destructor stands last.
///
/// Errors: want of memory.
pub fn own_functions(
    alloc: Global,
    h: &Hierarchy,
    overriders: &Overriders,
    c: ClassId,
) -> Result<Vec<FunctionId>, NoMemory>
    requires known { c.0 < length h.now }
    requires overriders { AreOverriders h.now overriders.now }
    ensures { IfOk result (λ list. list.items ≡ own h.now c) }
{
    let all = declared(alloc, h, c)?;
    let mut list = Vec::new(alloc);
    for f in all.as_slice() {
        if is_virtual(h, overriders, *f) {
            list.push(*f)?;
        }
    }
    Ok(list)
}

/// Whether two functions have one name and one list of parameter types, by the numbers of their signatures.
pub fn is_same_name(numbering: &Numbering, f: FunctionId, g: FunctionId) -> bool
    ensures { (h : Classes) → IsNumbering h numbering.now.rows.items numbering.now.count → result ≡ same_name h f g }
{
    match number_of(&numbering.rows, f) {
        Some(n) => match number_of(&numbering.rows, g) {
            Some(m) => n == m,
            None => false,
        },
        None => false,
    }
}

/// The class to which a function returns a pointer.
fn pointee(h: &Hierarchy, f: FunctionId) -> Option<ClassId>
    requires { f.class.0 < length h.now }
    ensures class { result ≡ pointee (return_of h.now f) }
    ensures known { IfSome result (λ c. c.0 < length h.now) }
{
    h.keeps();
    match declaration(h, f) {
        None => None,
        Some(function) => match &function.ret {
            ReturnType::Void => None,
            ReturnType::Value(value) => match value {
                ValueType::Number(_) => None,
                ValueType::Pointer(class) => Some(*class),
            },
        },
    }
}

/// The classes from which and to which the result of one function is converted where another is called.
pub fn conversion(h: &Hierarchy, f: FunctionId, g: FunctionId) -> Option<Conversion>
    requires first { f.class.0 < length h.now }
    requires second { g.class.0 < length h.now }
    ensures classes { result ≡ conversion h.now f g }
    ensures known { IfSome result (λ c. c.from.0 < length h.now) }
{
    let from = match pointee(h, f) {
        Some(from) => from,
        None => return None,
    };
    match pointee(h, g) {
        Some(to) => {
            if from.0 == to.0 {
                None
            } else {
                Some(Conversion { from, to })
            }
        }
        None => None,
    }
}

fn is_of_class(s: &Subobject, d: ClassId) -> bool
    ensures { result ≡ is_class d (class_of s.now) }
{
    match class_of(s) {
        Some(c) => c.0 == d.0,
        None => false,
    }
}

/// The number of the first subobject that is of a class.
fn number_of_class(list: &[Subobject], d: ClassId) -> Option<usize>
    ensures { result ≡ position (λ (s : Subobject). is_class d (class_of s)) list.now }
{
    list.iter().position(|s| is_of_class(s, d))
}

/// The base of a class that an object of another class has.
///
/// Errors: want of memory.
pub fn base_of(
    alloc: Global,
    h: &Hierarchy,
    x: ClassId,
    y: ClassId,
) -> Result<Option<Subobject>, NoMemory>
    requires { x.0 < length h.now }
    ensures base { IfOk result (λ base. base ≡ base_of_class h.now x y) }
    ensures valid { IfOk result (λ base. IfSome base (IsSubobject h.now x)) }
{
    let list = list_subobjects(alloc, h, x)?;
    let subobjects = list.as_slice();
    match number_of_class(subobjects, y) {
        Some(n) => Ok(Some(subobject_below(alloc, &subobjects[n], &[])?)),
        None => Ok(None),
    }
}
