//! What names, bases and virtual functions mean in a class. Each is looked up once.

ghost use Rattle.std.specs.Prelude.{◌≡◌, ◌<◌, ◌≤◌, IfOk, OnOk, length};
ghost use Rattle.std.specs.Option.{option_copied};
ghost use Rattle.std.specs.List.{list_any};
ghost use Rattle.cxx_hierarchy.specs.Classes.{width_of_member};
ghost use Rattle.cxx_subobject.specs.Subobjects.{class_of};
ghost use Rattle.cxx_hierarchy.specs.Declarations.{declares_virtual};
ghost use Rattle.cxx_expression.specs.Lookups.{looked_up, base_up, member_record, function_record, is_polymorphic};
ghost use Rattle.cxx_expression.specs.invariants.Known.{Knows};

use crate::copies::copy_subobject;
use crate::known::Known;
use cxx_hierarchy::{ClassId, Function, Hierarchy, Member};
use cxx_lookup::{BaseFault, Found, LookupFault, lookup, unique_base};
use cxx_subobject::{Root, Subobject, class_of, list_subobjects};
use foundation::{NoMemory, Sequence};
use std::alloc::Global;

/// What a name means in a class: nothing, more than one declaration, or one: the subobject that has it, and its number
/// among the members or the functions of the subobject's class.
#[derive(Drop)]
pub enum Looked {
    Missing,
    Ambiguous,
    Member(Subobject, u32),
    Function(Subobject, u32),
}

/// What a class means as a base of another: nothing, more than one subobject, or one.
#[derive(Drop)]
pub enum Based {
    NotBase,
    TwoBases,
    Base(Subobject),
}

fn copy_looked(alloc: Global, looked: &Looked) -> Result<Looked, NoMemory>
    ensures { IfOk result (λ copied. copied ≡ looked.now) }
{
    match looked {
        Looked::Missing => Ok(Looked::Missing),
        Looked::Ambiguous => Ok(Looked::Ambiguous),
        Looked::Member(s, number) => Ok(Looked::Member(copy_subobject(alloc, s)?, *number)),
        Looked::Function(s, number) => Ok(Looked::Function(copy_subobject(alloc, s)?, *number)),
    }
}

fn copy_based(alloc: Global, based: &Based) -> Result<Based, NoMemory>
    ensures { IfOk result (λ copied. copied ≡ based.now) }
{
    match based {
        Based::NotBase => Ok(Based::NotBase),
        Based::TwoBases => Ok(Based::TwoBases),
        Based::Base(s) => Ok(Based::Base(copy_subobject(alloc, s)?)),
    }
}

/// What a name means in a class of the hierarchy.
#[tactic(auto, using(crate::proofs::Finding::member_is, crate::proofs::Finding::function_is, crate::proofs::Finding::ambiguous_is, crate::proofs::Finding::missing_is))]
fn find_name(alloc: Global, h: &Hierarchy, c: ClassId, name: &[u8]) -> Result<Looked, NoMemory>
    requires known { c.0 < length h.now }
    ensures { IfOk result (λ looked. looked_up h.now c name.now ≡ looked) }
{
    h.keeps();
    match lookup(alloc, h, c, name) {
        Ok(Found::Member(s, number)) => Ok(Looked::Member(s, number)),
        Ok(Found::Function(s, number)) => Ok(Looked::Function(s, number)),
        Err(LookupFault::AmbiguousName) => Ok(Looked::Ambiguous),
        Err(LookupFault::NoSuchMember) => Ok(Looked::Missing),
        Err(LookupFault::NoMemory) => Err(NoMemory),
    }
}

/// What a class of the hierarchy has as a base.
#[tactic(auto, using(crate::proofs::Finding::base_is, crate::proofs::Finding::two_bases_is, crate::proofs::Finding::not_base_is))]
fn find_base(alloc: Global, h: &Hierarchy, c: ClassId, d: ClassId) -> Result<Based, NoMemory>
    requires known { c.0 < length h.now }
    ensures { IfOk result (λ based. base_up h.now c d ≡ based) }
{
    h.keeps();
    match unique_base(alloc, h, c, d) {
        Ok(s) => Ok(Based::Base(s)),
        Err(BaseFault::AmbiguousBase) => Ok(Based::TwoBases),
        Err(BaseFault::NotBase) => Ok(Based::NotBase),
        Err(BaseFault::NoMemory) => Err(NoMemory),
    }
}

/// What a number that no class has, as a class without bases, has as a base: itself.
#[tactic(auto, using(crate::proofs::Finding::nothing_at, crate::proofs::Finding::itself_beyond, crate::proofs::Finding::other_beyond))]
fn lone_base(alloc: Global, h: &Hierarchy, c: ClassId, d: ClassId) -> Result<Based, NoMemory>
    requires unknown { length h.now ≤ c.0 }
    ensures { IfOk result (λ based. base_up h.now c d ≡ based) }
{
    if d.0 != c.0 {
        return Ok(Based::NotBase);
    }
    let mut path = Sequence::new(alloc);
    path.push(c)?;
    Ok(Based::Base(Subobject {
        root: Root::Whole,
        path,
    }))
}

/// What a name means in a class. A number that no class has declares nothing.
#[tactic(auto, using(crate::proofs::Finding::nothing_at, crate::proofs::Finding::missing_beyond))]
pub(crate) fn looked_up(
    h: &Hierarchy,
    known: &mut Known,
    c: ClassId,
    name: &[u8],
) -> Result<Looked, NoMemory>
    requires knows { Knows h.now known.old }
    ensures found { IfOk result (λ looked. looked_up h.now c name.now ≡ looked) }
    ensures knows { OnOk result (Knows h.now known.new) }
{
    if c.0 >= h.len() {
        return Ok(Looked::Missing);
    }
    if let Some(looked) = known.name(c, name) {
        return copy_looked(known.alloc, looked);
    }
    let looked = find_name(known.alloc, h, c, name)?;
    let copy = copy_looked(known.alloc, &looked)?;
    known.keep_name(c, name, copy)?;
    Ok(looked)
}

/// What a class means as a base of another.
pub(crate) fn base_up(
    h: &Hierarchy,
    known: &mut Known,
    c: ClassId,
    d: ClassId,
) -> Result<Based, NoMemory>
    requires knows { Knows h.now known.old }
    ensures found { IfOk result (λ based. base_up h.now c d ≡ based) }
    ensures knows { OnOk result (Knows h.now known.new) }
{
    if c.0 >= h.len() {
        return lone_base(known.alloc, h, c, d);
    }
    if let Some(based) = known.base(c, d) {
        return copy_based(known.alloc, based);
    }
    let based = find_base(known.alloc, h, c, d)?;
    let copy = copy_based(known.alloc, &based)?;
    known.keep_base(c, d, copy)?;
    Ok(based)
}

/// The member of a number in a class.
#[tactic(auto, unfolding(crate::specs::Lookups::member_record))]
pub(crate) fn member_record(h: &Hierarchy, c: ClassId, number: u32) -> Option<&Member<ClassId>>
    ensures { option_copied result ≡ member_record h.now c number }
{
    if c.0 >= h.len() {
        return None;
    }
    h.class(c).members.as_slice().get(number as usize)
}

/// The width of the member of a number in a class, where it is a bit-field (ISO C++03 9.6).
#[tactic(auto, unfolding(crate::specs::Lookups::member_record))]
pub fn width_of_member(h: &Hierarchy, c: ClassId, number: u32) -> Option<u32>
    ensures { result ≡ width_of_member h.now c number }
{
    member_record(h, c, number)?.width
}

/// The function of a number in a class.
#[tactic(auto, unfolding(crate::specs::Lookups::function_record))]
pub(crate) fn function_record(h: &Hierarchy, c: ClassId, number: u32) -> Option<&Function<ClassId>>
    ensures { option_copied result ≡ function_record h.now c number }
{
    if c.0 >= h.len() {
        return None;
    }
    h.class(c).functions.as_slice().get(number as usize)
}

/// Whether the class of a subobject declares a virtual function.
fn declares_virtual(h: &Hierarchy, s: &Subobject) -> bool
    ensures { result ≡ declares_virtual h.now (class_of s.now) }
{
    match class_of(s) {
        None => false,
        Some(c) => {
            if c.0 >= h.len() {
                return false;
            }
            h.class(c).has_virtual_function()
        }
    }
}

fn some_virtual(h: &Hierarchy, parts: &[Subobject]) -> bool
    ensures { result ≡ list_any (λ s. declares_virtual h.now (class_of s)) parts.now }
{
    parts.iter().any(|s| declares_virtual(h, s))
}

/// Whether a class declares or inherits a virtual function (ISO C++03 10.3 p1).
#[tactic(auto, using(crate::proofs::Finding::nothing_at, crate::proofs::Finding::plain_beyond, crate::proofs::Finding::polymorphic_by))]
pub(crate) fn is_polymorphic(h: &Hierarchy, known: &mut Known, c: ClassId) -> Result<bool, NoMemory>
    requires knows { Knows h.now known.old }
    ensures found { IfOk result (λ flag. is_polymorphic h.now c ≡ flag) }
    ensures knows { OnOk result (Knows h.now known.new) }
{
    if c.0 >= h.len() {
        return Ok(false);
    }
    if let Some(flag) = known.polymorphic(c) {
        return Ok(flag);
    }
    let parts = list_subobjects(known.alloc, h, c)?;
    let flag = some_virtual(h, parts.as_slice());
    known.keep_polymorphic(c, flag)?;
    Ok(flag)
}
