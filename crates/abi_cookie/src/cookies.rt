//! Which arrays have a cookie, and how large it is.

ghost use Rattle.std.specs.Prelude.{◌≡◌, ◌<◌, ◌↔◌, IsTrue, length};
ghost use Rattle.std.specs.List.{list_any};
ghost use Rattle.cxx_hierarchy.specs.declared.records.Base.{Base};
ghost use Rattle.cxx_hierarchy.specs.declared.records.ClassId.{ClassId};
ghost use Rattle.cxx_hierarchy.specs.declared.records.Member.{Member};
ghost use Rattle.abi_sound.specs.Places.{places_of};
ghost use Rattle.abi_cookie.specs.Cookies.{NeedsCookie, IsCookie};
ghost use Rattle.abi_cookie.specs.invariants.Marks.{mark_of_class, mark_of_type, has_destructor};

use abi_sound::SoundLayout;
use cxx_hierarchy::{Base, ClassId, ClassRec, FieldType, Hierarchy, MOST_CLASSES, Member};

/// The bytes of the count in a cookie: those of `size_t` on LP64.
pub const COUNT_BYTES: u32 = 8;

/// Whether a class is marked.
fn is_marked(marks: &[bool], c: ClassId) -> bool
    ensures { result ≡ mark_of_class marks.now c }
{
    match marks.get(c.0 as usize) {
        Some(mark) => *mark,
        None => false,
    }
}

/// Whether the class of a type is marked.
fn is_marked_type(marks: &[bool], ty: &FieldType<ClassId>) -> bool
    ensures { result ≡ mark_of_type marks.now ty.now }
{
    match ty {
        FieldType::Value(_) => false,
        FieldType::Object(class) => is_marked(marks, *class),
    }
}

/// Whether a base is marked.
fn is_marked_base(marks: &[bool], bases: &[Base<ClassId>]) -> bool
    ensures { result ≡ list_any (λ (base : Base ClassId). mark_of_class marks.now base.class) bases.now }
{
    bases.iter().any(|base| is_marked(marks, base.class))
}

/// Whether the class of a member is marked.
fn is_marked_member(marks: &[bool], members: &[Member<ClassId>]) -> bool
    ensures { result ≡ list_any (λ (member : Member ClassId). mark_of_type marks.now member.ty) members.now }
{
    members
        .iter()
        .any(|member| is_marked_type(marks, &member.ty))
}

/// Whether a class declares a destructor, or a base of it or the class of a member is marked.
fn has_destructor(marks: &[bool], class: &ClassRec<ClassId>) -> bool
    ensures { result ≡ has_destructor marks.now class.now }
{
    !class.destructor.is_implicit()
        || is_marked_base(marks, class.bases.as_slice())
        || is_marked_member(marks, class.members.as_slice())
}

/// Whether an array of a class has a cookie: its destructor is not trivial, since the class declares one, or a base of it, or the
/// class of a member of either, at any depth (Itanium C++ ABI 2.7, ISO C++03 12.4). It takes no memory.
pub fn needs_cookie(h: &Hierarchy, c: ClassId) -> bool
    requires { c.0 < length h.now }
    ensures { IsTrue result ↔ NeedsCookie h.now c }
{
    h.keeps();
    let mut marks = [false; MOST_CLASSES];
    for number in 0..c.0 + 1 {
        marks[number as usize] = has_destructor(&marks, h.class(ClassId(number)));
    }
    marks[c.0 as usize]
}

/// The size of the cookie before an array of a class, in bytes: 0 where it needs none, else the larger one of 8 and the alignment of
/// the class (Itanium C++ ABI 2.7). It takes no memory.
pub fn cookie_size<L: SoundLayout>(h: &Hierarchy, layout: &L, c: ClassId) -> u32
    requires layout { L.lays_out layout.now h.now }
    requires known { c.0 < length h.now }
    ensures { IsCookie h.now (places_of h.now (L.rows layout.now)) c result }
{
    if needs_cookie(h, c) {
        layout.layout(c).align.max(COUNT_BYTES)
    } else {
        0
    }
}
