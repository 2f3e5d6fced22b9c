//! The virtual pointers of an object (Itanium C++ ABI 2.5).

ghost use Rattle.std.specs.Prelude.{◌≡◌, ◌++◌, ◌+◌, ◌*◌, ◌<◌, ◌^◌, ℕ, Some, Contains, IfOk, OnOk, length, map, slice_get};
ghost use Rattle.std.specs.List.{flat_map, range_with_len};
ghost use Rattle.cxx_subobject.specs.Preorder.{preorder};
ghost use Rattle.cxx_subobject.specs.Subobjects.{IsSubobject, class_of, whole_of};
ghost use Rattle.cxx_hierarchy.specs.Classes.{members_of};
ghost use Rattle.abi_sound.specs.Places.{places_of};
ghost use Rattle.abi_slots.specs.Views.{heads, whole_view};
ghost use Rattle.abi_vtable.specs.invariants.Parts.{IsViewParts, subobjects_numbered, view_of_parts};
ghost use Rattle.text_told.specs.declared.pointers.TablePointer.{TablePointer};
ghost use Rattle.text_told.specs.Pointers.{member_objects, moved_pointer, objects_by_member, objects_by_type, objects_in, own_pointers, table_pointer_at, pointers_in, pointers_within};

use abi_primary::is_dynamic;
use abi_slots::GroupName;
use abi_sound::{SoundLayout, member_place};
use abi_vtable::heads::heads_of;
use abi_vtable::view::{ViewPart, ViewParts, view_parts};
use cxx_hierarchy::{ClassId, FieldType, Hierarchy};
use cxx_subobject::listing::longer_path;
use cxx_subobject::{Root, Subobject, class_of, list_subobjects};
use foundation::NoMemory;
use std::alloc::Global;

/// A virtual pointer of an object: its place there, and the table to which it points, by the class of the subobject to which
/// the table belongs, the place of that in its complete object, and the class of the complete object. Places are bytes.
#[derive(Clone, Copy, Debug)]
pub struct TablePointer {
    pub place: u32,
    pub class: Option<ClassId>,
    pub in_object: u32,
    pub object: ClassId,
}

/// A member that is an object, or an array of them: their class, the place of the first one in bytes, and how many there are.
#[derive(Clone, Copy, Debug)]
pub struct MemberObjects {
    pub class: ClassId,
    pub place: u32,
    pub count: u32,
}

/// The whole of a class as the view of a group.
fn whole_name(alloc: Global, c: ClassId) -> Result<GroupName, NoMemory>
    ensures complete { IfOk result (λ name. name.complete ≡ c) }
    ensures view { IfOk result (λ name. name.view ≡ whole_of c) }
{
    Ok(GroupName {
        complete: c,
        view: Subobject {
            root: Root::Whole,
            path: longer_path(alloc, &[c], &[])?,
        },
    })
}

/// The virtual pointer of a part of a class's whole.
fn pointer_at<L: SoundLayout>(h: &Hierarchy, layout: &L, c: ClassId, s: &Subobject) -> TablePointer
    requires layout { L.lays_out layout.now h.now }
    requires known { c.0 < length h.now }
    requires valid { IsSubobject h.now c s.now }
    ensures { result ≡ table_pointer_at (places_of h.now (L.rows layout.now)) c s.now }
{
    let place = layout.place(h, c, s);
    TablePointer {
        place,
        class: class_of(s),
        in_object: place,
        object: c,
    }
}

/// The part of a number.
fn part_at(parts: &[ViewPart], n: usize) -> &ViewPart
    requires { n < length parts.now }
    ensures { slice_get parts.now n ≡ Some result.now }
{
    &parts[n]
}

/// The virtual pointers of the parts of these numbers.
fn head_pointers<L: SoundLayout>(
    alloc: Global,
    h: &Hierarchy,
    layout: &L,
    x: &ViewParts,
    numbers: &[usize],
) -> Result<Vec<TablePointer>, NoMemory>
    requires layout { L.lays_out layout.now h.now }
    requires view { IsViewParts h.now (places_of h.now (L.rows layout.now)) x.now }
    requires whole { x.now.complete ≡ x.now.class }
    requires heads { subobjects_numbered (preorder h.now x.now.class) numbers.now ≡ map Some (heads h.now (places_of h.now (L.rows layout.now)) (view_of_parts x.now)) }
    ensures { IfOk result (λ list. list.items ≡ map (table_pointer_at (places_of h.now (L.rows layout.now)) x.now.class) (heads h.now (places_of h.now (L.rows layout.now)) (view_of_parts x.now))) }
{
    let mut list = Vec::new(alloc);
    for number in numbers {
        let part = part_at(x.parts.as_slice(), *number);
        list.push(pointer_at(h, layout, x.class, &part.at))?;
    }
    Ok(list)
}

/// The virtual pointers of a complete object itself: one for each table of its class.
fn own_pointers<L: SoundLayout>(
    alloc: Global,
    h: &Hierarchy,
    layout: &L,
    c: ClassId,
) -> Result<Vec<TablePointer>, NoMemory>
    requires layout { L.lays_out layout.now h.now }
    requires known { c.0 < length h.now }
    ensures { IfOk result (λ list. list.items ≡ own_pointers h.now (places_of h.now (L.rows layout.now)) c) }
{
    h.keeps();
    if !is_dynamic(h, c) {
        return Ok(Vec::new(alloc));
    }
    let x = view_parts(alloc, h, layout, &whole_name(alloc, c)?)?;
    let numbers = heads_of(alloc, &x)?;
    let list = head_pointers(alloc, h, layout, &x, numbers.as_slice())?;
    Ok(list)
}

/// Puts a member behind others, where it is an object or an array of them.
fn push_by_type(
    list: &mut Vec<MemberObjects>,
    place: u32,
    count: u32,
    ty: &FieldType<ClassId>,
) -> Result<(), NoMemory>
    ensures { OnOk result (list.new.items ≡ list.old.items ++ objects_by_type place count ty.now) }
{
    match ty {
        FieldType::Value(_) => Ok(()),
        FieldType::Object(class) => {
            list.push(MemberObjects {
                class: *class,
                place,
                count,
            })?;
            Ok(())
        }
    }
}

/// Puts the members that are objects of a class behind others; the subobject of the class lies at a place.
fn push_objects<L: SoundLayout>(
    h: &Hierarchy,
    layout: &L,
    list: &mut Vec<MemberObjects>,
    place: u32,
    b: ClassId,
) -> Result<(), NoMemory>
    requires layout { L.lays_out layout.now h.now }
    requires known { b.0 < length h.now }
    requires small { (m : ℕ) → place + (places_of h.now (L.rows layout.now)).member b m < 2 ^ 31 }
    ensures { OnOk result (list.new.items ≡ list.old.items ++ objects_in h.now (places_of h.now (L.rows layout.now)) place (Some b)) }
{
    h.keeps();
    let members = h.class(b).members.as_slice();
    for m in 0..members.len() {
        let member = &members[m];
        let at = place + member_place(layout, b, m as u32);
        push_by_type(list, at, member.elements(), &member.ty)?;
    }
    Ok(())
}

/// The members that are objects, of all subobjects of an object of a class.
fn member_objects<L: SoundLayout>(
    alloc: Global,
    h: &Hierarchy,
    layout: &L,
    c: ClassId,
) -> Result<Vec<MemberObjects>, NoMemory>
    requires layout { L.lays_out layout.now h.now }
    requires known { c.0 < length h.now }
    ensures { IfOk result (λ list. list.items ≡ member_objects h.now (places_of h.now (L.rows layout.now)) c) }
{
    h.keeps();
    let mut list = Vec::new(alloc);
    let parts = list_subobjects(alloc, h, c)?;
    for s in parts.as_slice() {
        match class_of(s) {
            Some(b) => push_objects(h, layout, &mut list, layout.place(h, c, s), b)?,
            // never met: `list_subobjects` of cxx_subobject lists subobjects alone, and each has a class
            None => {}
        }
    }
    Ok(list)
}

/// The same pointer, of an object that lies so much further.
fn moved(by: u32, pointer: TablePointer) -> TablePointer
    requires { by + pointer.place < 2 ^ 32 }
    ensures { result ≡ moved_pointer by pointer }
{
    TablePointer {
        place: by + pointer.place,
        class: pointer.class,
        in_object: pointer.in_object,
        object: pointer.object,
    }
}

/// Puts pointers behind others, of an object that lies so much further.
fn push_moved(
    list: &mut Vec<TablePointer>,
    by: u32,
    inside: &[TablePointer],
) -> Result<(), NoMemory>
    requires by { by < 2 ^ 31 }
    requires inside { (p : TablePointer) → Contains inside.now p → p.place < 2 ^ 31 }
    ensures { OnOk result (list.new.items ≡ list.old.items ++ map (moved_pointer by) inside.now) }
{
    for pointer in inside {
        list.push(moved(by, *pointer))?;
    }
    Ok(())
}

/// Puts the pointers in the elements of a member behind others, by those in one of them.
#[inline(never)]
fn push_elements(
    list: &mut Vec<TablePointer>,
    x: MemberObjects,
    size: u32,
    inside: &[TablePointer],
) -> Result<(), NoMemory>
    requires elements { (i : ℕ) → i < x.count → x.place + i * size < 2 ^ 31 }
    requires inside { (p : TablePointer) → Contains inside.now p → p.place < 2 ^ 31 }
    ensures { OnOk result (list.new.items ≡ list.old.items ++ flat_map (λ i. map (moved_pointer (x.place + i * size)) inside.now) (range_with_len 0 x.count)) }
{
    for i in 0..x.count {
        push_moved(list, x.place + i * size, inside)?;
    }
    Ok(())
}

/// Makes a list the pointers of a complete object itself. It is no part of the walk below, of which each open call takes room on
/// the stack.
#[inline(never)]
fn put_own_pointers<L: SoundLayout>(
    alloc: Global,
    h: &Hierarchy,
    layout: &L,
    c: ClassId,
    list: &mut Vec<TablePointer>,
) -> Result<(), NoMemory>
    requires layout { L.lays_out layout.now h.now }
    requires known { c.0 < length h.now }
    ensures { OnOk result (list.new.items ≡ own_pointers h.now (places_of h.now (L.rows layout.now)) c) }
{
    *list = own_pointers(alloc, h, layout, c)?;
    Ok(())
}

/// Makes a list the members that are objects, likewise.
#[inline(never)]
fn put_member_objects<L: SoundLayout>(
    alloc: Global,
    h: &Hierarchy,
    layout: &L,
    c: ClassId,
    list: &mut Vec<MemberObjects>,
) -> Result<(), NoMemory>
    requires layout { L.lays_out layout.now h.now }
    requires known { c.0 < length h.now }
    ensures { OnOk result (list.new.items ≡ member_objects h.now (places_of h.now (L.rows layout.now)) c) }
{
    *list = member_objects(alloc, h, layout, c)?;
    Ok(())
}

/// Makes a list the virtual pointers of an object of a class.
fn put_pointers<L: SoundLayout>(
    alloc: Global,
    h: &Hierarchy,
    layout: &L,
    c: ClassId,
    list: &mut Vec<TablePointer>,
) -> Result<(), NoMemory>
    requires layout { L.lays_out layout.now h.now }
    requires known { c.0 < length h.now }
    ensures { OnOk result ((n : ℕ) → c.0 < n → list.new.items ≡ pointers_within h.now (places_of h.now (L.rows layout.now)) n c) }
{
    h.keeps();
    put_own_pointers(alloc, h, layout, c, list)?;
    let mut objects = Vec::new(alloc);
    put_member_objects(alloc, h, layout, c, &mut objects)?;
    for x in objects.as_slice() {
        let mut inside = Vec::new(alloc);
        put_pointers(alloc, h, layout, x.class, &mut inside)?;
        push_elements(list, *x, layout.layout(x.class).size, &inside)?;
    }
    Ok(())
}

/// The virtual pointers of an object of a class: its own, and those of the objects that are members of it, at any depth. The
/// pointers in an object are found once for all elements of an array.
///
/// Errors: want of memory.
pub fn pointers_of<L: SoundLayout>(
    alloc: Global,
    h: &Hierarchy,
    layout: &L,
    c: ClassId,
) -> Result<Vec<TablePointer>, NoMemory>
    requires layout { L.lays_out layout.now h.now }
    requires known { c.0 < length h.now }
    ensures { IfOk result (λ list. (n : ℕ) → c.0 < n → list.items ≡ pointers_within h.now (places_of h.now (L.rows layout.now)) n c) }
{
    let mut list = Vec::new(alloc);
    put_pointers(alloc, h, layout, c, &mut list)?;
    Ok(list)
}
