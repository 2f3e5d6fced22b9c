//! What the members of a class are to it, by the layouts of the classes before it (Itanium C++ ABI 2.4).

ghost use Rattle.std.specs.Prelude.{◌≡◌, ◌*◌, ◌<◌, ◌≤◌, ◌⊎◌, IfOk, IfErr, Contains, length, map};
ghost use Rattle.cxx_hierarchy.specs.declared.records.ClassId.{ClassId};
ghost use Rattle.cxx_hierarchy.specs.declared.records.Member.{Member};
ghost use Rattle.cxx_hierarchy.specs.declared.stop.LimitNo.{LimitNo};
ghost use Rattle.abi_layout.specs.Limits.{size_limit};
ghost use Rattle.abi_layout.specs.Placements.{member_component, copies, elements_of, size_of_member_type, align_of_type, parts_of_type, stage_before_all};
ghost use Rattle.abi_layout.specs.invariants.Alignments.{LieUpTo, AreLittle, IsPlacing};
ghost use Rattle.abi_layout.specs.invariants.Known.{known_parts_of, AreAllSized, empty_stage, IsEarlierType, HasLarge};

use crate::component::{Component, PartList, Stage, push_moved};
use crate::known::Known;
use crate::member::size_of_value;
use crate::placing::{Placing, SIZE_LIMIT, add_parts};
use abi_emptybase::{Part, PlaceTable};
use abi_sound::ClassLayout;
use cxx_hierarchy::{ClassId, FieldType, LimitNo, Member, Stop};
use foundation::{NoMemory, Sequence};
use std::alloc::Global;

/// The size of a member or of an array's element, in bytes.
fn size_of_type(rows: &[ClassLayout], ty: &FieldType<ClassId>) -> u32
    requires { IsEarlierType (length rows.now) ty.now }
    ensures { result ≡ size_of_member_type rows.now ty.now }
{
    match ty {
        FieldType::Value(ty) => size_of_value(ty),
        FieldType::Object(class) => rows[class.0 as usize].size,
    }
}

/// The alignment of a member or of an array's element, in bytes.
fn align_of_type(rows: &[ClassLayout], ty: &FieldType<ClassId>) -> u32
    requires { IsEarlierType (length rows.now) ty.now }
    ensures { result ≡ align_of_type rows.now ty.now }
{
    match ty {
        FieldType::Value(ty) => size_of_value(ty),
        FieldType::Object(class) => rows[class.0 as usize].align,
    }
}

/// The parts of so many copies, each a stride further.
fn copies(alloc: Global, count: u32, stride: u32, parts: &[Part]) -> Result<PartList, NoMemory>
    requires bounded { count * stride ≤ size_limit }
    requires within { LieUpTo stride parts.now }
    ensures { IfOk result (λ list. list ≡ copies count stride parts.now) }
{
    let mut list = Sequence::new(alloc);
    for index in 0..count {
        push_moved(&mut list, parts, index * stride)?;
    }
    Ok(list)
}

/// The parts of a member, by their places in it.
fn member_parts(
    alloc: Global,
    known: &[Known],
    member: &Member<ClassId>,
    size: u32,
) -> Result<PartList, NoMemory>
    requires earlier { IsEarlierType (length known.now) member.now.ty }
    requires bounded { elements_of member.now.count * size ≤ size_limit }
    requires within { LieUpTo size (parts_of_type (known_parts_of known.now) member.now.ty) }
    ensures { IfOk result (λ parts. parts ≡ copies (elements_of member.now.count) size (parts_of_type (known_parts_of known.now) member.now.ty)) }
{
    match &member.ty {
        FieldType::Value(_) => copies(alloc, elements_of(member.count), size, &[]),
        FieldType::Object(class) => copies(
            alloc,
            elements_of(member.count),
            size,
            known[class.0 as usize].parts.as_slice(),
        ),
    }
}

/// How many objects a member is.
fn elements_of(count: Option<u32>) -> u32
    ensures { result ≡ elements_of count }
{
    match count {
        Some(count) => count,
        None => 1,
    }
}

/// What a member is to its class.
///
/// Errors: the limit L6 where it takes more than 500,000 bytes, or want of memory.
fn member_component(
    alloc: Global,
    rows: &[ClassLayout],
    known: &[Known],
    member: &Member<ClassId>,
) -> Result<Component, Stop>
    requires earlier { IsEarlierType (length rows.now) member.now.ty }
    requires known { length known.now ≡ length rows.now }
    requires within { AreAllSized rows.now known.now }
    ensures component { IfOk result (λ component. component ≡ member_component rows.now (known_parts_of known.now) member.now) }
    ensures little { IfOk result (λ component. component.takes ≤ size_limit) }
    ensures limit { IfErr result (λ e. (e ≡ Stop.NoMemory) ⊎ ((e ≡ Stop.Limit LimitNo.L6) × (size_limit < (member_component rows.now (known_parts_of known.now) member.now).takes))) }
{
    let size = size_of_type(rows, &member.ty);
    let takes = elements_of(member.count) as u64 * size as u64;
    if takes > SIZE_LIMIT as u64 {
        return Err(Stop::Limit(LimitNo::L6));
    }
    let parts = member_parts(alloc, known, member, size)?;
    Ok(Component {
        is_empty: false,
        align: align_of_type(rows, &member.ty),
        takes: takes as u32,
        width: member.width,
        parts,
    })
}

/// The members in the order of declaration.
///
/// Errors: the limit L6 where one takes more than 500,000 bytes, or want of memory.
pub(crate) fn member_components(
    alloc: Global,
    rows: &[ClassLayout],
    known: &[Known],
    members: &[Member<ClassId>],
) -> Result<Vec<Component>, Stop>
    requires earlier { (member : Member ClassId) → Contains members.now member → IsEarlierType (length rows.now) member.ty }
    requires known { length known.now ≡ length rows.now }
    requires within { AreAllSized rows.now known.now }
    ensures little { IfOk result (λ components. AreLittle components.items) }
    ensures components { IfOk result (λ components. components.items ≡ map (member_component rows.now (known_parts_of known.now)) members.now) }
    ensures limit { IfErr result (λ e. (e ≡ Stop.NoMemory) ⊎ ((e ≡ Stop.Limit LimitNo.L6) × HasLarge (map (member_component rows.now (known_parts_of known.now)) members.now))) }
{
    let mut components = Vec::new(alloc);
    for member in members {
        components.push(member_component(alloc, rows, known, member)?)?;
    }
    Ok(components)
}

fn empty_placing(alloc: Global) -> Placing
    ensures stage { result.stage ≡ empty_stage }
    ensures placing { IsPlacing result }
{
    Placing {
        stage: Stage {
            dsize: 0,
            free_bit: 0,
            size: 0,
            align: 1,
            parts: Sequence::new(alloc),
        },
        table: PlaceTable::new(alloc),
        listed: 0,
    }
}

/// Before the first component is placed: the class itself is at 0.
pub(crate) fn first_placing(alloc: Global, c: ClassId) -> Result<Placing, NoMemory>
    ensures stage { IfOk result (λ placing. placing.stage ≡ stage_before_all c) }
    ensures placing { IfOk result IsPlacing }
{
    let mut placing = empty_placing(alloc);
    let whole = [Part {
        class: c.0,
        place: 0,
    }];
    add_parts(&mut placing, &whole, 0)?;
    Ok(placing)
}
