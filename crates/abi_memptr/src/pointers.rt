//! Pointers to members, and the pointer that `&K::m` is.

ghost use Rattle.std.specs.Prelude.{◌≡◌, ◌<◌, IfOk, IfErr, length, position, slice_get};
ghost use Rattle.std.specs.Str.{bytes_eq};
ghost use Rattle.cxx_hierarchy.specs.Classes.{width_in};
ghost use Rattle.cxx_subobject.specs.Subobjects.{whole_of};
ghost use Rattle.abi_memptr.specs.Pointers.{IsPointerOf, IsMemberRefusal, given, pointer_to_member};

use cxx_hierarchy::{ClassId, Function, Hierarchy, Member};
use cxx_overrider::FunctionId;
use cxx_subobject::listing::longer_path;
use cxx_subobject::{Root, Subobject};
use foundation::NoMemory;
use std::alloc::Global;
use thiserror::Error;

/// A pointer to a member of a class, or null (ISO C++03 8.3.3).
///
/// `Data` has the class that declares the member and the member's number there; `Function` has the function. Behind them stands the
/// subobject of the declaring class, in an object of the class to whose members the pointer leads.
#[derive(Debug, Drop)]
pub enum MemberPointer {
    NullData,
    Data(ClassId, u32, Subobject),
    NullFunction,
    Function(FunctionId, Subobject),
}

/// Why there is no pointer to a member: the rules M1 to M5, in their order.
#[derive(Clone, Copy, Debug, PartialEq, Eq)]
pub enum MemberRule {
    /// M1: the class itself declares no field and no function of the name.
    NoSuchMember,
    /// M2: the field is a bit-field.
    BitField,
    /// M3: the other class has no subobject of the class.
    NotBase,
    /// M4: it has two.
    AmbiguousBase,
    /// M5: the one lies in a virtual base.
    VirtualBase,
}

/// Why a call gives no pointer to a member: a rule, or want of memory.
#[derive(Clone, Copy, Debug, PartialEq, Eq, Error)]
pub enum MemberFault {
    #[error("the class declares no such member")]
    NoSuchMember,
    #[error("the member is a bit-field")]
    BitField,
    #[error("the class is no base")]
    NotBase,
    #[error("the base is ambiguous")]
    AmbiguousBase,
    #[error("the base is virtual")]
    VirtualBase,
    #[error("out of memory")]
    NoMemory,
}

impl From<NoMemory> for MemberFault {
    ghost use Rattle.std.specs.Prelude.{◌≡◌};
    ghost use Rattle.abi_memptr.specs.declared.pointers.MemberFault.{MemberFault};

    ghost from_gives = { λ _ fault. fault ≡ MemberFault.NoMemory };

    fn from(_error: NoMemory) -> MemberFault {
        MemberFault::NoMemory
    }
}

/// The number of the first member of a name.
fn first_member(members: &[Member<ClassId>], name: &[u8]) -> Option<usize>
    ensures { result ≡ position (λ member. bytes_eq member.name name.now) members.now }
{
    members
        .iter()
        .position(|member| member.name.as_slice() == name)
}

/// The number of the first function of a name.
fn first_function(functions: &[Function<ClassId>], name: &[u8]) -> Option<usize>
    ensures { result ≡ position (λ function. bytes_eq function.name name.now) functions.now }
{
    functions
        .iter()
        .position(|function| function.name.as_slice() == name)
}

/// The width of the member of a number; None where it is no bit-field, and where there is no such member.
fn width_of(members: &[Member<ClassId>], m: usize) -> Option<u32>
    ensures { result ≡ width_in (slice_get members.now m) }
{
    match members.get(m) {
        Some(member) => member.width,
        None => None,
    }
}

/// The whole of an object of a class.
fn whole_of(alloc: Global, c: ClassId) -> Result<Subobject, NoMemory>
    ensures { IfOk result (λ s. s ≡ whole_of c) }
{
    Ok(Subobject {
        root: Root::Whole,
        path: longer_path(alloc, &[c], &[])?,
    })
}

/// The pointer to the member of a name that a class itself declares, as a member of that class.
///
/// Errors: `NoSuchMember` where it declares no field and no function of the name, `BitField` where the field is a bit-field; want of
/// memory.
pub fn member_pointer(
    alloc: Global,
    h: &Hierarchy,
    k: ClassId,
    name: &[u8],
) -> Result<MemberPointer, MemberFault>
    requires known { k.0 < length h.now }
    ensures ok { IfOk result (λ v. pointer_to_member h.now k name.now ≡ given v) }
    ensures value { IfOk result (IsPointerOf h.now k) }
    ensures err { IfErr result (IsMemberRefusal (pointer_to_member h.now k name.now)) }
{
    h.keeps();
    let class = h.class(k);
    let members = class.members.as_slice();
    let functions = class.functions.as_slice();
    if let Some(m) = first_member(members, name) {
        if width_of(members, m).is_some() {
            return Err(MemberFault::BitField);
        }
        let whole = whole_of(alloc, k)?;
        return Ok(MemberPointer::Data(k, m as u32, whole));
    }
    if let Some(i) = first_function(functions, name) {
        let whole = whole_of(alloc, k)?;
        let function = FunctionId {
            class: k,
            index: i as u32,
        };
        return Ok(MemberPointer::Function(function, whole));
    }
    Err(MemberFault::NoSuchMember)
}
