//! Pointers to members of a base as pointers to members of a derived class.

ghost use Rattle.std.specs.Prelude.{◌≡◌, ◌<◌, IfOk, IfErr, length};
ghost use Rattle.cxx_subobject.specs.Subobjects.{IsOfClass};
ghost use Rattle.abi_memptr.specs.Pointers.{IsPointerOf, IsMemberRefusal, base_for, converted_pointer, given};
ghost use Rattle.abi_memptr.specs.invariants.Faults.{member_fault};

use crate::pointers::{MemberFault, MemberPointer};
use cxx_hierarchy::{ClassId, Hierarchy};
use cxx_lookup::{BaseFault, base_finding, unique_base};
use cxx_subobject::{Root, Subobject, join};
use std::alloc::Global;

/// Why a class is no base, as a fault of a pointer to a member.
fn fault_of(fault: BaseFault) -> MemberFault
    ensures { result ≡ member_fault fault }
{
    match fault {
        BaseFault::AmbiguousBase => MemberFault::AmbiguousBase,
        BaseFault::NotBase => MemberFault::NotBase,
        BaseFault::NoMemory => MemberFault::NoMemory,
    }
}

/// The one subobject of class `k` in an object of class `d`.
///
/// Errors: `NotBase` where there is none, `AmbiguousBase` where there are two, `VirtualBase` where the one lies in a virtual base;
/// want of memory.
fn base_for(alloc: Global, h: &Hierarchy, k: ClassId, d: ClassId) -> Result<Subobject, MemberFault>
    requires { d.0 < length h.now }
    ensures ok { IfOk result (λ s. base_for h.now k d ≡ given s) }
    ensures valid { IfOk result (IsOfClass h.now d k) }
    ensures err { IfErr result (IsMemberRefusal (base_for h.now k d)) }
{
    h.keeps();
    base_finding();
    match unique_base(alloc, h, d, k) {
        Ok(base) => match base.root {
            Root::Whole => Ok(base),
            Root::Shared(_) => Err(MemberFault::VirtualBase),
        },
        Err(fault) => Err(fault_of(fault)),
    }
}

/// A pointer to a member of class `k`, or null, as one to a member of class `d` (ISO C++03 4.11 p2): its subobject as a part of the
/// one subobject of class `k` in `d`. Null stays null.
///
/// Errors: `NotBase` where `d` has no subobject of class `k`, `AmbiguousBase` where it has two, `VirtualBase` where the one lies in a
/// virtual base; want of memory.
pub fn convert(
    alloc: Global,
    h: &Hierarchy,
    v: &MemberPointer,
    k: ClassId,
    d: ClassId,
) -> Result<MemberPointer, MemberFault>
    requires known { d.0 < length h.now }
    requires value { IsPointerOf h.now k v.now }
    ensures ok { IfOk result (λ w. converted_pointer h.now k d v.now ≡ given w) }
    ensures value { IfOk result (IsPointerOf h.now d) }
    ensures err { IfErr result (IsMemberRefusal (converted_pointer h.now k d v.now)) }
{
    let base = base_for(alloc, h, k, d)?;
    match v {
        MemberPointer::NullData => Ok(MemberPointer::NullData),
        MemberPointer::Data(c, m, s) => {
            let s = join(alloc, h, d, &base, s)?;
            Ok(MemberPointer::Data(*c, *m, s))
        }
        MemberPointer::NullFunction => Ok(MemberPointer::NullFunction),
        MemberPointer::Function(f, s) => {
            let s = join(alloc, h, d, &base, s)?;
            Ok(MemberPointer::Function(*f, s))
        }
    }
}
