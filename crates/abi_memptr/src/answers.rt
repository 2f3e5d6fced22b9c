//! What is told of a pointer to a member.

ghost use Rattle.std.specs.Prelude.{◌≡◌, ◌++◌, ◌<◌, ℕ, List, IfErr, IfOk, OnOk, length};
ghost use Rattle.cxx_subobject.specs.Subobjects.{whole_of};
ghost use Rattle.cxx_overrider.specs.Overriders.{AreOverriders};
ghost use Rattle.cxx_overrider.specs.Overriding.{IsVirtual};
ghost use Rattle.cxx_overrider.specs.Virtuals.{is_virtual};
ghost use Rattle.cxx_search.specs.Searches.{final_in};
ghost use Rattle.abi_sound.specs.Places.{Places, places_of};
ghost use Rattle.abi_slots.specs.Slots.{AreSlots};
ghost use Rattle.abi_memptr.specs.Pointers.{IsFunctionIn, IsPointerOf, IsMemberRefusal, MemberOutcome, given, pointer_for};
ghost use Rattle.abi_memptr.specs.Answers.{answer_of, call_line, virtual_entry, overrider_line, member_pointer_text, said};
ghost use Rattle.abi_memptr.specs.invariants.Sites.{IsSite, pointer_site_places};

use crate::conversions::convert;
use crate::pointer_bytes::{data_place, entry_word};
use crate::pointers::{MemberFault, MemberPointer, MemberRule, member_pointer};
use crate::texts::{Written, append_data, append_function_line, append_run};
use abi_slots::Slots;
use abi_sound::SoundLayout;
use cxx_hierarchy::{ClassId, Hierarchy};
use cxx_overrider::pure::is_pure;
use cxx_overrider::{FunctionId, Overriders};
use cxx_search::{final_is_found, names_are_signatures};
use cxx_subobject::Subobject;
use foundation::NoMemory;
use std::alloc::Global;

/// The rule that refuses a pointer to a member, or the text that tells it.
#[derive(Debug, Drop)]
pub enum MemberAnswer {
    Refused(MemberRule),
    Text(Vec<u8>),
}

/// The classes, their final overriders and layout, and where memory comes from.
#[derive(Drop)]
struct Site<'a, L> {
    alloc: Global,
    h: &'a Hierarchy,
    overriders: &'a Overriders,
    layout: &'a L,
}

/// The first word of a pointer to a virtual function; None for another one.
fn entry_of(h: &Hierarchy, overriders: &Overriders, slots: &Slots, f: FunctionId) -> Option<u64>
    requires { AreOverriders h.now overriders.now }
    ensures { (l : Places) → AreSlots h.now l slots.now → result ≡ virtual_entry h.now l f }
{
    h.keeps();
    names_are_signatures();
    if overriders.is_virtual(f) {
        Some(entry_word(slots, f))
    } else {
        None
    }
}

/// Puts the final overrider of a virtual function in a subobject of class `d`, and its place, at the end of a text.
fn append_overrider<L: SoundLayout>(
    site: &Site<L>,
    text: &mut Vec<u8>,
    d: ClassId,
    f: FunctionId,
    s: &Subobject,
) -> Written
    requires site { IsSite L.lays_out site.now }
    requires value { IsFunctionIn site.now.h.now d f s.now }
    requires is_virtual { IsVirtual site.now.h.now f }
    ensures { OnOk result (text.new.items ≡ text.old.items ++ overrider_line site.now.h.now (pointer_site_places L.rows site.now) d (final_in site.now.h.now (whole_of d) s.now f)) }
{
    let h = site.h;
    h.keeps();
    final_is_found();
    let o = site.overriders.final_overrider(h, d, s, f)?;
    let place = site.layout.place(h, d, &o.at);
    append_run(
        site.alloc,
        text,
        h,
        is_pure(h, o.function),
        o.function,
        place,
    )?;
    Ok(())
}

/// Puts what a call on a whole object of class `d` runs at the end of a text.
fn append_call<L: SoundLayout>(
    site: &Site<L>,
    text: &mut Vec<u8>,
    d: ClassId,
    f: FunctionId,
    s: &Subobject,
) -> Written
    requires site { IsSite L.lays_out site.now }
    requires value { IsFunctionIn site.now.h.now d f s.now }
    ensures { OnOk result (text.new.items ≡ text.old.items ++ call_line site.now.h.now (pointer_site_places L.rows site.now) d f s.now (is_virtual site.now.h.now f)) }
{
    let h = site.h;
    h.keeps();
    names_are_signatures();
    if site.overriders.is_virtual(f) {
        append_overrider(site, text, d, f, s)?;
    } else {
        append_run(site.alloc, text, h, false, f, site.layout.place(h, d, s))?;
    }
    Ok(())
}

/// The text of a pointer to a member of class `d`; that of null is empty.
fn pointer_text<L: SoundLayout>(
    site: &Site<L>,
    slots: &Slots,
    d: ClassId,
    v: &MemberPointer,
) -> Result<Vec<u8>, NoMemory>
    requires site { IsSite L.lays_out site.now }
    requires slots { AreSlots site.now.h.now (pointer_site_places L.rows site.now) slots.now }
    requires value { IsPointerOf site.now.h.now d v.now }
    ensures { IfOk result (λ text. text.items ≡ member_pointer_text site.now.h.now (pointer_site_places L.rows site.now) d v.now) }
{
    let mut text = Vec::new(site.alloc);
    match v {
        MemberPointer::NullData | MemberPointer::NullFunction => {}
        MemberPointer::Data(c, m, s) => {
            let place = data_place(site.h, site.layout, d, *c, *m, s);
            append_data(site.alloc, &mut text, place)?;
        }
        MemberPointer::Function(f, s) => {
            let entry = entry_of(site.h, site.overriders, slots, *f);
            let adj = site.layout.place(site.h, d, s);
            append_function_line(site.alloc, &mut text, site.h, *f, entry, adj)?;
            append_call(site, &mut text, d, *f, s)?;
        }
    }
    Ok(text)
}

/// The answer of a fault; want of memory is none.
fn refusal(fault: MemberFault) -> Result<MemberAnswer, NoMemory>
    ensures { IfOk result (λ answer. (outcome : MemberOutcome (List ℕ)) → IsMemberRefusal outcome fault → said answer ≡ outcome) }
{
    match fault {
        MemberFault::NoSuchMember => Ok(MemberAnswer::Refused(MemberRule::NoSuchMember)),
        MemberFault::BitField => Ok(MemberAnswer::Refused(MemberRule::BitField)),
        MemberFault::NotBase => Ok(MemberAnswer::Refused(MemberRule::NotBase)),
        MemberFault::AmbiguousBase => Ok(MemberAnswer::Refused(MemberRule::AmbiguousBase)),
        MemberFault::VirtualBase => Ok(MemberAnswer::Refused(MemberRule::VirtualBase)),
        MemberFault::NoMemory => Err(NoMemory),
    }
}

/// The pointer to the member of a name that class `k` declares, as one to a member of class `d`.
///
/// Errors: the first rule that refuses it; want of memory.
fn pointer_for(
    alloc: Global,
    h: &Hierarchy,
    k: ClassId,
    name: &[u8],
    d: ClassId,
) -> Result<MemberPointer, MemberFault>
    requires class { k.0 < length h.now }
    requires object { d.0 < length h.now }
    ensures ok { IfOk result (λ v. pointer_for h.now k name.now d ≡ given v) }
    ensures value { IfOk result (IsPointerOf h.now d) }
    ensures err { IfErr result (IsMemberRefusal (pointer_for h.now k name.now d)) }
{
    let v = member_pointer(alloc, h, k, name)?;
    let v = convert(alloc, h, &v, k, d)?;
    Ok(v)
}

/// What is told of the pointer to the member of a name that class `k` declares, as a member of class `d`: its bytes, and what a call
/// through it on an object of class `d` runs; or the first rule that refuses it.
///
/// Errors: want of memory.
pub fn member_answer<L: SoundLayout>(
    alloc: Global,
    h: &Hierarchy,
    overriders: &Overriders,
    layout: &L,
    slots: &Slots,
    k: ClassId,
    name: &[u8],
    d: ClassId,
) -> Result<MemberAnswer, NoMemory>
    requires layout { L.lays_out layout.now h.now }
    requires overriders { AreOverriders h.now overriders.now }
    requires slots { AreSlots h.now (places_of h.now (L.rows layout.now)) slots.now }
    requires class { k.0 < length h.now }
    requires object { d.0 < length h.now }
    ensures { IfOk result (λ answer. said answer ≡ answer_of h.now (places_of h.now (L.rows layout.now)) k name.now d) }
{
    let v = match pointer_for(alloc, h, k, name, d) {
        Ok(v) => v,
        Err(fault) => return refusal(fault),
    };
    let site = Site {
        alloc,
        h,
        overriders,
        layout,
    };
    let text = pointer_text(&site, slots, d, &v)?;
    Ok(MemberAnswer::Text(text))
}
