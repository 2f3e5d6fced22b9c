//! What `array` and `memptr` answer: an array of a class, and a pointer to a member.

ghost use Rattle.std.specs.Prelude.{◌≡◌, ◌≤◌, None, IfOk};
ghost use Rattle.cxx_hierarchy.specs.Limits.{most_elements};
ghost use Rattle.cxxabi_cmd.specs.Answers.{IsArrayReply, IsMemberReply, member_rule};
ghost use Rattle.cxxabi_cmd.specs.invariants.Listings.{IsReady};
ghost use Rattle.cxxabi_cmd.specs.invariants.Replies.{as_answer, machine_of};

use crate::reply::{Reply, limited, line_alone};
use crate::status::{InputRule, Status};
use crate::verdict::Accepted;
use abi_cookie::{ArrayAnswer, array_answer};
use abi_memptr::{MemberAnswer, MemberRule, member_answer};
use cxx_hierarchy::Rule;
use cxxabi_words::QualifiedMember;
use foundation::NoMemory;
use std::alloc::Global;

// The number of a rule on pointers to members.
fn member_rule(rule: MemberRule) -> InputRule
    ensures { result ≡ member_rule rule }
{
    match rule {
        MemberRule::NoSuchMember => InputRule::M1,
        MemberRule::BitField => InputRule::M2,
        MemberRule::NotBase => InputRule::M3,
        MemberRule::AmbiguousBase => InputRule::M4,
        MemberRule::VirtualBase => InputRule::M5,
    }
}

// What `array` answers to an accepted source of so many bytes.
pub(crate) fn array_of(
    alloc: Global,
    size: u32,
    name: &[u8],
    count: u32,
    accepted: &Accepted,
) -> Result<Reply, NoMemory>
    requires ready { IsReady accepted.now }
    requires some { 1 ≤ count }
    requires few { count ≤ most_elements }
    ensures reply { IfOk result (λ reply. IsArrayReply size accepted.now.hierarchy name.now count (as_answer reply)) }
    ensures machine { IfOk result (λ reply. machine_of reply ≡ None) }
{
    let Some(class) = accepted.hierarchy.find(name) else {
        return line_alone(alloc, Status::Refused(Rule::UnknownName, size));
    };
    let answer = array_answer(
        alloc,
        &accepted.hierarchy,
        &accepted.overriders,
        &accepted.layout,
        class,
        count,
    )?;
    match answer {
        ArrayAnswer::Abstract => line_alone(alloc, Status::BadInput(InputRule::A1, 0)),
        ArrayAnswer::TooLarge => line_alone(alloc, Status::BadInput(InputRule::A2, 0)),
        ArrayAnswer::Text(text) => limited(alloc, text.into_vec()),
    }
}

// What `memptr` answers to an accepted source of so many bytes.
pub(crate) fn member_of(
    alloc: Global,
    size: u32,
    named: &QualifiedMember,
    accepted: &Accepted,
) -> Result<Reply, NoMemory>
    requires ready { IsReady accepted.now }
    ensures reply { IfOk result (λ reply. IsMemberReply size accepted.now.hierarchy named.now (as_answer reply)) }
    ensures machine { IfOk result (λ reply. machine_of reply ≡ None) }
{
    let Some(class) = accepted.hierarchy.find(named.class.as_slice()) else {
        return line_alone(alloc, Status::Refused(Rule::UnknownName, size));
    };
    let Some(whole) = accepted.hierarchy.find(named.whole.as_slice()) else {
        return line_alone(alloc, Status::Refused(Rule::UnknownName, size));
    };
    let answer = member_answer(
        alloc,
        &accepted.hierarchy,
        &accepted.overriders,
        &accepted.layout,
        &accepted.slots,
        class,
        named.member.as_slice(),
        whole,
    )?;
    match answer {
        MemberAnswer::Refused(rule) => { line_alone(alloc, Status::BadInput(member_rule(rule), 0)) }
        MemberAnswer::Text(text) => limited(alloc, text),
    }
}
