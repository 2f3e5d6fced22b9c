//! What is answered where classes are listed.

ghost use Rattle.std.specs.Prelude.{◌≡◌, ◌<◌, ◌∷◌, [], None, All, IfOk, MatchOption, length};
ghost use Rattle.cxx_hierarchy.specs.declared.records.ClassId.{ClassId};
ghost use Rattle.cxxabi_cmd.specs.Output.{Lists, first_classes};
ghost use Rattle.cxxabi_cmd.specs.invariants.Listings.{IsReady, AreListedTexts, IsTooMuch, ListsName};
ghost use Rattle.cxxabi_cmd.specs.invariants.Replies.{as_answer, machine_of};

use crate::listing::{Listing, append_class};
use crate::reply::{Reply, line_alone};
use crate::status::Status;
use crate::verdict::Accepted;
use abi_tables::some_tables;
use cxx_hierarchy::{ClassId, Hierarchy, LimitNo, Rule};
use foundation::NoMemory;
use std::alloc::Global;
use text_told::TEXT_LIMIT;

// What is listed of classes, one after the other, or None where it passes the limit.
fn texts_of(
    alloc: Global,
    accepted: &Accepted,
    listing: Listing,
    classes: &[ClassId],
) -> Result<Option<Vec<u8>>, NoMemory>
    requires ready { IsReady accepted.now }
    requires known { All (λ (c : ClassId). c.0 < length accepted.now.hierarchy) classes.now }
    ensures { IfOk result (λ found. MatchOption found (IsTooMuch accepted.now.hierarchy accepted.now.layout listing classes.now) (λ text. AreListedTexts accepted.now.hierarchy accepted.now.layout listing classes.now text.items)) }
{
    some_tables();
    let mut text = Vec::new(alloc);
    for c in classes {
        append_class(alloc, &mut text, accepted, listing, *c)?;
        if text.len() > TEXT_LIMIT {
            return Ok(None);
        }
    }
    Ok(Some(text))
}

// What is answered where these classes are listed.
fn list(
    alloc: Global,
    accepted: &Accepted,
    listing: Listing,
    classes: &[ClassId],
) -> Result<Reply, NoMemory>
    requires ready { IsReady accepted.now }
    requires known { All (λ (c : ClassId). c.0 < length accepted.now.hierarchy) classes.now }
    ensures lists { IfOk result (λ reply. Lists accepted.now.hierarchy listing classes.now (as_answer reply)) }
    ensures machine { IfOk result (λ reply. machine_of reply ≡ None) }
{
    match texts_of(alloc, accepted, listing, classes)? {
        Some(text) => Ok(Reply {
            text,
            status: Status::Done,
            machine: None,
        }),
        None => line_alone(alloc, Status::Limit(LimitNo::L9)),
    }
}

// The numbers of all classes, in the order of the source.
fn all_classes(alloc: Global, h: &Hierarchy) -> Result<Vec<ClassId>, NoMemory>
    ensures { IfOk result (λ list. list.items ≡ first_classes (length h.now)) }
{
    let mut list = Vec::new(alloc);
    for n in 0..h.len() {
        list.push(ClassId(n))?;
    }
    Ok(list)
}

// What is answered where all classes are listed.
pub(crate) fn list_all(
    alloc: Global,
    listing: Listing,
    accepted: &Accepted,
) -> Result<Reply, NoMemory>
    requires { IsReady accepted.now }
    ensures lists { IfOk result (λ reply. Lists accepted.now.hierarchy listing (first_classes (length accepted.now.hierarchy)) (as_answer reply)) }
    ensures machine { IfOk result (λ reply. machine_of reply ≡ None) }
{
    let classes = all_classes(alloc, &accepted.hierarchy)?;
    list(alloc, accepted, listing, &classes)
}

// What is answered where the class of a name is listed, for a source of so many bytes.
pub(crate) fn list_one(
    alloc: Global,
    size: u32,
    listing: Listing,
    name: &[u8],
    accepted: &Accepted,
) -> Result<Reply, NoMemory>
    requires { IsReady accepted.now }
    ensures lists { IfOk result (λ reply. ListsName size accepted.now.hierarchy listing name.now (as_answer reply)) }
    ensures machine { IfOk result (λ reply. machine_of reply ≡ None) }
{
    let Some(class) = accepted.hierarchy.find(name) else {
        return line_alone(alloc, Status::Refused(Rule::UnknownName, size));
    };
    list(alloc, accepted, listing, &[class])
}
