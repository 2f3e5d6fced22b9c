//! Whether a text is the listing of a sound layout.

ghost use Rattle.std.specs.Prelude.{◌≡◌, ◌<◌, ◌^◌, ◌⊎◌, Some, IfOk, IfErr, length, slice_get};
ghost use Rattle.abi_judge.specs.Rules.{MayBeJudged};
ghost use Rattle.abi_print.specs.LayoutTexts.{proper};
ghost use Rattle.abi_foreign.specs.Listings.{IsForeign};
ghost use Rattle.abi_foreign.specs.Refusals.{IsRefused};
ghost use Rattle.abi_foreign.specs.invariants.Judged.{rule_with_sums, least_rule, IsJudged};

use crate::foreign_layout::ForeignLayout;
use crate::listing_stop::{ListingRule, ListingStop};
use crate::reading::read_listing;
use crate::rows::rows_of;
use crate::said::ClassSaid;
use crate::sums::are_sums;
use abi_judge::{SoundRule, fault_of_class};
use abi_sound::ClassLayout;
use cxx_hierarchy::{ClassId, Hierarchy};
use foundation::NoMemory;
use std::alloc::Global;

/// The rule that a class breaks first: that its places are sums is asked after the rule on its primary base.
fn rule_with_sums(rule: SoundRule, has_sums: bool) -> ListingRule
    ensures { result ≡ rule_with_sums rule has_sums }
{
    match rule {
        SoundRule::Primary => ListingRule::Primary,
        SoundRule::Place => ListingRule::Place,
        SoundRule::Align => if has_sums {
            ListingRule::Align
        } else {
            ListingRule::Place
        },
        SoundRule::Inside => if has_sums {
            ListingRule::Inside
        } else {
            ListingRule::Place
        },
        SoundRule::Overlap => if has_sums {
            ListingRule::Overlap
        } else {
            ListingRule::Place
        },
        SoundRule::Twice => if has_sums {
            ListingRule::Twice
        } else {
            ListingRule::Place
        },
    }
}

/// The rule that a class breaks first, by the rule of sound layouts that it breaks first and by whether its places are sums.
fn least_rule(fault: Option<SoundRule>, has_sums: bool) -> Option<ListingRule>
    ensures { result ≡ least_rule fault has_sums }
{
    match fault {
        Some(rule) => Some(rule_with_sums(rule, has_sums)),
        None => if has_sums {
            None
        } else {
            Some(ListingRule::Place)
        },
    }
}

/// The least rule that a class of a listing breaks, and None where it breaks none.
fn fault_of(
    alloc: Global,
    h: &Hierarchy,
    rows: &[ClassLayout],
    c: ClassId,
    said: &ClassSaid,
) -> Result<Option<ListingRule>, NoMemory>
    requires next { MayBeJudged h.now rows.now c }
    requires each { length said.now.places ≡ length (proper said.now.list) }
    ensures { IfOk result (IsJudged h.now rows.now c (proper said.now.list) said.now.places) }
{
    let fault = fault_of_class(alloc, h, rows, c)?;
    Ok(least_rule(fault, are_sums(h, rows, c, said)))
}

/// What the lines of a class say.
fn said_of(saids: &[ClassSaid], c: ClassId) -> &ClassSaid
    requires { c.0 < length saids.now }
    ensures { slice_get saids.now c.0 ≡ Some result.now }
{
    &saids[c.0 as usize]
}

/// The layout that a listing stands for, where the text is a listing of these classes and that layout is sound.
///
/// Errors: `Bad` with the rule that is broken and the number of a line, from 1. `Form` comes first, with the first line that is not
/// of the form that stands at its place, or is too many, or is missing. Then the classes follow in the order of the source; of the
/// first one that breaks a rule it is the least rule, with the class's first line. Want of memory.
pub fn check_listing(
    alloc: Global,
    h: &Hierarchy,
    listing: &[u8],
) -> Result<ForeignLayout, ListingStop>
    requires { length listing.now < 2 ^ 31 }
    ensures ok { IfOk result (IsForeign h.now listing.now) }
    ensures err { IfErr result (λ stop. (stop ≡ ListingStop.NoMemory) ⊎ IsRefused h.now listing.now stop) }
{
    h.keeps();
    let read = read_listing(alloc, h, listing)?;
    let saids = read.as_slice();
    let rows = rows_of(alloc, h, saids)?;
    for n in 0..h.len() {
        let said = said_of(saids, ClassId(n));
        let fault = fault_of(alloc, h, &rows, ClassId(n), said)?;
        match fault {
            Some(rule) => return Err(ListingStop::Bad(rule, said.line)),
            None => {}
        }
    }
    Ok(ForeignLayout::from_rows(rows))
}
