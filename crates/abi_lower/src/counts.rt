//! How many blocks a routine has.

ghost use Rattle.std.specs.Prelude.{◌≡◌, ◌<◌, ◌^◌, IfOk};
ghost use Rattle.std.specs.List.{count_by};
ghost use Rattle.code_ops.specs.Routines.{IsRoutine};
ghost use Rattle.code_blocks.specs.invariants.ItemCodes.{ArePlans};
ghost use Rattle.abi_lower.specs.invariants.Numbers.{own_events, blocks_in};
ghost use Rattle.abi_lower.specs.invariants.Codes.{routine_from, is_own_code, is_body_kind, is_body_next};
ghost use Rattle.abi_lower.specs.invariants.Lowerings.{lowering_setup};

use crate::lowering::Lowering;
use crate::routines::{Routine, owner};
use abi_sound::SoundLayout;
use code_blocks::items::{Item, Kind};
use foundation::NoMemory;

/// Whether an item of a plan has a block of its own, where its class declares such a body or none.
pub fn is_own(has_body: bool, item: Item) -> bool
    ensures { result ≡ is_own_code has_body item }
{
    match item {
        Item::Does(Kind::AtBody) => false,
        Item::Does(Kind::AtDone) => !has_body,
        Item::Does(_) => true,
        Item::Shares(_) | Item::Inherits(_) | Item::Holds(_, _, _, _) => false,
    }
}

/// How many of these items have blocks of their own.
pub fn count_own(has_body: bool, items: &[Item]) -> usize
    ensures { result ≡ count_by (is_own_code has_body) items.now }
{
    items.iter().filter(|item| is_own(has_body, **item)).count()
}

/// Whether an event is the body.
pub fn is_body(kind: Kind) -> bool
    ensures { result ≡ is_body_kind kind }
{
    match kind {
        Kind::AtBody => true,
        _ => false,
    }
}

/// Whether the next own event is the body.
pub fn is_body_next(left: &[Item]) -> bool
    ensures { result ≡ is_body_next left.now }
{
    match left {
        [] => false,
        [Item::Does(kind), ..] => is_body(*kind),
        [_, rest @ ..] => is_body_next(rest),
    }
}

impl<'a, L: SoundLayout> Lowering<'a, L> {
    /// How many own events of the plan of a routine have blocks.
    ///
    /// Errors: want of memory.
    pub fn own_events(&self, r: Routine) -> Result<usize, NoMemory>
        requires plans { ArePlans self.now.h.now self.now.program.now self.now.index.now self.now.orders.now }
        requires routine { IsRoutine (lowering_setup L.rows self.now) (routine_from r) }
        ensures { IfOk result (λ n. n ≡ own_events (lowering_setup L.rows self.now) (routine_from r)) }
    {
        match r {
            Routine::Main | Routine::Function(_) => Ok(0),
            Routine::Plan(course, form, c) => {
                let list = self.items(course, form, c)?;
                let has_body = self.index.has_body(owner(r));
                Ok(count_own(has_body, list.as_slice()))
            }
        }
    }

    /// How many blocks a routine has.
    ///
    /// Errors: want of memory.
    pub fn blocks_in(&self, r: Routine) -> Result<usize, NoMemory>
        requires plans { ArePlans self.now.h.now self.now.program.now self.now.index.now self.now.orders.now }
        requires routine { IsRoutine (lowering_setup L.rows self.now) (routine_from r) }
        requires room { blocks_in (lowering_setup L.rows self.now) (routine_from r) < 2 ^ 32 }
        ensures { IfOk result (λ n. n ≡ blocks_in (lowering_setup L.rows self.now) (routine_from r)) }
    {
        let own = self.own_events(r)?;
        match self.body(r) {
            None => Ok(own),
            Some(body) => Ok(own + (body.statements.len() + 1)),
        }
    }
}
