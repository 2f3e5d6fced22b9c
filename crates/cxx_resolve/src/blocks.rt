//! Blocks and the statements in them.

ghost use Rattle.std.specs.Prelude.{◌≡◌, ◌<◌, ◌+◌, ◌^◌, OnOk};
ghost use Rattle.cxx_overrider.specs.Overriders.{AreOverriders};
ghost use Rattle.cxx_expression.specs.Faults.{least};
ghost use Rattle.cxx_expression.specs.invariants.Known.{Knows};
ghost use Rattle.cxx_resolve.specs.Stops.{Gives, Settles};
ghost use Rattle.cxx_resolve.specs.Walks.{pushed, condition_of, finished, plain_walk, declare_walk, if_head, while_head, scoped, statement_meaning, block_meaning};

use crate::body_site::BodySite;
use crate::declarations::{NewVariable, declare_of};
use crate::draft::Draft;
use crate::sizes::{block_size, statement_size};
use crate::statements::plain_of;
use cxx_expression::{Fault, Known, Number, Piece, number_of, settle};
use cxx_hierarchy::{LimitNo, Stop};
use cxx_program::{TypedKind, TypedStatement};
use cxx_syntax::{BodyTree, Operand, Statement, StatementKind};
use foundation::{NoMemory, Sequence};

/// The most local declarations of a body.
const MOST_LOCALS: u32 = 256;

/// Puts a statement behind those so far.
fn push(draft: &mut Draft, kind: TypedKind, line: u32, next: usize) -> Result<(), NoMemory>
    ensures { OnOk result (draft.new ≡ pushed kind line next draft.old) }
{
    draft.statements.push(TypedStatement { kind, line, next })
}

/// Puts a statement behind those so far, where nothing refuses it.
fn finish(
    draft: &mut Draft,
    faults: &[Fault],
    typed: Piece<TypedKind>,
    line: u32,
    next: usize,
) -> Result<(), Stop>
    ensures { Gives result draft.new (finished (least faults.now) typed line next draft.old) }
{
    let kind = settle(faults, typed)?;
    push(draft, kind, line, next)?;
    Ok(())
}

/// A statement that declares nothing and has no block in it.
fn plain(
    body: &BodySite,
    known: &mut Known,
    one: &Statement,
    next: usize,
    draft: &mut Draft,
) -> Result<(), Stop>
    requires made { AreOverriders body.now.h.now body.now.overriders.now }
    requires knows { Knows body.now.h.now known.old }
    ensures walks { Gives result draft.new (plain_walk body.now.h.now body.now.setting.now one.now.at one.now.kind one.now.line next draft.old) }
    ensures knows { OnOk result (Knows body.now.h.now known.new) }
{
    let mut faults = Sequence::new(body.alloc);
    let site = body.site(&draft.scene, one.at);
    let typed = plain_of(&site, known, &mut faults, &one.kind)?;
    finish(draft, faults.as_slice(), typed, one.line, next)
}

/// A declaration.
#[tactic(auto, unfolding(crate::specs::Walks::declare_walk), using(crate::proofs::Walking::declared_line))]
fn declaration(
    body: &BodySite,
    known: &mut Known,
    one: &Statement,
    variable: &NewVariable,
    next: usize,
    draft: &mut Draft,
) -> Result<(), Stop>
    requires made { AreOverriders body.now.h.now body.now.overriders.now }
    requires knows { Knows body.now.h.now known.old }
    ensures walks { Gives result draft.new (declare_walk body.now.h.now body.now.setting.now one.now.at variable.now.ty.now variable.now.ty_at variable.now.name.now variable.now.init.now one.now.line next draft.old) }
    ensures knows { OnOk result (Knows body.now.h.now known.new) }
{
    if draft.scene.declared >= MOST_LOCALS {
        return Err(Stop::Limit(LimitNo::L3));
    }
    let mut faults = Sequence::new(body.alloc);
    let scene = &mut draft.scene;
    let typed = declare_of(body, known, scene, one.at, &mut faults, variable)?;
    finish(draft, faults.as_slice(), typed, one.line, next)
}

/// A condition that must be a number.
fn condition(body: &BodySite, at: u32, x: &Operand, draft: &Draft) -> Result<Number, Stop>
    ensures { Settles result (condition_of body.now.setting.now draft.now.scene at x.now) }
{
    let mut faults = Sequence::new(body.alloc);
    let site = body.site(&draft.scene, at);
    let typed = number_of(&site, &mut faults, x)?;
    settle(faults.as_slice(), typed)
}

/// The condition of an `if`.
#[tactic(auto, unfolding(crate::specs::Walks::head))]
fn if_head(
    body: &BodySite,
    one: &Statement,
    x: &Operand,
    other: usize,
    behind: usize,
    next: usize,
    draft: &mut Draft,
) -> Result<(), Stop>
    ensures { Gives result draft.new (if_head other behind body.now.setting.now one.now.at x.now one.now.line next draft.old) }
{
    let value = condition(body, one.at, x, draft)?;
    let kind = TypedKind::If(value.operand, other, behind);
    push(draft, kind, one.line, next)?;
    Ok(())
}

/// The condition of a `while`.
#[tactic(auto, unfolding(crate::specs::Walks::head))]
fn while_head(
    body: &BodySite,
    one: &Statement,
    x: &Operand,
    behind: usize,
    next: usize,
    draft: &mut Draft,
) -> Result<(), Stop>
    ensures { Gives result draft.new (while_head behind body.now.setting.now one.now.at x.now one.now.line next draft.old) }
{
    let value = condition(body, one.at, x, draft)?;
    let kind = TypedKind::While(value.operand, behind);
    push(draft, kind, one.line, next)?;
    Ok(())
}

/// A block in a scope of its own.
#[cycle(walk)]
#[tactic(auto, unfolding(crate::specs::Walks::scoped))]
fn scoped(
    body: &BodySite,
    known: &mut Known,
    block: &BodyTree,
    number: usize,
    follow: usize,
    draft: &mut Draft,
) -> Result<(), Stop>
    requires made { AreOverriders body.now.h.now body.now.overriders.now }
    requires knows { Knows body.now.h.now known.old }
    requires short { number + (block_meaning block.now).size < 2 ^ 64 }
    ensures walks { Gives result draft.new (scoped (block_meaning block.now) body.now.h.now body.now.setting.now number follow draft.old) }
    ensures knows { OnOk result (Knows body.now.h.now known.new) }
{
    let start = draft.scene.start;
    let count = draft.scene.entries.len();
    draft.scene.start = count;
    statements(body, known, block, number, follow, draft)?;
    draft.scene.entries.truncate(count);
    draft.scene.start = start;
    Ok(())
}

/// The statements of a block; `number` is that of the first, and `follow` that of the statement behind the block.
#[cycle(walk)]
#[tactic(auto, unfolding(crate::specs::Walks::walk_all), using(crate::proofs::Walking::block_is))]
pub(crate) fn statements(
    body: &BodySite,
    known: &mut Known,
    block: &BodyTree,
    number: usize,
    follow: usize,
    draft: &mut Draft,
) -> Result<(), Stop>
    requires made { AreOverriders body.now.h.now body.now.overriders.now }
    requires knows { Knows body.now.h.now known.old }
    requires short { number + (block_meaning block.now).size < 2 ^ 64 }
    ensures walks { Gives result draft.new ((block_meaning block.now).walk body.now.h.now body.now.setting.now number follow draft.old) }
    ensures knows { OnOk result (Knows body.now.h.now known.new) }
{
    let list = block.statements.as_slice();
    let mut n = number;
    for (i, one) in list.iter().enumerate() {
        let behind = n + statement_size(one);
        let next = if i + 1 < list.len() { behind } else { follow };
        statement(body, known, one, n, next, draft)?;
        n = behind;
    }
    Ok(())
}

/// A statement of this number, behind which control goes on at `next`.
#[cycle(walk)]
#[tactic(auto, using(crate::proofs::KindCases::statement_walked, crate::proofs::KindCases::statement_sized))]
fn statement(
    body: &BodySite,
    known: &mut Known,
    one: &Statement,
    number: usize,
    next: usize,
    draft: &mut Draft,
) -> Result<(), Stop>
    requires made { AreOverriders body.now.h.now body.now.overriders.now }
    requires knows { Knows body.now.h.now known.old }
    requires short { number + (statement_meaning one.now).size < 2 ^ 64 }
    ensures walks { Gives result draft.new ((statement_meaning one.now).walk body.now.h.now body.now.setting.now number next draft.old) }
    ensures knows { OnOk result (Knows body.now.h.now known.new) }
{
    match &one.kind {
        StatementKind::Declare(ty, ty_at, name, init) => {
            let variable = NewVariable {
                ty,
                ty_at: *ty_at,
                name,
                init,
            };
            declaration(body, known, one, &variable, next, draft)
        }
        StatementKind::Assign(..) => plain(body, known, one, next, draft),
        StatementKind::Write(..) => plain(body, known, one, next, draft),
        StatementKind::Copy(..) => plain(body, known, one, next, draft),
        StatementKind::Call(..) => plain(body, known, one, next, draft),
        StatementKind::Delete(..) => plain(body, known, one, next, draft),
        StatementKind::Return(..) => plain(body, known, one, next, draft),
        StatementKind::Print(..) => plain(body, known, one, next, draft),
        StatementKind::PrintType(..) => plain(body, known, one, next, draft),
        StatementKind::PrintView(..) => plain(body, known, one, next, draft),
        StatementKind::Dump(..) => plain(body, known, one, next, draft),
        StatementKind::If(x, block, None) => {
            let behind = number + 1 + block_size(block);
            if_head(body, one, x, behind, behind, next, draft)?;
            scoped(body, known, block, number + 1, next, draft)
        }
        StatementKind::If(x, block, Some(rest)) => {
            let other = number + 1 + block_size(block);
            let behind = other + block_size(rest);
            if_head(body, one, x, other, behind, next, draft)?;
            scoped(body, known, block, number + 1, next, draft)?;
            scoped(body, known, rest, other, next, draft)
        }
        StatementKind::While(x, block) => {
            let behind = number + 1 + block_size(block);
            while_head(body, one, x, behind, next, draft)?;
            scoped(body, known, block, number + 1, number, draft)
        }
    }
}
