//! The blocks of the statements of a body.

ghost use Rattle.std.specs.Prelude.{◌≡◌, ◌<◌, ◌-◌, ◌+◌, ◌^◌, ◌++◌, ◌∷◌, [], IfOk, OnOk, length};
ghost use Rattle.byte_code.specs.declared.code.Block.{Block};
ghost use Rattle.cxx_overrider.specs.Overriders.{AreOverriders};
ghost use Rattle.code_ops.specs.Setups.{Routine};
ghost use Rattle.code_statements.specs.invariants.Fits.{FitsKind};
ghost use Rattle.abi_lower.specs.invariants.Runs.{made_ops, last_block, run_of_body};
ghost use Rattle.abi_lower.specs.invariants.Lowerings.{RunsAt, IsBodySite};
ghost use Rattle.code_ops.specs.invariants.Sites.{IsLaidSite, site_scope, site_setup, site_start};

use abi_sound::SoundLayout;
use byte_code::{Block, BlockList};
use code_ops::sites::Site;
use code_ops::uses::push_check_ops;
use code_statements::flows::Flow;
use code_statements::statement_uses::{push_kind_front, push_kind_used};
use code_statements::statements::push_kind;
use cxx_program::TypedStatement;
use foundation::{NoMemory, Sequence};

/// The block of a statement of a body that begins at block `base`.
///
/// Errors: want of memory.
fn statement_block<L: SoundLayout>(
    site: &Site<L>,
    base: u32,
    n: usize,
    statement: &TypedStatement,
) -> Result<Block, NoMemory>
    requires laid { IsLaidSite L.lays_out L.rows site.now }
    requires overriders { AreOverriders site.now.h.now site.now.overriders.now }
    requires room { base + statement.now.next < 2 ^ 32 }
    requires fits { FitsKind site.now.h.now (site_scope site.now) (2 ^ 32 - (base + 1)) n statement.now.kind }
    ensures ops { IfOk result (λ block. block.ops ≡ made_ops (site_setup L.rows site.now) (site_start L.rows site.now) site.now.body.now base n statement.now) }
    ensures line { IfOk result (λ block. block.line ≡ statement.now.line) }
{
    let mut ops = Sequence::new(site.alloc);
    push_kind_front(&mut ops, site, &statement.kind)?;
    let mut uses = Sequence::new(site.alloc);
    push_kind_used(&mut uses, site, &statement.kind)?;
    push_check_ops(site.alloc, &mut ops, uses.as_slice())?;
    let flow = Flow {
        base,
        number: n,
        next: statement.next,
    };
    push_kind(&mut ops, site, flow, &statement.kind)?;
    Ok(Block {
        ops,
        line: statement.line,
    })
}

/// Puts the blocks of the statements of a body that begins at block `base` behind others.
///
/// Errors: want of memory.
pub fn push_statements<L: SoundLayout>(
    blocks: &mut BlockList,
    site: &Site<L>,
    base: u32,
) -> Result<(), NoMemory>
    requires layout { L.lays_out site.now.layout.now site.now.h.now }
    requires site { IsBodySite (site_setup L.rows site.now) site.now.slots.now site.now.overriders.now site.now.body.now }
    requires room { base + length site.now.body.now.statements < 2 ^ 32 }
    ensures { OnOk result ((r : Routine) → RunsAt (site_setup L.rows site.now) site.now.numbers.now site.now.body.now base r → blocks.new ++ last_block (site_setup L.rows site.now) r site.now.body.now ∷ [] ≡ blocks.old ++ run_of_body (site_setup L.rows site.now) r site.now.body.now) }
{
    for (n, statement) in site.body.statements.as_slice().iter().enumerate() {
        let block = statement_block(site, base, n, statement)?;
        blocks.push(block)?;
    }
    Ok(())
}
