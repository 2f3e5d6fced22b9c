//! How many statements there are in a tree.

ghost use Rattle.std.specs.Prelude.{◌≡◌, ◌<◌, ◌^◌};
ghost use Rattle.cxx_resolve.specs.Walks.{statement_meaning, block_meaning};

use cxx_syntax::{BodyTree, Statement, StatementKind};

/// How many statements a statement is, with those of its blocks.
#[cycle(size)]
#[tactic(auto, using(crate::proofs::KindCases::statement_sized))]
pub(crate) fn statement_size(statement: &Statement) -> usize
    requires { (statement_meaning statement.now).size < 2 ^ 64 }
    ensures { result ≡ (statement_meaning statement.now).size }
{
    match &statement.kind {
        StatementKind::If(_, block, None) => 1 + block_size(block),
        StatementKind::If(_, block, Some(other)) => 1 + block_size(block) + block_size(other),
        StatementKind::While(_, block) => 1 + block_size(block),
        StatementKind::Declare(..) => 1,
        StatementKind::Assign(..) => 1,
        StatementKind::Write(..) => 1,
        StatementKind::Copy(..) => 1,
        StatementKind::Call(..) => 1,
        StatementKind::Delete(..) => 1,
        StatementKind::Return(..) => 1,
        StatementKind::Print(..) => 1,
        StatementKind::PrintType(..) => 1,
        StatementKind::PrintView(..) => 1,
        StatementKind::Dump(..) => 1,
    }
}

/// How many statements a block has, with those of the blocks in it.
#[cycle(size)]
#[tactic(auto, using(crate::proofs::Walking::block_is))]
pub(crate) fn block_size(block: &BodyTree) -> usize
    requires { (block_meaning block.now).size < 2 ^ 64 }
    ensures { result ≡ (block_meaning block.now).size }
{
    let mut sum = 0;
    for statement in &block.statements {
        sum += statement_size(statement);
    }
    sum
}
