//! What the blocks of a program are made by.

use crate::lowering::Lowering;
use abi_slots::CodeNumbers;
use code_plans::ClassTables;

/// What a program is lowered by, the numbers of its code, and what its classes need in common.
#[derive(Drop)]
pub struct BlockSite<'a, L> {
    pub lowering: &'a Lowering<'a, L>,
    pub numbers: &'a CodeNumbers,
    pub tables: &'a ClassTables,
}
