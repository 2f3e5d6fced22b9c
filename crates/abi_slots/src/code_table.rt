//! A table of the numbers of code.

ghost use Rattle.std.specs.Prelude.{◌≡◌, OnOk, OnErr, None, Some, if◌then◌else◌};
ghost use Rattle.abi_slots.specs.CodeRows.{kind_number};
ghost use Rattle.abi_slots.specs.declared.code_table.CodeKey.{CodeKey};
ghost use Rattle.abi_slots.specs.invariants.CodeTables.{code_in, code_key, same_code_key};

use crate::code_numbers::BlockKind;
use cxx_overrider::FunctionId;
use foundation::NoMemory;
use indexmap::IndexMap;
use std::alloc::Global;

/// A function, and the number of a form of its code.
#[derive(Clone, Copy, Debug, PartialEq, Eq, Hash)]
pub struct CodeKey {
    pub class: u32,
    pub index: u32,
    pub kind: u32,
}

fn kind_number(kind: BlockKind) -> u32
    ensures { result ≡ kind_number kind }
{
    match kind {
        BlockKind::Plain => 0,
        BlockKind::BuildComplete => 1,
        BlockKind::BuildBase => 2,
        BlockKind::EndComplete => 3,
        BlockKind::EndBase => 4,
        BlockKind::EndDeleting => 5,
    }
}

/// The key of a form of a function.
pub fn key_of(f: FunctionId, kind: BlockKind) -> CodeKey
    ensures { result ≡ code_key f kind }
{
    CodeKey {
        class: f.class.0,
        index: f.index,
        kind: kind_number(kind),
    }
}

/// The numbers of code, by function and form.
#[derive(Drop)]
pub struct CodeTable {
    codes: IndexMap<CodeKey, u32>,
}

impl CodeTable {
    /// The empty table, which takes no memory.
    pub fn new(alloc: Global) -> CodeTable
        ensures { (q : CodeKey) → code_in result q ≡ None }
    {
        CodeTable {
            codes: IndexMap::new(alloc),
        }
    }

    /// The number under a key.
    pub fn find(&self, key: CodeKey) -> Option<u32>
        ensures { result ≡ code_in self.now key }
    {
        self.codes.get(&key).copied()
    }

    /// Puts a number under a key. Where memory is wanting nothing is put.
    pub fn put(&mut self, key: CodeKey, code: u32) -> Result<(), NoMemory>
        ensures put { OnOk result ((q : CodeKey) → code_in self.new q ≡ (if same_code_key q key then Some code else code_in self.old q)) }
        ensures err { OnErr result ((q : CodeKey) → code_in self.new q ≡ code_in self.old q) }
    {
        self.codes.insert(key, code)?;
        Ok(())
    }
}
