//! The words of an image while it is made.

ghost use Rattle.std.specs.Prelude.{◌≡◌, ◌++◌, ◌∷◌, [], OnOk};
ghost use Rattle.abi_image.specs.invariants.Drafts.{Puts};

use foundation::NoMemory;

/// The words from `BASE` on, and those of the records of entries, which are to stand from another address on.
#[derive(Drop)]
pub struct Draft {
    pub words: Vec<u64>,
    pub records: Vec<u64>,
    pub records_at: u64,
}

impl Draft {
    /// Puts a word behind the others.
    pub fn push(&mut self, word: u64) -> Result<(), NoMemory>
        ensures words { OnOk result (self.new.words.items ≡ self.old.words.items ++ word ∷ []) }
        ensures records { OnOk result (self.new.records ≡ self.old.records) }
        ensures place { self.new.records_at ≡ self.old.records_at }
    {
        self.words.push(word)?;
        Ok(())
    }
}
