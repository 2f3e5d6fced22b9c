//! What a run tells, with what a trace alone shows or without it.

ghost use Rattle.std.specs.Prelude.{◌≡◌, ◌∷◌, [], OnOk};
ghost use Rattle.path_machine.specs.Tellings.{is_told, TellsMore};

use foundation::{NoMemory, Sequence};
use path_model::{Out, OutList};
use std::alloc::Global;

/// What was told so far, and whether what a trace alone shows is told too. Where it is not, no location is made for it: a
/// location is as long as its part is deep.
#[derive(Drop)]
pub struct Telling {
    pub trace: bool,
    pub outs: OutList,
}

/// Whether this is told: calls, and what is built or ends, are told in a trace alone.
fn is_told(trace: bool, out: &Out) -> bool
    ensures { result ≡ is_told trace out.now }
{
    match out {
        Out::Number(_) | Out::Pointer(_) | Out::TypeName(_) | Out::Dump(_, _, _) => true,
        Out::Call(_, _) | Out::Built(_, _) | Out::Ending(_, _) => trace,
    }
}

impl Telling {
    /// Nothing was told so far.
    pub fn new(alloc: Global, trace: bool) -> Telling
        ensures trace { result.trace ≡ trace }
        ensures outs { result.outs ≡ [] }
    {
        Telling {
            trace,
            outs: Sequence::new(alloc),
        }
    }

    /// Tells this, if it is to be told.
    ///
    /// Errors: want of memory.
    pub(crate) fn tell(&mut self, out: Out) -> Result<(), NoMemory>
        ensures { OnOk result (TellsMore self.old self.new (out ∷ [])) }
    {
        if is_told(self.trace, &out) {
            self.outs.push(out)?;
        }
        Ok(())
    }
}
