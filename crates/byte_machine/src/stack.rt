//! The frames that wait below the one that runs.

ghost use Rattle.std.specs.Prelude.{◌≡◌, ◌∷◌, ◌++◌, [], List, IfOk, MatchOption, option_map, reverse};
ghost use Rattle.byte_machine.specs.Frames.{entry_registers, nothing_kept};
ghost use Rattle.byte_machine.specs.GivenFrames.{frame_of, frames_of, kept_of};
ghost use Rattle.byte_machine.specs.declared.short.Owner.{Owner};
ghost use Rattle.byte_machine.specs.invariants.Stacked.{waiting_base, waiting_element, own_owners, owned_frame};

use crate::entering::NOTHING_HANDED;
use crate::frames::{Frame, Handed, Kept};
use crate::short::{BaseFrame, ElementFrame, Owner, ShortFrame, Waiting, shortened, waiting_as};
use foundation::{NoMemory, Sequence};
use std::alloc::Global;
use std::marker::Model;

/// How many frames wait in full before others are kept in few bytes. A program seldom has more of them open, so that it seldom pays
/// for what it takes to shorten a frame.
const SHALLOW: usize = 1024;

/// Lists of registers that no frame has any more.
pub type SpareLists = Vec<Vec<Option<u64>>>;

/// The frames that wait, as a list whose first one is the innermost. The frame of a base, a member or an element that waits while
/// its parts are constructed or destroyed has nothing in its registers but `this`. Where many frames wait, 16 bytes keep such a one,
/// and 16 more what the bases of one complete object have in common.
#[derive(Drop)]
pub struct FrameStack {
    /// How many registers a frame has.
    size: u32,
    /// Each frame in few bytes, or that it waits in full; the last is the innermost.
    waiting: Vec<Waiting>,
    /// The owners of bases in few bytes, each of them put there by one base, with which it goes.
    owners: Vec<Owner>,
    /// The frames in full.
    in_full: Vec<Frame>,
}

impl Model for FrameStack {
    ghost use Rattle.std.specs.Prelude.{List, reverse};
    ghost use Rattle.byte_machine.specs.Frames.{MachineFrame};
    ghost use Rattle.byte_machine.specs.invariants.Stacked.{stacked};

    ghost Value = { List MachineFrame };

    ghost view = { λ s. stacked s.size (reverse s.waiting.items) (reverse s.owners.items) (reverse s.in_full.items) };
}

/// Registers of which the first has `this`, and the others are unset. Errors: want of memory.
fn entered(
    alloc: Global,
    spare: &mut SpareLists,
    size: u32,
    this: u64,
) -> Result<Vec<Option<u64>>, NoMemory>
    ensures { IfOk result (λ registers. registers.items ≡ entry_registers size this []) }
{
    let mut registers = match spare.pop() {
        Some(registers) => registers,
        None => Vec::with_capacity(alloc, size as usize)?,
    };
    registers.clear();
    registers.push(Some(this))?;
    registers.resize(size.max(1) as usize, None)?;
    Ok(registers)
}

/// Nobody waits for a result, and nothing follows the return.
fn nothing_kept(alloc: Global) -> Kept
    ensures { kept_of result ≡ nothing_kept }
{
    Kept {
        to: None,
        class: None,
        vbase: 0,
        add: 0,
        finish: Sequence::new(alloc),
    }
}

/// The frame of a base in full. Errors: want of memory.
fn base_in_full(
    alloc: Global,
    spare: &mut SpareLists,
    size: u32,
    owner: Owner,
    base: BaseFrame,
    block: u32,
) -> Result<Frame, NoMemory>
    ensures { IfOk result (λ frame. frame_of frame ≡ waiting_base size owner base block) }
{
    let registers = entered(alloc, spare, size, owner.origin as u64 + base.above as u64)?;
    Ok(Frame {
        registers,
        handed: Handed {
            owner: owner.address as u64,
            owner_class: owner.class as u32,
            vtt: owner.vtt as u64 + base.vtt as u64 * 8,
            outer: owner.origin as u64 + base.around as u64,
            outer_class: base.outer_class as u32,
        },
        block,
        start: block.saturating_sub(base.back as u32),
        again: 0,
        stride: 0,
        is_call: false,
        kept: nothing_kept(alloc),
    })
}

/// The frame of an element in full. Errors: want of memory.
fn element_in_full(
    alloc: Global,
    spare: &mut SpareLists,
    size: u32,
    element: ElementFrame,
    this: u32,
    block: u32,
) -> Result<Frame, NoMemory>
    ensures { IfOk result (λ frame. frame_of frame ≡ waiting_element size element this block) }
{
    let registers = entered(alloc, spare, size, this as u64)?;
    Ok(Frame {
        registers,
        handed: NOTHING_HANDED,
        block,
        start: block.saturating_sub(element.back as u32),
        again: element.again as u32,
        stride: element.stride as u64,
        is_call: false,
        kept: nothing_kept(alloc),
    })
}

/// The frame of a base in full, where there is an owner for it. Errors: want of memory.
fn based_in_full(
    alloc: Global,
    spare: &mut SpareLists,
    size: u32,
    owner: Option<Owner>,
    base: BaseFrame,
    block: u32,
) -> Result<Option<Frame>, NoMemory>
    ensures { IfOk result (λ found. option_map frame_of found ≡ owned_frame size owner base block) }
{
    match owner {
        None => Ok(None),
        Some(owner) => {
            let frame = base_in_full(alloc, spare, size, owner, base, block)?;
            Ok(Some(frame))
        }
    }
}

/// Puts the owner that a frame has for itself over others. Errors: want of memory.
fn push_own(owners: &mut Vec<Owner>, short: ShortFrame) -> Result<(), NoMemory>
    ensures { IfOk result (λ _. reverse owners.new.items ≡ own_owners short ++ reverse owners.old.items) }
{
    if let ShortFrame::Owns(owner, _, _) = short {
        owners.push(owner)?;
    }
    Ok(())
}

/// The owner on top, if any.
fn top_owner(owners: &[Owner]) -> Option<Owner>
    ensures { MatchOption result (owners.now ≡ []) (λ owner. (rest : List Owner) × (reverse owners.now ≡ owner ∷ rest)) }
{
    let (owner, _) = owners.split_last()?;
    Some(*owner)
}

impl FrameStack {
    ghost use Rattle.std.specs.Prelude.{Some, IsSome};

    /// No frame waits. It takes no memory.
    pub fn new(alloc: Global, size: u32) -> FrameStack
        ensures { result ≡ [] }
    {
        FrameStack {
            size,
            waiting: Vec::new(alloc),
            owners: Vec::new(alloc),
            in_full: Vec::new(alloc),
        }
    }

    /// Puts a frame over the others, in full.
    fn push_in_full(&mut self, frame: Frame) -> Result<(), NoMemory>
        ensures { IfOk result (λ _. self.new ≡ frame_of frame ∷ self.old) }
    {
        self.waiting.push(Waiting::InFull)?;
        self.in_full.push(frame)?;
        Ok(())
    }

    /// Puts a frame over the others. Registers that it does not need any more go to the spare ones.
    ///
    /// Errors: want of memory; then nothing is said of what waits.
    pub fn push(&mut self, frame: Frame, spare: &mut SpareLists) -> Result<(), NoMemory>
        ensures { IfOk result (λ _. self.new ≡ frame_of frame ∷ self.old) }
    {
        if self.waiting.len() < SHALLOW {
            return self.push_in_full(frame);
        }
        match shortened(self.size, &frame, top_owner(&self.owners)) {
            None => self.push_in_full(frame),
            Some(short) => {
                push_own(&mut self.owners, short)?;
                self.waiting.push(waiting_as(short))?;
                let _ = spare.push(frame.registers);
                Ok(())
            }
        }
    }

    /// Puts frames over the others, of which the last one is the innermost, and leaves their list empty.
    ///
    /// Errors: want of memory; then nothing is said of what waits.
    pub fn append(&mut self, frames: &mut Vec<Frame>) -> Result<(), NoMemory>
        ensures frames { IfOk result (λ _. self.new ≡ frames_of frames.old.items ++ self.old) }
        ensures empty { IfOk result (λ _. frames.new.items ≡ []) }
    {
        let count = self.waiting.len() + frames.len();
        self.waiting.resize(count, Waiting::InFull)?;
        self.in_full.append(frames)?;
        Ok(())
    }

    /// Takes the innermost frame off, with spare registers where it has none of its own; None where no frame waits.
    ///
    /// Errors: want of memory; then nothing is said of what waits.
    pub fn pop(&mut self, alloc: Global, spare: &mut SpareLists) -> Result<Option<Frame>, NoMemory>
        ensures { IfOk result (λ found. MatchOption found (self.old ≡ []) (λ frame. self.old ≡ frame_of frame ∷ self.new)) }
    {
        let size = self.size;
        match self.waiting.pop() {
            None => Ok(None),
            Some(Waiting::InFull) => Ok(self.in_full.pop()),
            Some(Waiting::OnShared(base, block)) => {
                let owner = top_owner(&self.owners);
                based_in_full(alloc, spare, size, owner, base, block)
            }
            Some(Waiting::OnOwn(base, block)) => {
                let owner = self.owners.pop();
                based_in_full(alloc, spare, size, owner, base, block)
            }
            Some(Waiting::Alone(element, this, block)) => {
                let frame = element_in_full(alloc, spare, size, element, this, block)?;
                Ok(Some(frame))
            }
        }
    }
}
