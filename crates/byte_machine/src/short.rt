//! Frames in few bytes.

ghost use Rattle.std.specs.Prelude.{◌≡◌, ◌+◌, ◌-◌, ◌*◌, IfSome, MatchOption, Some, [], true, is_none};
ghost use Rattle.std.specs.List.{list_all};
ghost use Rattle.byte_machine.specs.Frames.{entry_registers, nothing_kept};
ghost use Rattle.byte_machine.specs.GivenFrames.{frame_of, kept_of};
ghost use Rattle.byte_machine.specs.invariants.Stacked.{short_frame, waiting_as, IsWaitingBase, HasThisAlone};

use crate::entering::NOTHING_HANDED;
use crate::frames::{Frame, Kept};

/// What frames of bases have in common, in 16 bytes: the address and the class number of their complete object, the address from which
/// their own addresses are counted, and the one from which those of their VTTs are.
#[derive(Clone, Copy)]
pub struct Owner {
    pub address: u32,
    pub origin: u32,
    pub vtt: u32,
    pub class: u16,
}

/// Where the frame of a base's constructor or destructor stands that has nothing in its registers but `this`, as far as its owner and
/// the next block leave it open: how many blocks before the next one it began, how many bytes `this` and the subobject around lie behind
/// the origin, how many words of 8 bytes its VTT lies behind that of the owner, and the class number of the subobject around.
#[derive(Clone, Copy)]
pub struct BaseFrame {
    pub back: u16,
    pub above: u16,
    pub around: u16,
    pub vtt: u16,
    pub outer_class: u16,
}

/// The same of a complete object, a member or an element, to which nothing is handed, as far as `this` and the next block leave it open.
#[derive(Clone, Copy)]
pub struct ElementFrame {
    pub back: u16,
    pub again: u16,
    pub stride: u16,
}

/// A frame in few bytes: that of a base which shares the owner of the frames below, that of a base with an owner of its own, each with
/// its next block, or that of an element, with its `this` and its next block.
#[derive(Clone, Copy)]
pub enum ShortFrame {
    Shares(BaseFrame, u32),
    Owns(Owner, BaseFrame, u32),
    Element(ElementFrame, u32, u32),
}

/// A frame that waits, in 16 bytes: one in full, which stands elsewhere, or one in few bytes without its owner.
#[derive(Clone, Copy)]
pub enum Waiting {
    InFull,
    OnShared(BaseFrame, u32),
    OnOwn(BaseFrame, u32),
    Alone(ElementFrame, u32, u32),
}

/// A number in 32 bits, where it has no more.
fn short(number: u64) -> Option<u32>
    ensures { IfSome result (λ found. found ≡ number) }
{
    u32::try_from(number).ok()
}

/// The number of a class in 16 bits, where it has no more.
fn short_class(class: u32) -> Option<u16>
    ensures { IfSome result (λ found. found ≡ class) }
{
    u16::try_from(class).ok()
}

/// Whether all these registers are unset.
fn are_unset(registers: &[Option<u64>]) -> bool
    ensures { result ≡ list_all is_none registers.now }
{
    registers.iter().all(|register| register.is_none())
}

/// What the first register of a frame has, where so many registers are those of a frame that was just entered.
fn this_alone(size: u32, registers: &[Option<u64>]) -> Option<u64>
    ensures { IfSome result (λ this. registers.now ≡ entry_registers size this []) }
{
    if registers.len() != size as usize {
        return None;
    }
    let (first, rest) = registers.split_first()?;
    if !are_unset(rest) {
        return None;
    }
    *first
}

/// Whether nobody waits for a result, and nothing follows the return.
fn keeps_nothing(kept: &Kept) -> bool
    ensures { result ≡ true → kept_of kept.now ≡ nothing_kept }
{
    kept.to.is_none()
        && kept.class.is_none()
        && kept.vbase == 0
        && kept.add == 0
        && kept.finish.len() == 0
}

/// How many bytes or blocks a number lies behind another one, where that takes 16 bits.
fn behind(from: u32, number: u64) -> Option<u16>
    ensures { IfSome result (λ found. from + found ≡ number) }
{
    let distance = number.checked_sub(from as u64)?;
    u16::try_from(distance).ok()
}

/// How many words of 8 bytes an address lies behind another one, where it lies behind whole words and 16 bits take their number.
fn words_behind(from: u32, address: u64) -> Option<u16>
    ensures { IfSome result (λ found. from + found * 8 ≡ address) }
{
    let distance = address.checked_sub(from as u64)?;
    if distance % 8 != 0 {
        return None;
    }
    u16::try_from(distance / 8).ok()
}

/// How many blocks before the next one a frame began, where that takes 16 bits.
fn back_to_start(frame: &Frame) -> Option<u16>
    ensures { IfSome result (λ back. frame.now.block - back ≡ frame.now.start) }
{
    behind(frame.start, frame.block as u64)
}

/// The frame of a base with this `this`, where it can have this owner.
fn base_frame(frame: &Frame, this: u64, owner: Owner) -> Option<BaseFrame>
    ensures { IfSome result (λ base. IsWaitingBase frame.now this owner base) }
{
    let handed = frame.handed;
    if handed.owner != owner.address as u64 || handed.owner_class != owner.class as u32 {
        return None;
    }
    Some(BaseFrame {
        back: back_to_start(frame)?,
        above: behind(owner.origin, this)?,
        around: behind(owner.origin, handed.outer)?,
        vtt: words_behind(owner.vtt, handed.vtt)?,
        outer_class: short_class(handed.outer_class)?,
    })
}

/// The owner that the frame of a base with this `this` has for itself.
fn own_owner(frame: &Frame, this: u64) -> Option<Owner>
    ensures { IfSome result (λ owner. (owner.address ≡ frame.now.handed.owner) × ((owner.class ≡ frame.now.handed.owner_class) × (owner.vtt ≡ frame.now.handed.vtt))) }
{
    let handed = frame.handed;
    Some(Owner {
        address: short(handed.owner)?,
        origin: short(this.min(handed.outer))?,
        vtt: short(handed.vtt)?,
        class: short_class(handed.owner_class)?,
    })
}

/// The frame of an element in few bytes, where its numbers are small.
fn element_frame(frame: &Frame) -> Option<ElementFrame>
    ensures { IfSome result (λ element. (frame.now.block - element.back ≡ frame.now.start) × ((element.again ≡ frame.now.again) × (element.stride ≡ frame.now.stride))) }
{
    Some(ElementFrame {
        back: back_to_start(frame)?,
        again: u16::try_from(frame.again).ok()?,
        stride: u16::try_from(frame.stride).ok()?,
    })
}

/// The frame of a base that shares the owner of the frames below, where it can.
fn sharing(frame: &Frame, this: u64, top: Option<Owner>) -> Option<BaseFrame>
    ensures { IfSome result (λ base. MatchOption top ⊥ (λ owner. IsWaitingBase frame.now this owner base)) }
{
    base_frame(frame, this, top?)
}

/// The frame of a base with this `this`, with the owner of the frames below where it can share that.
fn short_base(size: u32, frame: &Frame, this: u64, top: Option<Owner>) -> Option<ShortFrame>
    requires entered { HasThisAlone size this (frame_of frame.now) }
    requires alone { (frame.now.again ≡ 0) × (frame.now.stride ≡ 0) }
    ensures { IfSome result (λ short. short_frame size top short ≡ Some (frame_of frame.now)) }
{
    if let Some(base) = sharing(frame, this, top) {
        return Some(ShortFrame::Shares(base, frame.block));
    }
    let owner = own_owner(frame, this)?;
    let base = base_frame(frame, this, owner)?;
    Some(ShortFrame::Owns(owner, base, frame.block))
}

/// A frame of so many registers in few bytes, where that can be. The frames below have this owner.
pub fn shortened(size: u32, frame: &Frame, top: Option<Owner>) -> Option<ShortFrame>
    ensures { IfSome result (λ short. short_frame size top short ≡ Some (frame_of frame.now)) }
{
    if frame.is_call || !keeps_nothing(&frame.kept) {
        return None;
    }
    let this = this_alone(size, &frame.registers)?;
    if frame.handed == NOTHING_HANDED {
        let element = element_frame(frame)?;
        return Some(ShortFrame::Element(element, short(this)?, frame.block));
    }
    if frame.again > 0 || frame.stride > 0 {
        return None;
    }
    short_base(size, frame, this, top)
}

/// A frame in few bytes without its owner.
pub fn waiting_as(short: ShortFrame) -> Waiting
    ensures { result ≡ waiting_as short }
{
    match short {
        ShortFrame::Shares(base, block) => Waiting::OnShared(base, block),
        ShortFrame::Owns(_, base, block) => Waiting::OnOwn(base, block),
        ShortFrame::Element(element, this, block) => Waiting::Alone(element, this, block),
    }
}
