//! What is kept of the answers on containment.

ghost use Rattle.std.specs.Prelude.{◌≡◌, ◌<◌, true};
ghost use Rattle.byte_code.specs.Images.{word_at};
ghost use Rattle.abi_dyncast.specs.Graph.{moved};
ghost use Rattle.abi_dyncast.specs.Casts.{room, CanTellWithin, TellsWithin};
ghost use Rattle.abi_dyncast.specs.Known.{HasKnownPart, TellsTruth};

use crate::answer::is_within;
use crate::kept::{KEPT, KnownPart, KnownParts};
use crate::parts::{TypedPart, word};
use crate::search::leads_directly;
use crate::work::{Goal, WorkList};
use byte_code::ImageBytes;
use byte_memory::Memory;

/// How far an address lies behind that of a view, modulo 2^64.
fn distance(view_at: u64, at: u64) -> u64
    ensures { moved view_at result ≡ at }
{
    at.wrapping_sub(view_at)
}

/// The place of an answer.
fn place(view_class: u32, class: u32, distance: u64) -> usize
    ensures { result < 256 }
{
    (distance / 8 + 7 * class as u64 + 31 * view_class as u64) as usize % KEPT
}

/// Whether a view of a class at an address has a part of a class at an address, along bases that are not virtual.
fn is_there<M: Memory>(
    image: &ImageBytes,
    memory: &M,
    work: &WorkList,
    view_at: u64,
    at: u64,
    asked: KnownPart,
) -> bool
    requires can { CanTellWithin (word_at image.now) image.now.base (M.meaning memory.now) (room work.now) view_at asked.view_class }
    requires place { moved view_at asked.distance ≡ at }
    ensures { result ≡ true → HasKnownPart (word_at image.now) image.now.base asked.view_class asked.class asked.distance }
{
    let point = word(image, image.base + 16 * asked.view_class as u64);
    if point == 0 {
        return false;
    }
    let view = TypedPart {
        at: view_at,
        info: word(image, point.saturating_sub(8)),
    };
    let goal = Goal {
        at,
        class: asked.class,
        target: asked.class,
    };
    leads_directly(image, memory, goal, view)
}

impl KnownParts {
    /// Whether the part of `class` at `at` is the view of `view_class` at `view_at` or a base subobject of it, public or not. A view
    /// whose class has no table, by the directory, has no parts. What was found is kept. Takes no memory.
    pub fn is_within<M: Memory>(
        &mut self,
        image: &ImageBytes,
        memory: &M,
        work: &mut WorkList,
        view_at: u64,
        view_class: u32,
        at: u64,
        class: u32,
    ) -> bool
        requires can { CanTellWithin (word_at image.now) image.now.base (M.meaning memory.now) (room work.old) view_at view_class }
        requires known { TellsTruth image.now self.old }
        ensures tells { TellsWithin (word_at image.now) image.now.base (M.meaning memory.now) view_at view_class at class result }
        ensures room { room work.new ≡ room work.old }
        ensures known { TellsTruth image.now self.new }
    {
        let distance = distance(view_at, at);
        let number = place(view_class, class, distance);
        let kept = self.parts[number];
        if kept.distance == distance && kept.class == class && kept.view_class == view_class {
            if kept.is_there {
                return true;
            }
        } else {
            let mut asked = KnownPart {
                view_class,
                class,
                distance,
                is_there: false,
            };
            asked.is_there = is_there(image, memory, work, view_at, at, asked);
            self.parts[number] = asked;
            if asked.is_there {
                return true;
            }
        }
        is_within(image, memory, work, view_at, view_class, at, class)
    }
}
