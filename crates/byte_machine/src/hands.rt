//! What the frames of bases are handed, and where virtual pointers lead and stand (Itanium C++ ABI 2.6).

ghost use Rattle.std.specs.Prelude.{◌≡◌};
ghost use Rattle.byte_machine.specs.Plans.{directory_point, directory_vtt, handed_to, frame_owner, place_through, source_word, vtt_of};
ghost use Rattle.byte_machine.specs.invariants.States.{fixed_by};

use crate::entering::NOTHING_HANDED;
use crate::frames::Handed;
use crate::running::Setup;
use crate::words::{moved, word_behind, word_bytes};
use byte_code::{BaseHand, PointSource, Whose};

/// The complete object that a frame works in, whose `this` and class are given: its address, and the number of its class.
pub fn owner_of(handed: Handed, owner: Whose, this: u64, class: u32) -> (u64, u32)
    ensures { result ≡ frame_owner handed owner this class }
{
    match owner {
        Whose::Itself => (this, class),
        Whose::Handed => (handed.owner, handed.owner_class),
    }
}

/// The first address point of a class's own group, by the directory.
fn directory_point(setup: &Setup, class: u32) -> Option<u64>
    ensures { result ≡ directory_point (fixed_by setup.now) class }
{
    word_behind(&setup.image, setup.image.base, 16 * class as u64)
}

/// The address of a class's VTT, by the directory.
fn directory_vtt(setup: &Setup, class: u32) -> Option<u64>
    ensures { result ≡ directory_vtt (fixed_by setup.now) class }
{
    word_behind(&setup.image, setup.image.base, 16 * class as u64 + 8)
}

/// The VTT in which a frame finds those of its bases.
fn vtt_of(setup: &Setup, handed: Handed, owner: Whose, class: u32) -> Option<u64>
    ensures { result ≡ vtt_of (fixed_by setup.now) handed owner class }
{
    match owner {
        Whose::Itself => directory_vtt(setup, class),
        Whose::Handed => Some(handed.vtt),
    }
}

/// What the frame of a part is handed, where the frame that opens it has this `this`.
pub fn handed_to(setup: &Setup, handed: Handed, this: u64, hand: Option<BaseHand>) -> Option<Handed>
    ensures { result ≡ handed_to (fixed_by setup.now) handed this hand }
{
    let Some(hand) = hand else {
        return Some(NOTHING_HANDED);
    };
    let vtt = match hand.vtt {
        None => 0,
        Some(words) => {
            let vtt = vtt_of(setup, handed, hand.owner, hand.class)?;
            moved(vtt, 8 * words as u64)
        }
    };
    let owner = owner_of(handed, hand.owner, this, hand.class);
    Some(Handed {
        owner: owner.0,
        owner_class: owner.1,
        vtt,
        outer: this,
        outer_class: hand.class,
    })
}

/// The address point that a source names.
pub fn source_word(setup: &Setup, handed: Handed, source: PointSource) -> Option<u64>
    ensures { result ≡ source_word (fixed_by setup.now) handed source }
{
    match source {
        PointSource::Directory(class) => directory_point(setup, class),
        PointSource::Vtt {
            owner,
            class,
            number,
        } => {
            let vtt = vtt_of(setup, handed, owner, class)?;
            setup.image.number(moved(vtt, 8 * number as u64))
        }
    }
}

/// A place, moved by a vbase word of the first table of the frame's VTT, where one is named.
pub fn place_through(setup: &Setup, handed: Handed, at: u64, through: Option<i32>) -> Option<u64>
    ensures { result ≡ place_through (fixed_by setup.now) handed at through }
{
    match through {
        None => Some(at),
        Some(word) => {
            let first = setup.image.number(handed.vtt)?;
            let by = setup.image.number(moved(first, word_bytes(word)))?;
            Some(moved(at, by))
        }
    }
}
