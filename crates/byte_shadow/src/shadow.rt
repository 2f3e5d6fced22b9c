//! The notes, by address and class.

ghost use Rattle.std.specs.Prelude.{◌≡◌, ◌≢◌, None, OnOk, OnErr};
ghost use Rattle.byte_shadow.specs.Shadows.{no_notes, noted_raw, phased, viewed, is_ready_phase, ready_at};
ghost use Rattle.byte_shadow.specs.Meaning.{same_place, note_of, place_pair, is_own_view, noted_view, IsMarked, IsLastKept, notes_of};

use crate::note::{Note, Place};
use crate::note_map::NoteMap;
use crate::view_map::ViewMap;
use byte_code::Phase;
use foundation::NoMemory;
use std::alloc::Global;

fn pair_of(place: Place) -> (u64, u32)
    ensures { result ≡ place_pair place }
{
    (place.at, place.class)
}

/// Whether the phase is one in which the subobject's bases are constructed and none has begun to end.
fn is_ready_phase(phase: Phase) -> bool
    ensures { result ≡ is_ready_phase phase }
{
    matches!(
        phase,
        Phase::ReadyBuilding | Phase::Complete | Phase::ReadyEnding
    )
}

/// The view of a complete object.
#[derive(Clone, Copy)]
pub struct Viewed {
    pub owner: Place,
    pub view: Place,
}

/// What is noted of class subobjects, by their address and the number of their class: the phase of each, the complete object
/// that it belongs to, and of a complete object its view. Addresses are in bytes.
///
/// That a complete object is the view of itself stands in its note. Other views have a map of their own, since few subobjects are
/// complete objects; the one that was set last stands beside it, since the view of one object changes many times in a row.
#[derive(Drop)]
pub struct Shadow {
    notes: NoteMap,
    last: Option<Viewed>,
    views: ViewMap,
}

fn is_same(place: Place, other: Place) -> bool
    ensures { result ≡ same_place place other }
{
    place.at == other.at && place.class == other.class
}

impl Shadow {
    /// Nothing is noted. It takes no memory.
    pub fn new(alloc: Global) -> Shadow
        ensures { notes_of result ≡ no_notes }
    {
        Shadow {
            notes: NoteMap::new(alloc),
            last: None,
            views: ViewMap::new(alloc),
        }
    }

    fn note(&self, at: u64, class: u32) -> Option<Note>
        ensures { result ≡ note_of self.now at class }
    {
        self.notes.get(at, class)
    }

    /// Whether a subobject is noted as the view of itself.
    fn is_own_view(&self, at: u64, class: u32) -> bool
        ensures { result ≡ is_own_view (note_of self.now at class) }
    {
        match self.note(at, class) {
            Some(note) => note.is_own_view,
            None => false,
        }
    }

    /// Notes a raw subobject of a complete object, of which nothing is noted yet.
    ///
    /// Errors: want of memory; then all is as before.
    pub fn begin(
        &mut self,
        at: u64,
        class: u32,
        owner: u64,
        owner_class: u32,
    ) -> Result<(), NoMemory>
        requires { (notes_of self.old).phase at class ≡ None }
        ensures ok { OnOk result (notes_of self.new ≡ noted_raw (notes_of self.old) at class owner owner_class) }
        ensures err { OnErr result (notes_of self.new ≡ notes_of self.old) }
    {
        let note = Note {
            owner,
            owner_class,
            phase: Phase::Raw,
            is_own_view: false,
        };
        self.notes.insert(at, class, note)?;
        Ok(())
    }

    /// Puts a subobject that is noted into a phase. It takes no memory.
    pub fn set_phase(&mut self, at: u64, class: u32, phase: Phase)
        requires { (notes_of self.old).phase at class ≢ None }
        ensures { notes_of self.new ≡ phased (notes_of self.old) at class phase }
    {
        self.notes.set_phase(at, class, phase);
    }

    /// The phase of a subobject, if it is noted.
    pub fn phase(&self, at: u64, class: u32) -> Option<Phase>
        ensures { result ≡ (notes_of self.now).phase at class }
    {
        self.note(at, class).map(|note| note.phase)
    }

    /// Whether a subobject is noted, its bases are constructed, and none of them has begun to end.
    pub fn is_ready(&self, at: u64, class: u32) -> bool
        ensures { result ≡ ready_at (notes_of self.now) at class }
    {
        match self.phase(at, class) {
            Some(phase) => is_ready_phase(phase),
            None => false,
        }
    }

    /// Notes whether a subobject is the view of itself, if it is noted. It takes no memory.
    fn mark(&mut self, at: u64, class: u32, is_own_view: bool)
        ensures { IsMarked self.old self.new at class is_own_view }
    {
        self.notes.mark(at, class, is_own_view);
    }

    /// Puts the view that was set last into the map, unless it is that of the complete object.
    ///
    /// Errors: want of memory; then all is as before.
    fn keep_last(&mut self, owner: Place) -> Result<(), NoMemory>
        ensures ok { OnOk result (IsLastKept self.old self.new owner) }
        ensures err { OnErr result (notes_of self.new ≡ notes_of self.old) }
    {
        match self.last {
            None => Ok(()),
            Some(last) => {
                if is_same(last.owner, owner) {
                    return Ok(());
                }
                self.views.set(last.owner, last.view)?;
                Ok(())
            }
        }
    }

    /// Makes a subobject the view of a complete object.
    ///
    /// Errors: want of memory; then all is as before.
    pub fn set_view(
        &mut self,
        owner: u64,
        owner_class: u32,
        at: u64,
        class: u32,
    ) -> Result<(), NoMemory>
        ensures ok { OnOk result (notes_of self.new ≡ viewed (notes_of self.old) owner owner_class at class) }
        ensures err { OnErr result (notes_of self.new ≡ notes_of self.old) }
    {
        if at == owner && class == owner_class && self.note(at, class).is_some() {
            self.mark(at, class, true);
            return Ok(());
        }
        let owner_place = Place {
            at: owner,
            class: owner_class,
        };
        self.keep_last(owner_place)?;
        self.last = Some(Viewed {
            owner: owner_place,
            view: Place { at, class },
        });
        self.mark(owner, owner_class, false);
        Ok(())
    }

    /// The view that was set of a complete object, where it was not set as the view of itself since.
    fn noted_view(&self, owner: Place) -> Option<Place>
        ensures { result ≡ noted_view self.now owner.at owner.class }
    {
        match self.last {
            None => self.views.get(owner),
            Some(last) => {
                if is_same(last.owner, owner) {
                    Some(last.view)
                } else {
                    self.views.get(owner)
                }
            }
        }
    }

    /// The view of a complete object, as an address and the number of a class, if one was set.
    pub fn view(&self, owner: u64, owner_class: u32) -> Option<(u64, u32)>
        ensures { result ≡ (notes_of self.now).view owner owner_class }
    {
        if self.is_own_view(owner, owner_class) {
            return Some((owner, owner_class));
        }
        let complete = Place {
            at: owner,
            class: owner_class,
        };
        let view = self.noted_view(complete)?;
        Some(pair_of(view))
    }

    /// The complete object that a subobject belongs to, as an address and the number of a class, if the subobject is noted.
    pub fn owner(&self, at: u64, class: u32) -> Option<(u64, u32)>
        ensures { result ≡ (notes_of self.now).owner at class }
    {
        let note = self.note(at, class)?;
        Some((note.owner, note.owner_class))
    }
}
