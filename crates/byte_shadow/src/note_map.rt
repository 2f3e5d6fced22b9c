//! Notes by address and class, in as few bytes as they fit.

ghost use Rattle.std.specs.Prelude.{◌≡◌, ℕ, ◌<◌, None, Some, OnOk, OnErr, MatchOption, length, slice_get};
ghost use Rattle.std.specs.List.{find};
ghost use Rattle.byte_shadow.specs.NearLists.{is_near_at};
ghost use Rattle.byte_shadow.specs.Meaning.{FitsShort, wide_note, mapped_note, marked_note, phased_note, IsNoteChanged};

use crate::near_list::{NearList, NearPlace};
use crate::note::{Note, NoteState, Place};
use byte_code::Phase;
use foundation::NoMemory;
use indexmap::IndexMap;
use std::alloc::Global;

/// Notes by their places: those of small numbers, put not far before the last one, in a list of 12 bytes each, and all others in
/// a map, where place and note have 32 bytes together.
#[derive(Drop)]
pub struct NoteMap {
    list: NearList<NoteState>,
    wide: IndexMap<Place, Note>,
    /// Where the note was listed that was put last, or whose subobject changed its phase last.
    changed: usize,
    /// Where the note is listed of the object whose view was set last.
    viewed: usize,
}

/// The note of a class at an address in 12 bytes, if its numbers are small. The other place is that of its complete object, which
/// lies at the subobject or before it.
fn short_note(at: u64, class: u32, note: Note) -> Option<NearPlace<NoteState>>
    ensures { MatchOption result
        (FitsShort at class note → ⊥)
        (λ short. (short.at ≡ at) × (short.class ≡ class) × (wide_note short ≡ note)) }
{
    if note.owner > at {
        return None;
    }
    Some(NearPlace {
        at: u32::try_from(at).ok()?,
        class: u16::try_from(class).ok()?,
        other_class: u16::try_from(note.owner_class).ok()?,
        distance: u16::try_from(at - note.owner).ok()?,
        what: NoteState {
            phase: note.phase,
            is_own_view: note.is_own_view,
        },
    })
}

/// The note that a short one stands for.
fn wide_note(short: NearPlace<NoteState>) -> Note
    ensures { result ≡ wide_note short }
{
    Note {
        owner: (short.at as u64).saturating_sub(short.distance as u64),
        owner_class: short.other_class as u32,
        phase: short.what.phase,
        is_own_view: short.what.is_own_view,
    }
}

impl NoteMap {
    /// No notes. It takes no memory.
    pub fn new(alloc: Global) -> NoteMap
        ensures { (at class : ℕ) → mapped_note result at class ≡ None }
    {
        NoteMap {
            list: NearList::new(alloc),
            wide: IndexMap::new(alloc),
            changed: 0,
            viewed: 0,
        }
    }

    /// Where the note of a subobject is listed, if it is: beside one of the notes that changed last, or else by a search.
    #[inline(always)]
    fn index_of(&self, at: u64, class: u32) -> Option<usize>
        ensures { MatchOption result
            (find (is_near_at at class) self.now.list.items.items ≡ None)
            (λ index. (index < length self.now.list.items.items) × (find (is_near_at at class) self.now.list.items.items ≡ slice_get self.now.list.items.items index)) }
    {
        let changed = self.changed;
        if self.list.stands_at(changed, at, class) {
            return Some(changed);
        }
        let earlier = changed.saturating_sub(1);
        if self.list.stands_at(earlier, at, class) {
            return Some(earlier);
        }
        let later = changed.saturating_add(1);
        if self.list.stands_at(later, at, class) {
            return Some(later);
        }
        let viewed = self.viewed;
        if self.list.stands_at(viewed, at, class) {
            return Some(viewed);
        }
        self.list.index_of(at, class)
    }

    /// The note of a subobject.
    pub fn get(&self, at: u64, class: u32) -> Option<Note>
        ensures { result ≡ mapped_note self.now at class }
    {
        match self.index_of(at, class) {
            Some(index) => Some(wide_note(self.list.items[index])),
            None => self.wide.get(&Place { at, class }).copied(),
        }
    }

    /// Puts a note of a subobject that has none.
    ///
    /// Errors: want of memory; then all is as before.
    pub fn insert(&mut self, at: u64, class: u32, note: Note) -> Result<(), NoMemory>
        requires { mapped_note self.old at class ≡ None }
        ensures ok { OnOk result (IsNoteChanged (λ before. Some note) self.old self.new at class) }
        ensures err { OnErr result ((a c : ℕ) → mapped_note self.new a c ≡ mapped_note self.old a c) }
    {
        if let Some(short) = short_note(at, class, note) {
            if let Some(index) = self.list.place_of(short) {
                self.list.insert(index, short)?;
                self.changed = index;
                return Ok(());
            }
        }
        self.wide.insert(Place { at, class }, note)?;
        Ok(())
    }

    /// Puts a subobject into a phase, if it is noted. It takes no memory.
    pub fn set_phase(&mut self, at: u64, class: u32, phase: Phase)
        ensures { IsNoteChanged (phased_note phase) self.old self.new at class }
    {
        if let Some(index) = self.index_of(at, class) {
            let short = self.list.items[index];
            let what = NoteState {
                phase,
                is_own_view: short.what.is_own_view,
            };
            self.list
                .change(index, short.other_class, short.distance, what);
            self.changed = index;
            return;
        }
        if let Some(note) = self.wide.get_mut(&Place { at, class }) {
            note.phase = phase;
        }
    }

    /// Notes whether a subobject is the view of itself, if it is noted. It takes no memory.
    pub fn mark(&mut self, at: u64, class: u32, is_own_view: bool)
        ensures { IsNoteChanged (marked_note is_own_view) self.old self.new at class }
    {
        if let Some(index) = self.index_of(at, class) {
            let short = self.list.items[index];
            let what = NoteState {
                phase: short.what.phase,
                is_own_view,
            };
            self.list
                .change(index, short.other_class, short.distance, what);
            self.viewed = index;
            return;
        }
        if let Some(note) = self.wide.get_mut(&Place { at, class }) {
            note.is_own_view = is_own_view;
        }
    }
}
