//! Views by complete objects, in as few bytes as they fit.

ghost use Rattle.std.specs.Prelude.{◌≡◌, ℕ, ◌<◌, None, true, false, is_some, OnOk, OnErr, IfOk, IfSome};
ghost use Rattle.indexmap.specs.IndexMap.{get_by};
ghost use Rattle.byte_shadow.specs.Meaning.{same_place, wide_view, short_found, view_found, IsViewPut};

use crate::near_list::{NearList, NearPlace};
use crate::note::Place;
use foundation::NoMemory;
use indexmap::IndexMap;
use std::alloc::Global;

/// The views of complete objects, by their places: those of small numbers, set not far before the last one, in a list of 12 bytes
/// each, and all others in a map, where both places have 32 bytes together. What the map has counts before what is listed.
#[derive(Drop)]
pub struct ViewMap {
    list: NearList<()>,
    wide: IndexMap<Place, Place>,
}

/// A view of a complete object in 12 bytes, if its numbers are small. The other place is that of the view, which lies at the
/// complete object or behind it.
fn short_view(owner: Place, view: Place) -> Option<NearPlace<()>>
    ensures { IfSome result (λ short. (short.at ≡ owner.at) × (short.class ≡ owner.class) × (wide_view short ≡ view)) }
{
    if view.at < owner.at {
        return None;
    }
    Some(NearPlace {
        at: u32::try_from(owner.at).ok()?,
        class: u16::try_from(owner.class).ok()?,
        other_class: u16::try_from(view.class).ok()?,
        distance: u16::try_from(view.at - owner.at).ok()?,
        what: (),
    })
}

/// The view that a short one stands for.
fn wide_view(short: NearPlace<()>) -> Place
    ensures { result ≡ wide_view short }
{
    Place {
        at: short.at as u64 + short.distance as u64,
        class: short.other_class as u32,
    }
}

impl ViewMap {
    /// No views. It takes no memory.
    pub fn new(alloc: Global) -> ViewMap
        ensures { (at class : ℕ) → view_found result at class ≡ None }
    {
        ViewMap {
            list: NearList::new(alloc),
            wide: IndexMap::new(alloc),
        }
    }

    /// The view that is listed of a complete object.
    fn listed(&self, owner: Place) -> Option<Place>
        ensures { result ≡ short_found self.now owner.at owner.class }
    {
        let index = self.list.index_of(owner.at, owner.class)?;
        Some(wide_view(self.list.items[index]))
    }

    /// The view of a complete object.
    pub fn get(&self, owner: Place) -> Option<Place>
        ensures { result ≡ view_found self.now owner.at owner.class }
    {
        match self.wide.get(&owner) {
            Some(view) => Some(*view),
            None => self.listed(owner),
        }
    }

    /// Whether the map has a view of a complete object.
    fn is_wide(&self, owner: Place) -> bool
        ensures { result ≡ is_some (get_by (same_place owner) self.now.wide) }
    {
        self.wide.contains_key(&owner)
    }

    /// Lists a view, if the map has none of its complete object, its numbers are small, and its place is near the end, and tells
    /// whether it did.
    ///
    /// Errors: want of memory; then all is as before.
    fn list_view(&mut self, owner: Place, view: Place) -> Result<bool, NoMemory>
        ensures put { IfOk result (λ done. done ≡ true → IsViewPut self.old self.new owner view) }
        ensures left { IfOk result (λ done. done ≡ false → (a c : ℕ) → view_found self.new a c ≡ view_found self.old a c) }
        ensures err { OnErr result ((a c : ℕ) → view_found self.new a c ≡ view_found self.old a c) }
    {
        if self.is_wide(owner) {
            return Ok(false);
        }
        match short_view(owner, view) {
            Some(short) => {
                let done = self.list.put(short)?;
                Ok(done)
            }
            None => Ok(false),
        }
    }

    /// Makes a place the view of a complete object.
    ///
    /// Errors: want of memory; then all is as before.
    pub fn set(&mut self, owner: Place, view: Place) -> Result<(), NoMemory>
        ensures ok { OnOk result (IsViewPut self.old self.new owner view) }
        ensures err { OnErr result ((a c : ℕ) → view_found self.new a c ≡ view_found self.old a c) }
    {
        if self.list_view(owner, view)? {
            return Ok(());
        }
        self.wide.insert(owner, view)?;
        Ok(())
    }
}
