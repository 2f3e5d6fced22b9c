//! The virtual bases of a class, in the order in which they are built, with their offsets (ISO C++03 12.6.2 p5).

ghost use Rattle.std.specs.Prelude.{◌≡◌, ◌+◌, ◌≤◌, ◌<◌, [], All, IfOk, OnOk, length};
ghost use Rattle.std.specs.List.{flat_map};
ghost use Rattle.cxx_hierarchy.specs.declared.records.ClassId.{ClassId};
ghost use Rattle.cxx_hierarchy.specs.declared.records.Base.{Base};
ghost use Rattle.path_numbers.specs.Sizes.{sizes_of};
ghost use Rattle.path_numbers.specs.Numbers.{AreNumberRows};
ghost use Rattle.path_numbers.specs.invariants.Sharing.{met, meet_all, brings, IsSharing, HasRoom};

use crate::numbers::{ClassNumbers, row_at};
use cxx_hierarchy::{Base, ClassId, Hierarchy};
use foundation::NoMemory;
use std::alloc::Global;

/// The virtual bases that were met so far.
#[derive(Drop)]
pub struct Sharing {
    /// Where the first one stands.
    pub start: u32,
    /// The classes in the order in which they were met.
    pub order: Vec<ClassId>,
    /// The offset of each class, and 0 where it was not met.
    pub offsets: Vec<u32>,
    /// Where the next one stands.
    pub end: u32,
}

impl Sharing {
    /// Meets a virtual base: the first time it takes the next place.
    fn meet(&mut self, h: &Hierarchy, rows: &[ClassNumbers], v: ClassId) -> Result<(), NoMemory>
        requires known { v.0 < length rows.now }
        requires places { v.0 < length self.old.offsets.items }
        requires rows { AreNumberRows h.now rows.now }
        requires sharing { IsSharing (sizes_of h.now) self.old }
        requires room { HasRoom (sizes_of h.now) self.old.start (met self.old.order.items v) }
        ensures sharing { OnOk result (IsSharing (sizes_of h.now) self.new) }
        ensures order { OnOk result (self.new.order.items ≡ met self.old.order.items v) }
        ensures start { OnOk result (self.new.start ≡ self.old.start) }
        ensures places { OnOk result (length self.new.offsets.items ≡ length self.old.offsets.items) }
    {
        let place = v.0 as usize;
        if self.offsets[place] == 0 {
            self.order.push(v)?;
            self.offsets[place] = self.end;
            self.end += row_at(rows, v).as_base;
        }
        Ok(())
    }
}

impl Sharing {
    /// Meets all classes of a list, in turn.
    fn meet_all(
        &mut self,
        h: &Hierarchy,
        rows: &[ClassNumbers],
        list: &[ClassId],
    ) -> Result<(), NoMemory>
        requires known { All (λ (v : ClassId). v.0 < length rows.now) list.now }
        requires places { length self.old.offsets.items ≡ length rows.now }
        requires rows { AreNumberRows h.now rows.now }
        requires sharing { IsSharing (sizes_of h.now) self.old }
        requires room { HasRoom (sizes_of h.now) self.old.start (meet_all self.old.order.items list.now) }
        ensures sharing { OnOk result (IsSharing (sizes_of h.now) self.new) }
        ensures order { OnOk result (self.new.order.items ≡ meet_all self.old.order.items list.now) }
        ensures start { OnOk result (self.new.start ≡ self.old.start) }
        ensures places { OnOk result (length self.new.offsets.items ≡ length self.old.offsets.items) }
    {
        for v in list {
            self.meet(h, rows, *v)?;
        }
        Ok(())
    }

    /// Meets what a base brings: the virtual bases of its class, and itself where it is one.
    fn meet_base(
        &mut self,
        h: &Hierarchy,
        rows: &[ClassNumbers],
        base: &Base<ClassId>,
    ) -> Result<(), NoMemory>
        requires known { base.now.class.0 < length rows.now }
        requires places { length self.old.offsets.items ≡ length rows.now }
        requires rows { AreNumberRows h.now rows.now }
        requires sharing { IsSharing (sizes_of h.now) self.old }
        requires room { HasRoom (sizes_of h.now) self.old.start (meet_all self.old.order.items (brings h.now base.now)) }
        ensures sharing { OnOk result (IsSharing (sizes_of h.now) self.new) }
        ensures order { OnOk result (self.new.order.items ≡ meet_all self.old.order.items (brings h.now base.now)) }
        ensures start { OnOk result (self.new.start ≡ self.old.start) }
        ensures places { OnOk result (length self.new.offsets.items ≡ length self.old.offsets.items) }
    {
        h.keeps();
        let row = row_at(rows, base.class);
        self.meet_all(h, rows, row.order.as_slice())?;
        if base.is_virtual {
            self.meet(h, rows, base.class)?;
        }
        Ok(())
    }
}

/// The virtual bases that these direct bases bring, behind what comes before them.
pub(crate) fn shared_of(
    alloc: Global,
    h: &Hierarchy,
    rows: &[ClassNumbers],
    bases: &[Base<ClassId>],
    start: u32,
) -> Result<Sharing, NoMemory>
    requires known { All (λ (base : Base ClassId). base.class.0 < length rows.now) bases.now }
    requires rows { AreNumberRows h.now rows.now }
    requires start { 1 ≤ start }
    requires room { HasRoom (sizes_of h.now) start (meet_all [] (flat_map (brings h.now) bases.now)) }
    ensures sharing { IfOk result (IsSharing (sizes_of h.now)) }
    ensures shape { IfOk result (λ s. (s.order.items ≡ meet_all [] (flat_map (brings h.now) bases.now)) × (s.start ≡ start) × (length s.offsets.items ≡ length rows.now)) }
{
    let mut sharing = Sharing {
        start,
        order: Vec::new(alloc),
        offsets: vec![in alloc; 0; rows.len()]?,
        end: start,
    };
    for base in bases {
        sharing.meet_base(h, rows, base)?;
    }
    Ok(sharing)
}
