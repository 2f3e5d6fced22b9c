//! Answers that are looked up first, and worked out where they are not there yet.

ghost use Rattle.std.specs.Prelude.{◌≡◌, Some, IfOk, OnOk, find};
ghost use Rattle.cxx_hierarchy.specs.declared.records.ClassId.{ClassId};
ghost use Rattle.cxx_hierarchy.specs.Classes.{Classes};
ghost use Rattle.cxx_subobject.specs.declared.Root.TheVariants.{Whole};
ghost use Rattle.cxx_subobject.specs.declared.Subobject.{Subobject};
ghost use Rattle.cxx_subobject.specs.Subobjects.{class_of, is_of_class};
ghost use Rattle.cxx_subobject.specs.Preorder.{preorder};
ghost use Rattle.cxx_search.specs.Searches.{is_within, cast_in, final_in};
ghost use Rattle.cxx_overrider.specs.Overriding.{IsVirtual};
ghost use Rattle.path_tables.specs.Parts.{IsNumbered, IsPartList, number_where_found, numbered_overrider, derived_in};
ghost use Rattle.path_tables.specs.Kept.{IsDownAnswer};
ghost use Rattle.path_tables.specs.Asked.{AreAnswers, IsListed};
ghost use Rattle.path_tables.specs.Worlds.{IsWorld};

use crate::answers::{
    base_copied, cast_number, down_number, final_answer, shared_down, within_answer,
};
use crate::finals::FinalAt;
use crate::kept::{
    CastKey, CastTable, DownKey, DownTable, FinalKey, FinalTable, WithinKey, WithinTable,
};
use crate::lists::ListTable;
use crate::parts::PartList;
use crate::ways::{below_first, path_at};
use crate::world::World;
use cxx_hierarchy::ClassId;
use cxx_overrider::FunctionId;
use cxx_subobject::{Root, Subobject};
use foundation::NoMemory;
use std::alloc::Global;

/// What was answered so far, for all classes.
#[derive(Drop)]
pub struct Answers {
    pub lists: ListTable,
    pub casts: CastTable,
    pub finals: FinalTable,
    pub withins: WithinTable,
    pub downs: DownTable,
}

impl Answers {
    /// No answer yet, which takes no memory.
    pub fn new(alloc: Global) -> Answers
        ensures { (h : Classes) → AreAnswers h result }
    {
        Answers {
            lists: ListTable::new(alloc),
            casts: CastTable::new(alloc),
            finals: FinalTable::new(alloc),
            withins: WithinTable::new(alloc),
            downs: DownTable::new(alloc),
        }
    }

    /// Where a cast to a class leads from a subobject in a view, each by its number in an object of class c (ISO C++03 5.2.7
    /// p8). None: it leads nowhere.
    ///
    /// Errors: want of memory.
    pub fn cast(
        &mut self,
        alloc: Global,
        world: &World,
        c: ClassId,
        view: u32,
        source: u32,
        target: ClassId,
    ) -> Result<Option<u32>, NoMemory>
        requires world { IsWorld world.now }
        requires answers { AreAnswers world.now.h.now self.old }
        ensures answers { AreAnswers world.now.h.now self.new }
        ensures is { IfOk result (λ answer. (x y : Subobject) → IsNumbered world.now.h.now c view x → IsNumbered world.now.h.now c source y → answer ≡ number_where_found world.now.h.now c (cast_in world.now.h.now target x y)) }
    {
        let key = CastKey {
            class: c.0,
            view,
            source,
            target: target.0,
        };
        if let Some(answer) = self.casts.find(key) {
            return Ok(answer);
        }
        self.lists.make(alloc, world.h, world.numbers, c)?;
        let answer = cast_number(world.h, self.lists.list(c), key);
        self.casts.keep(key, answer)?;
        Ok(answer)
    }

    /// The final overrider of a virtual function of the source's class in a view, with the number of its subobject, in an
    /// object of class c (ISO C++03 10.3 p2, 12.7 p3). None: the source does not lie in the view.
    ///
    /// Errors: want of memory.
    pub fn final_overrider(
        &mut self,
        alloc: Global,
        world: &World,
        c: ClassId,
        view: u32,
        source: u32,
        f: FunctionId,
    ) -> Result<Option<FinalAt>, NoMemory>
        requires world { IsWorld world.now }
        requires answers { AreAnswers world.now.h.now self.old }
        ensures answers { AreAnswers world.now.h.now self.new }
        ensures is { IfOk result (λ answer. (x y : Subobject) → IsNumbered world.now.h.now c view x → IsNumbered world.now.h.now c source y → class_of y ≡ Some f.class → IsVirtual world.now.h.now f → answer ≡ numbered_overrider world.now.h.now c (final_in world.now.h.now x y f)) }
    {
        let key = FinalKey {
            class: c.0,
            view,
            source,
            owner: f.class.0,
            index: f.index,
        };
        if let Some(answer) = self.finals.find(key) {
            return Ok(answer);
        }
        self.lists.make(alloc, world.h, world.numbers, c)?;
        let answer = final_answer(alloc, world, self.lists.list(c), key)?;
        self.finals.keep(key, answer)?;
        Ok(answer)
    }

    /// Whether the subobject y lies in the subobject x, each by its number in an object of class c.
    ///
    /// Errors: want of memory.
    pub fn is_within(
        &mut self,
        alloc: Global,
        world: &World,
        c: ClassId,
        x: u32,
        y: u32,
    ) -> Result<bool, NoMemory>
        requires world { IsWorld world.now }
        requires answers { AreAnswers world.now.h.now self.old }
        ensures answers { AreAnswers world.now.h.now self.new }
        ensures is { IfOk result (λ answer. (s t : Subobject) → IsNumbered world.now.h.now c x s → IsNumbered world.now.h.now c y t → answer ≡ is_within world.now.h.now s t) }
    {
        world.h.keeps();
        if x == y {
            return Ok(true);
        }
        if x == 0 {
            return Ok(true);
        }
        let key = WithinKey {
            class: c.0,
            outer: x,
            inner: y,
        };
        if let Some(answer) = self.withins.find(key) {
            return Ok(answer);
        }
        self.lists.make(alloc, world.h, world.numbers, c)?;
        let answer = within_answer(world.h, self.lists.list(c), key);
        self.withins.keep(key, answer)?;
        Ok(answer)
    }

    /// The answer under a key of a cast down.
    fn down(&mut self, alloc: Global, world: &World, key: DownKey) -> Result<Option<u32>, NoMemory>
        requires world { IsWorld world.now }
        requires answers { AreAnswers world.now.h.now self.old }
        ensures answers { AreAnswers world.now.h.now self.new }
        ensures is { IfOk result (IsDownAnswer world.now.h.now key) }
    {
        if let Some(answer) = self.downs.find(key) {
            return Ok(answer);
        }
        let c = ClassId(key.class);
        self.lists.make(alloc, world.h, world.numbers, c)?;
        let answer = down_number(world.h, self.lists.list(c), key);
        self.downs.keep(key, answer)?;
        Ok(answer)
    }

    /// The first subobject of the target class whose base i is the source, each by its number in an object of class c (ISO
    /// C++03 5.2.9 p8).
    ///
    /// Errors: want of memory.
    pub fn derived(
        &mut self,
        alloc: Global,
        world: &World,
        c: ClassId,
        source: u32,
        target: ClassId,
        i: &Subobject,
    ) -> Result<Option<u32>, NoMemory>
        requires world { IsWorld world.now }
        requires answers { AreAnswers world.now.h.now self.old }
        ensures answers { AreAnswers world.now.h.now self.new }
        ensures is { IfOk result (λ answer. (y : Subobject) → IsNumbered world.now.h.now c source y → answer ≡ number_where_found world.now.h.now c (derived_in world.now.h.now c target i.now y)) }
    {
        match i.root {
            Root::Whole => match path_at(
                world.h,
                world.numbers,
                target,
                below_first(i.path.as_slice()),
            ) {
                Some(offset) => {
                    let key = DownKey {
                        class: c.0,
                        source,
                        target: target.0,
                        offset,
                    };
                    self.down(alloc, world, key)
                }
                None => Ok(None),
            },
            Root::Shared(v) => {
                self.lists.make(alloc, world.h, world.numbers, c)?;
                Ok(shared_down(world.h, c, self.lists.list(c), source, target, i, v))
            }
        }
    }

    /// The first subobject of class d in an object of class c, its path copied.
    ///
    /// Errors: want of memory.
    pub fn first_base(
        &mut self,
        alloc: Global,
        world: &World,
        c: ClassId,
        d: ClassId,
    ) -> Result<Option<Subobject>, NoMemory>
        requires world { IsWorld world.now }
        requires answers { AreAnswers world.now.h.now self.old }
        ensures answers { AreAnswers world.now.h.now self.new }
        ensures is { IfOk result (λ base. base ≡ find (is_of_class d) (preorder world.now.h.now c)) }
    {
        self.lists.make(alloc, world.h, world.numbers, c)?;
        base_copied(alloc, world.h, c, self.lists.list(c), d)
    }

    /// Makes the list of the subobjects of a class, if it was not made before.
    ///
    /// Errors: want of memory.
    pub fn list(&mut self, alloc: Global, world: &World, c: ClassId) -> Result<(), NoMemory>
        requires world { IsWorld world.now }
        requires answers { AreAnswers world.now.h.now self.old }
        ensures answers { AreAnswers world.now.h.now self.new }
        ensures there { OnOk result (IsListed self.new c) }
    {
        self.lists.make(alloc, world.h, world.numbers, c)?;
        Ok(())
    }

    /// The subobjects of a class in preorder, with their numbers, of which the list was made.
    pub fn listed(&self, c: ClassId) -> &PartList
        requires { IsListed self.now c }
        ensures { (h : Classes) → AreAnswers h self.now → IsPartList h c result.now }
    {
        self.lists.list(c)
    }
}
