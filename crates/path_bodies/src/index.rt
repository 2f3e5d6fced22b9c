//! Where the bodies and the initializers of a program stand.

ghost use Rattle.std.specs.Prelude.{◌≡◌, ◌++◌, ◌∷◌, [], None, List, Option, OnOk, IfOk, option_copied, length, nat_eq, if◌then◌else◌};
ghost use Rattle.cxx_hierarchy.specs.declared.records.ClassId.{ClassId};
ghost use Rattle.cxx_program.specs.declared.program.Owner.TheVariants.{Constructor};
ghost use Rattle.cxx_program.specs.declared.program.TypedInit.{TypedInit};
ghost use Rattle.cxx_program.specs.declared.program.TypedBody.{TypedBody};
ghost use Rattle.cxx_program.specs.declared.program.TypedProgram.{TypedProgram};
ghost use Rattle.path_model.specs.States.{owned_body, is_body, member_init, is_init};
ghost use Rattle.path_bodies.specs.declared.table.MemberKey.{MemberKey};
ghost use Rattle.path_bodies.specs.Places.{place_by_key, first_place, member_key, sets, IsIndexOf};
ghost use Rattle.path_bodies.specs.invariants.Firsts.{first_or, item_at_place, IndexesBodies};

use crate::table::{MemberKey, PlaceTable};
use cxx_hierarchy::ClassId;
use cxx_program::{Owner, TypedBody, TypedInit, TypedProgram};
use foundation::NoMemory;
use std::alloc::Global;

/// The key of what a class declares under a number.
fn key_of(c: ClassId, index: u32) -> MemberKey
    ensures { result ≡ member_key c index }
{
    MemberKey { class: c.0, index }
}

/// Puts the initializers of the constructor of a class, each by its member.
fn put_initializers(table: &mut PlaceTable, c: ClassId, inits: &[TypedInit]) -> Result<(), NoMemory>
    ensures { OnOk result ((q : MemberKey) → place_by_key table.new q ≡ first_or (place_by_key table.old q) (if nat_eq q.class c.0 then first_place (sets q.index) inits.now else None)) }
{
    for (place, init) in inits.iter().enumerate() {
        table.put_first(key_of(c, init.member), place)?;
    }
    Ok(())
}

/// The item at a place that may be there.
fn item_at<T>(items: &[T], place: Option<usize>) -> Option<&T>
    ensures { option_copied result ≡ item_at_place items.now place }
{
    match place {
        None => None,
        Some(place) => items.get(place),
    }
}

/// The places of the bodies of a program by their owners, and of the initializers of constructors by class and member.
#[derive(Drop)]
pub struct BodyIndex {
    pub(crate) functions: PlaceTable,
    pub(crate) constructors: PlaceTable,
    pub(crate) destructors: PlaceTable,
    pub(crate) inits: PlaceTable,
    pub(crate) has_main: bool,
}

impl BodyIndex {
    /// The index of a program.
    ///
    /// Errors: want of memory.
    pub fn new(alloc: Global, program: &TypedProgram) -> Result<BodyIndex, NoMemory>
        ensures { IfOk result (IsIndexOf program.now) }
    {
        let mut index = BodyIndex {
            functions: PlaceTable::new(alloc),
            constructors: PlaceTable::new(alloc),
            destructors: PlaceTable::new(alloc),
            inits: PlaceTable::new(alloc),
            has_main: program.main.is_some(),
        };
        index.add_all(program.bodies.as_slice())?;
        Ok(index)
    }

    /// Takes in all bodies, in their order.
    fn add_all(&mut self, bodies: &[TypedBody]) -> Result<(), NoMemory>
        ensures bodies { OnOk result (IndexesBodies [] self.old → IndexesBodies bodies.now self.new) }
        ensures main { OnOk result (self.new.has_main ≡ self.old.has_main) }
    {
        for (place, body) in bodies.iter().enumerate() {
            self.add(place, body)?;
        }
        Ok(())
    }

    /// Takes in the body behind those before it.
    fn add(&mut self, place: usize, body: &TypedBody) -> Result<(), NoMemory>
        ensures bodies { OnOk result ((bodies : List TypedBody) → IndexesBodies bodies self.old → place ≡ length bodies → IndexesBodies (bodies ++ body.now ∷ []) self.new) }
        ensures main { OnOk result (self.new.has_main ≡ self.old.has_main) }
    {
        match body.owner {
            Owner::Main => Ok(()),
            Owner::Function(f) => {
                self.functions.put_first(key_of(f.class, f.index), place)?;
                Ok(())
            }
            Owner::Destructor(c) => {
                self.destructors.put_first(key_of(c, 0), place)?;
                Ok(())
            }
            Owner::Constructor(c) => {
                self.add_constructor(place, c, body.inits.as_slice())?;
                Ok(())
            }
        }
    }

    /// Takes in a constructor with its initializers, unless its class has one already.
    fn add_constructor(
        &mut self,
        place: usize,
        c: ClassId,
        inits: &[TypedInit],
    ) -> Result<(), NoMemory>
        ensures bodies { OnOk result ((bodies : List TypedBody) (body : TypedBody) → body.owner ≡ Constructor c → body.inits ≡ inits.now → IndexesBodies bodies self.old → place ≡ length bodies → IndexesBodies (bodies ++ body ∷ []) self.new) }
        ensures main { OnOk result (self.new.has_main ≡ self.old.has_main) }
    {
        if self.constructors.find(key_of(c, 0)).is_none() {
            self.constructors.put_first(key_of(c, 0), place)?;
            put_initializers(&mut self.inits, c, inits)?;
        }
        Ok(())
    }

    /// The body of an owner.
    pub fn body<'p>(&self, program: &'p TypedProgram, owner: Owner) -> Option<&'p TypedBody>
        requires { IsIndexOf program.now self.now }
        ensures { option_copied result ≡ owned_body program.now owner }
    {
        match owner {
            Owner::Main => program.main.as_ref(),
            Owner::Function(f) => item_at(
                program.bodies.as_slice(),
                self.functions.find(key_of(f.class, f.index)),
            ),
            Owner::Constructor(c) => item_at(
                program.bodies.as_slice(),
                self.constructors.find(key_of(c, 0)),
            ),
            Owner::Destructor(c) => item_at(
                program.bodies.as_slice(),
                self.destructors.find(key_of(c, 0)),
            ),
        }
    }

    /// The initializer of a member in the constructor of a class.
    pub fn initializer<'p>(
        &self,
        program: &'p TypedProgram,
        c: ClassId,
        m: u32,
    ) -> Option<&'p TypedInit>
        requires { IsIndexOf program.now self.now }
        ensures { option_copied result ≡ member_init program.now c m }
    {
        match self.body(program, Owner::Constructor(c)) {
            None => None,
            Some(body) => item_at(body.inits.as_slice(), self.inits.find(key_of(c, m))),
        }
    }

    /// Whether an owner has a body.
    pub fn has_body(&self, owner: Owner) -> bool
        ensures { (program : TypedProgram) → IsIndexOf program self.now → result ≡ is_body (owned_body program owner) }
    {
        match owner {
            Owner::Main => self.has_main,
            Owner::Function(f) => self.functions.find(key_of(f.class, f.index)).is_some(),
            Owner::Constructor(c) => self.constructors.find(key_of(c, 0)).is_some(),
            Owner::Destructor(c) => self.destructors.find(key_of(c, 0)).is_some(),
        }
    }

    /// Whether the constructor of a class has an initializer of a member.
    pub fn has_initializer(&self, c: ClassId, m: u32) -> bool
        ensures { (program : TypedProgram) → IsIndexOf program self.now → result ≡ is_init (member_init program c m) }
    {
        self.inits.find(key_of(c, m)).is_some()
    }
}
